//! Codes of values: the bytes that stand for the values of a key or of a row.
//!
//! A code of values is the codes of the values in order, one behind the other, and nothing else. Each begins with a tag
//! for the value's kind; numbers are big-endian:
//!
//! | Value | In a key | In a row |
//! |---|---|---|
//! | NULL | `00` | `00` |
//! | integer | `01`, then 8 bytes with the sign bit flipped | `01`, then 8 bytes in two's complement |
//! | text | `02`, then the bytes with each `00` as `00 FF`, then `00 00` | `02`, then the length in 4 bytes, then the bytes |
//! | blob | `03`, then as a text | `03`, then as a text |
//!
//! The key of the text `a` and the character NUL, of NULL and of the integer 1 reads, with its parts set apart,
//!
//! ```text
//! 02  61  00 FF  00 00    00    01  80 00 00 00 00 00 00 01
//! ```
//!
//! Here `02` begins a text, `61` is its `a`, `00 FF` its NUL, and `00 00` its end; `00` is NULL; and `01` begins an
//! integer, whose 8 bytes are 2^63 + 1.
//!
//! Three things hold of all values, whatever reads or writes them, and are laws over the definitions alone:
//!
//! - A code tells its values, once their number is known: it begins no other code of as many values. So what stands
//!   behind a code can be told too (`key_codes_tell`, `row_codes_tell`).
//! - The byte order of key codes is the order of the lists of values, value by value, in both directions: what escapes
//!   a byte `00`, `FF`, comes behind what ends a text, `00` (`key_codes_keep_order`).
//! - A code is as long as the definition of a good state counts it (`codes_have_their_sizes`).
//!
//! A decoder gives the values exactly where the bytes are their code. It finds none where bytes are left over, where a
//! text is not UTF-8, where a byte `00` of a text is followed by anything but `00` or `FF`, and at an unknown tag.
#![tactic(auto)]

mod escapes;
mod keys;
mod laws;
mod numbers;
mod reads;
mod rows;
mod sizes;

pub use cdb_values::Value;
pub use keys::{decode_key, encode_key};
pub use laws::{codes_have_their_sizes, key_codes_keep_order, key_codes_tell, row_codes_tell};
pub use rows::{decode_row, encode_row};
pub use sizes::{key_size, row_size};
