//! The values of the database and what is made of them: rows, tables, operations and changes.
//!
//! Everything here is plain data that the crates above share. A list of a compared type is a
//! `List`, `Name`, `Text` or `Bytes`: small types over a `Vec` that contracts see as lists, so
//! that a declared type such as `TableDef` is at once the type that the definitions speak of.
//!
//! | Notion | Code | Definition |
//! |---|---|---|
//! | the order of values: NULL, integers, texts, blobs | `order` | `specs/Order.antt` |
//! | the rows of all tables, and what an operation makes of them | | `specs/Rows.antt` |
//! | a good state: types, NULLs, sizes and keys | | `specs/Good.antt` |
//! | which version an operation takes away, and the row that it writes | `RowOp::takes`, `RowOp::row_written` | `specs/Rows.antt` |
//! | what a transaction sees is what its operations make of the rows | `views_are_applied` | `specs/Views.antt` |
//! | the changes of operations, and the genids that they take and give | `genids_rise` | `specs/Changes.antt` |
//! | two rows with the same values at a key | `KeyDef::has_same_values` | `specs/Good.antt` |
//! | a lawful table, and the limits of a schema | `Schema::add`, `limits` | `specs/Tables.antt` |
//! | a table by its name, and a column by its name | `Schema::named`, `TableDef::column` | `specs/Named.antt`, `specs/Columns.antt` |
//! | what a session is answered | `Reply` | |
#![tactic(auto)]

mod items;
mod laws;
pub mod limits;
mod lists;
mod replies;
mod rows;
mod schemas;
mod tables;
mod values;

pub use byte_lists::{Bytes, Name, Text};
pub use items::{Edge, GenidItem, Interval, Item};
pub use laws::{genids_rise, the_changes_take_what_the_operations_take, views_are_applied};
pub use lists::List;
pub use replies::Reply;
pub use rows::{Change, Level, Row, RowOp, RowRef, StatementError, Version};
pub use schemas::{AddFault, Found, Schema};
pub use tables::{ColumnDef, ColumnType, KeyDef, TableDef};
pub use values::{Value, order};
