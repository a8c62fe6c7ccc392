//! The outside world of the database, as traits with a written meaning: where bytes come from and go
//! to, where a node keeps its log, and who is told of changed rows.
//!
//! An object of a trait means what it holds or has left. Where it stands for the real world it may
//! not know, and then tells nothing (`None`); a store always tells.
//!
//! | Trait | It means | Its calls | After a failed call |
//! |---|---|---|---|
//! | `Source` | the bytes that are left | `read` takes some off the front, and none exactly at the end | as before |
//! | `Sink` | the bytes that it took | `write` takes a front of the bytes, at least one | as before |
//! | `LogStore` | the synced and the pending bytes | `append` adds pending bytes, `sync` makes them synced, `read` gives synced ones, `cut` leaves a front of them, `halt` keeps some front of the pending ones | never fewer synced bytes, but by `cut`; a front of what was or was to be pending |
//! | `Consumer` | the events that it took | `offer` adds one | as before |
//!
//! Each object counts its faults. **The count rises exactly in a call that fails: it never falls, and a
//! call that succeeds leaves it.** It is a u64 that stands still at its last value, so a count that has
//! this value after a call that failed counts as one that rose (`Rose`, `HasCause`). An answer above that
//! blames the outside can so be traced to an object that was handed in, and one that hides a call that
//! failed shows in the count. A store counts the calls that write to it too, failed or not, so whoever finds that count as it
//! was knows that nobody wrote.
//!
//! Where bytes are kept, at the calls of a store that held "ab" synced and keeps one pending byte:
//!
//! | Call | Synced | Pending |
//! |---|---|---|
//! | | `ab` | |
//! | `append("cd")` | `ab` | `cd` |
//! | `sync()` | `abcd` | |
//! | `append("ef")` | `abcd` | `ef` |
//! | `halt()` | `abcde` | |
//! | `cut(1)` | `a` | |
//!
//! The objects in memory fail as they are told: `fails` lists the numbers of the calls that fail, from
//! 1 over the calls of the trait that can fail, and a store may be told to stop after so many appended
//! bytes, until it is halted. Otherwise they fail only where they find no memory for their own bytes.
//! `ReadSource` and `WriteSink` stand over a reader and a writer of std. `KeptBytes` is what a store of
//! one's own keeps in memory. `Status` is how a run ended, as the world is told.
#![tactic(auto)]

mod adapters;
mod consumer;
mod faults;
mod fronts;
mod kept;
mod mem_sink;
mod mem_source;
mod mem_store;
mod sink;
mod source;
mod statuses;
mod store;

pub use adapters::{ReadSource, WriteSink};
pub use consumer::{Consumer, RowEvent, Taken};
pub use faults::Failed;
pub use kept::KeptBytes;
pub use mem_sink::MemSink;
pub use mem_source::MemSource;
pub use mem_store::MemStore;
pub use sink::{Sink, write_whole};
pub use source::{Source, SourceStop, read_up_to};
pub use statuses::Status;
pub use store::LogStore;
