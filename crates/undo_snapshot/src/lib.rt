//! Pages at an earlier position of a log that goes on: a reader takes a grant of a page from whoever has the log now, and
//! undoes what came after its position.
//!
//! A grant is a copy of the page of now, and the page's records after the position, newest first (`log_replay`). Undone
//! one after the other, they leave the page at the position. Two grants may come of different logs, as long as each
//! begins with the same first entries, up to the position:
//!
//! ```text
//! first entries, up to position 2    e1 e2
//! grant of page 0                    e1 e2 e3            copy of page 0, chain: its records in e3
//! grant of page 1                    e1 e2 e3 e4 e5      the log has grown
//! grant of page 7                    e1 e2 f3 f4         another node's, or a tail dropped and written anew
//! ```
//!
//! Nothing is assumed of the time between two grants: a page may have been freed and used again, and the undone page is
//! still that of the first entries, since they alone decide it. `SnapshotPages` gives pages by this way as a `PageSource`:
//!
//! ```text
//! load 0   granted, undone and kept     kept: 0
//! load 1   granted, undone and kept     kept: 1 0
//! load 0   kept: nothing is granted     kept: 0 1
//! ```
//!
//! Who has the log at hand, as a `LogGranter`, copies the page alone and undoes the records where they lie.
//!
//! The 256 pages that were used last are kept. They outlive their `SnapshotPages` where they are taken out as `KeptPages`
//! and handed to the next one over the same first entries. That they are the same, and that the source begins with them, is
//! known by the type of a `FrontPages`, where the source was lent to code that tells nothing of it. Between two sources they
//! stand in `KeptPositions`, in the place of their position:
//!
//! ```text
//! take 2    the pages of 2 go out     2: -         5: 0 7
//! put 2     and come back             2: 0 1 4     5: 0 7
//! take 5                              5: -         2: 0 1 4
//! ```
//!
//! | Notion | Code | Definition |
//! |---|---|---|
//! | what a grant speaks of | `Granter::grant` | `specs/Grants.antt` |
//! | a grant, undone | `Granter::page` | `Undone` of `phys_log` |
//! | records that can be undone, one after the other | | `Chains` of `log_replay` |
//! | the kept pages, and one of them used | `KeptPages` | `specs/Kept.antt` |
//! | what is kept after further uses | `FrontPages` | `Further` of `specs/Kept.antt` |
//! | the kept pages of several positions | `KeptPositions` | `specs/Positions.antt` |
//! | a source of undone pages | `SnapshotPages` | `specs/Snapshots.antt` |
#![tactic(auto)]

mod fronts;
mod granters;
mod kept;
mod laws;
mod positions;
mod snapshots;
mod undoing;

pub use fronts::{Front, FrontPages};
pub use granters::{Granter, LogGranter};
pub use kept::KeptPages;
pub use laws::{kept_pages_are_found_again, undoing_gives_the_first_entries};
pub use positions::KeptPositions;
pub use snapshots::SnapshotPages;
