//! What texts of SQL leave behind can be done on the pages of a store, at a commit too. The crate holds definitions
//! and laws, and no code that runs.
//!
//! | Notion | Definition |
//! |---|---|
//! | live operations: their targets are there, each once | `specs/Live.antt` |
//! | rows whose integers are of 64 bits | `specs/Ranged.antt` |
//! | operations that can be done: live ones, whose rows have codes | `specs/Coded.antt` |
//! | states that texts can be answered on, and what a transaction does to them | `specs/Ready.antt` |
//! | two updates and two deletes behind them, and a genid that stands twice | `specs/Worked.antt` |
//!
//! A worked example. A table has the versions 3 and 5, and the next genid is 6. A transaction updates both rows: its
//! operations take away 3 and 5, with the rows that they had, and each once. A second update of both rows changes
//! what the two operations write, and a delete of both makes two deletes of them; the targets stay 3 and 5. Before
//! the transaction commits, another one inserts a row, which becomes the version 6. The two targets are still there,
//! so the operations can be done on the new state as well. Had the other one deleted the row of 5, they could not.
#![tactic(auto)]

mod facts;
mod laws;

pub use facts::{each_version_is_taken_once, genids_have_to_be_distinct, targets_have_to_stay};
pub use laws::{
    integers_stay_in_64_bits, live_operations_are_doable, live_operations_stay_live,
    rising_genids_are_distinct, rows_of_ready_states_fit, sound_operations_fit, states_stay_ready,
    texts_leave_live_operations, texts_leave_sound_operations, texts_leave_written_texts,
    transactions_can_be_done, transactions_draw_few_genids,
};
