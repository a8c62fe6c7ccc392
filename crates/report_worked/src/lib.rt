//! Worked examples: scripts with their reports, each lawful and in the order of play, and reports that are
//! wrong in one place, each refused by the law that it breaks. The checker computes them, over the
//! language of the statements that run. Nothing stands on this crate.
//!
//! | Notion | Definition |
//! |---|---|
//! | worked scripts and their reports, as data | `specs/Worked.antt` |
//! | reports that are wrong in one place, and the laws that refuse them | `specs/WorkedWrong.antt` |
#![tactic(auto)]

mod facts;

pub use facts::{
    begins_are_fresh, begun_behind_is_not_played, decisions_ahead_are_not_played,
    down_at_first_is_lawful, down_at_nothing_is_not_played, down_late_is_lawful,
    empty_report_is_lawful, entries_are_told_whole, entries_begin_where_they_were_told,
    insert_select_is_lawful, key_again_is_lawful, keys_are_not_called_all, lost_insert_is_lawful,
    open_insert_is_lawful, outcomes_count_from_the_begin, own_writes_are_lawful,
    resumed_report_is_lawful, serial_is_not_played, two_updates_are_lawful,
    wanting_memory_is_played, write_skew_is_refused, wrong_faults_are_refused,
    wrong_insert_selects_are_refused,
};
