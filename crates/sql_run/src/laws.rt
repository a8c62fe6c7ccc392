//! What every text of SQL leaves and is answered by.
ghost use Rattle.sql_run.specs.Sound.{LeavesSoundOps};
ghost use Rattle.sql_run.specs.Spelled.{RepliesBySuchRows, LeavesSuchRows};

/// Over rows of values that can be told each text leaves operations that write such rows (`ops`): a text is UTF-8, and a blob
/// is of bytes. That an integer has 64 bits is said of the code's values by their type. Where the tables have a column or more
/// each, it is answered by rows of the grammar of reports (`replies`), which have a value.
///
/// The text has to be UTF-8.
#[tactic(auto, using(crate::proofs::RowLaws::replies_by_such_rows, crate::proofs::RowLaws::leaves_such_rows))]
pub fn sql_keeps_rows()
    ensures replies { RepliesBySuchRows }
    ensures ops { LeavesSuchRows }
{}

/// Over sound rows, and behind sound operations, each text leaves sound operations: each is on a table that is there,
/// writes a row that fits it, and takes away a version by a genid below the next one.
///
/// No two columns of a table may have one name.
#[tactic(auto, using(crate::proofs::SoundLaws::leaves_sound_ops))]
pub fn sql_leaves_sound_operations()
    ensures { LeavesSoundOps }
{}
