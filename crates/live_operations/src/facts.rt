//! Worked facts: what statements take away from two rows (`specs/Worked.antt`).
ghost use Rattle.std.specs.Prelude.{◌≡◌, [], None};
ghost use Rattle.cdb_values.specs.Rows.{apply_all};
ghost use Rattle.sql_answer.specs.Worked.{raise};
ghost use Rattle.live_operations.specs.Live.{AreLive, TakeOthers};
ghost use Rattle.live_operations.specs.Worked.{two, twice, rows, behind, both_updated, delete_all, both_deleted, deleted_twice, one_more, one_less};

/// An update of both rows takes away both versions (`updated`). A delete of both rows behind it makes two deletes of
/// the two updates, and takes away nothing more (`deleted`).
pub fn each_version_is_taken_once()
    ensures updated { behind two [] (raise None) ≡ both_updated }
    ensures deleted { behind two both_updated delete_all ≡ both_deleted }
{}

/// Why no genid may stand twice: else one statement takes it twice (`taken`), and its operations are not live
/// (`refuted`).
pub fn genids_have_to_be_distinct()
    ensures taken { behind twice [] delete_all ≡ deleted_twice }
    ensures refuted { AreLive twice deleted_twice → ⊥ }
{}

/// The two deletes stay live where another transaction adds a row (`more`, `stays`), and not where it takes away one
/// of the two (`less`).
pub fn targets_have_to_stay()
    ensures more { TakeOthers both_deleted one_more }
    ensures stays { AreLive (apply_all rows one_more).tables both_deleted }
    ensures less { AreLive (apply_all rows one_less).tables both_deleted → ⊥ }
{}
