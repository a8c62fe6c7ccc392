//! Laws of the first conflict.
ghost use Rattle.std.specs.Prelude.{ℕ, ◌≡◌, ◌+◌, ◌++◌, List, drop, length, map, option_map, Some, None};
ghost use Rattle.cdb_values.specs.declared.items.GenidItem.{GenidItem};
ghost use Rattle.cdb_values.specs.declared.items.Interval.{Interval};
ghost use Rattle.cdb_values.specs.declared.rows.Change.{Change};
ghost use Rattle.cdb_values.specs.declared.rows.Level.TheVariants.{Snapshot};
ghost use Rattle.cdb_values.specs.declared.tables.TableDef.{TableDef};
ghost use Rattle.phys_log.specs.declared.entries.Entry.{Entry};
ghost use Rattle.phys_log.specs.declared.requests.CommitRequest.{CommitRequest};
ghost use Rattle.log_rows.specs.History.{takes_in};
ghost use Rattle.session_language.specs.Touched.{Used, TheVersion, TheRange, first_use, FirstUse};
ghost use Rattle.block_processor.specs.Changed.{changed_in, found_of, AreUnused, IsFirstUse};
ghost use Rattle.block_processor.specs.Conflicts.{conflict_of, conflict_since, AreUntouched, IsFirstSince};
ghost use Rattle.block_processor.specs.Versions.{first_conflict, found_by};
ghost use Rattle.block_processor.specs.declared.conflicts.Found.{Found};

/// The law that where no conflict is found since a begin, no entry after it touches an item that was used (`none`), and that
/// the one that is found is at the first entry after the begin that does, and tells the first item that this touches (`one`).
pub fn conflicts_are_first()
    ensures none { (tables : List TableDef) (begin : ℕ) (entries : List Entry) (genids : List GenidItem) (ranges : List Interval) →
        conflict_since tables begin entries genids ranges ≡ None → AreUntouched tables begin (length entries + 1) entries genids ranges }
    ensures one { (tables : List TableDef) (begin : ℕ) (entries : List Entry) (genids : List GenidItem) (ranges : List Interval) (f : Found) →
        conflict_since tables begin entries genids ranges ≡ Some f → IsFirstSince tables begin entries genids ranges f }
{}

/// The law that at level snapshot versions alone count: the conflict of a request is the first entry after its begin that
/// takes away a version that it used, whatever intervals it read.
pub fn snapshots_use_versions()
    ensures { (request : CommitRequest) (entries : List Entry) → request.level ≡ Snapshot →
        conflict_of request entries ≡ found_by (first_conflict request.begin (drop request.begin (takes_in entries)) request.genids) }
{}

/// The law that nothing of an entry counts but its changes (`same`): the conflict since a begin is the first entry after it whose
/// changes touch something that was used, the versions in order and then the intervals in order. Where none is found, no entry's
/// changes touch such a thing (`none`), and the one that is found is at the first that do (`one`).
pub fn changes_tell_conflicts()
    ensures same { (tables : List TableDef) (begin : ℕ) (entries : List Entry) (genids : List GenidItem) (ranges : List Interval) →
        conflict_since tables begin entries genids ranges ≡ option_map found_of (first_use tables begin (drop begin (changed_in entries)) (map TheVersion genids ++ map TheRange ranges)) }
    ensures none { (tables : List TableDef) (begin : ℕ) (changed : List (List Change)) (used : List Used) →
        first_use tables begin (drop begin changed) used ≡ None → AreUnused tables begin (length changed + 1) changed used }
    ensures one { (tables : List TableDef) (begin : ℕ) (changed : List (List Change)) (used : List Used) (f : FirstUse) →
        first_use tables begin (drop begin changed) used ≡ Some f → IsFirstUse tables begin changed used f }
{}
