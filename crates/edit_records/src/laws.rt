//! What records of edits leave, and what does not depend on LSNs.
ghost use Rattle.std.specs.Prelude.{ℕ, ◌≡◌, ◌+◌, ◌≤◌, true, List};
ghost use Rattle.page_store.specs.Image.{Image, blank_image};
ghost use Rattle.page_store.specs.declared.edits.Edit.{Edit};
ghost use Rattle.page_workspace.specs.Drafts.{edited_by, AreFit};
ghost use Rattle.page_workspace.specs.Spare.{count_of};
ghost use Rattle.phys_log.specs.Logs.{replayed, AreNext};
ghost use Rattle.cdb_values.specs.Rows.{Rows};
ghost use Rattle.cdb_values.specs.declared.tables.TableDef.{TableDef};
ghost use Rattle.table_store.specs.Stored.{Stands};
ghost use Rattle.edit_records.specs.Alike.{AreAlike};
ghost use Rattle.edit_records.specs.Numbered.{records_behind, IsUnedited, are_below};

/// The law that edits that fit, each over the pages that those before it left, are the next records of these pages.
pub fn records_are_next()
    ensures { (pages : ℕ → Image) (last : ℕ) (edits : List (ℕ × Edit)) → AreFit edits pages →
        AreNext pages (last + 1) (records_behind pages last edits) }
{}

/// The law that records leave the pages that their edits leave, but for the LSNs (`alike`), and that both leave a page
/// that no edit names as it was, with its LSN (`records`, `edits`).
pub fn records_leave_what_edits_leave()
    ensures alike { (pages : ℕ → Image) (last : ℕ) (edits : List (ℕ × Edit)) →
        AreAlike (edited_by edits pages) (replayed pages (records_behind pages last edits)) }
    ensures records { (pages : ℕ → Image) (last : ℕ) (edits : List (ℕ × Edit)) (n : ℕ) → IsUnedited n edits →
        replayed pages (records_behind pages last edits) n ≡ pages n }
    ensures edits { (pages : ℕ → Image) (edits : List (ℕ × Edit)) (n : ℕ) → IsUnedited n edits →
        edited_by edits pages n ≡ pages n }
{}

/// The law that pages that stand for a state stand for it with other LSNs, too, where the pages past the end are blank.
pub fn stands_is_blind_to_lsns()
    ensures { (old new : ℕ → Image) (tables : List TableDef) (rows : Rows) → AreAlike old new →
        ((n : ℕ) → count_of new ≤ n → new n ≡ blank_image) → Stands old tables rows → Stands new tables rows }
{}

/// The law that records leave pages that stand for the same state as the pages that their edits leave, where no edit is
/// one of a page past the end.
pub fn records_stand()
    ensures { (pages : ℕ → Image) (last : ℕ) (edits : List (ℕ × Edit)) (tables : List TableDef) (rows : Rows) →
        Stands (edited_by edits pages) tables rows → are_below (count_of (edited_by edits pages)) edits ≡ true →
        Stands (replayed pages (records_behind pages last edits)) tables rows }
{}
