//! Laws of sound logs.
ghost use Rattle.std.specs.Prelude.{ℕ, ◌≡◌, ◌≤◌, ◌<◌, ◌^◌, ◌++◌, ◌∷◌, [], List, Some, drop, length};
ghost use Rattle.std.specs.List.{AllByRecursion};
ghost use Rattle.cdb_values.specs.Good.{AllFit};
ghost use Rattle.cdb_values.specs.Rows.{Rows, no_rows};
ghost use Rattle.cdb_values.specs.declared.tables.TableDef.{TableDef};
ghost use Rattle.page_workspace.specs.Spare.{count_of};
ghost use Rattle.phys_log.specs.Logs.{pages_of};
ghost use Rattle.phys_log.specs.declared.entries.CommitId.{CommitId};
ghost use Rattle.phys_log.specs.declared.entries.Entry.{Entry};
ghost use Rattle.log_replay.specs.Answers.{schema_of};
ghost use Rattle.log_rows.specs.History.{rows_of, tables_of, IsCommit, StandsThroughout};
ghost use Rattle.log_rows.specs.Setups.{IsSetup};
ghost use Rattle.table_store.specs.Listings.{IsAmong};
ghost use Rattle.table_store.specs.Stored.{Stands};
ghost use Rattle.table_state.specs.States.{HasState};
ghost use Rattle.sound_log.specs.Identities.{ids_of, ids_in, AreApart};
ghost use Rattle.sound_log.specs.Sound.{IsBegunIn, IsSound};

use log_rows::{entries_stand, logs_keep_their_schema};
use table_store::pages_that_stand_keep_their_keys;

/// The law by which a log begins to be sound, and goes on to be. A log without entries is sound (`none`). So is a setup
/// alone, whose pages stand for its tables without rows (`first`). A sound log that has entries is
/// sound with one more, where this is that of a transaction whose identity is not among theirs and did not begin above the
/// accepted generation, and the pages stand for a good state after it (`more`).
pub fn sound_logs_grow()
    ensures none { (accepted : ℕ) → IsSound accepted [] }
    ensures first { (accepted generation : ℕ) (tables : List TableDef) (entry : Entry) →
        IsSetup generation tables entry →
        Stands (pages_of (entry ∷ [])) tables (no_rows tables) → count_of (pages_of (entry ∷ [])) < 2 ^ 62 →
        IsSound accepted (entry ∷ []) }
    ensures more { (accepted : ℕ) (entries : List Entry) (entry : Entry) (id : CommitId) (rows : Rows) →
        1 ≤ length entries → IsSound accepted entries → ids_of entry ≡ id ∷ [] →
        (IsAmong id (ids_in entries) → ⊥) → id.began ≤ accepted →
        HasState (pages_of (entries ++ entry ∷ [])) (tables_of entries) rows →
        IsSound accepted (entries ++ entry ∷ []) }
{
    logs_keep_their_schema();
    pages_that_stand_keep_their_keys();
}

/// The law that a sound log stays sound where a later generation is accepted.
pub fn sound_logs_stay_sound()
    ensures { (accepted later : ℕ) (entries : List Entry) → accepted ≤ later →
        IsSound accepted entries → IsSound later entries }
{}

/// The law that a sound log stays sound with the entries of a later generation behind it: their identities are apart and
/// began in that generation, and so differ from all before. The first entry of all is a setup, all others are those of
/// transactions, and the pages stand for a good state at the end.
pub fn sound_logs_go_on()
    ensures { (accepted generation : ℕ) (before made : List Entry) (tables : List TableDef) (rows : Rows) →
        accepted < generation → IsSound accepted before → schema_of (before ++ made) ≡ Some tables →
        AllByRecursion IsCommit (drop 1 (before ++ made)) →
        AllByRecursion (IsBegunIn generation) (ids_in made) → AreApart (ids_in made) →
        HasState (pages_of (before ++ made)) tables rows → IsSound generation (before ++ made) }
{}

/// The law that the pages of a log that stand for its rows at each position stand for a good state, where these rows
/// fit their tables at the end, and the next genid and the number of pages are below 2^62.
pub fn standing_logs_have_their_state()
    ensures { (entries : List Entry) → 1 ≤ length entries → StandsThroughout (tables_of entries) entries →
        AllFit (tables_of entries) (rows_of entries).tables → (rows_of entries).next < 2 ^ 62 →
        count_of (pages_of entries) < 2 ^ 62 → HasState (pages_of entries) (tables_of entries) (rows_of entries) }
{
    entries_stand();
    pages_that_stand_keep_their_keys();
}
