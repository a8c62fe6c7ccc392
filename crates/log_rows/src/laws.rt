//! Laws of the rows that entries make.
ghost use Rattle.std.specs.Prelude.{ℕ, ◌≡◌, ◌≤◌, ◌++◌, ◌∷◌, [], List, length, drop, take};
ghost use Rattle.std.specs.List.{AllByRecursion};
ghost use Rattle.cdb_values.specs.Changes.{changes_of};
ghost use Rattle.cdb_values.specs.Rows.{Rows, versions_of, apply_all};
ghost use Rattle.cdb_values.specs.declared.rows.RowOp.{RowOp};
ghost use Rattle.cdb_values.specs.declared.rows.Version.{Version};
ghost use Rattle.cdb_values.specs.declared.tables.TableDef.{TableDef};
ghost use Rattle.phys_log.specs.Logs.{pages_of};
ghost use Rattle.phys_log.specs.declared.entries.Entry.{Entry};
ghost use Rattle.log_replay.specs.Answers.{schema_of};
ghost use Rattle.table_store.specs.Listings.{IsAmong};
ghost use Rattle.table_store.specs.Stored.{Stands};
ghost use Rattle.log_rows.specs.Applied.{apply_changes};
ghost use Rattle.log_rows.specs.History.{Ground, rows_after, rows_over, rows_over_at, takes_of, takes_in, tables_of, StandsOver, IsCommit, IsUntaken};

/// The law that the changes of operations make of the rows what the operations make of them.
pub fn changes_make_the_rows()
    ensures { (rows : Rows) (ops : List RowOp) → apply_changes rows (changes_of ops rows.next) ≡ apply_all rows ops }
{}

/// The law that the pages of a log stand for its rows over a ground at each position from it on, where the log ends at the
/// ground and its pages stand for the rows there, if it has any entry (`begun`); that they go on to do so where they do
/// before an entry, and after it at the end (`more`); and what follows for its first entries (`front`) and its end (`whole`).
pub fn entries_stand()
    ensures begun { (footing : Ground) (tables : List TableDef) (entries : List Entry) → length entries ≡ footing.position →
        (1 ≤ length entries → Stands (pages_of entries) tables footing.rows) → StandsOver footing tables entries }
    ensures more { (footing : Ground) (tables : List TableDef) (entries : List Entry) (entry : Entry) →
        StandsOver footing tables entries →
        Stands (pages_of (entries ++ entry ∷ [])) tables (rows_over footing (entries ++ entry ∷ [])) →
        StandsOver footing tables (entries ++ entry ∷ []) }
    ensures front { (footing : Ground) (tables : List TableDef) (entries more : List Entry) →
        StandsOver footing tables (entries ++ more) → StandsOver footing tables entries }
    ensures whole { (footing : Ground) (tables : List TableDef) (entries : List Entry) → 1 ≤ length entries →
        footing.position ≤ length entries → StandsOver footing tables entries →
        Stands (pages_of entries) tables (rows_over footing entries) }
{}

/// The law that the rows over a ground are those of the ground up to its position (`ground`), that those at a position
/// depend on the first entries alone (`earlier`), that those at the last position are the log's (`whole`), and that an entry
/// more, behind the ground, makes its own of these (`last`).
pub fn rows_grow()
    ensures footing { (footing : Ground) (entries : List Entry) → length entries ≤ footing.position → rows_over footing entries ≡ footing.rows }
    ensures earlier { (footing : Ground) (entries more : List Entry) (k : ℕ) → k ≤ length entries →
        rows_over_at footing (entries ++ more) k ≡ rows_over_at footing entries k }
    ensures whole { (footing : Ground) (entries : List Entry) → rows_over_at footing entries (length entries) ≡ rows_over footing entries }
    ensures last { (footing : Ground) (entries : List Entry) (entry : Entry) → footing.position ≤ length entries →
        rows_over footing (entries ++ entry ∷ []) ≡ rows_after (rows_over footing entries) entry }
{}

/// The law that the schema of a log stays once it has an entry, and that an entry more adds what it takes away at the end.
pub fn logs_keep_their_schema()
    ensures schema { (entries more : List Entry) → 1 ≤ length entries → schema_of (entries ++ more) ≡ schema_of entries }
    ensures tables { (entries more : List Entry) → 1 ≤ length entries → tables_of (entries ++ more) ≡ tables_of entries }
    ensures takes { (entries : List Entry) (entry : Entry) → takes_in (entries ++ entry ∷ []) ≡ takes_in entries ++ takes_of entry ∷ [] }
{}

/// The law that a version of a table that is there at a position over a ground, and that no later entry takes away, is there
/// at the end, with the same row. The later entries are those of transactions.
pub fn untaken_stays()
    ensures { (footing : Ground) (entries : List Entry) (begin table : ℕ) (v : Version) → footing.position ≤ begin →
        AllByRecursion IsCommit (drop begin entries) →
        IsAmong v (versions_of (rows_over_at footing entries begin) table) →
        AllByRecursion (IsUntaken table v.genid) (drop begin (takes_in entries)) →
        IsAmong v (versions_of (rows_over footing entries) table) }
{}
