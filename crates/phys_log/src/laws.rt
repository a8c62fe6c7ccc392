ghost use Rattle.std.specs.Prelude.{ℕ, ◌≡◌, ◌+◌, ◌≤◌, ◌++◌, ◌∷◌, [], List, length, slice_get, Some, None};
ghost use Rattle.page_store.specs.Image.{blank_image};
ghost use Rattle.phys_log.specs.declared.entries.Entry.{Entry};
ghost use Rattle.phys_log.specs.Logs.{records_in, pages_of, page_at, last_lsn_of, first_lsn, Fits, IsLog};
ghost use Rattle.phys_log.specs.Undone.{later_records, undone, IsLinked, last_on};

/// The law that a log's pages up to a position depend on its first entries alone: whatever stands behind them, the
/// page at a position is the same. At its whole length it is the page of the log.
pub fn first_entries_decide()
    ensures first { (entries more : List Entry) (position id : ℕ) → position ≤ length entries →
        page_at (entries ++ more) position id ≡ page_at entries position id }
    ensures whole { (entries : List Entry) (id : ℕ) → page_at entries (length entries) id ≡ pages_of entries id }
    ensures blank { (entries : List Entry) (id : ℕ) → page_at entries 0 id ≡ blank_image }
{}

/// The law that a log with an entry that fits it is a log, and that each log is made so; its last LSN is the number of
/// its records.
pub fn logs_grow()
    ensures none { IsLog [] }
    ensures more { (entries : List Entry) (entry : Entry) → IsLog entries → Fits entries entry → IsLog (entries ++ entry ∷ []) }
    ensures less { (entries : List Entry) (entry : Entry) → IsLog (entries ++ entry ∷ []) → IsLog entries }
    ensures fits { (entries : List Entry) (entry : Entry) → IsLog (entries ++ entry ∷ []) → Fits entries entry }
    ensures last { (entries : List Entry) → IsLog entries → last_lsn_of entries ≡ length (records_in entries) }
{}

/// The law that undoing the records of a page after a position, newest first, gives the page at that position.
pub fn undoing_gives_the_page_at()
    ensures { (entries : List Entry) (position id : ℕ) → IsLog entries →
        undone (pages_of entries id) (later_records entries position id) ≡ page_at entries position id }
{}

/// The law that the records of a page after a position, newest first, are linked: the first has the LSN of the page,
/// each `prev` is the next one's LSN, and the last `prev` is the LSN of the page at the position, which is that of the
/// page's last record at or before the position, 0 where there is none.
pub fn chains_are_linked()
    ensures linked { (entries : List Entry) (position id : ℕ) → IsLog entries →
        IsLinked (pages_of entries id).lsn (later_records entries position id) (page_at entries position id).lsn }
    ensures lsn { (entries : List Entry) (id : ℕ) → (pages_of entries id).lsn ≡ last_on id (records_in entries) }
{}

/// The law that an entry that fits a log is told apart from every entry of the log by its first LSN.
pub fn first_lsns_tell()
    ensures { (entries : List Entry) (entry other : Entry) (place lsn : ℕ) → IsLog entries → Fits entries entry →
        slice_get entries place ≡ Some other → first_lsn entry ≡ Some lsn → first_lsn other ≡ Some lsn → ⊥ }
{}
