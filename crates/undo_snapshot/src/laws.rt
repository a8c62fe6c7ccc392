ghost use Rattle.std.specs.Prelude.{ℕ, ◌≡◌, ◌<◌, ◌++◌, List, Some, IsSome, false, length, nat_eq};
ghost use Rattle.page_store.specs.Image.{Image};
ghost use Rattle.phys_log.specs.declared.entries.Entry.{Entry};
ghost use Rattle.phys_log.specs.Logs.{pages_of, page_at};
ghost use Rattle.phys_log.specs.Undone.{undone};
ghost use Rattle.log_replay.specs.declared.grants.Grant.{Grant};
ghost use Rattle.undo_snapshot.specs.Grants.{Speaks};
ghost use Rattle.undo_snapshot.specs.Kept.{kept_page, most_kept, Further};
ghost use Rattle.undo_snapshot.specs.Positions.{most_positions, pages_at, put_pages};

/// The law that undo equals the replay of the first entries: whatever log a grant speaks of, undoing it leaves the page
/// of the first entries; and that is the page at their position in every log that begins with them.
pub fn undoing_gives_the_first_entries()
    ensures undone { (front : List Entry) (id : ℕ) (grant : Grant) → Speaks front id grant →
        undone grant.copy grant.chain ≡ pages_of front id }
    ensures each_log { (front more : List Entry) (id : ℕ) →
        pages_of front id ≡ page_at (front ++ more) (length front) id }
{}

/// The law of kept pages: a page that is kept stays kept while others are used, as long as there are fewer than 256. Pages
/// that were put in the place of a position are found there; those of other positions are too, where there were fewer
/// than 64.
pub fn kept_pages_are_found_again()
    ensures stays { (pages : ℕ → Image) (before now : List (ℕ × Image)) (id : ℕ) → Further pages before now →
        length now < most_kept → IsSome (kept_page before id) → IsSome (kept_page now id) }
    ensures put { (kept : List (ℕ × List (ℕ × Image))) (position : ℕ) (pages : List (ℕ × Image)) →
        pages_at (put_pages kept position pages) position ≡ Some pages }
    ensures others { (kept : List (ℕ × List (ℕ × Image))) (position other : ℕ) (pages : List (ℕ × Image)) →
        nat_eq other position ≡ false → length kept < most_positions →
        pages_at (put_pages kept position pages) other ≡ pages_at kept other }
{}
