//! Laws of the identities of a log.
ghost use Rattle.std.specs.Prelude.{ℕ, ◌≡◌, ◌↔◌, ◌+◌, ◌++◌, ◌∷◌, [], List, length, take};
ghost use Rattle.phys_log.specs.declared.entries.CommitId.{CommitId};
ghost use Rattle.phys_log.specs.declared.entries.Entry.{Entry};
ghost use Rattle.blkseq_table.specs.Known.{up_to, StandsAt, AreApart, AreBelow};
ghost use Rattle.blkseq_table.specs.OfLogs.{known_of, identities_of, HasId};

/// The law by which the identities of a log follow it. An identity stands at a position where the entry there has it
/// (`stands`), and they are apart where no two entries have the same one (`apart`). An entry that is appended brings its
/// own, at the position behind all (`more`, `below`). Those at or below a position are those of so many first entries
/// (`first`).
pub fn identities_follow_the_log()
    ensures stands { (entries : List Entry) (id : CommitId) (position : ℕ) →
        StandsAt (identities_of entries) id position ↔ HasId entries position id }
    ensures apart { (entries : List Entry) → AreApart (identities_of entries) ↔
        ((id : CommitId) (one other : ℕ) → HasId entries one id → HasId entries other id → one ≡ other) }
    ensures more { (entries : List Entry) (entry : Entry) →
        identities_of (entries ++ entry ∷ []) ≡ identities_of entries ++ known_of (length entries + 1) entry }
    ensures below { (entries : List Entry) → AreBelow (identities_of entries) (length entries + 1) }
    ensures first { (entries : List Entry) (position : ℕ) →
        up_to position (identities_of entries) ≡ identities_of (take position entries) }
{}
