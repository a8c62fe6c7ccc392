ghost use Rattle.std.specs.Prelude as std;
ghost use Rattle.std.specs.Prelude.{ℕ, ◌≡◌, ◌++◌};
ghost use Rattle.page_store.specs.Image.{Image};
ghost use Rattle.phys_log.specs.Logs.{AreNext, replayed, records_in};
ghost use Rattle.log_replay.specs.declared.chains.ChainLink.{ChainLink as Link};
ghost use Rattle.log_replay.specs.Chains.{links_on, chain_from};
ghost use Rattle.log_replay.specs.Kept.{page_in, chain_in, Came, Roomier};

use crate::kept::{KeptPages, undo_at};
use phys_log::{Entry, LogRecord};

/// Takes the edits of records back, the last first, and their links from the ends of the chains.
pub(crate) fn undo_each(pages: &mut KeptPages, records: &[LogRecord])
    requires { Came (page_in pages.old) records.now }
    ensures undone { (base : ℕ → Image) (lsn : ℕ) → AreNext base lsn records.now
        → page_in pages.old ≡ replayed base records.now → page_in pages.new ≡ base }
    ensures unlinked { (base : ℕ → std.List Link) (position : ℕ) →
        ((n : ℕ) → chain_in pages.old n ≡ base n ++ links_on n position records.now) →
        (n : ℕ) → chain_in pages.new n ≡ base n }
    ensures roomy { Roomier pages.old pages.new }
{
    let mut rest = records;
    'back: while let Some((entry, before)) = rest.split_last() {
        undo_at(pages, entry);
        rest = before;
    }
}

/// Takes the edits of entries back, the last first, and their links from the ends of the chains.
pub(crate) fn undo_entries(pages: &mut KeptPages, entries: &[Entry])
    requires { Came (page_in pages.old) (records_in entries.now) }
    ensures undone { (base : ℕ → Image) (lsn : ℕ) → AreNext base lsn (records_in entries.now)
        → page_in pages.old ≡ replayed base (records_in entries.now) → page_in pages.new ≡ base }
    ensures unlinked { (base : ℕ → std.List Link) (position : ℕ) →
        ((n : ℕ) → chain_in pages.old n ≡ base n ++ chain_from n position entries.now) →
        (n : ℕ) → chain_in pages.new n ≡ base n }
    ensures roomy { Roomier pages.old pages.new }
{
    let mut rest = entries;
    'back: while let Some((entry, before)) = rest.split_last() {
        undo_each(pages, entry.records());
        rest = before;
    }
}
