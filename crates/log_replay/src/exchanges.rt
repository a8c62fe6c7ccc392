//! Other entries in the place of a log's last ones, as long as it is not settled which of the two stay.
ghost use Rattle.std.specs.Prelude.{◌≡◌, ◌+◌, ◌≤◌, ◌++◌, [], length, take, vec_capacity, vec_len, OnOk, OnErr, IfOk};
ghost use Rattle.phys_log.specs.Logs.{IsLog};
ghost use Rattle.log_replay.specs.Exchanges.{HasLinkRoom};
ghost use Rattle.log_replay.specs.Kept.{IsKept, TellsWhether};

use crate::kept::KeptPages;
use crate::logs::{PagedLog, see_to_blank};
use crate::tails::{put_back, rewrite};
use crate::undoes::undo_entries;
use page_store::{ApplyFault, Page};
use phys_log::Entry;
use std::alloc::Global;
use std::marker::Model;
use std::mem::replace;

/// A log with other entries in the place of its last ones, which are kept aside until it is settled which of the two
/// stay. Neither way takes memory. Contracts see the log before the exchange, and after it.
#[derive(Drop)]
pub struct Exchange {
    entries: Vec<Entry>,
    made: Vec<Entry>,
    pages: KeptPages,
    blank: Option<Page>,
    kept: u64,
}

impl Model for Exchange {
    ghost use Rattle.std.specs.Prelude.{◌+◌, ◌≤◌, ◌++◌, take, vec_capacity, vec_len};
    ghost use Rattle.log_replay.specs.Exchanges.{Exchanged, IsExchanged};

    ghost Value = { Exchanged };

    ghost view = { λ e. record { before = e.entries.items; after = take e.kept e.entries.items ++ e.made.items } };

    ghost invariant = { λ e. IsExchanged e.entries.items e.made.items e.pages e.blank e.kept
        × (vec_len e.entries + vec_len e.made ≤ vec_capacity e.entries) };
}

impl PagedLog {
    /// Puts other entries in the place of those behind the first ones, so many, which are kept aside. The log itself is in
    /// the exchange until that is settled, and this one is empty. After an error it is as before, with its pages and chains;
    /// `Unfit` comes only where the first entries and the others are no log. `NoMemory` comes as in `append`.
    pub fn exchange_tail(
        &mut self,
        alloc: Global,
        kept: u64,
        made: Vec<Entry>,
    ) -> Result<Exchange, ApplyFault>
        requires { kept ≤ length self.old }
        ensures exchanged { IfOk result (λ e.
            e ≡ record { before = self.old; after = take kept self.old ++ made.items }) }
        ensures fits { TellsWhether result (∥ IsLog (take kept self.old ++ made.items) ∥₁) }
        ensures taken { OnOk result (self.new ≡ []) }
        ensures unchanged { OnErr result (self.new ≡ self.old) }
    {
        let PagedLog {
            mut entries,
            mut pages,
            mut blank,
        } = replace(self, PagedLog::new(alloc));
        match write_over(
            alloc,
            &mut entries,
            &mut pages,
            &mut blank,
            kept,
            made.as_slice(),
        ) {
            Ok(()) => Ok(Exchange {
                entries,
                made,
                pages,
                blank,
                kept,
            }),
            Err(why) => {
                *self = PagedLog {
                    entries,
                    pages,
                    blank,
                };
                Err(why)
            }
        }
    }
}

/// Writes entries on the pages of a log over those behind the first ones, so many. Its entries stay as they are, and get
/// room for the others.
fn write_over(
    alloc: Global,
    entries: &mut Vec<Entry>,
    pages: &mut KeptPages,
    blank: &mut Option<Page>,
    kept: u64,
    made: &[Entry],
) -> Result<(), ApplyFault>
    requires within { kept ≤ length entries.old.items }
    requires kept { IsKept entries.old.items pages.old blank.old }
    ensures entries { entries.new.items ≡ entries.old.items }
    ensures space { OnOk result (vec_len entries.new + length made.now ≤ vec_capacity entries.new) }
    ensures made { OnOk result (IsKept (take kept entries.old.items ++ made.now) pages.new blank.new) }
    ensures room { OnOk result (HasLinkRoom entries.old.items pages.new) }
    ensures same { OnErr result (IsKept entries.old.items pages.new blank.new) }
    ensures fits { TellsWhether result (∥ IsLog (take kept entries.old.items ++ made.now) ∥₁) }
{
    if see_to_blank(alloc, blank).is_err() || entries.reserve(made.len()).is_err() {
        return Err(ApplyFault::NoMemory);
    }
    rewrite(alloc, pages, entries.as_slice(), kept, made)
}

impl Exchange {
    /// The log with the others in the place. Takes no memory.
    pub fn settle(self) -> PagedLog
        ensures { result ≡ self.after }
    {
        let Exchange {
            mut entries,
            mut made,
            pages,
            blank,
            kept,
        } = self;
        entries.truncate(kept as usize);
        match entries.append(&mut made) {
            Ok(()) => PagedLog {
                entries,
                pages,
                blank,
            },
            Err(_) => unreachable!(),
        }
    }

    /// The log as it was. Takes no memory.
    pub fn take_back(self) -> PagedLog
        ensures { result ≡ self.before }
    {
        let Exchange {
            entries,
            made,
            mut pages,
            blank,
            kept,
        } = self;
        undo_entries(&mut pages, made.as_slice());
        put_back(&mut pages, entries.as_slice(), kept);
        PagedLog {
            entries,
            pages,
            blank,
        }
    }
}
