ghost use Rattle.std.specs.Prelude.{ℕ, ◌≡◌, ◌++◌, ◌∷◌, [], ◌≤◌, ◌↔◌, length, take, drop, nat_eq, false};
ghost use Rattle.std.specs.Prelude.{OnOk, OnErr, OnSome, IsOk, IfOk, IfErr, IfNone, IfSome};
ghost use Rattle.std.specs.List.Sorted.{IsStrictlyIncreasing};
ghost use Rattle.std.specs.List.{list_any};
ghost use Rattle.std.specs.Option.{option_copied};
ghost use Rattle.page_store.specs.Image.{blank_image};
ghost use Rattle.phys_log.specs.Logs.{pages_of, page_at, Fits, IsLog};
ghost use Rattle.phys_log.specs.Undone.{later_records};
ghost use Rattle.log_replay.specs.Chains.{chain_of};
ghost use Rattle.log_replay.specs.Kept.{page_in, numbers_in, edited_numbers, TellsWhether};
ghost use Rattle.std.specs.BTreeMap.{keys, IsOrdered};
ghost use Rattle.std.specs.Ordering.{nat_cmp};
ghost use Rattle.log_replay.specs.Answers.{TellsFits, entry_back, schema_of, schema_told};

use crate::chains::ChainLink;
use crate::grants::{Grant, later, undo_later};
use crate::kept::{KeptPages, kept_at, lsn_of, no_pages};
use crate::tails::rewrite;
use crate::undoes::undo_entries;
use crate::writes::write_all;
use cdb_values::Schema;
use cdb_values::limits::LSN_LIMIT;
use page_store::{ApplyFault, Page};
use phys_log::{Entry, last_lsn};
use std::alloc::{AllocError, Global};
use std::marker::Model;

/// Why an entry was not appended. It is given back.
#[derive(Drop)]
pub enum AppendFault {
    /// An LSN or a `prev` is not the next one, or an edit does not fit its page as the edits before it left it.
    Unfit(Entry),
    /// Want of memory, or an LSN at or above 2^62.
    NoMemory(Entry),
}

/// A log with the pages that its entries make, by their numbers, and the chains of these pages. Contracts see the list
/// of entries.
#[derive(Drop)]
pub struct PagedLog {
    pub(crate) entries: Vec<Entry>,
    pub(crate) pages: KeptPages,
    /// The page that is lent where none is kept, from the first entry on.
    pub(crate) blank: Option<Page>,
}

impl Model for PagedLog {
    ghost use Rattle.std.specs.Prelude as std;
    ghost use Rattle.phys_log.specs.declared.entries.Entry.{Entry as OneEntry};
    ghost use Rattle.log_replay.specs.Kept.{IsKept};

    ghost Value = { std.List OneEntry };

    ghost view = { λ l. l.entries.items };

    ghost invariant = { λ l. IsKept l.entries.items l.pages l.blank };
}

impl PagedLog {
    /// The log without entries. Takes no memory.
    pub fn new(alloc: Global) -> PagedLog
        ensures { result ≡ [] }
    {
        PagedLog {
            entries: Vec::new(alloc),
            pages: no_pages(alloc),
            blank: None,
        }
    }

    /// Appends an entry and replays it, or gives it back. After an error the log is as before, with its pages and
    /// chains.
    pub fn append(&mut self, alloc: Global, entry: Entry) -> Result<(), AppendFault>
        ensures added { OnOk result (self.new ≡ self.old ++ entry ∷ []) }
        ensures fits { TellsFits result (Fits self.old entry) }
        ensures unchanged { OnErr result (self.new ≡ self.old) }
        ensures given_back { IfErr result (λ f. entry_back f ≡ entry) }
    {
        let last = last_lsn(self.entries.as_slice());
        if last >= LSN_LIMIT {
            return Err(AppendFault::NoMemory(entry));
        }
        if see_to_blank(alloc, &mut self.blank).is_err() || self.entries.reserve(1).is_err() {
            return Err(AppendFault::NoMemory(entry));
        }
        let position = self.entries.len() as u64 + 1;
        match write_all(alloc, &mut self.pages, entry.records(), position, last + 1) {
            Ok(()) => {}
            Err(ApplyFault::Unfit) => return Err(AppendFault::Unfit(entry)),
            Err(ApplyFault::NoMemory) => return Err(AppendFault::NoMemory(entry)),
        }
        match self.entries.push(entry) {
            Ok(()) => Ok(()),
            Err(_) => unreachable!(),
        }
    }

    /// Drops the entries behind the first ones, so many, by undoing their records. It takes no memory, and always
    /// answers `Ok`.
    pub fn drop_tail(&mut self, _alloc: Global, kept: u64) -> Result<(), AllocError>
        requires { kept ≤ length self.old }
        ensures dropped { OnOk result (self.new ≡ take kept self.old) }
        ensures unchanged { OnErr result (self.new ≡ self.old) }
        ensures always { IsOk result }
    {
        let dropped = behind(self.entries.as_slice(), kept);
        undo_entries(&mut self.pages, dropped);
        self.entries.truncate(kept as usize);
        Ok(())
    }

    /// Puts other entries in the place of those behind the first ones, so many, whose records are undone. After an error
    /// the log is as before, with its pages and chains; `Unfit` comes only where the first entries and the others are no
    /// log. `NoMemory` comes as in `append`.
    pub fn replace_tail(
        &mut self,
        alloc: Global,
        kept: u64,
        entries: Vec<Entry>,
    ) -> Result<(), ApplyFault>
        requires { kept ≤ length self.old }
        ensures replaced { OnOk result (self.new ≡ take kept self.old ++ entries.items) }
        ensures fits { TellsWhether result (∥ IsLog (take kept self.old ++ entries.items) ∥₁) }
        ensures unchanged { OnErr result (self.new ≡ self.old) }
    {
        let mut entries = entries;
        if see_to_blank(alloc, &mut self.blank).is_err()
            || self.entries.reserve(entries.len()).is_err()
        {
            return Err(ApplyFault::NoMemory);
        }
        let log = self.entries.as_slice();
        rewrite(alloc, &mut self.pages, log, kept, entries.as_slice())?;
        self.entries.truncate(kept as usize);
        match self.entries.append(&mut entries) {
            Ok(()) => Ok(()),
            Err(_) => unreachable!(),
        }
    }

    /// A page as it is now, and its records after a position, newest first. The error is want of memory.
    pub fn grant(&self, alloc: Global, page: u64, position: u64) -> Result<Grant, AllocError>
        requires { position ≤ length self.now }
        ensures copy { IfOk result (λ g. g.copy ≡ pages_of self.now page) }
        ensures chain { IfOk result (λ g. g.chain ≡ later_records self.now position page) }
        // so that undoing the one on the other gives the page at the position
        ensures logged { OnOk result (IsLog self.now) }
    {
        let chain = later(alloc, self.entries.as_slice(), self.chain(page), position)?;
        let copy = self.copy_of(alloc, page)?;
        Ok(Grant { copy, chain })
    }

    /// A page at a position: one copy of the page as it is now, on which its records after the position are undone where
    /// they lie. The error is want of memory.
    pub fn page_at(&self, alloc: Global, page: u64, position: u64) -> Result<Page, AllocError>
        requires { position ≤ length self.now }
        ensures page { IfOk result (λ p. p ≡ page_at self.now position page) }
        ensures logged { OnOk result (IsLog self.now) }
    {
        let mut copy = self.copy_of(alloc, page)?;
        undo_later(
            &mut copy,
            self.entries.as_slice(),
            self.chain(page),
            position,
        );
        Ok(copy)
    }

    /// A copy of a page as it is now.
    fn copy_of(&self, alloc: Global, page: u64) -> Result<Page, AllocError>
        ensures { IfOk result (λ p. p ≡ pages_of self.now page) }
    {
        match self.page(page) {
            Some(kept) => kept.copy(),
            None => Page::blank(alloc),
        }
    }

    /// The entries. Takes no memory.
    pub fn entries(&self) -> &[Entry]
        ensures { result.now ≡ self.now }
    {
        self.entries.as_slice()
    }

    /// The schema of the first entry, where it is one. Takes no memory.
    pub fn schema(&self) -> Option<&Schema>
        ensures { option_copied result ≡ schema_of self.now }
    {
        match self.entries.first() {
            Some(entry) => schema_in(entry),
            None => None,
        }
    }

    /// A page as it is now; none exactly where no record edited it, and it is blank then. Takes no memory.
    pub fn page(&self, id: u64) -> Option<&Page>
        ensures page { IfSome result (λ p. p.now ≡ pages_of self.now id) }
        ensures blank { IfNone result (pages_of self.now id ≡ blank_image) }
        ensures unedited { IfNone result (later_records self.now 0 id ≡ []) }
        ensures edited { OnSome result (later_records self.now 0 id ≡ [] → ⊥) }
    {
        edited_page(&self.pages, id)
    }

    /// A blank page, where one is kept. Takes no memory.
    pub(crate) fn blank_page(&self) -> Option<&Page>
        ensures { IfSome result (λ p. p.now ≡ blank_image) }
    {
        self.blank.as_ref()
    }

    /// The numbers of the pages that a record edited, rising. Each other page is blank. The error is want of memory.
    pub fn edited(&self, alloc: Global) -> Result<Vec<u64>, AllocError>
        ensures rising { IfOk result (λ v. IsStrictlyIncreasing v.items) }
        ensures others { IfOk result (λ v. (id : ℕ) →
            list_any (nat_eq id) v.items ≡ false → pages_of self.now id ≡ blank_image) }
        ensures unedited { IfOk result (λ v. (id : ℕ) →
            (list_any (nat_eq id) v.items ≡ false) ↔ (later_records self.now 0 id ≡ [])) }
    {
        page_numbers(alloc, &self.pages)
    }

    /// The records of a page in LSN order, each with the position of its entry. Takes no memory.
    pub fn chain(&self, page: u64) -> &[ChainLink]
        ensures chain { result.now ≡ chain_of self.now page }
    {
        match kept_at(&self.pages, page) {
            Some(kept) => kept.chain.as_slice(),
            None => &[],
        }
    }
}

/// The entries behind the first ones, so many.
fn behind(entries: &[Entry], kept: u64) -> &[Entry]
    requires { kept ≤ length entries.now }
    ensures { result.now ≡ drop kept entries.now }
{
    let (_, back) = entries.split_at(kept as usize);
    back
}

/// A page, where it has a record.
fn edited_page(pages: &KeptPages, id: u64) -> Option<&Page>
    ensures page { IfSome result (λ p. p.now ≡ page_in pages.now id) }
    ensures none { IfNone result ((page_in pages.now id).lsn ≡ 0) }
    ensures some { OnSome result ((page_in pages.now id).lsn ≡ 0 → ⊥) }
{
    match kept_at(pages, id) {
        Some(kept) if kept.page.lsn() != 0 => Some(&kept.page),
        _ => None,
    }
}

/// Sees to it that a blank page is kept.
pub(crate) fn see_to_blank(alloc: Global, blank: &mut Option<Page>) -> Result<(), AllocError>
    requires { IfSome blank.old (λ p. p ≡ blank_image) }
    ensures { IfSome blank.new (λ p. p ≡ blank_image) }
{
    if blank.is_none() {
        *blank = Some(Page::blank(alloc)?);
    }
    Ok(())
}

/// The numbers of the list whose pages have a record, in order.
#[tactic(auto, using(crate::proofs::NumberLemmas::numbers_with, crate::proofs::NumberLemmas::numbers_without))]
fn near_numbers(alloc: Global, pages: &KeptPages) -> Result<Vec<u64>, AllocError>
    ensures { IfOk result (λ v. v.items ≡ numbers_in (page_in pages.now) (length pages.now.near.items)) }
{
    let mut numbers = Vec::new(alloc);
    'going: for at in 0..pages.near.len() {
        let id = at as u64;
        if lsn_of(pages, id) != 0 {
            numbers.push(id)?;
        }
    }
    Ok(numbers)
}

/// The numbers of the map, in order.
fn far_numbers(alloc: Global, pages: &KeptPages) -> Result<Vec<u64>, AllocError>
    ensures numbers { IfOk result (λ v. v.items ≡ keys pages.now.far) }
    ensures ordered { IsOrdered nat_cmp pages.now.far }
{
    pages.far.keys().copied().collect(alloc)
}

/// The numbers of the pages that have a record, in order.
#[tactic(auto, using(crate::proofs::NumberLemmas::numbers_taken, crate::proofs::NumberLemmas::numbers_below_list, crate::proofs::NumberLemmas::numbers_unedited, crate::proofs::NumberLemmas::numbers_end))]
fn page_numbers(alloc: Global, pages: &KeptPages) -> Result<Vec<u64>, AllocError>
    ensures numbers { IfOk result (λ v. v.items ≡ edited_numbers pages.now) }
    ensures ordered { OnOk result (IsOrdered nat_cmp pages.now.far) }
{
    let end = pages.near.len() as u64;
    let mut numbers = near_numbers(alloc, pages)?;
    let others = far_numbers(alloc, pages)?;
    let mut rest = others.as_slice();
    'going: while let Some((id, after)) = rest.split_first() {
        if *id >= end && lsn_of(pages, *id) != 0 {
            numbers.push(*id)?;
        }
        rest = after;
    }
    Ok(numbers)
}

/// The schema of an entry, where it is a setup.
fn schema_in(entry: &Entry) -> Option<&Schema>
    ensures { option_copied result ≡ schema_told entry.now }
{
    match entry {
        Entry::Setup { schema, .. } => Some(schema),
        Entry::Commit { .. } => None,
    }
}
