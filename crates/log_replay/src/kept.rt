ghost use Rattle.std.specs.Prelude as std;
ghost use Rattle.std.specs.Ordering.{nat_cmp, is_eq};
ghost use Rattle.std.specs.Prelude.{ℕ, ◌≡◌, ◌+◌, ◌++◌, ◌∷◌, [], ◌<◌, ◌≤◌, OnOk, OnErr, IsErrOf, IsSome, Some, None, length, false, vec_capacity};
ghost use Rattle.std.specs.Option.{option_copied};
ghost use Rattle.page_store.specs.Edits.{IsFit, IsAfter, after_edit, before_edit};
ghost use Rattle.phys_log.specs.Logs.{after_record};
ghost use Rattle.log_replay.specs.declared.chains.ChainLink.{ChainLink as Link};
ghost use Rattle.log_replay.specs.Kept.{far_at, found, image_of, links_of, room_of, page_in, chain_in, room_in, link_of, put_at, HasSlot, Roomier, TellsWhether};
ghost use Rattle.page_store.specs.declared.edits.ApplyFault.TheVariants as fault;

use crate::chains::ChainLink;
use page_store::{ApplyFault, Page, apply, undo};
use phys_log::LogRecord;
use std::alloc::{AllocError, Global};
use std::collections::BTreeMap;
use std::mem::swap;

/// A page that a log keeps, with the chain of its records.
#[derive(Drop)]
pub(crate) struct KeptPage {
    pub(crate) page: Page,
    pub(crate) chain: Vec<ChainLink>,
}

/// The pages that a log keeps, by their numbers. Numbers are dense as a rule, and such a page lies at its number in a list; one
/// whose number is far beyond the list is kept in a map.
#[derive(Drop)]
pub(crate) struct KeptPages {
    pub(crate) near: Vec<Option<KeptPage>>,
    pub(crate) far: BTreeMap<u64, Option<KeptPage>>,
}

/// So many numbers beyond its end the list still grows to; a page with a greater one is kept in the map.
const SPARE_NUMBERS: u64 = 0x1_0000;

/// No pages. Takes no memory.
pub(crate) fn no_pages(alloc: Global) -> KeptPages
    ensures { (n : ℕ) → found result n ≡ None }
{
    KeptPages {
        near: Vec::new(alloc),
        far: BTreeMap::new(alloc),
    }
}

/// The page that the map keeps under a number.
fn far_page(far: &BTreeMap<u64, Option<KeptPage>>, id: u64) -> Option<&KeptPage>
    ensures { option_copied result ≡ far_at far.now.entries id }
{
    match far.get(&id) {
        Some(Some(kept)) => Some(kept),
        _ => None,
    }
}

/// The kept page of a number, where there is one.
pub(crate) fn kept_at(pages: &KeptPages, id: u64) -> Option<&KeptPage>
    ensures { option_copied result ≡ found pages.now id }
{
    match pages.near.get(id as usize) {
        Some(Some(kept)) => Some(kept),
        Some(None) => None,
        None => far_page(&pages.far, id),
    }
}

/// The LSN of a page.
pub(crate) fn lsn_of(pages: &KeptPages, id: u64) -> u64
    ensures { result ≡ (page_in pages.now id).lsn }
{
    match kept_at(pages, id) {
        Some(kept) => kept.page.lsn(),
        None => 0,
    }
}

/// The next number gets its place in the list; what the map keeps under it moves there.
#[tactic(auto, using(crate::proofs::KeptLemmas::found_drawn))]
fn draw_near(pages: &mut KeptPages) -> Result<(), AllocError>
    ensures longer { OnOk result (length pages.new.near.items ≡ length pages.old.near.items + 1) }
    ensures same { (n : ℕ) → found pages.new n ≡ found pages.old n }
{
    pages.near.reserve(1)?;
    let next = pages.near.len() as u64;
    let moved = pages.far.remove(&next).flatten();
    match pages.near.push(moved) {
        Ok(()) => Ok(()),
        Err(_) => unreachable!(),
    }
}

/// Sees to it that a number has its place in the list.
fn grow(pages: &mut KeptPages, id: u64) -> Result<(), AllocError>
    ensures long { OnOk result (id < length pages.new.near.items) }
    ensures same { (n : ℕ) → found pages.new n ≡ found pages.old n }
{
    'growing: while pages.near.len() as u64 <= id {
        draw_near(pages)?;
    }
    Ok(())
}

/// Keeps a page under a number that has its place in the list.
#[tactic(auto, using(crate::proofs::KeptLemmas::found_near))]
fn put_near(pages: &mut KeptPages, id: u64, kept: KeptPage)
    requires { id < length pages.old.near.items }
    ensures { (n : ℕ) → found pages.new n ≡ put_at (found pages.old) id (Some kept) n }
{
    pages.near[id as usize] = Some(kept);
}

/// Keeps a page under a number that is beyond the list.
#[tactic(auto, using(crate::proofs::KeptLemmas::found_far))]
fn put_far(pages: &mut KeptPages, id: u64, kept: KeptPage) -> Result<(), AllocError>
    requires { length pages.old.near.items ≤ id }
    ensures put { OnOk result ((n : ℕ) → found pages.new n ≡ put_at (found pages.old) id (Some kept) n) }
    ensures same { OnErr result ((n : ℕ) → found pages.new n ≡ found pages.old n) }
{
    match pages.far.insert(id, Some(kept)) {
        Ok(_) => Ok(()),
        Err(_) => Err(AllocError),
    }
}

/// Keeps a page under a number.
fn put_in(pages: &mut KeptPages, id: u64, kept: KeptPage) -> Result<(), AllocError>
    ensures put { OnOk result ((n : ℕ) → found pages.new n ≡ put_at (found pages.old) id (Some kept) n) }
    ensures same { OnErr result ((n : ℕ) → found pages.new n ≡ found pages.old n) }
{
    let end = pages.near.len() as u64;
    if id >= end && id - end >= SPARE_NUMBERS {
        return put_far(pages, id, kept);
    }
    grow(pages, id)?;
    put_near(pages, id, kept);
    Ok(())
}

/// Sees to it that a page is kept; it is blank where it was not.
#[tactic(auto, using(crate::proofs::KeptLemmas::roomy_put, crate::proofs::KeptLemmas::roomy_same))]
pub(crate) fn hold(alloc: Global, pages: &mut KeptPages, id: u64) -> Result<(), AllocError>
    ensures held { OnOk result (IsSome (found pages.new id)) }
    ensures same { (n : ℕ) → page_in pages.new n ≡ page_in pages.old n }
    ensures linked { (n : ℕ) → chain_in pages.new n ≡ chain_in pages.old n }
    ensures roomy { Roomier pages.old pages.new }
{
    if kept_at(pages, id).is_some() {
        return Ok(());
    }
    let page = Page::blank(alloc)?;
    let chain = Vec::new(alloc);
    put_in(pages, id, KeptPage { page, chain })
}

/// Takes the last link from a chain, where it has one.
fn pop_link(chain: &mut Vec<ChainLink>)
    ensures link { (before : std.List Link) (link : Link) →
        chain.old.items ≡ before ++ link ∷ [] → chain.new.items ≡ before }
    ensures room { vec_capacity chain.new ≡ vec_capacity chain.old }
{
    let _ = chain.pop();
}

/// Makes a record's edit on a page, and adds the record to its chain; both or, after an error, neither.
fn write_kept(
    slot: &mut Option<KeptPage>,
    entry: &LogRecord,
    position: u64,
) -> Result<(), ApplyFault>
    requires { IsSome slot.old }
    ensures made { OnOk result (image_of slot.new ≡ after_edit (image_of slot.old) entry.now.edit entry.now.lsn) }
    ensures linked { OnOk result (links_of slot.new ≡ links_of slot.old ++ link_of position entry.now ∷ []) }
    ensures fits { TellsWhether result (IsFit (image_of slot.old) entry.now.edit) }
    ensures sure { length (links_of slot.old) < room_of slot.old → IsErrOf result fault.NoMemory → ⊥ }
    ensures same_page { OnErr result (image_of slot.new ≡ image_of slot.old) }
    ensures same_links { OnErr result (links_of slot.new ≡ links_of slot.old) }
    ensures roomy { room_of slot.old ≤ room_of slot.new }
{
    match slot {
        Some(kept) => write_page(&mut kept.page, &mut kept.chain, entry, position),
        None => unreachable!(),
    }
}

/// Makes a record's edit on a page, and adds the record to a chain; both or, after an error, neither.
fn write_page(
    page: &mut Page,
    chain: &mut Vec<ChainLink>,
    entry: &LogRecord,
    position: u64,
) -> Result<(), ApplyFault>
    ensures made { OnOk result (page.new ≡ after_edit page.old entry.now.edit entry.now.lsn) }
    ensures linked { OnOk result (chain.new.items ≡ chain.old.items ++ link_of position entry.now ∷ []) }
    ensures fits { TellsWhether result (IsFit page.old entry.now.edit) }
    ensures sure { length chain.old.items < vec_capacity chain.old → IsErrOf result fault.NoMemory → ⊥ }
    ensures same_page { OnErr result (page.new ≡ page.old) }
    ensures same_chain { OnErr result (chain.new.items ≡ chain.old.items) }
    ensures roomy { vec_capacity chain.old ≤ vec_capacity chain.new }
{
    let link = ChainLink {
        position,
        lsn: entry.lsn,
    };
    match chain.push(link) {
        Ok(()) => {}
        Err(_) => return Err(ApplyFault::NoMemory),
    }
    match apply(page, &entry.edit, entry.lsn) {
        Ok(()) => Ok(()),
        Err(fault) => {
            pop_link(chain);
            Err(fault)
        }
    }
}

/// Puts what a slot has in the place of what is kept under a number, and that into the slot.
#[tactic(auto, using(crate::proofs::KeptLemmas::found_near, crate::proofs::KeptLemmas::found_far, crate::proofs::KeptLemmas::within_at))]
fn swap_slot(pages: &mut KeptPages, id: u64, slot: &mut Option<KeptPage>)
    requires { HasSlot pages.old id }
    ensures given { slot.new ≡ found pages.old id }
    ensures put { (n : ℕ) → found pages.new n ≡ put_at (found pages.old) id slot.old n }
    ensures stays { HasSlot pages.new id }
{
    match pages.near.get_mut(id as usize) {
        Some(place) => swap(place, slot),
        None => match pages.far.get_mut(&id) {
            Some(place) => swap(place, slot),
            None => unreachable!(),
        },
    }
}

/// Makes a record's edit on the kept page, and adds the record to its chain; both or, after an error, neither.
#[tactic(auto, using(crate::proofs::KeptLemmas::slot_found, crate::proofs::KeptLemmas::page_twice, crate::proofs::KeptLemmas::chain_twice, crate::proofs::KeptLemmas::page_back, crate::proofs::KeptLemmas::chain_back, crate::proofs::KeptLemmas::roomy_twice))]
pub(crate) fn write_at(
    pages: &mut KeptPages,
    entry: &LogRecord,
    position: u64,
) -> Result<(), ApplyFault>
    requires { IsSome (found pages.old entry.now.page) }
    ensures made { OnOk result ((n : ℕ) → page_in pages.new n ≡ after_record (page_in pages.old) entry.now n) }
    ensures linked { OnOk result ((n : ℕ) → chain_in pages.new n
        ≡ put_at (chain_in pages.old) entry.now.page
        (chain_in pages.old entry.now.page ++ link_of position entry.now ∷ []) n) }
    ensures fits { TellsWhether result (IsFit (page_in pages.old entry.now.page) entry.now.edit) }
    ensures sure { length (chain_in pages.old entry.now.page) < room_in pages.old entry.now.page →
        IsErrOf result fault.NoMemory → ⊥ }
    ensures same_pages { OnErr result ((n : ℕ) → page_in pages.new n ≡ page_in pages.old n) }
    ensures same_chains { OnErr result ((n : ℕ) → chain_in pages.new n ≡ chain_in pages.old n) }
    ensures roomy { Roomier pages.old pages.new }
{
    let mut slot = None;
    swap_slot(pages, entry.page, &mut slot);
    let written = write_kept(&mut slot, entry, position);
    swap_slot(pages, entry.page, &mut slot);
    written
}

/// Takes a record's edit back from a page, and its link from the end of the chain.
fn undo_kept(slot: &mut Option<KeptPage>, entry: &LogRecord)
    requires there { IsSome slot.old }
    requires made { IsAfter entry.now.edit (image_of slot.old) }
    ensures undone { image_of slot.new ≡ before_edit (image_of slot.old) entry.now.edit entry.now.prev }
    ensures unlinked { (before : std.List Link) (link : Link) → links_of slot.old ≡ before ++ link ∷ [] →
        links_of slot.new ≡ before }
    ensures roomy { room_of slot.old ≤ room_of slot.new }
{
    match slot {
        Some(kept) => {
            pop_link(&mut kept.chain);
            let _ = undo(&mut kept.page, &entry.edit, entry.prev);
        }
        None => unreachable!(),
    }
}

/// Takes a record's edit back from the kept page, and its link from the end of the chain.
#[tactic(auto, using(crate::proofs::KeptLemmas::slot_found, crate::proofs::KeptLemmas::page_twice, crate::proofs::KeptLemmas::chain_twice, crate::proofs::KeptLemmas::roomy_twice))]
pub(crate) fn undo_at(pages: &mut KeptPages, entry: &LogRecord)
    requires there { IsSome (found pages.old entry.now.page) }
    requires made { IsAfter entry.now.edit (page_in pages.old entry.now.page) }
    ensures undone { (n : ℕ) → page_in pages.new n
        ≡ put_at (page_in pages.old) entry.now.page
        (before_edit (page_in pages.old entry.now.page) entry.now.edit entry.now.prev) n }
    ensures unlinked { (before : std.List Link) (link : Link) →
        chain_in pages.old entry.now.page ≡ before ++ link ∷ [] →
        (n : ℕ) → chain_in pages.new n ≡ put_at (chain_in pages.old) entry.now.page before n }
    ensures roomy { Roomier pages.old pages.new }
{
    let mut slot = None;
    swap_slot(pages, entry.page, &mut slot);
    undo_kept(&mut slot, entry);
    swap_slot(pages, entry.page, &mut slot);
}

/// Makes the edit of a record again that was taken back, and adds the record to its chain, which has room for it. Takes
/// no memory.
#[tactic(auto, using(crate::proofs::KeptLemmas::has_room))]
pub(crate) fn redo_at(pages: &mut KeptPages, entry: &LogRecord, position: u64)
    requires fits { IsFit (page_in pages.old entry.now.page) entry.now.edit }
    requires room { length (chain_in pages.old entry.now.page) < room_in pages.old entry.now.page }
    ensures made { (n : ℕ) → page_in pages.new n ≡ after_record (page_in pages.old) entry.now n }
    ensures linked { (n : ℕ) → chain_in pages.new n
        ≡ put_at (chain_in pages.old) entry.now.page
        (chain_in pages.old entry.now.page ++ link_of position entry.now ∷ []) n }
    ensures roomy { Roomier pages.old pages.new }
{
    match write_at(pages, entry, position) {
        Ok(()) => {}
        Err(ApplyFault::Unfit) => unreachable!(),
        Err(ApplyFault::NoMemory) => unreachable!(),
    }
}
