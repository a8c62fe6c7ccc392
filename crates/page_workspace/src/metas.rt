//! The meta page: what it tells, as numbers, and the cell that tells it.
ghost use Rattle.std.specs.Prelude.{ℕ, ◌≡◌, ◌^◌, IfOk, IfSome, None, OnErr, OnOk, false, length, true};
ghost use Rattle.page_workspace.specs.Drafts.{meant, IsEditExcused, IsNotUnfit};
ghost use Rattle.page_workspace.specs.Metas.{cell_of, meta_in, meta_of, IsSwap, SetsMeta, TellsMeta};
ghost use Rattle.page_workspace.specs.Spare.{first_cell, is_meta, is_meta_kind, IsMeta};

use crate::workspaces::{EditFault, Workspace};
use byte_words::put_u64;
use byteorder::{BigEndian, ByteOrder};
use page_store::{Cell, Edit, Page, PageKind, PageSource};
use std::alloc::{AllocError, Global};

/// The number of pages stays below this number, 2^62.
pub const COUNT_LIMIT: u64 = 1 << 62;

/// The bytes of the meta page's cell.
const META_SIZE: usize = 24;

/// What the meta page tells.
#[derive(Clone, Copy)]
pub struct Meta {
    /// The next genid.
    pub next: u64,
    /// The number of pages: from this page on none was ever written.
    pub count: u64,
    /// The first free page, 0 where there is none.
    pub free: u64,
}

impl Meta {
    /// What a page tells as the meta page; `None` where it is none.
    pub fn read(page: &Page) -> Option<Meta>
        ensures { result ≡ meta_in page.now }
    {
        let cell = meta_cell(page)?;
        Some(split(cell))
    }

    /// The cell of the meta page that tells this.
    pub fn cell(&self, alloc: Global) -> Result<Cell, AllocError>
        ensures { IfOk result (λ cell. cell ≡ cell_of self.now) }
    {
        let mut bytes = Vec::new(alloc);
        put_u64(&mut bytes, self.next)?;
        put_u64(&mut bytes, self.count)?;
        put_u64(&mut bytes, self.free)?;
        Ok(Cell::new(bytes))
    }
}

impl<P: PageSource> Workspace<P> {
    /// What the meta page tells, by the edits so far. `Unfit` comes only where page 0 is no meta page, `Gone` only where the
    /// source lost its pages.
    pub fn meta(&mut self) -> Result<Meta, EditFault>
        ensures told { IfOk result (TellsMeta (meant P.pages self.old)) }
        ensures fit { IsMeta (meant P.pages self.old 0) → IsNotUnfit result }
        ensures edits { self.new.edits ≡ self.old.edits }
        ensures pages { meant P.pages self.new ≡ meant P.pages self.old }
        ensures base { P.pages self.new.base ≡ P.pages self.old.base }
        ensures excused { IsEditExcused result (P.losses self.old.base) (P.losses self.new.base) }
    {
        self.load_to_edit(0)?;
        match Meta::read(self.page()) {
            Some(meta) => Ok(meta),
            None => Err(EditFault::Unfit),
        }
    }

    /// Makes the meta page tell this. `Unfit` comes only where page 0 is no meta page, `Gone` only where the source lost its
    /// pages.
    pub fn set_meta(&mut self, alloc: Global, meta: Meta) -> Result<(), EditFault>
        ensures set { OnOk result (SetsMeta (meant P.pages self.old) (meant P.pages self.new) meta) }
        ensures fit { IsMeta (meant P.pages self.old 0) → IsNotUnfit result }
        ensures unchanged { OnErr result (self.new.edits ≡ self.old.edits) }
        ensures base { P.pages self.new.base ≡ P.pages self.old.base }
        ensures excused { IsEditExcused result (P.losses self.old.base) (P.losses self.new.base) }
    {
        self.load_to_edit(0)?;
        let swap = meta_swap(alloc, self.page(), meta)?;
        self.edit(0, swap)
    }
}

/// The cell of the meta page.
fn meta_cell(page: &Page) -> Option<&[u8]>
    ensures none { result ≡ None → is_meta page.now ≡ false }
    ensures some { IfSome result (λ cell. (is_meta page.now ≡ true) × (cell.now ≡ first_cell page.now.cells) × (length cell.now ≡ 24)) }
{
    if !is_meta_page_kind(page.head().kind) || page.count() != 1 {
        return None;
    }
    let cell = page.cell(0)?;
    if cell.len() != META_SIZE {
        return None;
    }
    Some(cell)
}

/// Whether a kind is that of the meta page.
fn is_meta_page_kind(kind: PageKind) -> bool
    ensures { result ≡ is_meta_kind kind }
{
    match kind {
        PageKind::Meta => true,
        PageKind::Free | PageKind::Leaf | PageKind::Inner => false,
    }
}

/// What a cell of the meta page tells.
fn split(cell: &[u8]) -> Meta
    requires { length cell.now ≡ 24 }
    ensures { result ≡ meta_of cell.now }
{
    let (_, behind) = cell.split_at(8);
    let (_, last) = cell.split_at(16);
    let next = BigEndian::read_u64(cell);
    let count = BigEndian::read_u64(behind);
    let free = BigEndian::read_u64(last);
    Meta { next, count, free }
}

/// The edit that makes a meta page tell something else.
fn meta_swap(alloc: Global, page: &Page, meta: Meta) -> Result<Edit, EditFault>
    ensures swap { IfOk result (IsSwap page.now meta) }
    ensures fit { IsMeta page.now → IsNotUnfit result }
    ensures excused { (count : ℕ) → IsEditExcused result count count }
{
    let Some(cell) = meta_cell(page) else {
        return Err(EditFault::Unfit);
    };
    let before = Cell::from_slice(alloc, cell).map_err(|_| EditFault::NoMemory)?;
    let after = meta.cell(alloc).map_err(|_| EditFault::NoMemory)?;
    Ok(Edit::SwapCell {
        at: 0,
        before,
        after,
    })
}
