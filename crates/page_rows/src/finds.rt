//! The version of a genid, found in the rows' tree of its table.
ghost use Rattle.std.specs.Prelude.{ℕ, ◌≡◌, None, List, IfOk, OnOk, option_to_list};
ghost use Rattle.page_store.specs.Sources.{IsExcused};
ghost use Rattle.byteorder.specs.Endian.{big_bytes};
ghost use Rattle.btree_index.specs.Pairs.{value_at};
ghost use Rattle.cdb_values.specs.declared.rows.Version.{Version};
ghost use Rattle.table_store.specs.Forests.{Pair};
ghost use Rattle.table_store.specs.Listings.{Lists};
ghost use Rattle.page_rows.specs.Listed.{IsTreeOf, AreReadable};
ghost use Rattle.page_rows.specs.Picks.{of_genid};

use btree_index::find;
use byte_words::put_u64;
use cdb_values::Version;
use key_code::decode_row;
use page_store::{Cell, PageFault, PageSource};
use std::alloc::{AllocError, Global};

/// The version of a genid, in the rows' tree of its table; `None` where there is none. `Gone` comes only where the source
/// lost its pages; the other error is want of memory.
pub(crate) fn version_of<P: PageSource>(
    alloc: Global,
    pages: &mut P,
    root: u64,
    genid: u64,
) -> Result<Option<Version>, PageFault>
    ensures found { (versions : List Version) → IsTreeOf (P.pages pages.old) root None versions → AreReadable versions →
        IfOk result (λ found. option_to_list found ≡ of_genid genid versions) }
    ensures pages { P.pages pages.new ≡ P.pages pages.old }
    ensures below { P.below pages.new ≡ P.below pages.old }
    ensures excused { IsExcused result (P.losses pages.old) (P.losses pages.new) }
{
    let key = key_of(alloc, genid)?;
    let value = find(alloc, pages, root, key.as_slice())?;
    version_in(alloc, genid, value)
}

/// The key of a genid in the rows' tree.
fn key_of(alloc: Global, genid: u64) -> Result<Vec<u8>, PageFault>
    ensures key { IfOk result (λ key. key.items ≡ big_bytes 8 genid) }
    ensures excused { (losses : ℕ) → IsExcused result losses losses }
{
    let mut key = Vec::new(alloc);
    match put_u64(&mut key, genid) {
        Ok(()) => Ok(key),
        Err(_) => Err(PageFault::NoMemory),
    }
}

/// The version of a genid, from what the rows' tree has for it.
fn version_in(alloc: Global, genid: u64, value: Option<Cell>) -> Result<Option<Version>, PageFault>
    ensures found { (versions : List Version) (list : List Pair) → AreReadable versions → Lists None versions list → value ≡ value_at (big_bytes 8 genid) list →
        IfOk result (λ found. option_to_list found ≡ of_genid genid versions) }
    ensures excused { (losses : ℕ) → IsExcused result losses losses }
{
    match value {
        None => Ok(None),
        Some(value) => match decode_row(alloc, value.as_slice()) {
            Ok(None) => Ok(None),
            Ok(Some(row)) => Ok(Some(Version { genid, row })),
            Err(_) => Err(PageFault::NoMemory),
        },
    }
}
