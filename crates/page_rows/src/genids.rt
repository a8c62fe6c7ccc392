//! The genids that the pairs of a key's tree name.
ghost use Rattle.std.specs.Prelude.{ℕ, ◌≡◌, ◌^◌, ◌<◌, List, ◌++◌, length, Some, IfOk, OnOk};
ghost use Rattle.byteorder.specs.Endian.{big_bytes};
ghost use Rattle.page_workspace.specs.Spare.{IsIn};
ghost use Rattle.table_store.specs.Listings.{IsAmong, keyed};
ghost use Rattle.page_rows.specs.Picks.{AreRising};

use byte_words::take_u64;
use page_store::Cell;
use std::alloc::{AllocError, Global};

/// The genids that these pairs of a key's tree name, rising. The error is want of memory.
pub(crate) fn genids_in(
    alloc: Global,
    pairs: &[(Cell, Cell)],
    unique: bool,
) -> Result<Vec<u64>, AllocError>
    ensures rising { IfOk result (λ genids. AreRising genids.items) }
    ensures has { (genid : ℕ) (code : List ℕ) → genid < 2 ^ 64 → IsAmong (keyed unique code (big_bytes 8 genid)) pairs.now →
        IfOk result (λ genids. IsIn genid genids.items) }
{
    let mut genids = all_genids(alloc, pairs, unique)?;
    genids.sort_unstable();
    genids.dedup();
    Ok(genids)
}

/// The genids that these pairs of a key's tree name, in the order of the pairs.
fn all_genids(alloc: Global, pairs: &[(Cell, Cell)], unique: bool) -> Result<Vec<u64>, AllocError>
    ensures { (genid : ℕ) (code : List ℕ) → genid < 2 ^ 64 → IsAmong (keyed unique code (big_bytes 8 genid)) pairs.now →
        IfOk result (λ genids. IsIn genid genids.items) }
{
    let mut genids = Vec::new(alloc);
    let mut rest = pairs;
    'pairs: while let Some((pair, after)) = rest.split_first() {
        add_genid(&mut genids, pair, unique)?;
        rest = after;
    }
    Ok(genids)
}

/// Adds the genid that a pair names. One that names none is passed over.
fn add_genid(genids: &mut Vec<u64>, pair: &(Cell, Cell), unique: bool) -> Result<(), AllocError>
    ensures kept { (genid : ℕ) → IsIn genid genids.old.items → OnOk result (IsIn genid genids.new.items) }
    ensures added { (genid : ℕ) (code : List ℕ) → genid < 2 ^ 64 → pair.now ≡ keyed unique code (big_bytes 8 genid) →
        OnOk result (IsIn genid genids.new.items) }
{
    match genid_of(pair, unique) {
        None => Ok(()),
        Some(genid) => {
            genids.push(genid)?;
            Ok(())
        }
    }
}

/// The genid that a pair names: of a unique key the pair's value, of another key the end of its key.
fn genid_of(pair: &(Cell, Cell), unique: bool) -> Option<u64>
    ensures { (genid : ℕ) (code : List ℕ) → genid < 2 ^ 64 → pair.now ≡ keyed unique code (big_bytes 8 genid) → result ≡ Some genid }
{
    let bytes = if unique {
        pair.1.as_slice()
    } else {
        last_eight(pair.0.as_slice())
    };
    let (genid, _) = take_u64(bytes)?;
    Some(genid)
}

/// The last eight bytes, or all where there are fewer.
fn last_eight(bytes: &[u8]) -> &[u8]
    ensures { (front end : List ℕ) → length end ≡ 8 → bytes.now ≡ front ++ end → result.now ≡ end }
{
    if bytes.len() < 8 {
        return bytes;
    }
    let (_, end) = bytes.split_at(bytes.len() - 8);
    end
}
