//! Used versions without repeats.
ghost use Rattle.std.specs.Prelude.{◌≡◌, ◌∷◌, [], List as Many, IfOk, OnOk, option_to_list};
ghost use Rattle.cdb_values.specs.Changes.{taken_by};
ghost use Rattle.osql_session.specs.Items.{with_item, with_items, items_in};

use cdb_values::{GenidItem, List, RowOp, RowRef};
use indexmap::IndexSet;
use std::alloc::{AllocError, Global};
use std::marker::Model;

/// Versions without repeats, in the order in which they came first. Contracts see the list.
#[derive(Drop)]
pub(crate) struct UsedItems {
    /// Each by its table and its genid.
    known: IndexSet<(u16, u64)>,
}

impl Model for UsedItems {
    ghost use Rattle.std.specs.Prelude.{List as Many};
    ghost use Rattle.cdb_values.specs.declared.items.GenidItem.{GenidItem as OneItem};
    ghost use Rattle.osql_session.specs.Items.{items_in};

    ghost Value = { Many OneItem };

    ghost view = { λ s. items_in s.known.keys };
}

impl UsedItems {
    /// No version. Takes no memory.
    pub(crate) fn new(alloc: Global) -> UsedItems
        ensures { result ≡ [] }
    {
        UsedItems {
            known: IndexSet::new(alloc),
        }
    }

    /// Adds a version at the end, where it is not among those before. What it costs does not grow with these. `Err` is
    /// want of memory.
    fn add(&mut self, item: GenidItem) -> Result<(), AllocError>
        ensures { OnOk result (self.new ≡ with_item self.old item) }
    {
        add_known(&mut self.known, item)
    }

    /// Adds these versions, one after the other.
    pub(crate) fn add_all(&mut self, items: &[GenidItem]) -> Result<(), AllocError>
        ensures { OnOk result (self.new ≡ with_items self.old items.now) }
    {
        let mut rest = items;
        'items: while let Some((item, others)) = rest.split_first() {
            self.add(*item)?;
            rest = others;
        }
        Ok(())
    }

    /// Adds the versions that these operations take away, one after the other.
    #[tactic(auto, using(crate::proofs::ItemLemmas::taken_first, crate::proofs::ItemLemmas::none_taken))]
    pub(crate) fn add_taken(&mut self, ops: &[RowOp]) -> Result<(), AllocError>
        ensures { OnOk result (self.new ≡ with_items self.old (taken_by ops.now)) }
    {
        let mut rest = ops;
        'ops: while let Some((op, others)) = rest.split_first() {
            if let Some(item) = item_taken(op) {
                self.add(item)?;
            }
            rest = others;
        }
        Ok(())
    }

    /// The versions as a list.
    pub(crate) fn listed(&self, alloc: Global) -> Result<List<GenidItem>, AllocError>
        ensures { IfOk result (λ items. items ≡ self.now) }
    {
        listed(alloc, self.known.as_slice())
    }
}

/// Adds the table and the genid of a version, where they are not there.
#[tactic(auto, using(crate::proofs::ItemLemmas::added))]
fn add_known(known: &mut IndexSet<(u16, u64)>, item: GenidItem) -> Result<(), AllocError>
    ensures { OnOk result (items_in known.new.keys ≡ with_item (items_in known.old.keys) item) }
{
    match known.insert((item.table, item.genid)) {
        Ok(_) => Ok(()),
        Err(_) => Err(AllocError),
    }
}

/// The versions of these tables and genids.
fn listed(alloc: Global, known: &[(u16, u64)]) -> Result<List<GenidItem>, AllocError>
    ensures { IfOk result (λ items. items ≡ items_in known.now) }
{
    let mut items = List::new(alloc);
    let mut rest = known;
    'known: while let Some((one, others)) = rest.split_first() {
        let (table, genid) = *one;
        items.push(GenidItem { table, genid })?;
        rest = others;
    }
    Ok(items)
}

/// The version that an operation takes away, if it takes one.
fn item_taken(op: &RowOp) -> Option<GenidItem>
    ensures { option_to_list result ≡ taken_by (op.now ∷ []) }
{
    match op {
        RowOp::Insert { .. } => None,
        RowOp::Update { table, target, .. } => item_of(*table, target),
        RowOp::Delete { table, target, .. } => item_of(*table, target),
    }
}

/// The version of a table that a target names by its genid, if it does.
fn item_of(table: u16, target: &RowRef) -> Option<GenidItem>
    ensures { option_to_list result ≡ taken_by (RowOp.Delete table target.now [] ∷ []) }
{
    match *target {
        RowRef::Base(genid) => Some(GenidItem { table, genid }),
        RowRef::Own(_) => None,
    }
}
