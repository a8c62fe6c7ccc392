//! The values of a group as the key of a map. NULL is equal to NULL here.
ghost use Rattle.std.specs.Prelude.{◌≡◌, refl};
ghost use Rattle.std.specs.Cmp.{on_total, eq_by_cmp_equiv, partial_equiv_from_equiv, partial_order_from_total};
ghost use Rattle.std.specs.Cmp.Lexicographic.{slice_cmp, lists_total};
ghost use Rattle.std.specs.Ordering.{on, eq_by_cmp, as_partial_cmp};
ghost use Rattle.cdb_values.specs.Order.{value_order};
ghost use Rattle.sql_answer.proofs.OrderLaws.{values_total};

use cdb_values::{Row, Value, order};
use std::cmp::Ordering;

/// The values of a group, in the order of the columns of GROUP BY.
#[derive(Drop)]
pub(crate) struct GroupKey {
    pub(crate) values: Row,
}

impl PartialEq for GroupKey {
    ghost eq = { eq_by_cmp (on (λ k. k.values) (slice_cmp value_order)) };

    ghost laws = { partial_equiv_from_equiv (eq_by_cmp_equiv (on_total (λ k. k.values) (lists_total values_total))) };

    fn eq(&self, other: &GroupKey) -> bool {
        self.cmp(other).is_eq()
    }
}

impl Eq for GroupKey {
    ghost laws = { eq_by_cmp_equiv (on_total (λ k. k.values) (lists_total values_total)) };
}

impl PartialOrd for GroupKey {
    ghost partial_cmp = { as_partial_cmp (on (λ k. k.values) (slice_cmp value_order)) };

    ghost laws = { partial_order_from_total (on_total (λ k. k.values) (lists_total values_total)) };

    fn partial_cmp(&self, other: &GroupKey) -> Option<Ordering> {
        Some(self.cmp(other))
    }
}

impl Ord for GroupKey {
    ghost cmp = { on (λ k. k.values) (slice_cmp value_order) };

    ghost total = { on_total (λ k. k.values) (lists_total values_total) };

    ghost matches_partial_cmp = { λ x y. refl };

    ghost matches_eq = { λ x y. refl };

    fn cmp(&self, other: &GroupKey) -> Ordering {
        values_order(self.values.as_slice(), other.values.as_slice())
    }
}

/// The order of two lists of values: the first values that differ decide, and else the longer list is behind.
#[tactic(auto, using(crate::proofs::OrderSteps::values_more, crate::proofs::OrderSteps::values_stop))]
fn values_order(a: &[Value], b: &[Value]) -> Ordering
    ensures { result ≡ slice_cmp value_order a.now b.now }
{
    let mut xs = a;
    let mut ys = b;
    'comparing: while let Some((x, behind_x)) = xs.split_first() {
        let Some((y, behind_y)) = ys.split_first() else {
            return Ordering::Greater;
        };
        let found = order(x, y);
        if found.is_ne() {
            return found;
        }
        xs = behind_x;
        ys = behind_y;
    }
    if ys.is_empty() {
        Ordering::Equal
    } else {
        Ordering::Less
    }
}
