//! Where the trees of a table have their roots.
ghost use Rattle.std.specs.Prelude.{◌≡◌, ◌+◌, ◌*◌, ◌≤◌, length, take};
ghost use Rattle.table_store.specs.Plans.{plan_from};

use cdb_values::Schema;

/// The root of the rows' tree of a table, by the table's place in the schema. Those of its keys follow.
#[tactic(auto, using(crate::proofs::PlanLemmas::plan_more))]
pub(crate) fn rows_root(schema: &Schema, table: u16) -> u64
    requires { table ≤ length schema.now }
    ensures root { result ≡ 1 + length (plan_from 0 (take table schema.now)) }
    ensures small { result ≤ 1 + 9 * table }
{
    let mut root = 1u64;
    'tables: for at in 0..table {
        root += 1 + schema.keys(at).len() as u64;
    }
    root
}
