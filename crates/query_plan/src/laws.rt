ghost use Rattle.std.specs.Prelude.{◌≡◌, ℕ, List, [], ◌∷◌, length, slice_get, Some, None, true, false};
ghost use Rattle.cdb_values.specs.declared.tables.TableDef.{TableDef};
ghost use Rattle.cdb_values.specs.declared.values.Value.{Value};
ghost use Rattle.sql_bind.specs.Bound.{Cond};
ghost use Rattle.query_laws.specs.Plans.{interval_at};
ghost use Rattle.query_plan.specs.Planned.{Planned, planned_from, interval_of};

/// The law that a plan gives the intervals of walks: at a place of FROM it has the table there (`table`), and for rows
/// of the tables before it the interval that a walk reads of that table (`interval`).
pub fn plans_give_the_intervals()
    ensures table { (tables : List TableDef) (conditions : List Cond) (places : List ℕ) (at : ℕ) (p : Planned)
        → slice_get (planned_from tables conditions 0 places) at ≡ Some p → slice_get places at ≡ Some p.table }
    ensures interval { (tables : List TableDef) (conditions : List Cond) (places : List ℕ) (rows : List (List Value)) (p : Planned)
        → slice_get (planned_from tables conditions 0 places) (length rows) ≡ Some p → interval_of rows p ≡ interval_at tables conditions p.table rows }
{}
