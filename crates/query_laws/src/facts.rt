//! Worked facts: the intervals that queries read of a table with two keys (`specs/Worked.antt`).
ghost use Rattle.std.specs.Prelude.{◌≡◌, true, false, [], ◌∷◌, Some, None};
ghost use Rattle.cdb_values.specs.declared.rows.RowOp.TheVariants as op;
ghost use Rattle.cdb_values.specs.declared.rows.RowRef.TheVariants.{Base};
ghost use Rattle.cdb_values.specs.declared.values.Value.TheVariants.{Null};
ghost use Rattle.sql_answer.specs.Combinations.{seen};
ghost use Rattle.sql_answer.specs.Worked.{int};
ghost use Rattle.query_laws.specs.Conjuncts.{conjuncts};
ghost use Rattle.query_laws.specs.Intervals.{Free, Above, Below, lies};
ghost use Rattle.query_laws.specs.Plans.{interval_at};
ghost use Rattle.query_laws.specs.Touched.{touches};
ghost use Rattle.query_laws.specs.Walks.{ranges_read};
ghost use Rattle.query_laws.specs.Worked.{keyed_tables, interval, whole_table, v_and_id, between, v_is_null, negated, joined, two_rows};

/// The key of which most columns are compared by = is read, else one with a bound, on either side of the
/// comparison; what is compared with NULL is an empty interval; a negated comparison is of no use.
pub fn a_key_is_chosen()
    ensures equality { interval_at keyed_tables (conjuncts v_and_id) 0 [] ≡ interval 1 (int 3 ∷ []) Free Free }
    ensures bounds { interval_at keyed_tables (conjuncts between) 0 [] ≡ interval 0 [] (Above (int 5)) (Below (int 9)) }
    ensures null { interval_at keyed_tables (conjuncts v_is_null) 0 [] ≡ record (interval 1 (Null ∷ []) Free Free) { empty = true } }
    ensures negated { interval_at keyed_tables (conjuncts negated) 0 [] ≡ whole_table }
    ensures none { interval_at keyed_tables (conjuncts None) 0 [] ≡ whole_table }
{}

/// A row lies in an interval by its values in the key's columns; NULL lies in none with a bound there.
pub fn rows_lie_in_intervals()
    ensures inside { lies keyed_tables (interval 0 [] (Above (int 5)) (Below (int 9))) (int 7 ∷ Null ∷ []) ≡ true }
    ensures outside { lies keyed_tables (interval 0 [] (Above (int 5)) (Below (int 9))) (int 9 ∷ Null ∷ []) ≡ false }
    ensures null { lies keyed_tables (interval 1 [] Free (Below (int 9))) (int 7 ∷ Null ∷ []) ≡ false }
    ensures whole { lies keyed_tables whole_table (int 7 ∷ Null ∷ []) ≡ true }
{}

/// A join reads an interval of its second table for each outer combination, and none where there is none.
pub fn a_join_reads_for_each_outer_row()
    ensures second { ranges_read keyed_tables (seen two_rows.tables []) (0 ∷ 0 ∷ []) joined ≡ interval 0 (int 1 ∷ []) Free Free ∷ interval 0 (int 2 ∷ []) Free Free ∷ [] }
    ensures no_row { ranges_read keyed_tables (seen [] []) (0 ∷ 0 ∷ []) joined ≡ interval 0 (int 1 ∷ []) Free Free
        ∷ [] }
{}

/// An interval is touched by an update of a row in it, by one that moves a row into it, and by no other.
pub fn changes_touch_intervals()
    ensures left { touches keyed_tables (interval 1 (int 2 ∷ []) Free Free) two_rows (op.Delete 0 (Base 1) (int 1 ∷ int 2 ∷ []) ∷ []) ≡ true }
    ensures entered { touches keyed_tables (interval 1 (int 2 ∷ []) Free Free) two_rows (op.Insert 0 (int 3 ∷ int 2 ∷ []) ∷ []) ≡ true }
    ensures untouched { touches keyed_tables (interval 1 (int 2 ∷ []) Free Free) two_rows (op.Update 0 (Base 2) (int 2 ∷ Null ∷ []) (int 2 ∷ int 3 ∷ []) ∷ []) ≡ false }
{}
