//! Worked facts: what conditions, sums, queries and writes come to on a few rows (`specs/Worked.antt`).
ghost use Rattle.std.specs.Prelude.{◌≡◌, true, false, [], ◌∷◌, Ok, Some, None};
ghost use Rattle.cdb_values.specs.declared.rows.RowOp.TheVariants as op;
ghost use Rattle.cdb_values.specs.declared.rows.RowRef.TheVariants.{Base};
ghost use Rattle.cdb_values.specs.declared.rows.StatementError.TheVariants as error;
ghost use Rattle.cdb_values.specs.declared.values.Value.TheVariants.{Null};
ghost use Rattle.cdb_values.specs.declared.replies.Reply.TheVariants as reply;
ghost use Rattle.sql_bind.specs.Bound.{AnyOf, AllOf, NotOf, TestsNull, InsertInto, DeleteFrom, SelectOf, BeginIt};
ghost use Rattle.sql_bind.specs.declared.types.BoundItem.TheVariants as items;
ghost use Rattle.sql_bind.specs.declared.types.BoundOperand.TheVariants as operand;
ghost use Rattle.sql_bind.specs.declared.types.Cmp.TheVariants as cmp;
ghost use Rattle.sql_answer.specs.Aggregates.{integers, sum_of, least, greatest, known};
ghost use Rattle.sql_answer.specs.Answers.{Gives, Fails, answer};
ghost use Rattle.sql_answer.specs.Conditions.{truth, meets};
ghost use Rattle.sql_answer.specs.Truth.{No, Unknown, Yes};
ghost use Rattle.sql_answer.specs.Worked.{int, minus_one, most, ann, bob, eve, schema, versions, id, v, compares, both_conditions, plain_query, by_customer, by_v, ids_by_v, counted, raise, raise_without_id, tells, item};

/// On the row 2|null of t: a comparison with NULL is unknown, also negated; OR is true by its other part,
/// and AND is not; `is null` is true; WHERE does not keep the row.
pub fn null_is_unknown()
    ensures compared { truth (compares cmp.Eq v 3) ((int 2 ∷ Null ∷ []) ∷ []) ≡ Unknown }
    ensures negated { truth (NotOf (compares cmp.Eq v 3)) ((int 2 ∷ Null ∷ []) ∷ []) ≡ Unknown }
    ensures either { truth (AnyOf (both_conditions (compares cmp.Eq v 3) (compares cmp.Eq id 2))) ((int 2 ∷ Null ∷ []) ∷ []) ≡ Yes }
    ensures each { truth (AllOf (both_conditions (compares cmp.Eq v 3) (compares cmp.Eq id 2))) ((int 2 ∷ Null ∷ []) ∷ []) ≡ Unknown }
    ensures refuted { truth (AllOf (both_conditions (compares cmp.Eq v 3) (compares cmp.Eq id 1))) ((int 2 ∷ Null ∷ []) ∷ []) ≡ No }
    ensures tested { truth (TestsNull (operand.Column v) false) ((int 2 ∷ Null ∷ []) ∷ []) ≡ Yes }
    ensures left_out { meets (Some (NotOf (compares cmp.Eq v 3))) ((int 2 ∷ Null ∷ []) ∷ []) ≡ false }
{}

/// NULL is skipped, no value sums up to NULL, and only the total has to stay within 64 bits.
pub fn sums_skip_null()
    ensures skipped { sum_of (integers (int 1 ∷ Null ∷ int 2 ∷ [])) ≡ Some (int 3) }
    ensures nothing { sum_of (integers (Null ∷ [])) ≡ Some Null }
    ensures past { sum_of (integers (most ∷ int 1 ∷ [])) ≡ None }
    ensures back { sum_of (integers (most ∷ int 1 ∷ minus_one ∷ [])) ≡ Some most }
    ensures back_first { sum_of (integers (minus_one ∷ most ∷ int 1 ∷ [])) ≡ Some most }
    ensures least { least (known (Null ∷ bob ∷ ann ∷ [])) ≡ ann }
    ensures greatest { greatest (known (Null ∷ bob ∷ ann ∷ [])) ≡ bob }
{}

/// A join with groups and an order, with and without LIMIT. The customer without orders is in no group.
pub fn joins_are_grouped_and_ordered()
    ensures falling { answer schema versions [] (Ok (SelectOf (by_customer true None)))
        ≡ tells (reply.Row (ann ∷ int 2 ∷ int 17 ∷ []) ∷ reply.Row (bob ∷ int 2 ∷ int 5 ∷ []) ∷ reply.Done 2 ∷ []) }
    ensures rising { answer schema versions [] (Ok (SelectOf (by_customer false None)))
        ≡ tells (reply.Row (bob ∷ int 2 ∷ int 5 ∷ []) ∷ reply.Row (ann ∷ int 2 ∷ int 17 ∷ []) ∷ reply.Done 2 ∷ []) }
    ensures first { answer schema versions [] (Ok (SelectOf (by_customer true (Some 1))))
        ≡ tells (reply.Row (ann ∷ int 2 ∷ int 17 ∷ []) ∷ reply.Done 1 ∷ []) }
    ensures none { answer schema versions [] (Ok (SelectOf (by_customer true (Some 0)))) ≡ tells (reply.Done 0 ∷ []) }
    ensures all { answer schema versions [] (Ok (SelectOf (by_customer true (Some 9))))
        ≡ tells (reply.Row (ann ∷ int 2 ∷ int 17 ∷ []) ∷ reply.Row (bob ∷ int 2 ∷ int 5 ∷ []) ∷ reply.Done 2 ∷ []) }
{}

/// Groups come in the order of their first rows, NULL is a group, and rows that ORDER BY does not tell
/// apart stay in their order, NULL first. Aggregates without GROUP BY give one row, also of no row.
pub fn groups_and_orders()
    ensures groups { answer schema versions [] (Ok (SelectOf by_v))
        ≡ tells (reply.Row (int 10 ∷ int 2 ∷ []) ∷ reply.Row (Null ∷ int 1 ∷ []) ∷ reply.Row (most ∷ int 1 ∷ []) ∷ reply.Done 3 ∷ []) }
    ensures rising { answer schema versions [] (Ok (SelectOf (ids_by_v false)))
        ≡ tells (reply.Row (int 2 ∷ []) ∷ reply.Row (int 1 ∷ []) ∷ reply.Row (int 3 ∷ []) ∷ reply.Row (int 4 ∷ []) ∷ reply.Done 4 ∷ []) }
    ensures falling { answer schema versions [] (Ok (SelectOf (ids_by_v true)))
        ≡ tells (reply.Row (int 4 ∷ []) ∷ reply.Row (int 1 ∷ []) ∷ reply.Row (int 3 ∷ []) ∷ reply.Row (int 2 ∷ []) ∷ reply.Done 4 ∷ []) }
    ensures some { answer schema versions [] (Ok (SelectOf (counted (Some (compares cmp.Le id 3)))))
        ≡ tells (reply.Row (int 3 ∷ int 20 ∷ int 10 ∷ int 10 ∷ []) ∷ reply.Done 1 ∷ []) }
    ensures no_row { answer schema versions [] (Ok (SelectOf (counted (Some (compares cmp.Gt id 9)))))
        ≡ tells (reply.Row (int 0 ∷ Null ∷ Null ∷ Null ∷ []) ∷ reply.Done 1 ∷ []) }
    ensures overflow { answer schema versions [] (Ok (SelectOf (counted None))) ≡ Fails error.Overflow }
{}

/// An update of each row whose one sum leaves 64 bits fails, and of the rows below it is done. On one row
/// overflow comes before notnull; among rows the first with an error decides.
pub fn writes_fail_by_their_first_error()
    ensures overflow { answer schema versions [] (Ok (raise None)) ≡ Fails error.Overflow }
    ensures done { answer schema versions [] (Ok (raise (Some (compares cmp.Le id 2))))
        ≡ Gives (record { replies = reply.Changed 2 ∷ []; uses = [] })
        (op.Update 0 (Base 1) (int 1 ∷ int 10 ∷ []) (int 1 ∷ int 11 ∷ []) ∷ op.Update 0 (Base 2) (int 2 ∷ Null ∷ []) (int 2 ∷ Null ∷ []) ∷ []) }
    ensures one_row { answer schema versions [] (Ok (raise_without_id (Some (compares cmp.Eq id 4)))) ≡ Fails error.Overflow }
    ensures first_row { answer schema versions [] (Ok (raise_without_id None)) ≡ Fails error.NotNull }
    ensures inserted { answer schema versions [] (Ok (InsertInto 0 ((int 5 ∷ Null ∷ []) ∷ (Null ∷ int 5 ∷ []) ∷ []))) ≡ Fails error.NotNull }
    ensures state { answer schema versions [] (Ok BeginIt) ≡ tells (reply.Error error.State ∷ []) }
{}

/// A row of the transaction's own is seen behind those of the base; an update of it stays an insert, and
/// its delete leaves nothing.
pub fn own_rows_are_seen()
    ensures seen { answer schema versions (op.Insert 0 (int 5 ∷ int 1 ∷ []) ∷ []) (Ok (SelectOf (plain_query (0 ∷ []) (items.Column id ∷ []) (Some (compares cmp.Gt id 2)))))
        ≡ Gives (record { replies = reply.Row (int 3 ∷ []) ∷ reply.Row (int 4 ∷ []) ∷ reply.Row (int 5 ∷ []) ∷ reply.Done 3 ∷ []; uses = [] }) (op.Insert 0 (int 5 ∷ int 1 ∷ []) ∷ []) }
    ensures updated { answer schema versions (op.Insert 0 (int 5 ∷ int 1 ∷ []) ∷ []) (Ok (raise (Some (compares cmp.Eq id 5))))
        ≡ Gives (record { replies = reply.Changed 1 ∷ []; uses = [] }) (op.Insert 0 (int 5 ∷ int 2 ∷ []) ∷ []) }
    ensures deleted { answer schema versions (op.Insert 0 (int 5 ∷ int 1 ∷ []) ∷ []) (Ok (DeleteFrom 0 (Some (compares cmp.Eq id 5)))) ≡ Gives (record { replies = reply.Changed 1 ∷ []; uses = [] }) [] }
{}

/// SELECTV uses the versions of the combinations that it finds, in their order, also behind LIMIT.
pub fn selectv_uses_what_it_finds()
    ensures { answer schema versions [] (Ok (SelectOf (record (by_customer true (Some 1)) { selectv = true })))
        ≡ Gives (record {
          replies = reply.Row (ann ∷ int 2 ∷ int 17 ∷ []) ∷ reply.Done 1 ∷ [];
          uses = item 1 5 ∷ item 2 8 ∷ item 1 5 ∷ item 2 10 ∷ item 1 6 ∷ item 2 9 ∷ item 1 6 ∷ item 2 11 ∷ [];
        }) [] }
{}
