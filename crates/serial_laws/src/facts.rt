//! Worked facts: what two transactions read and change (`specs/Worked.antt`).
ghost use Rattle.std.specs.Prelude.{◌≡◌, true, false, [], ◌∷◌};
ghost use Rattle.cdb_values.specs.declared.replies.Reply.TheVariants as reply;
ghost use Rattle.sql_answer.specs.Worked.{int, tells};
ghost use Rattle.query_laws.specs.Intervals.{Free, AtLeast, Above};
ghost use Rattle.query_laws.specs.Worked.{keyed_tables, interval};
ghost use Rattle.serial_laws.specs.Changed.{changes_touch, changes_at};
ghost use Rattle.serial_laws.specs.Histories.{statements_alone, rows_at};
ghost use Rattle.serial_laws.specs.Worked.{beginning, skew, schema_again, all_read, one_read, set_to_0, from_id, told_two};

/// Write skew. The second transaction reads all rows from id 1 on and the row that it updates (`read`). The
/// entry of the first changes a row there (`touched`), and none behind it (`outside`). What the second was
/// told at its begin (`then`) is not what it would be told right before its entry (`later`), where the changed
/// row is the last version.
pub fn write_skew_is_seen()
    ensures read { (statements_alone keyed_tables (rows_at keyed_tables beginning skew 2) (all_read ∷ set_to_0 2 ∷ [])).ranges ≡ from_id (AtLeast (int 1)) ∷ interval 0 (int 2 ∷ []) Free Free ∷ [] }
    ensures touched { changes_touch keyed_tables (from_id (AtLeast (int 1))) (changes_at keyed_tables beginning skew 3)
        ≡ true }
    ensures outside { changes_touch keyed_tables (from_id (Above (int 1))) (changes_at keyed_tables beginning skew 3)
        ≡ false }
    ensures then { (statements_alone keyed_tables (rows_at keyed_tables beginning skew 2) (all_read ∷ [])).outcomes ≡ told_two (int 1 ∷ int 10 ∷ []) (int 2 ∷ int 20 ∷ []) ∷ [] }
    ensures later { (statements_alone keyed_tables (rows_at keyed_tables beginning skew 3) (all_read ∷ [])).outcomes ≡ told_two (int 2 ∷ int 20 ∷ []) (int 1 ∷ int 0 ∷ []) ∷ [] }
{}

/// Why the schema's entry has to be the first position of all: one in the middle changes nothing (`untouched`),
/// and yet a transaction that began before it would be told other rows right before its own entry.
pub fn the_schema_has_to_be_first()
    ensures untouched { changes_touch keyed_tables (interval 0 (int 1 ∷ []) Free Free) (changes_at keyed_tables beginning schema_again 3) ≡ false }
    ensures then { (statements_alone keyed_tables (rows_at keyed_tables beginning schema_again 2) (one_read ∷ [])).outcomes ≡ tells (reply.Row (int 1 ∷ []) ∷ reply.Done 1 ∷ []) ∷ [] }
    ensures later { (statements_alone keyed_tables (rows_at keyed_tables beginning schema_again 3) (one_read ∷ [])).outcomes ≡ tells (reply.Done 0 ∷ []) ∷ [] }
{}
