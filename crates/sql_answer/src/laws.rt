//! What holds of every text and of every statement.
ghost use Rattle.std.specs.Prelude.{◌≡◌, ℕ, ◌↔◌, List, Ok, Err};
ghost use Rattle.std.specs.List.Sorted.{IsStableBy};
ghost use Rattle.cdb_values.specs.Rows.{Rows, view};
ghost use Rattle.cdb_values.specs.declared.rows.RowOp.{RowOp};
ghost use Rattle.session_language.specs.Answers.{Answers};
ghost use Rattle.sql_bind.specs.declared.types.BoundKey.{BoundKey};
ghost use Rattle.sql_grammar.specs.Trees.{Statement};
ghost use Rattle.sql_grammar.specs.Grammar.{StatementS};
ghost use Rattle.sql_reader.specs.Promise.{Spells, IsRefusedAt};
ghost use Rattle.sql_answer.specs.Combinations.{seen, rows_of};
ghost use Rattle.sql_answer.specs.Language.{Binder, IntervalReader, language_of};
ghost use Rattle.sql_answer.specs.Reading.{reading};
ghost use Rattle.sql_answer.specs.Shapes.{Keyed, is_below, ordered, AreInOrder};

/// The reading of a text is the statement that the text spells, or the offset at which the reader refuses it.
pub fn the_reading_is_the_readers()
    // A text reads as the statement that it spells, and spells what it reads as.
    ensures spelled { (text : List ℕ) (x : Statement) → Spells StatementS text x ↔ (reading text ≡ Ok x) }
    // It is refused where the reader refuses it, and nowhere else.
    ensures refused { (text : List ℕ) (at : ℕ) → IsRefusedAt StatementS text at ↔ (reading text ≡ Err at) }
{}

/// The rows that a statement is evaluated on are those of the transaction's view, in its order.
pub fn what_is_seen_is_the_view()
    ensures { (rows : Rows) (ops : List RowOp) (table : ℕ) → rows_of (seen rows.tables ops table) ≡ view rows ops table }
{}

/// The rows that ORDER BY gives are in order, and rows that its keys do not tell apart keep their order. So
/// no row is lost, and none stands twice.
pub fn orders_are_stable()
    ensures in_order { (keys : List BoundKey) (rows : List Keyed) → AreInOrder (is_below keys) (ordered keys rows) }
    ensures stable { (keys : List BoundKey) (rows : List Keyed) → IsStableBy (is_below keys) rows (ordered keys rows) }
{}

/// However statements are bound and whatever they read, each text is answered, by replies that end at the first one that is no
/// row, and of which none begins or ends a transaction.
pub fn sql_is_a_language()
    ensures any { (bind : Binder) (reads : IntervalReader) → Answers (language_of bind reads) }
{}
