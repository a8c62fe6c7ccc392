//! What makes a history of SQL serial.
ghost use Rattle.std.specs.Prelude.{List};
ghost use Rattle.cdb_values.specs.Rows.{Rows, no_rows, apply_all};
ghost use Rattle.cdb_values.specs.declared.rows.RowOp.{RowOp};
ghost use Rattle.cdb_values.specs.declared.tables.TableDef.{TableDef};
ghost use Rattle.session_language.specs.Serial.{IsByReads, IsSound};
ghost use Rattle.sql_answer.specs.Language.{Binder, language_of};
ghost use Rattle.query_laws.specs.Alone.{reads_of};
ghost use Rattle.serial_laws.specs.Changed.{AllFair, TellsTrue};
ghost use Rattle.serial_laws.specs.Histories.{Entry, Origin, AllRight, IsSerial};

/// A history is serial where the schema's entry, if there is one, is the first position of all, each
/// transaction began after it and before its own entry, and no entry between touched an interval that a
/// transaction at level serializable read: by its changes, over sound rows at the origin (`fair`), or by the
/// rows that the state has, over any rows (`right`). Each such transaction then has, run alone on the rows right
/// before its entry and without the statements that failed, the same operations and the same answers.
pub fn fair_histories_are_serial()
    ensures fair { (tables : List TableDef) (origin : Origin) (es : List Entry) → IsSound origin.rows → AllFair tables origin es → IsSerial tables origin es }
    ensures right { (tables : List TableDef) (origin : Origin) (es : List Entry) → AllRight tables origin es → IsSerial tables origin es }
{}

/// Rows without versions are sound, and operations keep rows so.
pub fn rows_stay_sound()
    ensures none { (tables : List TableDef) → IsSound (no_rows tables) }
    ensures applied { (rows : Rows) (ops : List RowOp) → IsSound rows → IsSound (apply_all rows ops) }
{}

/// A statement's operations name the rows that their targets have, behind operations that do.
pub fn sql_names_old_rows_rightly()
    ensures { (tables : List TableDef) → TellsTrue tables }
{}

/// The language of SQL, however statements are bound, is answered by what it reads: so transactions at level serializable are
/// serial in each lawful report (`report_laws`).
#[tactic(auto, using(crate::proofs::ReadingLemmas::sql_reads))]
pub fn sql_is_by_reads()
    ensures reads { (bind : Binder) (tables : List TableDef) → IsByReads (language_of bind reads_of) tables }
{}
