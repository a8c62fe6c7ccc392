//! What holds of walks by intervals, and of transactions over what they read.
ghost use Rattle.std.specs.Prelude.{◌≡◌, ℕ, List, [], true, false, map, Option};
ghost use Rattle.std.specs.List.{AllByRecursion};
ghost use Rattle.cdb_values.specs.Rows.{Rows, apply_all};
ghost use Rattle.cdb_values.specs.declared.rows.RowOp.{RowOp};
ghost use Rattle.cdb_values.specs.declared.rows.Version.{Version};
ghost use Rattle.cdb_values.specs.declared.tables.TableDef.{TableDef};
ghost use Rattle.session_language.specs.Intervals as told;
ghost use Rattle.session_language.specs.Language.{alone, alone_from};
ghost use Rattle.session_language.specs.Serial.{answers_on, lasting, without_failures};
ghost use Rattle.sql_answer.specs.Answers.{Meaning, answer};
ghost use Rattle.sql_answer.specs.Combinations.{Seen, met};
ghost use Rattle.sql_answer.specs.Language.{Binder, meaning, language_of};
ghost use Rattle.sql_bind.specs.Bound.{Cond};
ghost use Rattle.query_laws.specs.Alone.{run_answered, reads_of};
ghost use Rattle.query_laws.specs.Conjuncts.{conjuncts};
ghost use Rattle.query_laws.specs.Intervals.{Interval};
ghost use Rattle.query_laws.specs.Runs.{ranges_of, run_from, lasting_statements, run_without_failures};
ghost use Rattle.query_laws.specs.Stable.{HoldsTheSame, ShowsTheSame};
ghost use Rattle.query_laws.specs.Touched.{touches};
ghost use Rattle.query_laws.specs.Walks.{walked, ranges_read, ranges_by};

/// The walk by intervals finds the combinations for which WHERE is true, all of them and in the same order,
/// whatever the tables, their keys and the rows are.
pub fn a_walk_finds_what_is_met()
    ensures { (tables : List TableDef) (view : ℕ → List Seen) (places : List ℕ) (condition : Option Cond) → walked tables view places condition ≡ met view places condition }
{}

/// The intervals that a walk reads are, place by place, those of the outer combinations of the place.
pub fn a_walk_reads_for_outer_combinations()
    ensures { (tables : List TableDef) (view : ℕ → List Seen) (places : List ℕ) (condition : Option Cond) → ranges_read tables view places condition ≡ ranges_by tables (conjuncts condition) view [] places }
{}

/// Where the intervals that a walk reads show the same rows in another view, the same combinations meet the
/// WHERE there (`met`), and the same intervals are read (`read`).
pub fn a_walk_depends_on_what_it_reads()
    ensures met { (tables : List TableDef) (view other : ℕ → List Seen) (places : List ℕ) (condition : Option Cond)
        → AllByRecursion (ShowsTheSame tables view other) (ranges_read tables view places condition) → met other places condition ≡ met view places condition }
    ensures read { (tables : List TableDef) (view other : ℕ → List Seen) (places : List ℕ) (condition : Option Cond)
        → AllByRecursion (ShowsTheSame tables view other) (ranges_read tables view places condition) → ranges_read tables other places condition ≡ ranges_read tables view places condition }
{}

/// Operations that touch no version of an interval leave it with the versions that it had.
pub fn untouched_intervals_stay()
    ensures { (tables : List TableDef) (interval : Interval) (rows : Rows) (ops : List RowOp) → touches tables interval rows ops ≡ false → HoldsTheSame tables rows (apply_all rows ops) interval }
{}

/// A statement is answered alike (`answer`) on rows that its intervals do not tell from those at its begin.
/// So is a transaction, statement by statement, without those that failed by rows (`run`): with the same
/// operations, the same replies and the same intervals read.
pub fn answers_depend_on_what_is_read()
    ensures answer { (tables : List TableDef) (rows others : Rows) (ops : List RowOp) (statement : Meaning)
        → AllByRecursion (HoldsTheSame tables rows others) (ranges_of tables rows.tables ops statement) → answer tables others.tables ops statement ≡ answer tables rows.tables ops statement }
    ensures run { (tables : List TableDef) (rows others : Rows) (ops : List RowOp) (statements : List Meaning)
        → AllByRecursion (HoldsTheSame tables rows others) (run_from tables rows.tables ops statements).ranges
        → run_from tables others.tables ops (lasting_statements tables rows.tables ops statements) ≡ run_without_failures (run_from tables rows.tables ops statements) }
{}

/// A transaction run alone in the language of SQL, however statements are bound, is the run of what its
/// texts mean: the same replies, the same operations, the same versions used, and it failed where one of
/// them did.
pub fn a_transaction_alone_is_a_run()
    ensures { (bind : Binder) (tables : List TableDef) (versions : List (List Version)) (ops : List RowOp) (texts : List (List ℕ))
        → alone_from (language_of bind reads_of) tables versions ops texts ≡ run_answered (run_from tables versions ops (map (meaning bind tables) texts)) }
{}

/// A transaction run alone in the language of SQL, on rows that hold the same in the intervals that it read, is answered there
/// as it was, without the texts that failed (`same`). A text that fails leaves the operations as they are (`fails`).
#[tactic(auto, using(crate::proofs::ReadsLaws::sql_same, crate::proofs::ReadsLaws::sql_fails))]
pub fn sql_is_answered_by_what_it_reads()
    ensures same { (bind : Binder) (tables : List TableDef) (rows others : Rows) (texts : List (List ℕ)) → AllByRecursion (told.HoldsTheSame tables rows others) (alone (language_of bind reads_of) tables rows texts).ranges
        → answers_on (language_of bind reads_of) tables others (lasting (language_of bind reads_of) tables rows texts) ≡ without_failures (answers_on (language_of bind reads_of) tables rows texts) }
    ensures fails { (bind : Binder) (tables : List TableDef) (versions : List (List Version)) (ops : List RowOp) (text : List ℕ)
        → ((language_of bind reads_of).answer tables versions ops text).failed ≡ true → ((language_of bind reads_of).answer tables versions ops text).ops ≡ ops }
{}
