//! Laws of languages, each a clause of a function that does nothing.

ghost use Rattle.std.specs.Prelude.{◌≡◌, ◌++◌, ◌∷◌, [], ℕ, List, Bool, true, false, option_map};
ghost use Rattle.std.specs.List.{AllByRecursion};
ghost use Rattle.cdb_values.specs.Changes.{changes_of, genids_taken};
ghost use Rattle.cdb_values.specs.Rows.{Rows, apply_all};
ghost use Rattle.cdb_values.specs.declared.items.Interval.{Interval};
ghost use Rattle.cdb_values.specs.declared.rows.Change.{Change};
ghost use Rattle.cdb_values.specs.declared.rows.Level.TheVariants.{Snapshot};
ghost use Rattle.cdb_values.specs.declared.rows.RowOp.{RowOp};
ghost use Rattle.cdb_values.specs.declared.rows.Version.{Version};
ghost use Rattle.cdb_values.specs.declared.tables.TableDef.{TableDef};
ghost use Rattle.cdb_values.specs.declared.replies.Reply.{Reply};
ghost use Rattle.session_language.specs.Intervals.{changes_touch, HoldsTheSame};
ghost use Rattle.session_language.specs.Language.{Language, Answered, alone, alone_from};
ghost use Rattle.session_language.specs.Replies.{are_up_to};
ghost use Rattle.session_language.specs.Serial.{IsByReads, IsSound, IsTrueOp, answers_on, lasting, without_failures};
ghost use Rattle.session_language.specs.Touched.{TheVersion, first_touched, first_used, used_at, versions_used};

/// A transaction that is run alone with a text more is told what it was told before and then the reply to that text, which
/// is answered behind the operations before it, and leaves the operations after it.
#[tactic(auto, using(crate::proofs::AnswerLaws::replies_more, crate::proofs::AnswerLaws::ops_more))]
pub fn texts_are_answered_in_order()
    ensures replies { (language : Language) (tables : List TableDef) (versions : List (List Version)) (done : List RowOp) (texts : List (List ℕ)) (text : List ℕ) → (alone_from language tables versions done (texts ++ text ∷ [])).replies ≡ (alone_from language tables versions done texts).replies ++ (language.answer tables versions (alone_from language tables versions done texts).ops text).replies }
    ensures ops { (language : Language) (tables : List TableDef) (versions : List (List Version)) (done : List RowOp) (texts : List (List ℕ)) (text : List ℕ) → (alone_from language tables versions done (texts ++ text ∷ [])).ops ≡ (language.answer tables versions (alone_from language tables versions done texts).ops text).ops }
{}

/// Of two lists of replies that begin one longer list, and that both go up to their first last reply, each is the other. So
/// what a line is told ends at one place, and no line is told nothing.
#[tactic(auto, using(crate::proofs::UpToLaws::up_to_same))]
pub fn replies_end_at_one_place()
    ensures same { (is_last : Reply → Bool) (replies others more rest : List Reply) → are_up_to is_last replies ≡ true → are_up_to is_last others ≡ true → replies ++ more ≡ others ++ rest → replies ≡ others }
{}

/// At level snapshot a transaction uses versions alone: the first that changes touch is the first that they take away.
#[tactic(auto, using(crate::proofs::UsedLaws::snapshot_uses))]
pub fn snapshots_use_versions_alone()
    ensures versions { (tables : List TableDef) (changes : List Change) (ran : Answered) → first_used tables changes (used_at Snapshot ran) ≡ option_map TheVersion (first_touched (genids_taken changes) (versions_used ran)) }
{}

/// What an interval holds stays where the changes of operations, which name the rows of their targets rightly, do not touch it.
#[tactic(auto, using(crate::proofs::SoundLaws::unchanged_stays))]
pub fn untouched_intervals_stay()
    ensures stays { (tables : List TableDef) (interval : Interval) (rows : Rows) (ops : List RowOp) → AllByRecursion (IsTrueOp rows) ops → changes_touch tables interval (changes_of ops rows.next) ≡ false → HoldsTheSame tables rows (apply_all rows ops) interval }
{}

/// Rows whose genids were given, each to one row, stay so.
#[tactic(auto, using(crate::proofs::SoundLaws::sound_stays))]
pub fn rows_stay_sound()
    ensures sound { (rows : Rows) (ops : List RowOp) → IsSound rows → IsSound (apply_all rows ops) }
{}

/// A transaction that is answered on other rows as it was, but for the texts that failed, has the same operations there.
#[tactic(auto, using(crate::proofs::SerialLaws::ops_same))]
pub fn operations_stay_without_failures()
    ensures same { (language : Language) (tables : List TableDef) → IsByReads language tables → (rows others : Rows) (texts : List (List ℕ)) → answers_on language tables others (lasting language tables rows texts) ≡ without_failures (answers_on language tables rows texts) → (alone language tables others (lasting language tables rows texts)).ops ≡ (alone language tables rows texts).ops }
{}
