//! What a session's statements come to.
ghost use Rattle.std.specs.Prelude.{◌≡◌, ◌++◌, ℕ, [], List, map};
ghost use Rattle.cdb_values.specs.declared.items.GenidItem.{GenidItem};
ghost use Rattle.cdb_values.specs.declared.items.Interval.{Interval};
ghost use Rattle.cdb_values.specs.declared.rows.Change.{Change};
ghost use Rattle.cdb_values.specs.declared.rows.Level.{Level};
ghost use Rattle.cdb_values.specs.declared.rows.Version.{Version};
ghost use Rattle.cdb_values.specs.declared.tables.TableDef.{TableDef};
ghost use Rattle.phys_log.specs.declared.entries.CommitId.{CommitId};
ghost use Rattle.cdb_values.specs.declared.replies.Reply.{Reply};
ghost use Rattle.session_language.specs.Touched.{TheRange, TheVersion, first_used};
ghost use Rattle.osql_session.specs.Courses.{IsAfter, IsAlone, meanings_of};
ghost use Rattle.osql_session.specs.Items.{AreApart, is_among, without_repeats};
ghost use Rattle.osql_session.specs.Sessions.{Session, new_session};

/// A session that has said nothing stands where a run of no statements does (`begins`). One that stands where a run of
/// what its texts mean does has told what a transaction of these texts that runs alone is told, and has its operations
/// and what it uses (`alone`). That each statement more keeps it there is a clause of `OsqlSession::statement`.
#[tactic(auto, using(crate::proofs::CourseLemmas::new_is_after, crate::proofs::CourseLemmas::after_is_alone))]
pub fn a_session_is_a_transaction_alone()
    ensures begins { (tables : List TableDef) (versions : List (List Version)) (id : CommitId) (begin : ℕ) (level : Level)
        → IsAfter tables versions [] [] (new_session id begin level) }
    ensures alone { (tables : List TableDef) (versions : List (List Version)) (texts : List (List ℕ)) (told : List Reply) (s : Session)
        → IsAfter tables versions (meanings_of tables texts) told s → IsAlone tables versions texts told s }
{}

/// Versions without repeats are the same versions, and none of them comes twice. What changes touch first of them, and of
/// intervals behind them, is what they touch first of all.
#[tactic(auto, using(crate::proofs::RepeatLemmas::same_among, crate::proofs::RepeatLemmas::none_twice, crate::proofs::TouchedLemmas::used_once))]
pub fn repeats_are_left_out()
    ensures same { (items : List GenidItem) (item : GenidItem) → is_among (without_repeats items) item ≡ is_among items item }
    ensures apart { (items : List GenidItem) → AreApart (without_repeats items) }
    ensures touched { (tables : List TableDef) (changes : List Change) (genids : List GenidItem) (ranges : List Interval)
        → first_used tables changes (map TheVersion (without_repeats genids) ++ map TheRange ranges)
        ≡ first_used tables changes (map TheVersion genids ++ map TheRange ranges) }
{}
