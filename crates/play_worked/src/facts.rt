//! Facts of reports as `play` writes them, each a clause of a function that does nothing.

ghost use Rattle.std.specs.Prelude.{◌≡◌, ◌∷◌, [], true, Some, map};
ghost use Rattle.cdb_outside.specs.declared.statuses.Status.TheVariants as status;
ghost use Rattle.cdb_values.specs.Rows.{Rows, no_rows};
ghost use Rattle.report_text.specs.declared.reports.EntryLine.TheVariants.{Setup};
ghost use Rattle.report_text.specs.declared.reports.Report.{Report};
ghost use Rattle.report_worked.specs.Small.{from_log, from_nothing};
ghost use Rattle.report_worked.specs.Worked.{worked_table};
ghost use Rattle.script_form.specs.declared.scripts.Moment.TheVariants as moment;
ghost use Rattle.node_stories.specs.Stories.{falls_at_election, falls_at_election_report, few_at_commit, few_at_commit_report, few_opened, few_opened_report, based_on_none_report, followed_later, followed_later_report, kept_by_start, kept_by_start_report, late_majority, late_majority_report, led_later, led_later_report, opened_later, opened_later_report, shipped, shipped_report, tail_stands, tail_stands_report};
ghost use Rattle.node_stories.specs.StoriesWrong.{stops_a_replica, stops_a_replica_report};
ghost use Rattle.play_order.specs.Openings.{IsToldAtOpening, MayPlay, first_unfit, peer_of, read_late};
ghost use Rattle.play_order.specs.Openings.Finding.{BadFrame, FailedRead, NotSound, WholeLog};
ghost use Rattle.play_order.specs.Played.{IsPlayedOver};
ghost use Rattle.play_worked.specs.Plays.{no_lines, tail_only, lost_and_dropped_report, lost_and_kept_report, promised_above, promised_above_report, reads_go_on, reads_go_on_report, sent_once, sent_twice, sent_twice_report, skipped_lines, skipped_plain, skipped_report};
ghost use Rattle.play_worked.specs.Stores.{earlier_log, empty_stores, half_read, holding, later_and_shorter, unfit, unread, with_log, with_other};

/// Rows of three nodes that were worked by hand are what `play` writes over empty stores; and a node that stood twice in vain, and so
/// promised above the one that leads.
#[tactic(auto, using(crate::proofs::RowTerms::reads_go_on_is_played, crate::proofs::RowTerms::skipped_lines_is_played, crate::proofs::RowTerms::skipped_plain_is_played, crate::proofs::RowTerms::sent_to_the_next_is_played, crate::proofs::RowTerms::found_by_the_next_is_played, crate::proofs::RowTerms::lost_and_kept_is_played, crate::proofs::RowTerms::lost_and_dropped_is_played, crate::proofs::RowTerms::promised_above_is_played))]
pub fn rows_are_played()
    ensures reads_go_on { IsPlayedOver (from_nothing reads_go_on) (empty_stores 3) reads_go_on_report }
    ensures skipped { IsPlayedOver (from_nothing skipped_lines) (empty_stores 3) skipped_report }
    ensures skipped_without_hasql { IsPlayedOver (from_nothing skipped_plain) (empty_stores 3) skipped_report }
    ensures sent_to_the_next { IsPlayedOver (from_nothing (sent_twice moment.Append)) (empty_stores 3) sent_twice_report }
    ensures found_by_the_next { IsPlayedOver (from_nothing (sent_twice moment.Ship)) (empty_stores 3) sent_twice_report }
    ensures lost_and_kept { IsPlayedOver (from_nothing (sent_once moment.Ship)) (empty_stores 3) lost_and_kept_report }
    ensures lost_and_dropped { IsPlayedOver (from_nothing (sent_once moment.Append)) (empty_stores 3) lost_and_dropped_report }
    ensures promised_above { IsPlayedOver (from_nothing promised_above) (empty_stores 3) promised_above_report }
{}

/// So are stories of openings, elections and faults, over the stores that bring them about.
#[tactic(auto, using(crate::proofs::CornerTerms::late_majority_is_played, crate::proofs::CornerTerms::few_opened_is_played, crate::proofs::CornerTerms::based_on_none_is_played, crate::proofs::CornerTerms::opened_later_is_played, crate::proofs::CornerTerms::led_later_is_played, crate::proofs::CornerTerms::falls_at_election_is_played, crate::proofs::CornerTerms::few_at_commit_is_played, crate::proofs::CornerTerms::tail_stands_is_played, crate::proofs::CornerTerms::kept_by_start_is_played, crate::proofs::CornerTerms::shipped_is_played, crate::proofs::CornerTerms::followed_later_is_played))]
pub fn corners_are_played()
    ensures late_majority { IsPlayedOver (from_nothing late_majority) (WholeLog (holding 0 0 []) [] ∷ unread ∷ unread ∷ []) late_majority_report }
    ensures few_opened { IsPlayedOver (from_nothing few_opened) (empty_stores 3) few_opened_report }
    ensures based_on_none { IsPlayedOver (from_log few_opened 1 (no_rows (worked_table ∷ []))) (empty_stores 3) based_on_none_report }
    ensures opened_later { IsPlayedOver (from_nothing opened_later) (empty_stores 3) opened_later_report }
    ensures led_later { IsPlayedOver (from_log led_later 1 (no_rows (worked_table ∷ []))) (empty_stores 3) led_later_report }
    ensures falls_at_election { IsPlayedOver (from_nothing falls_at_election) (empty_stores 5) falls_at_election_report }
    ensures few_at_commit { IsPlayedOver (from_nothing few_at_commit) (empty_stores 3) few_at_commit_report }
    ensures tail_stands { IsPlayedOver (from_nothing tail_stands) (empty_stores 3) tail_stands_report }
    ensures kept_by_start { IsPlayedOver (from_nothing kept_by_start) (empty_stores 1) kept_by_start_report }
    ensures shipped { IsPlayedOver (from_nothing shipped) (empty_stores 3) shipped_report }
    ensures followed_later { IsPlayedOver (from_log followed_later 2 (no_rows (worked_table ∷ []))) (with_log 1 1 (Setup 1 ∷ []) ∷ FailedRead (holding 1 1 (Setup 1 ∷ [])) true ∷ FailedRead (holding 1 1 earlier_log) true ∷ []) followed_later_report }
{}

/// Reports that are wrong in one line are not what `play` writes: the schema's entry told as one before the run; the longest log, where
/// another one was accepted later; any report of stores that do not fit; and an arm that stops a node which does not lead, which is
/// lawful and in the order of play.
pub fn wrong_plays_are_refused()
    ensures based_on_its_own { (rows : Rows) → IsPlayedOver (from_log no_lines 1 rows) (empty_stores 3) (tail_only (Some 1) [] 1) → ⊥ }
    ensures longest_wins { (rows : Rows) → IsPlayedOver (from_log no_lines 2 rows) later_and_shorter (tail_only (Some 2) [] 2) → ⊥ }
    ensures unfit_reported { (report : Report) → IsPlayedOver (from_nothing reads_go_on) unfit report → ⊥ }
    ensures stops_a_replica { IsPlayedOver (from_nothing stops_a_replica) (empty_stores 3) stops_a_replica_report → ⊥ }
{}

/// What is told at an opening in place of a report: of a bad frame before a log that is not sound, of that before stores that do not
/// fit, and of these before tables that differ from those of the best log.
#[tactic(auto, using(crate::proofs::OpeningFacts::differs_from_the_best))]
pub fn stores_are_refused()
    ensures bad { IsToldAtOpening reads_go_on (NotSound ∷ BadFrame 27 ∷ BadFrame 40 ∷ []) (status.StoreRefused 2 27) }
    ensures unsound { IsToldAtOpening reads_go_on (WholeLog (holding 5 5 []) [] ∷ NotSound ∷ WholeLog (holding 0 0 []) [] ∷ []) (status.Unsound 2) }
    ensures unfit { IsToldAtOpening reads_go_on unfit (status.Unsound 1) }
    ensures differs { IsToldAtOpening reads_go_on (with_log 2 2 (Setup 1 ∷ []) ∷ with_other 2 2 earlier_log ∷ WholeLog (holding 2 0 []) [] ∷ []) (status.Refused 4 9) }
{}

/// And what is not: another node's number, fit before sound, a store that was not read and may have promised, until it is read, and the tables of a log
/// that is not the best.
#[tactic(auto, using(crate::proofs::OpeningFacts::not_the_first, crate::proofs::OpeningFacts::not_unfit_first, crate::proofs::OpeningFacts::half_read_is_played, crate::proofs::OpeningFacts::read_late_is_unfit, crate::proofs::OpeningFacts::other_is_not_the_best))]
pub fn one_answer_comes_at_an_opening()
    ensures not_the_first { IsToldAtOpening reads_go_on (NotSound ∷ BadFrame 27 ∷ BadFrame 40 ∷ []) (status.Unsound 1) → ⊥ }
    ensures not_unfit_first { IsToldAtOpening reads_go_on (WholeLog (holding 5 5 []) [] ∷ NotSound ∷ WholeLog (holding 0 0 []) [] ∷ []) (status.Unsound 1) → ⊥ }
    ensures half_read { MayPlay reads_go_on half_read }
    ensures read_late { first_unfit 3 (read_late half_read (map peer_of (empty_stores 3))) ≡ Some 1 }
    ensures not_the_best { MayPlay reads_go_on (with_other 2 2 earlier_log ∷ with_log 3 3 (Setup 1 ∷ []) ∷ WholeLog (holding 3 0 []) [] ∷ []) }
{}
