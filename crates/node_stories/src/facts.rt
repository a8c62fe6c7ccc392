//! Stories of several nodes: facts of their reports, each a clause of a function that does nothing.

ghost use Rattle.std.specs.Prelude.{◌∷◌, []};
ghost use Rattle.cdb_values.specs.Rows.{no_rows};
ghost use Rattle.report_worked.specs.Small.{from_log, from_nothing};
ghost use Rattle.report_worked.specs.Worked.{worked_table, insert_select, two_updates, nothing_said, lost_insert_report};
ghost use Rattle.report_worked.specs.WorkedWrong.{late, serial, begun_behind, opened_while_down};
ghost use Rattle.node_reports.specs.Lawful.{LawfulOfNodes};
ghost use Rattle.node_reports.specs.Order.{InNodesOrder};
ghost use Rattle.node_reports.specs.Workers.{LawfulByWorkers};
ghost use Rattle.node_stories.specs.Stories.{armed_again, armed_again_report, over_a_row, armed_append, armed_append_report, armed_row, armed_row_report, armed_row_survives, armed_row_survives_report, based_on_none_report, came_back, came_back_report, ends_undurable, ends_undurable_report, falls_and_stops, falls_and_stops_report, falls_at_election, falls_at_election_report, falls_while_down, falls_while_down_report, fed_twice, fed_twice_report, few_at_commit, few_at_commit_report, few_but_read, few_but_read_report, few_opened, few_opened_report, followed_later, followed_later_report, kept_by_start, kept_by_start_report, late_majority, late_majority_report, led_later, led_later_report, lost_stands, lost_stands_report, master_falls, master_falls_report, moves_at_rollback, moves_at_rollback_report, moves_on_one, moves_on_one_report, read_while_few, read_while_few_report, opened_later, opened_later_report, other_basis, other_tables_report, replica_falls, replica_falls_report, sent_again, sent_again_report, shipped, shipped_report, tail_stands, tail_stands_report, taken_and_fallen, taken_and_fallen_report, wanting, wanting_report};
ghost use Rattle.node_stories.specs.StoriesWrong.{two_selects_at_two, short_while_all_up, lost_again, told_again, entered_again, armed_insert, ship_not_fired, start_then_stop, up_by_an_earlier_start, barred_arm, stopped_before_the_barrier, rolled_and_lost, entry_of_a_rollback, watched_insert, too_many_taken, insert_and_select, read_ahead, insert_at, armed_select, started, other_node, not_lost, few_committed, unarmed_stop, unacknowledged, not_fired, no_schema, lost_by_another_line, short_without_changes, two_of_three, one_of_one, no_base, two_schemas, lost_unbegun, behind_a_gap, stopped_while_down, up_though_up, begun_at_itself, miscounted, lost_at_another, lost_by_the_stop, named_by_the_script, ends_early, at_another_level, begun_below, lost_with_hasql, shipped_nothing, short_at_a_read, stopped_at_a_duplicate, committed_over_a_row, wanting_again, fed_behind, stops_a_replica, stops_a_replica_report, unshipped_stands, unshipped_stands_report};

/// Stories of several nodes are in the order of play.
#[tactic(auto, using(crate::proofs::StoryTerms::replica_falls_is_in_order, crate::proofs::StoryTerms::master_falls_is_in_order, crate::proofs::StoryTerms::came_back_is_in_order, crate::proofs::ArmTerms::armed_row_is_in_order, crate::proofs::ArmTerms::armed_row_survives_is_in_order, crate::proofs::ArmTerms::armed_append_is_in_order, crate::proofs::StoryTerms::kept_by_start_is_in_order, crate::proofs::OpeningTerms::late_majority_is_in_order, crate::proofs::ArmTerms::shipped_is_in_order, crate::proofs::StoryTerms::few_at_commit_is_in_order, crate::proofs::StoryTerms::few_but_read_is_in_order, crate::proofs::StoryTerms::read_while_few_is_in_order, crate::proofs::StoryTerms::fed_twice_is_in_order, crate::proofs::StoryTerms::moves_on_one_is_in_order, crate::proofs::ArmTerms::lost_stands_is_in_order, crate::proofs::StoryTerms::falls_while_down_is_in_order, crate::proofs::StoryTerms::taken_and_fallen_is_in_order, crate::proofs::ArmTerms::falls_and_stops_is_in_order, crate::proofs::ArmTerms::sent_again_is_in_order, crate::proofs::StoryTerms::tail_stands_is_in_order))]
pub fn stories_are_in_order()
    ensures replica_falls { InNodesOrder (from_nothing replica_falls) replica_falls_report }
    ensures master_falls { InNodesOrder (from_nothing master_falls) master_falls_report }
    ensures came_back { InNodesOrder (from_nothing came_back) came_back_report }
    ensures armed_row { InNodesOrder (from_nothing armed_row) armed_row_report }
    ensures armed_row_survives { InNodesOrder (from_nothing armed_row_survives) armed_row_survives_report }
    ensures armed_append { InNodesOrder (from_nothing armed_append) armed_append_report }
    ensures kept_by_start { InNodesOrder (from_nothing kept_by_start) kept_by_start_report }
    ensures late_majority { InNodesOrder (from_nothing late_majority) late_majority_report }
    ensures shipped { InNodesOrder (from_nothing shipped) shipped_report }
    ensures few_at_commit { InNodesOrder (from_nothing few_at_commit) few_at_commit_report }
    ensures few_but_read { InNodesOrder (from_nothing few_but_read) few_but_read_report }
    ensures read_while_few { InNodesOrder (from_nothing read_while_few) read_while_few_report }
    ensures fed_twice { InNodesOrder (from_nothing fed_twice) fed_twice_report }
    ensures moves_on_one { InNodesOrder (from_nothing moves_on_one) moves_on_one_report }
    ensures lost_stands { InNodesOrder (from_nothing lost_stands) lost_stands_report }
    ensures falls_while_down { InNodesOrder (from_nothing falls_while_down) falls_while_down_report }
    ensures taken_and_fallen { InNodesOrder (from_nothing taken_and_fallen) taken_and_fallen_report }
    ensures falls_and_stops { InNodesOrder (from_nothing falls_and_stops) falls_and_stops_report }
    ensures sent_again { InNodesOrder (from_nothing sent_again) sent_again_report }
    ensures tail_stands { InNodesOrder (from_nothing tail_stands) tail_stands_report }
{}

/// Stories of openings, of moves and of elections are in the order of play.
#[tactic(auto, using(crate::proofs::OpeningTerms::few_opened_is_in_order, crate::proofs::OpeningTerms::based_on_none_is_in_order, crate::proofs::OpeningTerms::opened_later_is_in_order, crate::proofs::StoryTerms::moves_at_rollback_is_in_order, crate::proofs::OpeningTerms::falls_at_election_is_in_order, crate::proofs::StoryTerms::wanting_is_in_order))]
pub fn openings_are_in_order()
    ensures few_opened { InNodesOrder (from_nothing few_opened) few_opened_report }
    ensures based_on_none { InNodesOrder (from_log few_opened 1 (no_rows (worked_table ∷ []))) based_on_none_report }
    ensures opened_later { InNodesOrder (from_nothing opened_later) opened_later_report }
    ensures moves_at_rollback { InNodesOrder (from_nothing moves_at_rollback) moves_at_rollback_report }
    ensures falls_at_election { InNodesOrder (from_nothing falls_at_election) falls_at_election_report }
    ensures wanting { InNodesOrder (from_nothing wanting) wanting_report }
{}

/// Stories of runs behind a base, over tables or a row of the log before it, and of one that ends with few nodes up,
/// are in the order of play.
#[tactic(auto, using(crate::proofs::OpeningTerms::led_later_is_in_order, crate::proofs::OpeningTerms::followed_later_is_in_order, crate::proofs::OpeningTerms::ends_undurable_is_in_order, crate::proofs::OpeningTerms::other_tables_is_in_order, crate::proofs::OpeningTerms::armed_again_is_in_order))]
pub fn bases_are_in_order()
    ensures led_later { InNodesOrder (from_log led_later 1 (no_rows (worked_table ∷ []))) led_later_report }
    ensures followed_later { InNodesOrder (from_log followed_later 2 (no_rows (worked_table ∷ []))) followed_later_report }
    ensures ends_undurable { InNodesOrder (from_nothing ends_undurable) ends_undurable_report }
    ensures other_tables { InNodesOrder other_basis other_tables_report }
    ensures armed_again { InNodesOrder over_a_row armed_again_report }
{}

/// Each of the stories is lawful.
pub fn stories_are_lawful()
    ensures replica_falls { LawfulOfNodes (from_nothing replica_falls) replica_falls_report }
    ensures master_falls { LawfulOfNodes (from_nothing master_falls) master_falls_report }
    ensures came_back { LawfulOfNodes (from_nothing came_back) came_back_report }
    ensures armed_row { LawfulOfNodes (from_nothing armed_row) armed_row_report }
    ensures armed_row_survives { LawfulOfNodes (from_nothing armed_row_survives) armed_row_survives_report }
    ensures armed_append { LawfulOfNodes (from_nothing armed_append) armed_append_report }
    ensures kept_by_start { LawfulOfNodes (from_nothing kept_by_start) kept_by_start_report }
    ensures late_majority { LawfulOfNodes (from_nothing late_majority) late_majority_report }
    ensures shipped { LawfulOfNodes (from_nothing shipped) shipped_report }
    ensures few_at_commit { LawfulOfNodes (from_nothing few_at_commit) few_at_commit_report }
    ensures few_but_read { LawfulOfNodes (from_nothing few_but_read) few_but_read_report }
    ensures read_while_few { LawfulOfNodes (from_nothing read_while_few) read_while_few_report }
    ensures fed_twice { LawfulOfNodes (from_nothing fed_twice) fed_twice_report }
    ensures moves_on_one { LawfulOfNodes (from_nothing moves_on_one) moves_on_one_report }
    ensures lost_stands { LawfulOfNodes (from_nothing lost_stands) lost_stands_report }
    ensures falls_while_down { LawfulOfNodes (from_nothing falls_while_down) falls_while_down_report }
    ensures taken_and_fallen { LawfulOfNodes (from_nothing taken_and_fallen) taken_and_fallen_report }
    ensures falls_and_stops { LawfulOfNodes (from_nothing falls_and_stops) falls_and_stops_report }
    ensures sent_again { LawfulOfNodes (from_nothing sent_again) sent_again_report }
    ensures tail_stands { LawfulOfNodes (from_nothing tail_stands) tail_stands_report }
    ensures few_opened { LawfulOfNodes (from_nothing few_opened) few_opened_report }
    ensures based_on_none { LawfulOfNodes (from_log few_opened 1 (no_rows (worked_table ∷ []))) based_on_none_report }
    ensures opened_later { LawfulOfNodes (from_nothing opened_later) opened_later_report }
    ensures moves_at_rollback { LawfulOfNodes (from_nothing moves_at_rollback) moves_at_rollback_report }
    ensures falls_at_election { LawfulOfNodes (from_nothing falls_at_election) falls_at_election_report }
    ensures wanting { LawfulOfNodes (from_nothing wanting) wanting_report }
    ensures led_later { LawfulOfNodes (from_log led_later 1 (no_rows (worked_table ∷ []))) led_later_report }
    ensures followed_later { LawfulOfNodes (from_log followed_later 2 (no_rows (worked_table ∷ []))) followed_later_report }
    ensures ends_undurable { LawfulOfNodes (from_nothing ends_undurable) ends_undurable_report }
    ensures other_tables { LawfulOfNodes other_basis other_tables_report }
    ensures armed_again { LawfulOfNodes over_a_row armed_again_report }
{}

/// Reports of several nodes that are wrong in one line are not in the order of play.
#[tactic(auto, using(crate::proofs::StoryWrong::other_node_is_not_in_order, crate::proofs::StoryWrong::not_lost_is_not_in_order, crate::proofs::StoryWrong::few_committed_is_not_in_order, crate::proofs::StoryWrong::unarmed_stop_is_not_in_order, crate::proofs::StoryWrong::unacknowledged_is_not_in_order, crate::proofs::StoryWrong::not_fired_is_not_in_order, crate::proofs::StoryWrong::no_schema_is_not_in_order, crate::proofs::StoryWrong::ship_not_fired_is_not_in_order, crate::proofs::StoryWrong::shipped_nothing_is_not_in_order, crate::proofs::StoryWrong::stopped_at_a_duplicate_is_not_in_order))]
pub fn wrong_stories_are_refused()
    ensures other_node { InNodesOrder (from_nothing (insert_at 3 2)) other_node → ⊥ }
    ensures not_lost { InNodesOrder (from_nothing (insert_at 3 2)) not_lost → ⊥ }
    ensures few_committed { InNodesOrder (from_nothing (insert_at 3 1)) few_committed → ⊥ }
    ensures unarmed_stop { InNodesOrder (from_nothing (insert_at 3 2)) unarmed_stop → ⊥ }
    ensures unacknowledged { InNodesOrder (from_nothing (insert_at 1 1)) unacknowledged → ⊥ }
    ensures not_fired { InNodesOrder (from_nothing armed_select) not_fired → ⊥ }
    ensures no_schema { InNodesOrder (from_nothing started) no_schema → ⊥ }
    ensures ship_not_fired { InNodesOrder (from_nothing armed_insert) ship_not_fired → ⊥ }
    ensures shipped_nothing { InNodesOrder (from_nothing armed_insert) shipped_nothing → ⊥ }
    ensures stopped_at_a_duplicate { InNodesOrder over_a_row stopped_at_a_duplicate → ⊥ }
{}

/// With one line or one entry changed these stories are not lawful: by the law on places, on replies, on begins, on the
/// history, on the operator's lines, or on the base and the end.
pub fn changed_stories_are_refused()
    ensures lost_by_another_line { LawfulOfNodes (from_nothing lost_stands) lost_by_another_line → ⊥ }
    ensures short_without_changes { LawfulOfNodes (from_nothing few_but_read) short_without_changes → ⊥ }
    ensures two_of_three { LawfulOfNodes (from_nothing moves_at_rollback) two_of_three → ⊥ }
    ensures one_of_one { LawfulOfNodes (from_nothing taken_and_fallen) one_of_one → ⊥ }
    ensures no_base { LawfulOfNodes (from_log few_opened 1 (no_rows (worked_table ∷ []))) no_base → ⊥ }
    ensures two_schemas { LawfulOfNodes (from_nothing opened_later) two_schemas → ⊥ }
    ensures lost_unbegun { LawfulOfNodes (from_nothing few_opened) lost_unbegun → ⊥ }
    ensures behind_a_gap { LawfulOfNodes (from_log led_later 1 (no_rows (worked_table ∷ []))) behind_a_gap → ⊥ }
    ensures stopped_while_down { LawfulOfNodes (from_nothing falls_while_down) stopped_while_down → ⊥ }
    ensures up_though_up { LawfulOfNodes (from_nothing master_falls) up_though_up → ⊥ }
    ensures begun_at_itself { LawfulOfNodes (from_nothing tail_stands) begun_at_itself → ⊥ }
    ensures miscounted { LawfulOfNodes (from_nothing falls_at_election) miscounted → ⊥ }
    ensures lost_at_another { LawfulOfNodes (from_nothing came_back) lost_at_another → ⊥ }
    ensures lost_by_the_stop { LawfulOfNodes (from_nothing falls_and_stops) lost_by_the_stop → ⊥ }
    ensures named_by_the_script { LawfulOfNodes other_basis named_by_the_script → ⊥ }
    ensures ends_early { LawfulOfNodes (from_nothing ends_undurable) ends_early → ⊥ }
    ensures at_another_level { LawfulOfNodes (from_nothing armed_append) at_another_level → ⊥ }
    ensures begun_below { LawfulOfNodes (from_log followed_later 2 (no_rows (worked_table ∷ []))) begun_below → ⊥ }
    ensures lost_with_hasql { LawfulOfNodes (from_nothing moves_on_one) lost_with_hasql → ⊥ }
    ensures committed_over_a_row { LawfulOfNodes over_a_row committed_over_a_row → ⊥ }
    ensures wanting_again { LawfulOfNodes (from_nothing wanting) wanting_again → ⊥ }
    ensures fed_behind { LawfulOfNodes (from_nothing fed_twice) fed_behind → ⊥ }
{}

/// A node that comes up by an earlier start, an armed stop on the other side of a barrier, an entry of a rollback, and
/// a consumer that took too much are not lawful: by the operator's law, the law on what entries were told, and that on
/// feeds. And a row that is read before its transaction began is none of a run by workers.
#[tactic(auto, using(crate::proofs::HeardWrong::up_earlier_is_refused, crate::proofs::HeardWrong::before_barrier_is_refused, crate::proofs::HeardWrong::rollback_is_refused, crate::proofs::HeardWrong::too_many_is_refused, crate::proofs::HeardWrong::read_ahead_is_refused))]
pub fn unlawful_stories_are_refused()
    ensures up_earlier { LawfulOfNodes (from_nothing start_then_stop) up_by_an_earlier_start → ⊥ }
    ensures before_the_barrier { LawfulOfNodes (from_nothing barred_arm) stopped_before_the_barrier → ⊥ }
    ensures rolled_back { LawfulOfNodes (from_nothing rolled_and_lost) entry_of_a_rollback → ⊥ }
    ensures too_many { LawfulOfNodes (from_nothing watched_insert) too_many_taken → ⊥ }
    ensures read_ahead { LawfulByWorkers (from_nothing insert_and_select) read_ahead → ⊥ }
{}

/// No report is lawful in which a missing majority is told while all are up, a session is told twice of a loss by one
/// down line, a session that moves is told its row again, or a commit that was sent again has two entries.
#[tactic(auto, using(crate::proofs::AgainWrong::short_is_refused, crate::proofs::AgainWrong::lost_again_is_refused, crate::proofs::AgainWrong::told_again_is_refused, crate::proofs::AgainWrong::entered_again_is_refused))]
pub fn nothing_is_told_again()
    ensures short { LawfulOfNodes (from_nothing (insert_at 3 1)) short_while_all_up → ⊥ }
    ensures lost { LawfulOfNodes (from_nothing two_selects_at_two) lost_again → ⊥ }
    ensures told { LawfulOfNodes (from_nothing insert_and_select) told_again → ⊥ }
    ensures entered { LawfulOfNodes (from_nothing (insert_at 3 1)) entered_again → ⊥ }
{}

/// The worked reports of one node that are not in the order of play are not in this one, and the one of a lost insert
/// is.
#[tactic(auto, using(crate::proofs::StillSo::late_still, crate::proofs::StillSo::serial_still, crate::proofs::StillSo::begun_behind_still, crate::proofs::StillSo::opened_still, crate::proofs::StillSo::lost_insert_still))]
pub fn one_node_examples_stay()
    ensures late { InNodesOrder (from_nothing insert_select) late → ⊥ }
    ensures serial { InNodesOrder (from_nothing two_updates) serial → ⊥ }
    ensures begun_behind { InNodesOrder (from_nothing insert_select) begun_behind → ⊥ }
    ensures opened_while_down { InNodesOrder (from_nothing nothing_said) opened_while_down → ⊥ }
    ensures lost_insert { InNodesOrder (from_nothing insert_select) lost_insert_report }
{}

/// A report in which a session with hasql is told that no majority is up, at a commit without operations while its node
/// stays up, is not lawful and in the order of play.
#[tactic(auto, using(crate::proofs::OneWrong::short_at_a_read_is_refused))]
pub fn only_the_one_report_stands()
    ensures short_at_a_read { LawfulOfNodes (from_nothing read_while_few) short_at_a_read → InNodesOrder (from_nothing read_while_few) short_at_a_read → ⊥ }
{}

/// Two reports are lawful and in the order of play that no history has: an arm of an append stops a node that did not
/// lead, and an entry stands that was not shipped while a majority stayed up. Which node led, and what its log was, no
/// report tells.
#[tactic(auto, using(crate::proofs::LetThrough::stops_a_replica_is_lawful, crate::proofs::LetThrough::stops_a_replica_is_in_order, crate::proofs::LetThrough::unshipped_stands_is_lawful, crate::proofs::LetThrough::unshipped_stands_is_in_order))]
pub fn what_no_report_tells()
    ensures replica_lawful { LawfulOfNodes (from_nothing stops_a_replica) stops_a_replica_report }
    ensures replica { InNodesOrder (from_nothing stops_a_replica) stops_a_replica_report }
    ensures unshipped_lawful { LawfulOfNodes (from_nothing unshipped_stands) unshipped_stands_report }
    ensures unshipped { InNodesOrder (from_nothing unshipped_stands) unshipped_stands_report }
{}
