//! The worked examples: facts of their reports, each a clause of a function that does nothing.

ghost use Rattle.std.specs.Prelude.{◌≡◌, ◌∷◌, [], None, Some};
ghost use Rattle.std.specs.List.{AllByRecursion};
ghost use Rattle.cdb_values.specs.Rows.{Rows};
ghost use Rattle.report_worked.specs.Small.{from_log, from_nothing};
ghost use Rattle.report_laws.specs.Lawful.{Lawful};
ghost use Rattle.session_language.specs.Each.{EachAfter};
ghost use Rattle.report_laws.specs.History.{IsEntryAfter};
ghost use Rattle.report_laws.specs.Nodes.{downs, BeginsDown};
ghost use Rattle.report_laws.specs.Outcome.{conflict_line};
ghost use Rattle.report_laws.specs.Play.{InPlayOrder};
ghost use Rattle.script_form.specs.Named.{IsNamedTable};
ghost use Rattle.session_language.specs.Touched.{TheRange};
ghost use Rattle.report_worked.specs.Worked.{empty_report, report_with, insert_select, insert_select_report, insert_select_text, two_updates, two_updates_report, key_again, key_again_report, own_writes, own_writes_report, two_selects, lost_insert_report, lost_insert_text, open_insert, open_insert_report, nothing_said, down_at_first_report, nothing_then_insert, down_late_report, two_inserts, two_inserts_with, two_keys, rolled_insert, nothing_done, wanting_report, resumed_report, resumed_with, skew, skew_report, strict_skew, strict_skew_report};
ghost use Rattle.report_worked.specs.WorkedWrong.{IsRefusedBy, RepliesAreRight, BeginsAreFresh, HistoryIsRight, EntriesAreTold, LinesHavePlaces, wrong_value, missing_row, out_of_order, early_row, late, wrong_position, entry_twice, node_line, lost_line, begin_too_old, untouched_row, refused_entry, serial, lost_twice, lost_late, short_while_up, down_misnumbered, down_twice, begun_behind, opened_while_down, strict_committed, committed_ahead, conflict_ahead, duplicate_ahead, conflict_at_begin, select_behind, begun_elsewhere, split_insert, rolled_entry, down_at_nothing, all_table, by_all, of_all};
ghost use Rattle.report_text.specs.Text.{report_text};
ghost use Rattle.script_form.specs.declared.scripts.Script.{Script};

/// The empty report is lawful and in the order of play where the script has no line to be run. A report
/// without an entry is not in the order of play of any script.
pub fn empty_report_is_lawful()
    ensures lawful { (script : Script) → script.body ≡ [] → Lawful (from_nothing script) empty_report }
    ensures order { (script : Script) → script.body ≡ [] → InPlayOrder (from_nothing script) empty_report }
    ensures no_entry { (script : Script) → InPlayOrder (from_nothing script) (report_with [] []) → ⊥ }
{}

/// The report of an insert and a select has its ten lines as text, is lawful and in the order of play.
pub fn insert_select_is_lawful()
    ensures text { report_text insert_select_report ≡ insert_select_text }
    ensures lawful { Lawful (from_nothing insert_select) insert_select_report }
    ensures order { InPlayOrder (from_nothing insert_select) insert_select_report }
{}

/// What makes the report of an insert and a select wrong, and by which law: another value in the row,
/// no row, the number of rows before the row, the row where the select begins before the insert; the
/// insert committed at another position; the insert in the history twice; a node that comes up, and a loss.
pub fn wrong_insert_selects_are_refused()
    ensures wrong_value { IsRefusedBy (RepliesAreRight insert_select wrong_value) insert_select wrong_value }
    ensures missing_row { IsRefusedBy (RepliesAreRight insert_select missing_row) insert_select missing_row }
    ensures out_of_order { IsRefusedBy (RepliesAreRight insert_select out_of_order) insert_select out_of_order }
    ensures early_row { IsRefusedBy (RepliesAreRight insert_select early_row) insert_select early_row }
    ensures wrong_position { IsRefusedBy (RepliesAreRight insert_select wrong_position) insert_select wrong_position }
    ensures entry_twice { IsRefusedBy (HistoryIsRight insert_select entry_twice) insert_select entry_twice }
    ensures node_line { IsRefusedBy (LinesHavePlaces insert_select node_line) insert_select node_line }
    ensures lost_line { IsRefusedBy (LinesHavePlaces insert_select lost_line) insert_select lost_line }
{}

/// Where the select begins before the insert and is told no row, the report is lawful, since what a
/// session's last line itself named does not bind its next begin; but it is not in the order of play.
/// A begin of that session below what its line before named is refused: it is not fresh.
pub fn begins_are_fresh()
    ensures late { Lawful (from_nothing insert_select) late }
    ensures late_order { InPlayOrder (from_nothing insert_select) late → ⊥ }
    ensures begin_too_old { IsRefusedBy (BeginsAreFresh begin_too_old) two_selects begin_too_old }
{}

/// The report of two transactions, open at once, that update the same row, of which the second one to
/// end conflicts with the first, is lawful and in the order of play. It is refused with a conflict that
/// names a version which the first did not touch, and with an entry of the second in the history.
pub fn two_updates_are_lawful()
    ensures lawful { Lawful (from_nothing two_updates) two_updates_report }
    ensures order { InPlayOrder (from_nothing two_updates) two_updates_report }
    ensures untouched_row { IsRefusedBy (RepliesAreRight two_updates untouched_row) two_updates untouched_row }
    ensures refused_entry { IsRefusedBy (HistoryIsRight two_updates refused_entry) two_updates refused_entry }
{}

/// Two transactions, open at once, each read the row that the other one changes. At level snapshot both are committed: the
/// report is lawful and in the order of play. At level serializable so is the one in which the second one to end conflicts
/// over the range of the key that it read, and with an entry of the second it is refused.
pub fn write_skew_is_refused()
    ensures snapshot { Lawful (from_nothing skew) skew_report }
    ensures snapshot_order { InPlayOrder (from_nothing skew) skew_report }
    ensures serializable { Lawful (from_nothing strict_skew) strict_skew_report }
    ensures serializable_order { InPlayOrder (from_nothing strict_skew) strict_skew_report }
    ensures committed { IsRefusedBy (HistoryIsRight strict_skew strict_committed) strict_skew strict_committed }
{}

/// The report of two inserts of the same key, of which the second one to end is a duplicate, and of a
/// transaction that frees the key and takes it again, is lawful and in the order of play.
pub fn key_again_is_lawful()
    ensures lawful { Lawful (from_nothing key_again) key_again_report }
    ensures order { InPlayOrder (from_nothing key_again) key_again_report }
{}

/// The report of a transaction that reads the rows that it wrote, changed and took away, is lawful and
/// in the order of play.
pub fn own_writes_are_lawful()
    ensures lawful { Lawful (from_nothing own_writes) own_writes_report }
    ensures order { InPlayOrder (from_nothing own_writes) own_writes_report }
{}

/// Of two transactions that are open at once, a report that tells each whole at its begin, one after the
/// other and without a conflict, is lawful; but it is not in the order of play.
pub fn serial_is_not_played()
    ensures lawful { Lawful (from_nothing two_updates) serial }
    ensures order { InPlayOrder (from_nothing two_updates) serial → ⊥ }
{}

/// The report of an insert and a select whose node goes down at the insert's commit, by a fault of its store, has its
/// seven lines as text, is lawful and in the order of play: the insert is lost by that line, and for the select no majority
/// is up.
pub fn lost_insert_is_lawful()
    ensures text { report_text lost_insert_report ≡ lost_insert_text }
    ensures lawful { Lawful (from_nothing insert_select) lost_insert_report }
    ensures order { InPlayOrder (from_nothing insert_select) lost_insert_report }
{}

/// A transaction that is open as the node goes down at another session's commit is lost at its next line. The report is
/// lawful and in the order of play.
pub fn open_insert_is_lawful()
    ensures lawful { Lawful (from_nothing open_insert) open_insert_report }
    ensures order { InPlayOrder (from_nothing open_insert) open_insert_report }
{}

/// A node that goes down at the opening leaves an empty history, in a report that is lawful and in the order of play. With
/// the schema's entry it is lawful, but not in the order of play.
pub fn down_at_first_is_lawful()
    ensures lawful { Lawful (from_nothing nothing_said) down_at_first_report }
    ensures order { InPlayOrder (from_nothing nothing_said) down_at_first_report }
    ensures with_entry { Lawful (from_nothing nothing_said) opened_while_down }
    ensures with_entry_order { InPlayOrder (from_nothing nothing_said) opened_while_down → ⊥ }
{}

/// What makes a report wrong in which the node goes down, or should have, by the law on places: a transaction that is
/// lost twice by one line, or by a line behind which its session was told of another; no majority while the node is up; a
/// first line with another number; a node that goes down while it is down.
pub fn wrong_faults_are_refused()
    ensures lost_twice { IsRefusedBy (LinesHavePlaces insert_select lost_twice) insert_select lost_twice }
    ensures lost_late { IsRefusedBy (LinesHavePlaces insert_select lost_late) insert_select lost_late }
    ensures short_while_up { IsRefusedBy (LinesHavePlaces insert_select short_while_up) insert_select short_while_up }
    ensures down_misnumbered { IsRefusedBy (LinesHavePlaces insert_select down_misnumbered) insert_select down_misnumbered }
    ensures down_twice { IsRefusedBy (LinesHavePlaces insert_select down_twice) insert_select down_twice }
{}

/// Where the select begins behind the fault, the report is lawful, but not in the order of play.
pub fn begun_behind_is_not_played()
    ensures lawful { Lawful (from_nothing insert_select) begun_behind }
    ensures order { InPlayOrder (from_nothing insert_select) begun_behind → ⊥ }
{}

/// The report of a run that did nothing behind a log of two entries tells so by its line `base`, and is lawful and in the order
/// of play over that log, whatever its rows are. Without that line, and with another length in it, it is not lawful.
pub fn resumed_report_is_lawful()
    ensures lawful { (script : Script) (rows : Rows) → script.body ≡ [] → Lawful (from_log script 2 rows) resumed_report }
    ensures order { (script : Script) (rows : Rows) → script.body ≡ [] → InPlayOrder (from_log script 2 rows) resumed_report }
    ensures no_base { (script : Script) (rows : Rows) → Lawful (from_log script 2 rows) (resumed_with None) → ⊥ }
    ensures other_base { (script : Script) (rows : Rows) → Lawful (from_log script 2 rows) (resumed_with (Some 1)) → ⊥ }
{}

/// Behind a log of two entries, whatever its rows are, a report is lawful and in the order of play that tells of one fault and
/// of no entry, and in which a transaction was committed and another one begun before the node went down. It is no report of a
/// node that is down from the opening on: its first line does not tell that.
pub fn down_late_is_lawful()
    ensures lawful { (rows : Rows) → Lawful (from_log nothing_then_insert 2 rows) down_late_report }
    ensures order { (rows : Rows) → InPlayOrder (from_log nothing_then_insert 2 rows) down_late_report }
    ensures down { downs down_late_report.lines ≡ 1 }
    ensures none { down_late_report.entries ≡ [] }
    ensures late { BeginsDown down_late_report.lines → ⊥ }
{}

/// Of two inserts the second one's entry is right after the first with the begin 2, and with the begin 1 as well. But
/// where the transaction was told that it begins at 2, the report is refused with the begin 1 in its entry.
pub fn entries_begin_where_they_were_told()
    ensures there { EachAfter (IsEntryAfter (from_nothing two_inserts)) [] (two_inserts_with 2) }
    ensures earlier { EachAfter (IsEntryAfter (from_nothing two_inserts)) [] (two_inserts_with 1) }
    ensures elsewhere { IsRefusedBy (EntriesAreTold two_inserts begun_elsewhere) two_inserts begun_elsewhere }
{}

/// The transaction of an entry was told in one segment of its session's lines, and that it is committed: an entry of one that
/// was told in two segments is refused, and one of what was rolled back.
pub fn entries_are_told_whole()
    ensures split { IsRefusedBy (EntriesAreTold insert_select split_insert) insert_select split_insert }
    ensures rolled { IsRefusedBy (EntriesAreTold rolled_insert rolled_entry) rolled_insert rolled_entry }
{}

/// An outcome is judged from the begin on: refused are a conflict with the entry at which the transaction began, and a commit
/// behind its begin of a transaction that changes nothing.
pub fn outcomes_count_from_the_begin()
    ensures conflict_at_begin { IsRefusedBy (RepliesAreRight two_updates conflict_at_begin) two_updates conflict_at_begin }
    ensures select_behind { IsRefusedBy (RepliesAreRight insert_select select_behind) insert_select select_behind }
{}

/// What is decided at a line speaks of the history of that moment. A commit whose entry does not stand yet is not in the order of
/// play. Nor are a conflict and a duplicate at an entry that comes later, which are lawful.
pub fn decisions_ahead_are_not_played()
    ensures commit { InPlayOrder (from_nothing insert_select) committed_ahead → ⊥ }
    ensures conflict { Lawful (from_nothing two_updates) conflict_ahead }
    ensures conflict_order { InPlayOrder (from_nothing two_updates) conflict_ahead → ⊥ }
    ensures duplicate { Lawful (from_nothing two_keys) duplicate_ahead }
    ensures duplicate_order { InPlayOrder (from_nothing two_keys) duplicate_ahead → ⊥ }
{}

/// No key is called `all`: a conflict over an interval of it would be told as one over the whole table.
pub fn keys_are_not_called_all()
    ensures refused { AllByRecursion IsNamedTable (all_table ∷ []) → ⊥ }
    ensures alike { conflict_line (all_table ∷ []) 2 (TheRange by_all) ≡ conflict_line (all_table ∷ []) 2 (TheRange of_all) }
{}

/// A node goes down at a commit of a transaction that changes something alone: at one of a transaction that changes nothing the
/// report is lawful, but not in the order of play.
pub fn down_at_nothing_is_not_played()
    ensures lawful { Lawful (from_nothing nothing_done) down_at_nothing }
    ensures order { InPlayOrder (from_nothing nothing_done) down_at_nothing → ⊥ }
{}

/// Want of memory may come anywhere: where a node goes down at a commit, and in the place of a loss and of a missing majority. The
/// report is lawful and in the order of play.
pub fn wanting_memory_is_played()
    ensures lawful { Lawful (from_nothing open_insert) wanting_report }
    ensures order { InPlayOrder (from_nothing open_insert) wanting_report }
{}
