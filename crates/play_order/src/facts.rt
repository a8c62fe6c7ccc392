//! Laws of reports as `play` writes them, each a clause of a function that does nothing.

ghost use Rattle.std.specs.Prelude.{◌≡◌, ◌≤◌, ◌↔◌, ◌+◌, ◌++◌, ◌∷◌, [], ℕ, List, false, length};
ghost use Rattle.std.specs.List.{list_any};
ghost use Rattle.cdb_outside.specs.declared.statuses.Status.{Status};
ghost use Rattle.cdb_outside.specs.declared.statuses.Status.TheVariants as status;
ghost use Rattle.cdb_values.specs.declared.tables.TableDef.{TableDef};
ghost use Rattle.script_form.specs.declared.scripts.Script.{Script};
ghost use Rattle.session_language.specs.Answers.{Answers};
ghost use Rattle.report_laws.specs.History.{Basis};
ghost use Rattle.report_laws.specs.Lawful.{Lawful};
ghost use Rattle.report_laws.specs.Play.{InPlayOrder};
ghost use Rattle.report_text.specs.declared.reports.EntryLine.{EntryLine};
ghost use Rattle.report_text.specs.declared.reports.Report.{Report};
ghost use Rattle.node_reports.specs.Lawful.{LawfulOfNodes};
ghost use Rattle.node_reports.specs.OneNode.{IsOfOneNode};
ghost use Rattle.node_reports.specs.Order.{InNodesOrder};
ghost use Rattle.play_order.specs.Deeds.{CommitSent, does_deed, entry_behind, is_its};
ghost use Rattle.play_order.specs.Deeds.Deed.{Sends};
ghost use Rattle.play_order.specs.OneStore.{accepted_by, one_leading, set_up_log};
ghost use Rattle.play_order.specs.Openings.{DiffersAt, Finding, IsToldAtOpening, MayPlay};
ghost use Rattle.play_order.specs.Openings.Finding.{BadFrame, NotSound, WholeLog};
ghost use Rattle.play_order.specs.Peers.{Holding};
ghost use Rattle.play_order.specs.Played.{IsPlayedOver, behind_opening};
ghost use Rattle.play_order.specs.Tail.{base_in};

/// A report as `play` writes it is in the order of play. Of a script of one node, with lines of sessions alone, a lawful one says what
/// one of one node says.
pub fn played_reports_are_in_order()
    ensures order { (basis : Basis) (stores : List Finding) (report : Report) → IsPlayedOver basis stores report → InNodesOrder basis report }
    ensures one_node { (basis : Basis) (stores : List Finding) (report : Report) → IsOfOneNode basis.script → Answers basis.language → LawfulOfNodes basis report → IsPlayedOver basis stores report → Lawful basis report × InPlayOrder basis report }
{}

/// No script is played over stores over which it is refused.
#[tactic(auto, using(crate::proofs::Refusals::never_both))]
pub fn refused_scripts_are_not_played()
    ensures never { (script : Script) (stores : List Finding) (told : Status) → MayPlay script stores → IsToldAtOpening script stores told → ⊥ }
{}

/// One store is refused as that of one node is: where a frame of it is bad, at that place; where its log is not sound; and one with a
/// sound log, which accepted no more than it promised, for its tables alone.
#[tactic(auto, using(crate::proofs::Refusals::one_bad, crate::proofs::Refusals::one_unsound, crate::proofs::Refusals::one_whole))]
pub fn one_store_is_refused_so()
    ensures bad { (script : Script) (at : ℕ) (told : Status) → IsToldAtOpening script (BadFrame at ∷ []) told ↔ (told ≡ status.StoreRefused 1 at) }
    ensures unsound { (script : Script) (told : Status) → IsToldAtOpening script (NotSound ∷ []) told ↔ (told ≡ status.Unsound 1) }
    ensures whole { (script : Script) (has : Holding) (tables : List TableDef) (told : Status) → script.nodes ≡ 1 → has.accepted ≤ has.promised → IsToldAtOpening script (WholeLog has tables ∷ []) told ↔ ((line : ℕ) × (told ≡ status.Refused line 9) × DiffersAt script (WholeLog has tables ∷ []) line) }
{}

/// Over one store its node leads at once, in the generation above its promise, with the log that it had, or with the setup where that
/// was empty; and the base is how long it was. A commit that is sent to it adds its entry, where its log has that not.
#[tactic(auto, using(crate::proofs::OneStore::taken_up, crate::proofs::OneStore::based_on_its_log, crate::proofs::OneStore::adds_its_entry))]
pub fn one_store_is_taken_up()
    ensures opening { (has : Holding) (tables : List TableDef) → behind_opening 1 (WholeLog has tables ∷ []) [] ≡ one_leading (has.promised + 1) (length has.log) (accepted_by (has.promised + 1) has.log) (set_up_log has.log) }
    ensures base { (has : Holding) (tables : List TableDef) → base_in 1 (behind_opening 1 (WholeLog has tables ∷ []) []) ≡ length has.log }
    ensures commit { (generation adopted : ℕ) (accepts : List ℕ) (log : List EntryLine) (sent : CommitSent) → list_any (is_its sent) log ≡ false → does_deed 1 (Sends sent 1 []) (one_leading generation adopted accepts log) ≡ one_leading generation adopted (accepts ++ generation ∷ []) (log ++ entry_behind log sent ∷ []) }
{}
