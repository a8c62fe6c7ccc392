//! Laws of openings, each a clause of a function that does nothing.
ghost use Rattle.std.specs.Prelude.{◌≡◌, ℕ, List, [], ◌∷◌, length, Some, None, slice_get};
ghost use Rattle.cdb_outside.specs.declared.statuses.Status.{Status};
ghost use Rattle.cdb_values.specs.declared.tables.TableDef.{TableDef};
ghost use Rattle.kept_log.specs.Kept.{OverStore};
ghost use Rattle.node_opening.specs.Goods.{HasTables};
ghost use Rattle.node_opening.specs.Why.{IsWhy};
ghost use Rattle.node_openings.specs.Findings.{AreFindings, AreSeenAs, AreTold};
ghost use Rattle.node_openings.specs.Found.{AreFound, IsFoundAs};
ghost use Rattle.node_openings.specs.Judged.{best_tables_of};
ghost use Rattle.node_openings.specs.OneStore.{IsOfFirst, why_one};
ghost use Rattle.node_openings.specs.Told.{AreTablesOfBest, IsStatusOf, IsToldOf, IsToldOver, MayPlayOf, MayPlayOver};
ghost use Rattle.node_openings.specs.declared.found.ReadLog.{ReadLog};
ghost use Rattle.node_openings.specs.declared.found.StoreFound.{StoreFound};
ghost use Rattle.node_openings.specs.declared.found.StoreFound.TheVariants as store;
ghost use Rattle.node_openings.specs.declared.found.WhyNotOpened.{WhyNotOpened};
ghost use Rattle.node_openings.specs.declared.found.WhyNotOpened.TheVariants as why;
ghost use Rattle.play_order.specs.Elections.{Ranked};
ghost use Rattle.play_order.specs.Openings.{Finding, IsToldAtOpening, MayPlay, best_log};
ghost use Rattle.script_form.specs.CanRun.{script_tables};
ghost use Rattle.script_form.specs.declared.scripts.Script.{Script};
ghost use Rattle.script_form.specs.declared.scripts.TableLine.{TableLine};

/// Stores that were found to be something are findings of reports, and no others. What is told of them is told in place of a report, and where
/// nothing is told a script is played over them: each of it exactly as reports have it.
#[tactic(auto, using(crate::proofs::FoundLemmas::there_are_findings, crate::proofs::ApartLemmas::all_seen, crate::proofs::ReportLemmas::told_at_opening, crate::proofs::ReportLemmas::line_of_place, crate::proofs::ReportLemmas::may_be_played))]
pub fn what_is_told_is_told_in_place_of_a_report()
    ensures findings { (found : List StoreFound) (old new : List OverStore) → AreFound found old new → (fs : List Finding) × AreFindings fs old new × AreSeenAs found fs }
    ensures alone { (found : List StoreFound) (fs : List Finding) (old new : List OverStore) → AreTold old → AreFound found old new → AreFindings fs old new → AreSeenAs found fs }
    ensures told { (script : Script) (fs : List Finding) (w : WhyNotOpened) (told : Status) → length fs ≡ script.nodes → IsToldOver (script_tables script) fs w → IsStatusOf script w told → IsToldAtOpening script fs told }
    ensures line { (script : Script) (fs : List Finding) (place : ℕ) → IsToldOver (script_tables script) fs (why.Differs place) → (said : TableLine) × (slice_get script.tables place ≡ Some said) }
    ensures may { (script : Script) (fs : List Finding) → length fs ≡ script.nodes → MayPlayOver (script_tables script) fs → MayPlay script fs }
{}

/// One store is opened as a node is opened over it: the cause that is told is that for which the node is not up. A script is played
/// over a sound log with its tables, and not over a store that is bad, or has a log that is not sound.
#[tactic(auto, using(crate::proofs::OneLemmas::one_tells, crate::proofs::OneLemmas::one_plays, crate::proofs::OneLemmas::no_bad_one, crate::proofs::OneLemmas::no_unsound_one))]
pub fn one_store_is_opened_so()
    ensures told { (given : List TableDef) (s : StoreFound) (old new : OverStore) (w : WhyNotOpened) → IsFoundAs s old new → IsToldOf given (s ∷ []) w
        → IsOfFirst w × IsWhy (why_one w) old.node old.cluster old.synced given old.faults new.faults }
    ensures played { (given : List TableDef) (r : ReadLog) (old new : OverStore) (x : IsFoundAs (store.Whole r) old new) → HasTables given x.0.was.entries → MayPlayOf given (store.Whole r ∷ []) }
    ensures not_bad { (given : List TableDef) (at : ℕ) → MayPlayOf given (store.Bad at ∷ []) → ⊥ }
    ensures not_unsound { (given : List TableDef) → MayPlayOf given (store.NotSound ∷ []) → ⊥ }
{}

/// The tables that are told of stores are those of the best log that reports know, where it has entries.
#[tactic(auto, using(crate::proofs::ToldLemmas::tables_of_best, crate::proofs::ToldLemmas::no_best_tables))]
pub fn the_best_log_has_these_tables()
    ensures best { (found : List StoreFound) (fs : List Finding) (best : Ranked) → AreSeenAs found fs → best_log fs ≡ Some best → AreTablesOfBest fs best (best_tables_of found) }
    ensures none { (found : List StoreFound) (fs : List Finding) → AreSeenAs found fs → best_log fs ≡ None → best_tables_of found ≡ None }
{}
