//! What is told of some stores.
ghost use Rattle.std.specs.Prelude.{◌≡◌, List, [], ◌∷◌, Some, None};
ghost use Rattle.std.specs.declared.snapshot.Snapshot.{Snapshot};
ghost use Rattle.cdb_values.specs.Rows.{Rows};
ghost use Rattle.cdb_values.specs.declared.tables.TableDef.{TableDef};
ghost use Rattle.node_openings.specs.Facts.{log_found};
ghost use Rattle.node_openings.specs.Told.{IsToldOf, MayPlayOf};
ghost use Rattle.node_openings.specs.declared.found.StoreFound.TheVariants as store;
ghost use Rattle.node_openings.specs.declared.found.WhyNotOpened.TheVariants as why;

/// Of two bad stores the lower one is told, and before a log of a lower node that is not sound; such a log before stores that do not
/// fit; and three stores do not fit of which the first accepted 5 and the others promised nothing, but may where the third failed. The
/// script's tables are compared with those of the log of the greatest generation, though another one is longer.
#[tactic(auto, using(crate::proofs::FactLemmas::two_bad, crate::proofs::FactLemmas::unsound_before, crate::proofs::FactLemmas::not_promised, crate::proofs::FactLemmas::not_read, crate::proofs::FactLemmas::best_differs, crate::proofs::FactLemmas::another_differs))]
pub fn stores_are_told_so()
    ensures two_bad { (given : List TableDef) → IsToldOf given (store.NotSound ∷ store.Bad 27 ∷ store.Bad 40 ∷ []) (why.StoreRefused 2 27) }
    ensures unsound_first { (given : List TableDef) (rows : Snapshot Rows) → IsToldOf given (store.Whole (log_found 5 5 0 None rows) ∷ store.NotSound ∷ store.NotSound ∷ []) (why.Unsound 2) }
    ensures unfit { (given : List TableDef) (rows : Snapshot Rows) → IsToldOf given (store.Whole (log_found 5 5 0 None rows) ∷ store.Whole (log_found 0 0 0 None rows) ∷ store.Whole (log_found 0 0 0 None rows) ∷ []) (why.Unsound 1) }
    ensures not_read { (given : List TableDef) (rows : Snapshot Rows) → MayPlayOf given (store.Whole (log_found 5 5 0 None rows) ∷ store.Whole (log_found 0 0 0 None rows) ∷ store.Failed ∷ []) }
    ensures best_differs { (t u : TableDef) (rows : Snapshot Rows) → (t ≡ u → ⊥) → IsToldOf (t ∷ []) (store.Whole (log_found 3 2 2 (Some (t ∷ [])) rows) ∷ store.Whole (log_found 3 3 1 (Some (u ∷ [])) rows) ∷ store.Whole (log_found 3 0 0 None rows) ∷ []) (why.Differs 0) }
    ensures another_differs { (t u : TableDef) (rows : Snapshot Rows) → MayPlayOf (t ∷ []) (store.Whole (log_found 3 2 2 (Some (u ∷ [])) rows) ∷ store.Whole (log_found 3 3 1 (Some (t ∷ [])) rows) ∷ store.Whole (log_found 3 0 0 None rows) ∷ []) }
{}
