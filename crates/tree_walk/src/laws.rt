//! What a walk tells of a tree.
ghost use Rattle.tree_walk.specs.Decided.{SomeTree, TwiceTree, NoTree, InsideIsFewer};

/// A walk decides whether a tree stands below a root. Where it gives one whose pages are apart, that tree stands there, on
/// these pages and with these cells (`some`); where a page comes twice in what it gives, none does (`twice`). Where all
/// pages but some are blank, and the walk is allowed as many pages as these are, none stands where it gives nothing
/// (`none`). And numbers that are apart, among others, are no more than these (`inside`).
#[tactic(auto, using(crate::proofs::WrittenLaws::some_tree, crate::proofs::WrittenLaws::apart_inside))]
pub fn a_walk_decides()
    ensures some { SomeTree }
    ensures twice { TwiceTree }
    ensures none { NoTree }
    ensures inside { InsideIsFewer }
{}
