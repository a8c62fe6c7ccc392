//! Laws for the crates above, each a clause of a function that does nothing.

ghost use Rattle.cdb_values.specs.Changes.{ChangesTakeTheSame, GenidsRise, NextIsAbove};
ghost use Rattle.cdb_values.specs.Views.{ViewsAreApplied};

/// The changes of operations take away the versions that the operations take away, in the same order.
pub fn the_changes_take_what_the_operations_take()
    ensures { ChangesTakeTheSame }
{}

/// The genids of the versions that operations add rise by one from the next genid on (`rise`), and
/// the next genid after the operations is the one after them (`next`).
pub fn genids_rise()
    ensures rise { GenidsRise }
    ensures next { NextIsAbove }
{}

/// What a transaction sees of its operations on a base is what they make of the base when they are
/// applied one after the other.
pub fn views_are_applied()
    ensures { ViewsAreApplied }
{}
