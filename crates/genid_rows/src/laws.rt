ghost use Rattle.genid_rows.specs.InTurn.{NetIsInTurn, NoRowsAreNumbered, StaysNumbered};

/// The law that on every base whose genids are below its next one, the net operations of writes that
/// apply one after the other give the same rows, in the same order, as the writes do. Tables without
/// rows are such a base, and operations keep it.
pub fn net_is_in_turn()
    ensures same { NetIsInTurn }
    ensures begins { NoRowsAreNumbered }
    ensures stays { StaysNumbered }
{}
