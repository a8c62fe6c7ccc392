use std::marker::Brand;

/// The name of one run, by which its trace, actors and notes belong together, also where they come out of a lock or a
/// channel.
///
/// A function that is generic over it is called at `Brand`, and that call picks the table and the number of actors.
pub trait Naming {
    ghost use Rattle.std.specs.Prelude.{ℕ};
    ghost use Rattle.atomic_table.specs.Seated.{TableId};

    /// The table that the run is on.
    ghost table: { TableId };

    /// How many actors there are.
    ghost actors: { ℕ };
}

impl Naming for Brand {
    ghost use Rattle.std.specs.Prelude.{[]};

    ghost table = { record { words = 0; slots = 0; views_name = 0; atom = 0; block = 0; offset = 0; slot_names = [] } };

    ghost actors = { 0 };
}
