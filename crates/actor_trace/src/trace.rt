ghost use Rattle.std.specs.Prelude.{◌≡◌};

use crate::machine::Machine;
use crate::naming::Naming;
use crate::rule::OneHistory;
use crate::view::View;
use atomic_table::Table;
use std::alloc::Global;
use std::marker::PhantomData;

pub(crate) type Board<M> = Table<(), View<<M as Machine>::Event>, u32, OneHistory<M>, Global>;

/// What the threads of a run share: one word, the number of events so far.
#[derive(Drop)]
pub struct Trace<M: Machine, J: Naming> {
    pub(crate) table: Board<M>,
    pub(crate) actors: u32,
    pub(crate) of: PhantomData<J>,
    ghost named: { table.shared.table_id ≡ J.table },
    ghost words: { table.shared.table_id.words ≡ 1 },
    ghost slots: { table.shared.table_id.slots ≡ 0 },
    ghost size: { table.shared.key ≡ J.actors },
    ghost count: { actors ≡ J.actors },
}
