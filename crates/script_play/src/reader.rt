//! The node of a run, as its sessions read it: where transactions begin, and what texts are answered.
ghost use Rattle.std.specs.Prelude.{◌≡◌, ℕ};
ghost use Rattle.script_play.specs.Start.{Start};
ghost use Rattle.std.specs.Prelude as std;
ghost use Rattle.page_store.specs.Image.{Image};
ghost use Rattle.undo_snapshot.specs.Positions.{AreOfLog, Served};

use super::reads::answer_text;
use cdb_values::{List, Reply, Schema};
use log_replay::PagedLog;
use osql_session::OsqlSession;
use session_turns::{Begun, SessionReader, Told};
use sql_run::Prepared;
use std::alloc::{AllocError, Global};
use std::marker::{Brand, Model, PhantomData};
use undo_snapshot::KeptPositions;

/// Where a run began, and which pages had been undone before a line: no code holds these, and a type stands for them. A proof
/// picks them where a call passes `Brand`.
pub(crate) trait Footing {
    ghost start: { Start };

    ghost undone: { std.List (ℕ × std.List (ℕ × Image)) };
}

impl Footing for Brand {
    ghost use Rattle.std.specs.Prelude.{[]};
    ghost use Rattle.cdb_values.specs.Rows.{no_rows};

    ghost start = { record { before = []; rows = no_rows [] } };

    ghost undone = { [] };
}

/// The node of a run that began there, for as long as its log does not grow. Contracts see it as a `Reader` of `specs/Reading`.
#[derive(Drop)]
pub(crate) struct LogReader<'a, J: Footing> {
    schema: &'a Schema,
    log: &'a PagedLog,
    generation: u64,
    /// The pages that were undone for transactions that are open.
    undone: KeptPositions,
    of: PhantomData<J>,
}

impl<'a, J: Footing> Model for LogReader<'a, J> {
    ghost use Rattle.script_play.specs.Reading.{Reader};
    ghost use Rattle.undo_snapshot.specs.Positions.{AreOfLog, Served};

    ghost Value = { Reader };

    ghost view = { λ n. record { tables = n.schema.now; log = n.log.now; generation = n.generation } };

    ghost invariant = { λ n. AreOfLog n.log.now n.undone × Served n.log.now J.undone n.undone };
}

impl<'a, J: Footing> LogReader<'a, J> {
    /// The node with this log, whose transactions begin in that generation, and with pages that were undone. Takes no memory.
    pub(crate) fn new(
        schema: &'a Schema,
        log: &'a PagedLog,
        generation: u64,
        undone: KeptPositions,
    ) -> LogReader<'a, J>
        requires of_log { AreOfLog log.now undone }
        requires begins { undone ≡ J.undone }
        ensures { result ≡ record { tables = schema.now; log = log.now; generation = generation } }
    {
        LogReader {
            schema,
            log,
            generation,
            undone,
            of: PhantomData,
        }
    }

    /// The pages that are undone then: those that it began with, and what was undone since. Takes no memory.
    pub(crate) fn into_undone(self) -> KeptPositions
        ensures of_log { AreOfLog self.entry.log result }
        ensures served { Served self.entry.log J.undone result }
    {
        let LogReader { undone, .. } = self;
        undone
    }
}

impl<J: Footing> SessionReader for LogReader<'_, J> {
    ghost use Rattle.std.proofs.Common.{◌∙◌};
    ghost use Rattle.std.specs.Prelude.{◌≡◌, refl};
    ghost use Rattle.script_play.specs.Reading.{CanRead};
    ghost use Rattle.script_play.specs.RunViews.{world, IsReadyFor};

    ghost history = { λ n. world J.start n.tables n.log };

    ghost generation = { λ n. n.generation };

    ghost ready = { λ n. IsReadyFor J.start n.tables n.log };

    ghost reads = { λ n at. CanRead J.start n.tables n.log at };

    ghost rests = { λ a b. b ≡ a };

    ghost waits = { ⊥ };

    fn begin(&mut self, _alloc: Global) -> Result<Told<Begun>, AllocError> {
        Ok(Told::Now(Begun {
            position: self.log.entries().len() as u64,
            generation: self.generation,
        }))
    }

    fn answer(
        &mut self,
        alloc: Global,
        session: &mut OsqlSession,
        prepared: &Prepared,
    ) -> Result<Told<List<Reply>>, AllocError> {
        let replies = answer_text(
            alloc,
            self.schema,
            self.log,
            &mut self.undone,
            session,
            prepared,
        )?;
        Ok(Told::Now(replies))
    }

    ghost rests_still = { λ a. refl };

    ghost rests_on = { λ a b c first second. second ∙ first };
}
