//! A world, and what is known beside it to say its records in words.

use crate::state::{Activity, Depths};
use crate::words::{Sleep, note};
use psci_state::POWER_DOWN;
use psci_world::{Board, Core, Event, Memory, Node, Record, Said, World};
use std::alloc::{AllocError, Global};
use std::marker::Model;

/// The world of one board after some events, with the sleep of each core and the message of each
/// acknowledgement. Contracts see the world alone.
#[derive(Drop)]
pub struct Run {
    world: World,
    /// For each acknowledgement, the oldest first, the number of its message.
    answered: Vec<u64>,
    /// The sleep of each core, by its number.
    sleeps: Vec<Option<Sleep>>,
}

impl Model for Run {
    ghost use Rattle.psci_world.specs.Settles.{WorldValue};

    ghost Value = { WorldValue };

    ghost view = { λ r. r.world };
}

ghost use Rattle.std.specs.Prelude.{◌≡◌, ◌<◌, [], ◌∷◌, IfOk};
ghost use Rattle.psci_world.specs.psci_board.Board.{HasNode, cores};
ghost use Rattle.psci_world.specs.psci_world_spec.Legal.{legal_record};

impl Run {
    /// The run on this board, before any event.
    pub fn new(alloc: Global, board: &Board) -> Result<Run, Memory>
        ensures board { IfOk result (λ run. run.board ≡ board.now) }
        ensures past { IfOk result (λ run. run.past ≡ []) }
    {
        Ok(Run {
            world: World::new(alloc, board)?,
            answered: Vec::new(alloc),
            sleeps: no_sleeps(alloc, board.cores())?,
        })
    }

    /// Makes the event happen in the world, and says what came of it; or is out of memory.
    pub fn happen(&mut self, event: Event) -> Result<Record, Memory>
        ensures ok { IfOk result (λ r. (r ≡ legal_record self.old.board self.old.past event)
            × (self.new.past ≡ r ∷ self.old.past)) }
        ensures board { self.new.board ≡ self.old.board }
    {
        self.answered.reserve(1)?;
        let record = self.world.step(event)?;
        note(&mut self.sleeps, &record);
        keep_answered(&mut self.answered, &record)?;
        Ok(record)
    }

    /// The world.
    pub fn world(&self) -> &World
        ensures { result.now ≡ self.now }
    {
        &self.world
    }

    /// The number of the message of the acknowledgement of this number, if there is one.
    pub fn message_of(&self, number: u64) -> Option<u64> {
        self.answered.get(usize::try_from(number).ok()?).copied()
    }

    /// The state of a core.
    pub fn state(&self, core: Core) -> Activity
        requires { core.number < cores self.now.board }
    {
        let sleep = self.sleeps.get(usize::from(core.number)).copied().flatten();
        Activity::of(&self.world, core, sleep)
    }

    /// The depths of a power domain: without a life it is powered down, as granted.
    pub fn depths(&self, node: Node) -> Depths
        requires { HasNode self.now.board node }
    {
        Depths::of(&self.world, node).unwrap_or(Depths {
            depth: POWER_DOWN,
            granted: POWER_DOWN,
        })
    }
}

/// No sleep of any of so many cores.
fn no_sleeps(alloc: Global, cores: u16) -> Result<Vec<Option<Sleep>>, AllocError> {
    let mut sleeps = Vec::with_capacity(alloc, cores as usize)?;
    for _core in 0..cores {
        sleeps.push(None)?;
    }
    Ok(sleeps)
}

/// Keeps the number of the message of which a record has the acknowledgement, if it has one.
fn keep_answered(answered: &mut Vec<u64>, item: &Record) -> Result<(), Memory> {
    if let (Event::Deliver(number), Said::Acked { .. }) = (&item.event, &item.said) {
        answered.push(*number)?;
    }
    Ok(())
}
