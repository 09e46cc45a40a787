//! Random numbers, and what a storm is out for.

ghost use Rattle.std.specs.Prelude.{◌<◌, ◌≡◌, IfOk, List, OnErr, OnOk, ℕ};
ghost use Rattle.psci_storm.specs.Storm.{HappensBy, IsBlown, IsCutShort, IsDrawn, IsStorm};
ghost use Rattle.psci_world.specs.psci_world_spec.declared.said.Record.{Record};

use crate::aims::Sight;
use crate::outcome::{Storm, StormedWorld};
use psci_world::{Board, Memory, Node, Place, Settled, Status, World, settle};
use rand_core::Rng;
use rand_pcg::Pcg32;
use std::alloc::Global;

/// Which of the generator's streams a storm takes.
const STREAM: u64 = 54;

/// The last life may end in one seed of so many. No core calls after that, so most storms are to
/// stay alive.
const ENDING: u64 = 24;

/// The remainder of such a seed.
const ENDING_AT: u64 = 12;

/// So many draws before the end lives end more often, and the last one may.
const LATE: u64 = 256;

/// What the cores are out for, for a while.
#[derive(Clone, Copy, Debug, PartialEq, Eq)]
pub enum Mood {
    /// Cores ask each other on.
    Busy,
    /// Cores suspend, and few are woken.
    Sleepy,
    /// Cores go off, and the last one suspends the system.
    Leaving,
    /// The operating system takes over who decides on domains, or gives it back.
    Moody,
}

/// The draws of a storm: which event happens next.
#[derive(Drop)]
pub struct Draws {
    words: Pcg32,
    /// What the cores are out for.
    pub mood: Mood,
    /// How many events are still to be drawn.
    pub left: u64,
    /// The number of the core that is to be worn out, if one is.
    pub worn: Option<u16>,
    /// Whether the last life may end.
    has_end: bool,
}

impl Draws {
    /// The draws of a seed, of so many events, on a board with so many cores.
    pub fn new(seed: u64, count: u64, cores: u16) -> Draws {
        let mut draws = Draws {
            words: Pcg32::new(seed, STREAM),
            mood: Mood::Busy,
            left: count,
            worn: None,
            has_end: seed % ENDING == ENDING_AT,
        };
        let core = draws.core(cores);
        if draws.one_in(2) {
            draws.worn = Some(core);
        }
        draws
    }

    /// The draws of one of several threads: each has a stream of its own.
    pub fn of_thread(seed: u64, thread: u64) -> Draws {
        Draws {
            words: Pcg32::new(seed, thread),
            mood: Mood::Busy,
            left: 0,
            worn: None,
            has_end: false,
        }
    }

    /// Whether the storm is soon over.
    pub fn is_late(&self) -> bool {
        self.left < LATE
    }

    /// Whether the last life may end now.
    pub fn may_end_storm(&self) -> bool {
        self.has_end && self.is_late()
    }

    /// A number below this one, and 0 where there is none.
    pub fn below(&mut self, bound: u32) -> u32
        ensures { 0 < bound → result < bound }
    {
        let word = self.words.next_u32();
        if bound == 0 { 0 } else { word % bound }
    }

    /// Whether a case comes that comes once in so many.
    pub fn one_in(&mut self, many: u32) -> bool {
        self.below(many) == 0
    }

    /// 64 bits of any value.
    pub fn word(&mut self) -> u64 {
        self.words.next_u64()
    }

    /// The number of a core, of so many.
    pub fn core(&mut self, cores: u16) -> u16 {
        (self.below(u32::from(cores)) % 65536) as u16
    }

    /// A number of a message or an acknowledgement, of so many; a little more often one of the
    /// newest, and now and then one that is not there.
    pub fn index(&mut self, count: usize) -> u64 {
        let back = if self.one_in(2) { 8 } else { u32::MAX };
        let count = count as u64;
        let steps = u64::from(self.below(back)) % (count.saturating_add(1)).max(1);
        count.saturating_sub(steps)
    }

    /// Another mood.
    pub fn change_mood(&mut self) {
        self.mood = match self.below(8) {
            0..=2 => Mood::Busy,
            3..=5 => Mood::Sleepy,
            6 => Mood::Leaving,
            _ => Mood::Moody,
        };
    }
}

// Storms: events that are drawn, and a world that settles after them.

/// So many events happen in the world, drawn from the seed, and then it settles. Which events are
/// drawn is said by no clause: the same seed draws the same ones. Out of memory, the events before
/// stand.
pub fn blow(world: &mut World, seed: u64, count: u64) -> Result<Settled, Memory>
    ensures board { world.new.board ≡ world.old.board }
    ensures events { HappensBy world.old.board world.old.past world.new.past }
    ensures ok { IfOk result (λ s. IsBlown world.old.board world.old.past count world.new.past s) }
    ensures short { OnErr result (IsCutShort world.old.board world.old.past count
        world.new.past) }
{
    draw(world, seed, count)?;
    settle(world)
}

/// A storm in a new world of the board, and that world: so many events, drawn from the seed, after
/// which the world settles. It was a legal run, and safe at every moment. The same seed gives the
/// same storm.
pub fn storm_world(
    alloc: Global,
    board: &Board,
    seed: u64,
    count: u64,
) -> Result<StormedWorld, Memory>
    ensures board { IfOk result (λ s. s.world.board ≡ board.now) }
    ensures ok { IfOk result (λ s. IsStorm board.now count s.world.past s.storm) }
{
    let mut world = World::new(alloc, board)?;
    let settled = blow(&mut world, seed, count)?;
    world.law();
    let storm = Storm::of(&world, settled);
    Ok(StormedWorld { storm, world })
}

/// What became of the storm that `storm_world` makes, without its world.
pub fn storm(alloc: Global, board: &Board, seed: u64, count: u64) -> Result<Storm, Memory>
    ensures ok { IfOk result (λ s. (past : List Record) × IsStorm board.now count past s) }
{
    Ok(storm_world(alloc, board, seed, count)?.storm)
}

// Events are drawn, and happen.

/// So many events happen, drawn from the seed. Out of memory, those before stand.
pub fn draw(world: &mut World, seed: u64, count: u64) -> Result<(), Memory>
    ensures board { world.new.board ≡ world.old.board }
    ensures events { HappensBy world.old.board world.old.past world.new.past }
    ensures ok { OnOk result (IsDrawn world.old.board world.old.past count world.new.past) }
    ensures few { OnErr result ((n : ℕ) × (n < count)
        × IsDrawn world.old.board world.old.past n world.new.past) }
{
    let mut draws = Draws::new(seed, count, world.board().cores());
    'events: for _drawn in 0..count {
        let event = draws.next(&Seen(world));
        world.step(event)?;
    }
    Ok(())
}

// What the draws see of a world.

/// A world, as the draws see it.
#[derive(Clone, Copy)]
pub struct Seen<'a>(pub &'a World);

impl Sight for Seen<'_> {
    fn board(&self) -> &Board {
        self.0.board()
    }

    fn place(&self, number: u16) -> Option<Place> {
        let core = self.0.board().core(number)?;
        Some(self.0.place(core))
    }

    fn is_pending(&self, number: u16) -> bool {
        let node = Node {
            level: 0,
            place: number,
        };
        self.0.firmware().status(node) == Some(Status::Pending)
    }

    fn is_asleep(&self, number: u16) -> bool {
        let node = Node {
            level: 0,
            place: number,
        };
        let is_on = self.0.firmware().status(node) == Some(Status::On);
        is_on && self.place(number) == Some(Place::Stopped)
    }

    fn starts(&self, number: u16) -> u32 {
        match self.0.board().core(number) {
            Some(core) => self.0.controller().starts(core),
            None => 0,
        }
    }

    fn life(&self) -> Option<u32> {
        self.0.controller().life()
    }

    fn is_entered(&self) -> bool {
        self.0.firmware().life() == self.0.controller().life()
    }

    fn is_halting(&self) -> bool {
        self.0.firmware().halting() && self.is_entered()
    }

    fn messages(&self) -> usize {
        self.0.messages().len()
    }

    fn acks(&self) -> usize {
        self.0.acks().len()
    }
}
