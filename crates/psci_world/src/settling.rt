//! The world settles: what waits is answered, until firmware and power controller agree.

ghost use Rattle.std.specs.Prelude.{◌+◌, ◌<◌, ◌≡◌, [], false, IfOk, if◌then◌else◌, None, Ok, OnErr};
ghost use Rattle.std.specs.Prelude.{OnOk, option_and_then, option_map, reverse, true};
ghost use Rattle.psci_headline.specs.Settling.{all_cores, begun, each_core, entering, has_name};
ghost use Rattle.psci_headline.specs.Settling.{index_of, is_halting, is_settling, is_waiting};
ghost use Rattle.psci_headline.specs.Settling.{rounds, served, serving, settled, step};
ghost use Rattle.psci_machine.specs.Safe.{AlwaysSafe};
ghost use Rattle.psci_machine.specs.psci_board.Board.{cores, height};
ghost use Rattle.psci_machine.specs.psci_world_spec.Legal.{firmware_values, IsLegalPast, run_from};
ghost use Rattle.psci_machine.specs.psci_world_spec.Legal.{sent};
ghost use Rattle.psci_machine.specs.psci_world_spec.psci_messages.Slots.{OfCore};
ghost use Rattle.psci_world.specs.Settles.{ComesToRest, IsOnTheWay, serves_kind, SettlesBy};
ghost use Rattle.psci_world.specs.declared.settling.Settled.TheVariants.{Halting, Quiet};

use crate::world::World;
use psci_headline::law_settles;
use psci_machine::{Board, Core, Event, Kind, Memory, Message, Place, Record};
use std::alloc::Global;

/// What became of a world that was to settle.
#[derive(Clone, Copy, Debug, PartialEq, Eq)]
pub enum Settled {
    /// The power controller is in no life, or its life is halting: the world comes to no rest by
    /// itself.
    Halting,
    /// Nothing is outstanding after so many rounds.
    Quiet(u32),
}

/// Every started core enters, every outstanding Start is answered, and the cores that this started
/// enter; then what is outstanding for each core is answered, in rounds, until nothing is. To
/// answer a message is to deliver it, and to take its acknowledgement. A halting world stays as it
/// is. Out of memory, what has happened so far stands.
///
/// In at most one round for each level nothing is outstanding, no core waits at its start, and each
/// domain is as deep as it was granted: firmware and power controller agree.
#[tactic(auto, using(crate::proofs::Resting::comes_to_rest))]
pub fn settle(world: &mut World) -> Result<Settled, Memory>
    ensures board { world.new.board ≡ world.old.board }
    // What was added is a run of entries, deliveries and takes, out of memory too.
    ensures events { SettlesBy world.old.board world.old.past world.new.past }
    // Out of memory, it is what comes first of all that brings the world to rest.
    ensures front { OnErr result (IsOnTheWay world.new.past
        (settled world.old.board world.old.past).past) }
    ensures halting { is_halting world.old.board world.old.past ≡ true
        → (result ≡ Ok Halting) × (world.new.past ≡ world.old.past) }
    ensures quiet { is_halting world.old.board world.old.past ≡ false
        → IfOk result (λ s. (s ≡ Quiet (settled world.old.board world.old.past).rounds)
        × (world.new.past ≡ (settled world.old.board world.old.past).past)) }
    ensures rest { is_halting world.old.board world.old.past ≡ false
        → IfOk result (λ s. ComesToRest world.old.board world.old.past world.new.past s) }
{
    law_settles();
    world.law();
    settle_by_rounds(world)
}

/// The world settles, as `settle` says.
fn settle_by_rounds(world: &mut World) -> Result<Settled, Memory>
    ensures board { world.new.board ≡ world.old.board }
    ensures events { SettlesBy world.old.board world.old.past world.new.past }
    ensures front { OnErr result (IsOnTheWay world.new.past
        (settled world.old.board world.old.past).past) }
    ensures halting { is_halting world.old.board world.old.past ≡ true
        → (result ≡ Ok Halting) × (world.new.past ≡ world.old.past) }
    ensures quiet { is_halting world.old.board world.old.past ≡ false
        → IfOk result (λ s. (s ≡ Quiet (settled world.old.board world.old.past).rounds)
        × (world.new.past ≡ (settled world.old.board world.old.past).past)) }
{
    if is_halting(world) {
        return Ok(Settled::Halting);
    }
    begin(world)?;
    Ok(Settled::Quiet(make_rounds(world)?))
}

/// Whether the power controller is in no life, or in one in which SYSTEM_OFF, SYSTEM_RESET or
/// SYSTEM_RESET2 was accepted.
fn is_halting(world: &World) -> bool
    ensures { result ≡ is_halting world.now.board world.now.past }
{
    let Some(life) = world.controller().life() else {
        return true;
    };
    let firmware = world.firmware();
    firmware.life().unwrap_or(0) == life && firmware.halting()
}

/// Started cores enter, Starts are answered, and the cores that this started enter.
fn begin(world: &mut World) -> Result<(), Memory>
    ensures ok { OnOk result (world.new.past ≡ begun world.old.board world.old.past) }
    ensures front { OnErr result (IsOnTheWay world.new.past
        (begun world.old.board world.old.past)) }
    ensures events { SettlesBy world.old.board world.old.past world.new.past }
    ensures board { world.new.board ≡ world.old.board }
{
    enter_started(world)?;
    answer_each(world, Which::Starts)?;
    enter_started(world)
}

/// Rounds, while a message of a core is outstanding, and how many they were.
fn make_rounds(world: &mut World) -> Result<u32, Memory>
    ensures ok { IfOk result (λ made. record { past = world.new.past; rounds = made }
        ≡ rounds world.old.board (height world.old.board + 1) world.old.past 0) }
    ensures front { OnErr result (IsOnTheWay world.new.past
        (rounds world.old.board (height world.old.board + 1) world.old.past 0).past) }
    ensures events { SettlesBy world.old.board world.old.past world.new.past }
    ensures board { world.new.board ≡ world.old.board }
{
    let most = world.board().height() + 1;
    for made in 0..most {
        if !is_waiting(world) {
            return Ok(made);
        }
        answer_each(world, Which::All)?;
    }
    Ok(most)
}

/// Every started core enters.
fn enter_started(world: &mut World) -> Result<(), Memory>
    ensures ok { OnOk result (world.new.past
        ≡ each_core (entering world.old.board) (all_cores world.old.board) world.old.past) }
    ensures front { OnErr result (IsOnTheWay world.new.past
        (each_core (entering world.old.board) (all_cores world.old.board) world.old.past)) }
    ensures events { SettlesBy world.old.board world.old.past world.new.past }
    ensures board { world.new.board ≡ world.old.board }
{
    for number in 0..world.board().cores() {
        enter_if_started(world, Core { number })?;
    }
    Ok(())
}

/// The core enters, if it is started.
fn enter_if_started(world: &mut World, core: Core) -> Result<(), Memory>
    requires { core.number < cores world.old.board }
    ensures ok { OnOk result (world.new.past
        ≡ entering world.old.board world.old.past core.number) }
    ensures front { OnErr result (IsOnTheWay world.new.past
        (entering world.old.board world.old.past core.number)) }
    ensures events { SettlesBy world.old.board world.old.past world.new.past }
    ensures board { world.new.board ≡ world.old.board }
{
    if world.place(core) == Place::Started {
        happen(world, Event::Enter(u64::from(core.number)))?;
    }
    Ok(())
}

/// What is outstanding for each core is answered, in turn.
fn answer_each(world: &mut World, which: Which) -> Result<(), Memory>
    ensures ok { OnOk result (world.new.past ≡ each_core
        (served world.old.board (serves_kind which)) (all_cores world.old.board)
        world.old.past) }
    ensures front { OnErr result (IsOnTheWay world.new.past (each_core
        (served world.old.board (serves_kind which)) (all_cores world.old.board)
        world.old.past)) }
    ensures events { SettlesBy world.old.board world.old.past world.new.past }
    ensures board { world.new.board ≡ world.old.board }
{
    for number in 0..world.board().cores() {
        let message = number_outstanding(world, number, which);
        answer(world, message)?;
    }
    Ok(())
}

/// The message of this number, if there is one, is delivered, and its acknowledgement taken.
fn answer(world: &mut World, message: Option<u64>) -> Result<(), Memory>
    ensures ok { OnOk result (world.new.past
        ≡ serving world.old.board world.old.past message) }
    ensures front { OnErr result (IsOnTheWay world.new.past
        (serving world.old.board world.old.past message)) }
    ensures events { SettlesBy world.old.board world.old.past world.new.past }
    ensures board { world.new.board ≡ world.old.board }
{
    let Some(number) = message else {
        return Ok(());
    };
    let made = world.acks().len();
    happen(world, Event::Deliver(number))?;
    happen(world, Event::Take(made as u64))
}

/// An entry, a delivery or a taken acknowledgement happens.
fn happen(world: &mut World, event: Event) -> Result<(), Memory>
    requires { is_settling event ≡ true }
    ensures ok { OnOk result (world.new.past ≡ step world.old.board world.old.past event) }
    ensures front { OnErr result (IsOnTheWay world.new.past
        (step world.old.board world.old.past event)) }
    ensures events { SettlesBy world.old.board world.old.past world.new.past }
    ensures board { world.new.board ≡ world.old.board }
{
    world.step(event)?;
    Ok(())
}

// What is outstanding, and the number under which it was sent.

/// Which outstanding messages are answered.
#[derive(Clone, Copy, Debug, PartialEq, Eq)]
pub enum Which {
    /// Each Start.
    Starts,
    /// Every message of a core.
    All,
}

impl Which {
    /// Whether messages of this kind are answered.
    fn answers(self, kind: Kind) -> bool
        ensures { result ≡ serves_kind self kind }
    {
        match self {
            Which::Starts => kind == Kind::Start,
            Which::All => true,
        }
    }
}

/// The outstanding message of a core.
fn outstanding(world: &World, number: u16) -> Option<&Message>
    requires { number < cores world.now.board }
    ensures { option_map (λ message. message.now) result
        ≡ (firmware_values world.now.board world.now.past).outstanding (OfCore number) }
{
    world.firmware().outstanding(number)
}

/// Whether a message of some core is outstanding.
pub fn is_waiting(world: &World) -> bool
    ensures { result ≡ is_waiting world.now.board world.now.past }
{
    for number in 0..world.board().cores() {
        if outstanding(world, number).is_some() {
            return true;
        }
    }
    false
}

/// The number of the message that is outstanding for a core, if there is one to be answered.
pub fn number_outstanding(world: &World, number: u16, which: Which) -> Option<u64>
    requires { number < cores world.now.board }
    ensures { result ≡ option_and_then
        (λ m. if serves_kind which m.kind then index_of m (sent world.now.past) else None)
        ((firmware_values world.now.board world.now.past).outstanding (OfCore number)) }
{
    let message = outstanding(world, number)?;
    if !which.answers(message.kind) {
        return None;
    }
    number_of(message, world.messages())
}

/// The number of the newest message with the name of this one.
fn number_of(message: &Message, messages: &[Message]) -> Option<u64>
    ensures { result ≡ index_of message.now (reverse messages.now) }
{
    for number in (0..messages.len()).rev() {
        if has_name(message, &messages[number]) {
            return Some(number as u64);
        }
    }
    None
}

/// Whether both messages have one name: kind, core, life and number.
fn has_name(one: &Message, other: &Message) -> bool
    ensures { result ≡ has_name one.now other.now }
{
    one.kind == other.kind
        && one.core == other.core
        && one.life == other.life
        && one.number == other.number
}

// Whole runs.

/// The records of the run of these events on this board, the oldest first: the one legal run, safe
/// at every moment.
#[tactic(auto, unfolding(psci_world_spec::specs::Legal::run_from))]
pub fn run(alloc: Global, board: &Board, events: &[Event]) -> Result<Vec<Record>, Memory>
    ensures records { IfOk result (λ records. records.items
        ≡ reverse (run_from board.now [] events.now)) }
    ensures legal { IfOk result (λ records. IsLegalPast board.now (reverse records.items)) }
    ensures safe { IfOk result (λ records. AlwaysSafe board.now (reverse records.items)) }
{
    let mut world = World::new(alloc, board)?;
    for event in events {
        let _record = world.step(*event)?;
    }
    world.law();
    Ok(world.into_records())
}
