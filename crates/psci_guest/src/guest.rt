//! The power of a guest.

use crate::arrival::Arrival;
use crate::pair::Pair;
use crate::sends::law_sends;
use crate::steps::law_steps;
use crate::turned::Turned;
use psci_board::{Board, Core, Memory};
use psci_ctl::{Kind, Message};
use psci_fw::Regs;
use std::alloc::Global;
use std::marker::Model;

/// The power of a guest: its firmware and its power controller, which a hypervisor's host asks
/// under one lock. Each call is one turn, and between two turns all is settled: `law_turns` says
/// what holds of it.
#[derive(Drop)]
pub struct GuestPower {
    pub(crate) pair: Pair,
}

impl Model for GuestPower {
    ghost use Rattle.psci_guest.specs.Pair.{IsPair, PairValue};

    ghost Value = { PairValue };

    ghost view = { λ g. g.pair };

    ghost invariant = { λ g. IsPair g.pair };
}

ghost use Rattle.std.specs.Prelude.{◌≡◌, ◌<◌, [], IfOk, List, None, option_map};
ghost use Rattle.psci_board.specs.Board.{BoardValue, cores};
ghost use Rattle.psci_guest.specs.Arrivals.{AreArrivals, RunsIn};
ghost use Rattle.psci_guest.specs.Guest.{IsAfter, IsKicked, IsTurned};
ghost use Rattle.psci_guest.specs.Pair.{board_of};
ghost use Rattle.psci_guest.specs.Turns.{Calls, Resets, Turn, Wakes, started_by, turns};
ghost use Rattle.psci_world_spec.specs.Legal.{place};
ghost use Rattle.psci_world_spec.specs.declared.place.Place.TheVariants.{Running};

impl GuestPower {
    /// The power of a guest of this board, as it comes on, and how its boot core enters.
    pub fn open(alloc: Global, board: &Board) -> Result<(GuestPower, Option<Arrival>), Memory>
        ensures after { IfOk result (λ r. IsAfter board.now [] r.0) }
        ensures arrival { IfOk result (λ r. AreArrivals board.now [] r.1) }
    {
        law_steps();
        let mut pair = Pair::new(alloc, board)?;
        let arrival = pair.arrive(Core { number: 0 });
        Ok((GuestPower { pair }, arrival))
    }

    /// Firmware and power controller, as the last turn left them.
    pub fn pair(&self) -> &Pair
        ensures { result.now ≡ self.now }
    {
        &self.pair
    }

    /// A core that runs in this life calls with these registers: what comes of it. None of a call
    /// behind the end of its life, or of a core that stands, and nothing changes.
    pub fn call(&mut self, core: Core, life: u32, regs: Regs) -> Option<Turned>
        requires { core.number < cores (board_of self.old) }
        ensures board { board_of self.new ≡ board_of self.old }
        ensures behind { (b : BoardValue) (ts : List Turn) → IsAfter b ts self.old
            → (RunsIn b (turns b ts) life core.number → ⊥)
            → (result ≡ None) × (self.new ≡ self.old) }
        ensures turned { (b : BoardValue) (ts : List Turn) → IsAfter b ts self.old
            → RunsIn b (turns b ts) life core.number
            → IsTurned b ts (Calls core.number regs) self.new result }
    {
        law_steps();
        law_sends();
        if !self.pair.runs(core, life) {
            return None;
        }
        let Ok(outcome) = self.pair.call(core, regs) else {
            return None;
        };
        let arrival = match started_by(outcome.message.as_ref()) {
            Some(core) => self.pair.arrive(core),
            None => None,
        };
        Some(Turned {
            outcome,
            arrival,
            life: self.pair.controller().life(),
        })
    }

    /// A core that stands has a wake-up event: how it enters, or None where it is not started: no
    /// life is left, or it was started as often as it can be. None of a core that runs, too, and
    /// nothing changes.
    pub fn wake(&mut self, core: Core) -> Option<Arrival>
        requires { core.number < cores (board_of self.old) }
        ensures board { board_of self.new ≡ board_of self.old }
        ensures running { (b : BoardValue) (ts : List Turn) → IsAfter b ts self.old
            → place b (turns b ts) core.number ≡ Running → (result ≡ None) × (self.new ≡ self.old) }
        ensures woken { (b : BoardValue) (ts : List Turn) → IsAfter b ts self.old
            → (place b (turns b ts) core.number ≡ Running → ⊥)
            → IsKicked b ts (Wakes core.number) self.new result }
    {
        law_steps();
        if !self.pair.stands(core) {
            return None;
        }
        self.pair.wake(core);
        self.pair.arrive(core)
    }

    /// A core is reset by itself: how it enters, or None where it is not started, as at `wake`.
    pub fn reset(&mut self, core: Core) -> Option<Arrival>
        requires { core.number < cores (board_of self.old) }
        ensures board { board_of self.new ≡ board_of self.old }
        ensures kicked { (b : BoardValue) (ts : List Turn) → IsAfter b ts self.old
            → IsKicked b ts (Resets core.number) self.new result }
    {
        law_steps();
        self.pair.reset(core);
        self.pair.arrive(core)
    }
}

/// The core that a message may start, if one was sent.
fn started_by(message: Option<&Message>) -> Option<Core>
    ensures { option_map (λ core. core.number) result
        ≡ started_by (option_map (λ message. message.now) message.entry) }
{
    let message = message?;
    match message.kind {
        Kind::Down => None,
        Kind::Start => Some(message.core),
        Kind::Off => Some(Core { number: 0 }),
        Kind::Reset => Some(Core { number: 0 }),
    }
}
