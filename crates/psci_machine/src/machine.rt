//! The machine of one board.

use crate::starting::first_places;
use psci_ctl::{
    Ack, Board, Controller, Core, Memory, Message, law_values as law_controller_values,
};
use psci_fw::{Firmware, law_values};
use psci_world_spec::{Event, Place, Said};
use std::alloc::Global;
use std::marker::Model;

/// The firmware and the power controller of one board, and where each core is. No event takes
/// memory of it.
#[derive(Drop)]
pub struct Machine {
    pub(crate) firmware: Firmware,
    pub(crate) controller: Controller,
    /// In the order of the numbers of the cores.
    pub(crate) places: Vec<Place>,
}

impl Model for Machine {
    ghost use Rattle.psci_machine.specs.Seen.{IsMachine, MachineValue};

    ghost Value = { MachineValue };

    ghost view = { λ m. record {
      firmware = m.firmware;
      controller = m.controller;
      places = m.places.items;
    } };

    ghost invariant = { λ m. IsMachine (record {
      firmware = m.firmware;
      controller = m.controller;
      places = m.places.items;
    }) };
}

ghost use Rattle.std.specs.Prelude.{◌≡◌, ◌<◌, ℕ, List, [], ◌∷◌, IfOk, reverse, slice_get, Some};
ghost use Rattle.psci_fw.specs.psci_board.Board.{BoardValue, cores};
ghost use Rattle.psci_fw.specs.psci_messages.Message.{MessageValue};
ghost use Rattle.psci_ctl.specs.psci_ctl_spec.History.{IsOfBoard};
ghost use Rattle.psci_world_spec.specs.declared.said.Record.{Record};
ghost use Rattle.psci_world_spec.specs.Legal.{acks, legal, sent};
ghost use Rattle.psci_machine.specs.Seen.{IsAfter, IsMachine, IsNext, machine_board, place_in};

impl Machine {
    /// The machine of this board, before any event.
    pub fn new(alloc: Global, board: &Board) -> Result<Machine, Memory>
        ensures board { IfOk result (λ m. machine_board m ≡ board.now) }
        ensures after { IfOk result (λ m. IsAfter board.now [] m) }
    {
        law_values();
        law_controller_values();
        Ok(Machine {
            firmware: Firmware::new(alloc, board)?,
            controller: Controller::new(alloc, board)?,
            places: first_places(alloc, board.cores())?,
        })
    }

    /// The firmware.
    pub fn firmware(&self) -> &Firmware
        ensures { result.now ≡ self.now.firmware }
    {
        &self.firmware
    }

    /// The power controller.
    pub fn controller(&self) -> &Controller
        ensures values { result.now ≡ self.now.controller }
        ensures board { result.now.board ≡ machine_board self.now }
    {
        &self.controller
    }

    /// Where a core is.
    pub fn place(&self, core: Core) -> Place
        requires { core.number < cores (machine_board self.now) }
        ensures { result ≡ place_in self.now.places core.number }
    {
        self.places[core.number as usize]
    }

    /// What holds of every machine, for proofs: it does nothing.
    pub fn law(&self)
        ensures { IsMachine self.now }
    {
        let _places = &self.places;
    }

    /// Makes the event happen, before which these messages and acknowledgements are those so far,
    /// the oldest first, and says what came of it. Each message must be one that can be sent on the
    /// board.
    // In place, since a call would write what is said, with room for a message, to memory, to be
    // copied from there.
    #[inline(always)]
    pub fn step(&mut self, event: Event, messages: &[Message], made: &[Ack]) -> Said
        requires { (k : ℕ) (m : MessageValue) → slice_get messages.now k ≡ Some m
            → IsOfBoard (machine_board self.old) m }
        ensures said { (b : BoardValue) (past : List Record) → IsAfter b past self.old
            → messages.now ≡ reverse (sent past) → made.now ≡ reverse (acks past)
            → result ≡ legal b past event }
        ensures after { (b : BoardValue) (past : List Record) → IsAfter b past self.old
            → messages.now ≡ reverse (sent past) → made.now ≡ reverse (acks past)
            → IsAfter b (record { event = event; said = result } ∷ past) self.new }
        ensures next { IsNext messages.now made.now self.old event result self.new }
    {
        law_values();
        law_controller_values();
        self.happen(event, messages, made)
    }

    /// Makes the event happen, as `step` says.
    // In place, as `step`.
    #[inline(always)]
    fn happen(&mut self, event: Event, messages: &[Message], made: &[Ack]) -> Said
        requires { (k : ℕ) (m : MessageValue) → slice_get messages.now k ≡ Some m
            → IsOfBoard (machine_board self.old) m }
        ensures said { (b : BoardValue) (past : List Record) → IsAfter b past self.old
            → messages.now ≡ reverse (sent past) → made.now ≡ reverse (acks past)
            → result ≡ legal b past event }
        ensures next { IsNext messages.now made.now self.old event result self.new }
    {
        match event {
            Event::Call(number, regs) => self.call(number, regs, messages.len()),
            Event::Enter(number) => self.enter(number, messages.len()),
            Event::Wake(number) => self.wake(number),
            Event::Reset(number) => self.reset(number),
            Event::Deliver(number) => self.deliver(messages, number, made.len()),
            Event::Take(number) => self.take(made, number),
        }
    }
}
