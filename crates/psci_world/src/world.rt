//! The world of one board.

use psci_machine::{
    Ack, Board, Controller, Core, Event, Firmware, Memory, Message, Place, Present, Record,
    law_safe,
};
use std::alloc::Global;
use std::marker::Model;

/// The world of one board, after some events. Contracts see the board and the records, the newest
/// first.
#[derive(Drop)]
pub struct World {
    present: Present,
    /// The oldest first.
    records: Vec<Record>,
}

impl Model for World {
    ghost use Rattle.std.specs.Prelude.{reverse};
    ghost use Rattle.psci_world.specs.Settles.{IsWorld, WorldValue};

    ghost Value = { WorldValue };

    ghost view = { λ w. record {
      board = w.present.machine.firmware.board;
      past = reverse w.records.items;
    } };

    ghost invariant = { λ w. IsWorld w.present w.records.items };
}

ghost use Rattle.std.specs.Prelude.{◌≡◌, ◌<◌, [], ◌∷◌, IfOk, OnOk, OnErr, option_map, reverse};
ghost use Rattle.psci_machine.specs.psci_board.Board.{IsBoard, cores};
ghost use Rattle.psci_machine.specs.Controller as controller;
ghost use Rattle.psci_machine.specs.Firmware as firmware;
ghost use Rattle.psci_machine.specs.psci_world_spec.Legal.{acks, controller_values};
ghost use Rattle.psci_machine.specs.psci_world_spec.Legal.{firmware_values, indexed, IsLegalPast};
ghost use Rattle.psci_machine.specs.psci_world_spec.Legal.{legal_record, place, sent};
ghost use Rattle.psci_machine.specs.Safe.{AlwaysSafe};

impl World {
    /// The world of this board, before any event: the power controller is in its first life, the
    /// boot core is started, and the firmware is in no life.
    pub fn new(alloc: Global, board: &Board) -> Result<World, Memory>
        ensures board { IfOk result (λ w. w.board ≡ board.now) }
        ensures past { IfOk result (λ w. w.past ≡ []) }
    {
        Ok(World {
            present: Present::new(alloc, board)?,
            records: Vec::new(alloc),
        })
    }

    /// Makes the event happen, and says what came of it; or is out of memory, and nothing happens.
    pub fn step(&mut self, event: Event) -> Result<Record, Memory>
        ensures ok { IfOk result (λ r. (r ≡ legal_record self.old.board self.old.past event)
            × (self.new.past ≡ r ∷ self.old.past)) }
        ensures board { self.new.board ≡ self.old.board }
        ensures memory { OnErr result (self.new ≡ self.old) }
        ensures legal { IsLegalPast self.new.board self.new.past }
        ensures safe { AlwaysSafe self.new.board self.new.past }
    {
        let newest = self.records().len();
        self.happen(event)?;
        Ok(self.records()[newest].copy())
    }

    /// Makes the event happen, as `step` does. The record of it, of which `step` answers a copy, is
    /// the last of `records`.
    pub fn happen(&mut self, event: Event) -> Result<(), Memory>
        ensures ok { OnOk result (self.new.past
            ≡ legal_record self.old.board self.old.past event ∷ self.old.past) }
        ensures board { self.new.board ≡ self.old.board }
        ensures memory { OnErr result (self.new ≡ self.old) }
        ensures legal { IsLegalPast self.new.board self.new.past }
        ensures safe { AlwaysSafe self.new.board self.new.past }
    {
        self.law();
        law_safe();
        self.records.reserve(1)?;
        let said = self.present.happen(event)?;
        self.records.push_reserved(Record { event, said });
        Ok(())
    }

    /// What holds of every world: each record is the legal one after those before it, and the world
    /// was safe at every moment. It does nothing.
    pub fn law(&self)
        ensures board { IsBoard self.now.board }
        ensures legal { IsLegalPast self.now.board self.now.past }
        ensures safe { AlwaysSafe self.now.board self.now.past }
    {
        self.present.machine().law();
        law_safe();
    }

    /// All records so far, the oldest first.
    pub fn records(&self) -> &[Record]
        ensures { result.now ≡ reverse self.now.past }
    {
        &self.records
    }

    /// All messages sent so far, the oldest first.
    pub fn messages(&self) -> &[Message]
        ensures { result.now ≡ reverse (sent self.now.past) }
    {
        self.present.messages()
    }

    /// All acknowledgements made so far, the oldest first.
    pub fn acks(&self) -> &[Ack]
        ensures { result.now ≡ reverse (acks self.now.past) }
    {
        self.present.acks()
    }

    /// The board.
    pub fn board(&self) -> &Board
        ensures { result.now ≡ self.now.board }
    {
        self.present.machine().controller().board()
    }

    /// The message of this number, counted from 0 as they were sent.
    pub fn message(&self, number: u64) -> Option<&Message>
        ensures { option_map (λ message. message.now) result
            ≡ indexed (sent self.now.past) number }
    {
        self.present.messages().get(usize::try_from(number).ok()?)
    }

    /// The acknowledgement of this number, counted from 0 as they were made.
    pub fn ack(&self, number: u64) -> Option<Ack>
        ensures { result ≡ indexed (acks self.now.past) number }
    {
        let ack = self.present.acks().get(usize::try_from(number).ok()?)?;
        Some(ack.copy())
    }

    /// Where a core is.
    pub fn place(&self, core: Core) -> Place
        requires { core.number < cores self.now.board }
        ensures { result ≡ place self.now.board self.now.past core.number }
    {
        self.present.machine().place(core)
    }

    /// The power controller.
    pub fn controller(&self) -> &Controller
        ensures board { result.now.board ≡ self.now.board }
        ensures values { controller.seen result.now
            ≡ controller_values self.now.board self.now.past }
    {
        self.present.machine().controller()
    }

    /// The firmware.
    pub fn firmware(&self) -> &Firmware
        ensures board { result.now.board ≡ self.now.board }
        ensures values { firmware.seen result.now ≡ firmware_values self.now.board self.now.past }
    {
        self.present.machine().firmware()
    }

    /// All records, the oldest first; the rest of the world is given up.
    pub fn into_records(self) -> Vec<Record>
        ensures { result.items ≡ reverse self.past }
    {
        self.records
    }
}
