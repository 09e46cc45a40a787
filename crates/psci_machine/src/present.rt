//! The present of a world.

use crate::machine::Machine;
use crate::starting::{keep_ack, keep_message};
use psci_ctl::{Ack, Board, Memory, Message};
use psci_world_spec::{Event, Said};
use std::alloc::Global;
use std::marker::Model;

/// The *present* of a world: its machine, and all messages and acknowledgements so far. The
/// records are its past, which it does not keep: what the next event is answered does not need
/// them.
#[derive(Drop)]
pub struct Present {
    machine: Machine,
    /// The oldest first, as are the acknowledgements.
    messages: Vec<Message>,
    acks: Vec<Ack>,
}

impl Model for Present {
    ghost use Rattle.psci_machine.specs.Seen.{HasPast, PresentValue};

    ghost Value = { PresentValue };

    ghost view = { λ p. record {
      machine = p.machine;
      messages = p.messages.items;
      acks = p.acks.items;
    } };

    ghost invariant = { λ p. HasPast (record {
      machine = p.machine;
      messages = p.messages.items;
      acks = p.acks.items;
    }) };
}

ghost use Rattle.std.specs.Prelude.{◌≡◌, [], ◌∷◌, IfOk, OnOk, OnErr, List};
ghost use Rattle.psci_fw.specs.psci_board.Board.{BoardValue};
ghost use Rattle.psci_world_spec.specs.declared.said.Record.{Record};
ghost use Rattle.psci_world_spec.specs.Legal.{legal, legal_record};
ghost use Rattle.psci_machine.specs.Seen.{IsPresent};

impl Present {
    /// The present of this board, before any event: the power controller is in its first life, the
    /// boot core is started, and the firmware is in no life.
    pub fn new(alloc: Global, board: &Board) -> Result<Present, Memory>
        ensures { IfOk result (λ p. IsPresent board.now [] p) }
    {
        Ok(Present {
            machine: Machine::new(alloc, board)?,
            messages: Vec::new(alloc),
            acks: Vec::new(alloc),
        })
    }

    /// Makes the event happen, and says what came of it; or is out of memory, and nothing happens.
    ///
    /// It is the one thing that is legal to say after the records so far, whichever these are, and
    /// then it is the present after these and one record more.
    // In place, since a call would write the event, and what is said with its room for a message,
    // to memory and read it again, on each line of a script.
    #[inline(always)]
    pub fn happen(&mut self, event: Event) -> Result<Said, Memory>
        ensures said { IfOk result (λ said. (b : BoardValue) (past : List Record)
            → IsPresent b past self.old → said ≡ legal b past event) }
        ensures next { OnOk result ((b : BoardValue) (past : List Record)
            → IsPresent b past self.old
            → IsPresent b (legal_record b past event ∷ past) self.new) }
        ensures memory { OnErr result (self.new ≡ self.old) }
    {
        self.machine.law();
        self.messages.reserve(1)?;
        self.acks.reserve(1)?;
        let said = self.machine.step(event, &self.messages, &self.acks);
        keep_message(&mut self.messages, &said)?;
        keep_ack(&mut self.acks, &said)?;
        Ok(said)
    }

    /// The machine.
    pub fn machine(&self) -> &Machine
        ensures { result.now ≡ self.now.machine }
    {
        &self.machine
    }

    /// All messages sent so far, the oldest first.
    pub fn messages(&self) -> &[Message]
        ensures { result.now ≡ self.now.messages }
    {
        &self.messages
    }

    /// All acknowledgements made so far, the oldest first.
    pub fn acks(&self) -> &[Ack]
        ensures { result.now ≡ self.now.acks }
    {
        &self.acks
    }
}
