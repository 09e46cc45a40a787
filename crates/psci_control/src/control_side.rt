//! The power controller's side of a port.

use crate::gate::Gate;
use psci_ctl::Controller;
use std::marker::Model;

/// The power controller of a port, with what is written down of each core: its door, its word, and
/// what waits until it stands. Its methods do nothing to the machine: they order what is to be
/// done.
#[derive(Drop)]
pub struct ControlSide {
    pub(crate) controller: Controller,
    /// In the order of the numbers of the cores.
    pub(crate) gates: Vec<Gate>,
}

impl Model for ControlSide {
    ghost use Rattle.psci_control.specs.ControlSide.{ControlValue, IsControlSide};

    ghost Value = { ControlValue };

    ghost view = { λ s. record { controller = s.controller; gates = s.gates.items } };

    ghost invariant = { λ s. IsControlSide (record {
      controller = s.controller;
      gates = s.gates.items;
    }) };
}

ghost use Rattle.std.specs.Prelude.{◌<◌, ◌≡◌, false, IfOk, IfSome, None, replicate, Some, true, ℕ};
ghost use Rattle.psci_board.specs.Board.{cores};
ghost use Rattle.psci_control.specs.ControlSide.{board_of, closed, door_due, gate_in, gates_after};
ghost use Rattle.psci_control.specs.ControlSide.{heard, holding, IsAsked, ordered, orders_in};
ghost use Rattle.psci_control.specs.ControlSide.{served, telling, values_of, waits_in, with_gate};
ghost use Rattle.psci_ctl_spec.specs.History.{IsOfBoard};
ghost use Rattle.psci_ctl_spec.specs.Values.{start_of_life};
ghost use Rattle.psci_ctl_spec.specs.declared.call.CtlCall.TheVariants as calls;
ghost use Rattle.psci_messages.specs.Message.{MessageValue};

use crate::door::{DoorOrder, door_order};
use crate::guarded::{deliver, wake};
use crate::order::{Ending, Orders};
use crate::ordering::{delivery_orders, ending_by, kick_orders};
use crate::waiting::has_to_wait;
use psci_board::{Board, Core, Memory};
use psci_ctl::Message;
use std::alloc::Global;

impl ControlSide {
    /// The power controller's side of a port of this board, as its power comes on: every door is
    /// closed, and the start of the boot core is still to be written.
    pub fn new(alloc: Global, board: &Board) -> Result<ControlSide, Memory>
        ensures board { IfOk result (λ s. board_of s ≡ board.now) }
        ensures values { IfOk result (λ s. values_of s ≡ start_of_life board.now) }
        ensures gates { IfOk result (λ s. s.gates ≡ replicate (cores board.now) closed) }
    {
        Ok(ControlSide {
            controller: Controller::new(alloc, board)?,
            gates: vec![in alloc; Gate::CLOSED; board.cores() as usize]?,
        })
    }

    /// The power controller.
    pub fn controller(&self) -> &Controller
        ensures { result.now ≡ self.now.controller }
    {
        &self.controller
    }

    /// A core has said that it stands in its stop of this start.
    pub fn stands(&mut self, core: Core, word: u32)
        requires { core.number < cores (board_of self.old) }
        ensures { self.new ≡ with_gate self.old core.number
            (telling word (gate_in self.old.gates core.number)) }
    {
        self.gates[core.number as usize].word = word;
    }

    /// A message comes: what is to be done, or None where it waits until its core stands, in place
    /// of one that waited before.
    pub fn message(&mut self, message: &Message) -> Option<Orders>
        requires { IsOfBoard (board_of self.old) message.now }
        ensures waits { waits_in self.old (calls.Deliver message.now) ≡ true
            → (result ≡ None) × (self.new ≡ with_gate self.old message.now.core.number
            (holding message.now (gate_in self.old.gates message.now.core.number))) }
        ensures orders { waits_in self.old (calls.Deliver message.now) ≡ false
            → result ≡ Some (orders_in self.old (calls.Deliver message.now)) }
        ensures asked { waits_in self.old (calls.Deliver message.now) ≡ false
            → IsAsked (calls.Deliver message.now) self.old self.new }
    {
        let Some(orders) = self.hand_on(message) else {
            self.hold(message);
            return None;
        };
        Some(orders)
    }

    /// The message that waits for a core, if it no longer has to: what is to be done, or None,
    /// where nothing changes.
    pub fn waited(&mut self, core: Core) -> Option<Orders>
        requires { core.number < cores (board_of self.old) }
        ensures orders { (m : MessageValue)
            → (gate_in self.old.gates core.number).waiting ≡ Some m
            → waits_in self.old (calls.Deliver m) ≡ false
            → (result ≡ Some (orders_in self.old (calls.Deliver m)))
            × IsAsked (calls.Deliver m) (with_gate self.old core.number
            (served (gate_in self.old.gates core.number))) self.new }
        ensures waits { (m : MessageValue)
            → (gate_in self.old.gates core.number).waiting ≡ Some m
            → waits_in self.old (calls.Deliver m) ≡ true
            → (result ≡ None) × (self.new ≡ self.old) }
        ensures nothing { (gate_in self.old.gates core.number).waiting ≡ None
            → (result ≡ None) × (self.new ≡ self.old) }
    {
        let gate = self.gates[core.number as usize];
        let message = gate.waiting?;
        if has_to_wait(&self.controller, &message, gate.word) {
            return None;
        }
        self.let_go(core);
        self.hand_on(&message)
    }

    /// A core has a wake-up: what is to be done, or None where the core does not stand, and nothing
    /// changes.
    pub fn wake(&mut self, core: Core) -> Option<Orders>
        requires { core.number < cores (board_of self.old) }
        ensures waits { waits_in self.old (calls.Wake core (heard self.old core.number)) ≡ true
            → (result ≡ None) × (self.new ≡ self.old) }
        ensures orders { waits_in self.old (calls.Wake core (heard self.old core.number)) ≡ false
            → result ≡ Some (orders_in self.old
            (calls.Wake core (heard self.old core.number))) }
        ensures asked { waits_in self.old (calls.Wake core (heard self.old core.number)) ≡ false
            → IsAsked (calls.Wake core (heard self.old core.number)) self.old self.new }
    {
        let word = self.word(core);
        let kick = wake(&mut self.controller, core, word)?;
        Some(kick_orders(core, kick))
    }

    /// A core is reset by itself: what is to be done.
    pub fn reset(&mut self, core: Core) -> Orders
        requires { core.number < cores (board_of self.old) }
        ensures orders { result ≡ orders_in self.old (calls.Reset core) }
        ensures asked { IsAsked (calls.Reset core) self.old self.new }
    {
        let kick = self.controller.reset(core);
        kick_orders(core, kick)
    }

    /// The next step of a core's door, if one is due: the core's last start is written there, and
    /// only then the door is opened for it.
    pub fn door(&mut self, core: Core) -> Option<DoorOrder>
        requires { core.number < cores (board_of self.old) }
        ensures order { result ≡ door_due (values_of self.old) core.number
            (gate_in self.old.gates core.number) }
        ensures left { self.new ≡ with_gate self.old core.number
            (ordered result (gate_in self.old.gates core.number)) }
    {
        let Gate {
            written,
            opened,
            ..
        } = self.gates[core.number as usize];
        let order = door_order(&self.controller, core, written, opened);
        match order {
            Some(DoorOrder::Write(start)) => {
                self.gates[core.number as usize].written = Some(start);
            }
            Some(DoorOrder::Open(number)) => self.gates[core.number as usize].opened = number,
            None => {}
        }
        order
    }

    /// Which core is rung for an acknowledgement: one that does not stand, if there is one. Where
    /// none is, the next one that enters takes it.
    pub fn rings(&self) -> Option<Core>
        ensures some { IfSome result (λ c. (c.number < cores (board_of self.now))
            × (heard self.now c.number ≡ (values_of self.now).starts c.number → ⊥)) }
        ensures none { result ≡ None → (c : ℕ) → c < cores (board_of self.now)
            → heard self.now c ≡ (values_of self.now).starts c }
    {
        for number in 0..self.controller.board().cores() {
            let core = Core { number };
            if self.word(core) != self.controller.starts(core) {
                return Some(core);
            }
        }
        None
    }

    /// Hands a message on, unless it waits: then nothing changes.
    fn hand_on(&mut self, message: &Message) -> Option<Orders>
        requires { IsOfBoard (board_of self.old) message.now }
        ensures waits { waits_in self.old (calls.Deliver message.now) ≡ true → result ≡ None }
        ensures same { result ≡ None → self.new ≡ self.old }
        ensures orders { waits_in self.old (calls.Deliver message.now) ≡ false
            → result ≡ Some (orders_in self.old (calls.Deliver message.now)) }
        ensures asked { waits_in self.old (calls.Deliver message.now) ≡ false
            → IsAsked (calls.Deliver message.now) self.old self.new }
    {
        let word = self.word(message.core);
        let delivery = deliver(&mut self.controller, message, word)?;
        let ending = ending_by(self.controller.board(), message, &delivery);
        self.close(ending);
        Some(delivery_orders(self.controller.board(), message, delivery))
    }

    /// The word that was heard of a core.
    fn word(&self, core: Core) -> u32
        requires { core.number < cores (board_of self.now) }
        ensures { result ≡ heard self.now core.number }
    {
        self.gates[core.number as usize].word
    }

    /// A message waits for its core, in place of one that waited before.
    fn hold(&mut self, message: &Message)
        requires { IsOfBoard (board_of self.old) message.now }
        ensures { self.new ≡ with_gate self.old message.now.core.number
            (holding message.now (gate_in self.old.gates message.now.core.number)) }
    {
        self.gates[message.core.number as usize].waiting = Some(message.copy());
    }

    /// No message waits for a core.
    fn let_go(&mut self, core: Core)
        requires { core.number < cores (board_of self.old) }
        ensures { self.new ≡ with_gate self.old core.number
            (served (gate_in self.old.gates core.number)) }
    {
        self.gates[core.number as usize].waiting = None;
    }

    /// What is written down ends with the life.
    fn close(&mut self, ending: Option<Ending>)
        ensures controller { self.new.controller ≡ self.old.controller }
        ensures gates { self.new.gates ≡ gates_after ending self.old.gates }
    {
        if ending.is_some() {
            self.gates.fill(Gate::CLOSED);
        }
    }
}
