//! Firmware and power controller as one.

use crate::arrival::Arrival;
use crate::sends::law_sends;
use psci_board::{Board, Core, Memory};
use psci_ctl::{Controller, Delivery, Kick, Message};
use psci_fw::{Firmware, FwFault, Outcome, Regs, Start};
use std::alloc::Global;
use std::marker::Model;

/// Firmware and power controller of one board. What the firmware sends is delivered at once, and
/// the acknowledgement taken. No call takes memory.
#[derive(Drop)]
pub struct Pair {
    pub(crate) firmware: Firmware,
    pub(crate) controller: Controller,
}

impl Model for Pair {
    ghost use Rattle.psci_guest.specs.Pair.{IsPair, PairValue};

    ghost Value = { PairValue };

    ghost view = { λ p. record { firmware = p.firmware; controller = p.controller } };

    ghost invariant = { λ p. IsPair (record {
      firmware = p.firmware;
      controller = p.controller;
    }) };
}

ghost use Rattle.std.specs.Prelude.{◌≡◌, ◌<◌, IfOk, None, Some, option_map};
ghost use Rattle.psci_board.specs.Board.{cores};
ghost use Rattle.psci_ctl.specs.Seen.{seen as seen_controller};
ghost use Rattle.psci_ctl_spec.specs.Replies as changes;
ghost use Rattle.psci_ctl_spec.specs.History.{IsOfBoard};
ghost use Rattle.psci_ctl_spec.specs.Replies.{reply};
ghost use Rattle.psci_ctl_spec.specs.Values as controlled;
ghost use Rattle.psci_ctl_spec.specs.declared.call.CtlCall.TheVariants as asked;
ghost use Rattle.psci_ctl_spec.specs.declared.reply.CtlReply.TheVariants as replied;
ghost use Rattle.psci_fw.specs.Reactions.{seen as seen_firmware};
ghost use Rattle.psci_fw_spec.specs.Answer.{answer, reply_of};
ghost use Rattle.psci_fw_spec.specs.Changes as lives;
ghost use Rattle.psci_fw_spec.specs.declared.call.FwCall.TheVariants as calls;
ghost use Rattle.psci_messages.specs.Message.{MessageValue};
ghost use Rattle.psci_messages.specs.declared.start.Start as starts;
ghost use Rattle.psci_guest.specs.Pair.{arrival_of, board_of, entry_reply, IsLeft, IsPair, kept_by};
ghost use Rattle.psci_guest.specs.Pair.{runs_in, stands_in, waiting_in, with_call, with_message};

impl Pair {
    /// Firmware and power controller of this board, as the machine comes on: the firmware is in no
    /// life, and the boot core is started.
    pub fn new(alloc: Global, board: &Board) -> Result<Pair, Memory>
        ensures board { IfOk result (λ p. board_of p ≡ board.now) }
        ensures sound { IfOk result (λ p. IsPair p) }
        ensures kept { IfOk result (λ p. kept_by p ≡ (record {
          firmware = lives.start_of_life board.now 0;
          controller = controlled.start_of_life board.now;
        })) }
    {
        Ok(Pair {
            firmware: Firmware::new(alloc, board)?,
            controller: Controller::new(alloc, board)?,
        })
    }

    /// The firmware.
    pub fn firmware(&self) -> &Firmware
        ensures { result.now ≡ self.now.firmware }
    {
        &self.firmware
    }

    /// The power controller.
    pub fn controller(&self) -> &Controller
        ensures { result.now ≡ self.now.controller }
    {
        &self.controller
    }

    /// A core calls, what it sends is delivered, and the acknowledgement taken. Refused as
    /// `Firmware::smc` says.
    pub fn call(&mut self, core: Core, regs: Regs) -> Result<Outcome, FwFault>
        ensures answer { reply_of result ≡ answer (board_of self.old)
            (seen_firmware self.old.firmware) core.number (calls.Smc regs) }
        ensures left { IsLeft self.old self.new (with_call (board_of self.old) core.number
            (calls.Smc regs) (reply_of result) (kept_by self.old)) }
    {
        law_sends();
        let outcome = self.firmware.smc(core, regs)?;
        self.deliver(outcome.message.as_ref());
        Ok(outcome)
    }

    /// A core enters by this start, what it sends is delivered, and the acknowledgement taken.
    /// Refused as `Firmware::enter` says.
    pub fn enter(&mut self, core: Core, start: Start) -> Result<Outcome, FwFault>
        ensures answer { reply_of result ≡ answer (board_of self.old)
            (seen_firmware self.old.firmware) core.number (calls.Enter start) }
        ensures left { IsLeft self.old self.new (with_call (board_of self.old) core.number
            (calls.Enter start) (reply_of result) (kept_by self.old)) }
    {
        law_sends();
        let outcome = self.firmware.enter(core, start)?;
        self.deliver(outcome.message.as_ref());
        Ok(outcome)
    }

    /// Whether a core runs, in this life.
    pub fn runs(&self, core: Core, life: u32) -> bool
        ensures { result ≡ runs_in (kept_by self.now) life core.number }
    {
        self.controller.life() == Some(life) && self.firmware.running(core)
    }

    /// Whether a core stands: it runs in no life.
    pub fn stands(&self, core: Core) -> bool
        ensures { result ≡ stands_in (kept_by self.now) core.number }
    {
        !(self.controller.life().is_some() && self.firmware.running(core))
    }

    /// A core enters that was started, if it was: how it does, or None, and nothing changes.
    #[inline(never)]
    pub fn arrive(&mut self, core: Core) -> Option<Arrival>
        requires { core.number < cores (board_of self.old) }
        ensures none { waiting_in (kept_by self.old) core.number ≡ None
            → (result ≡ None) × (self.new ≡ self.old) }
        ensures told { (s : starts.Start) → waiting_in (kept_by self.old) core.number ≡ Some s
            → result ≡ arrival_of core s (entry_reply self.old core.number s) }
        ensures left { (s : starts.Start) → waiting_in (kept_by self.old) core.number ≡ Some s
            → IsLeft self.old self.new (with_call (board_of self.old) core.number
            (calls.Enter s) (entry_reply self.old core.number s) (kept_by self.old)) }
    {
        let start = self.waiting(core)?;
        let Ok(outcome) = self.enter(core, start) else {
            return None;
        };
        Some(Arrival {
            core,
            start,
            outcome,
        })
    }

    /// The start by which a core is to enter, if it is at its start.
    fn waiting(&self, core: Core) -> Option<Start>
        requires { core.number < cores (board_of self.now) }
        ensures { result ≡ waiting_in (kept_by self.now) core.number }
    {
        let start = self.controller.started(core)?;
        let life = self.firmware.life().unwrap_or(0);
        let is_known = start.life == life && start.number <= self.firmware.known(core);
        (!is_known).then_some(start)
    }

    /// A core has a wake-up event, after it stopped in its last start.
    pub fn wake(&mut self, core: Core) -> Kick
        requires { core.number < cores (board_of self.old) }
        ensures reply { replied.Kick result ≡ reply (board_of self.old)
            (seen_controller self.old.controller)
            (asked.Wake core ((seen_controller self.old.controller).starts core.number)) }
        ensures left { IsLeft self.old self.new (record {
          firmware = seen_firmware self.old.firmware;
          controller = changes.after (board_of self.old)
              (asked.Wake core ((seen_controller self.old.controller).starts core.number))
              (replied.Kick result) (seen_controller self.old.controller);
        }) }
    {
        let halted = self.controller.starts(core);
        self.controller.wake(core, halted)
    }

    /// A core is reset by itself.
    pub fn reset(&mut self, core: Core) -> Kick
        requires { core.number < cores (board_of self.old) }
        ensures reply { replied.Kick result ≡ reply (board_of self.old)
            (seen_controller self.old.controller) (asked.Reset core) }
        ensures left { IsLeft self.old self.new (record {
          firmware = seen_firmware self.old.firmware;
          controller = changes.after (board_of self.old) (asked.Reset core) (replied.Kick result)
              (seen_controller self.old.controller);
        }) }
    {
        self.controller.reset(core)
    }

    /// A message is delivered, if there is one, and its acknowledgement taken.
    fn deliver(&mut self, message: Option<&Message>)
        requires { (m : MessageValue) → option_map (λ message. message.now) message ≡ Some m
            → IsOfBoard (board_of self.old) m }
        ensures { IsLeft self.old self.new (with_message (board_of self.old)
            (option_map (λ message. message.now) message.entry) (kept_by self.old)) }
    {
        let controller = &mut self.controller;
        let Some(message) = message else {
            return;
        };
        if let Delivery::Applied(ack) = controller.deliver(message) {
            self.firmware.take(ack);
        }
    }
}
