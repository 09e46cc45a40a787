//! The firmware behind the words of a platform.

use crate::asked::Asked;
use crate::platform::Platform;
use psci_abi::Regs;
use psci_board::{Core, Memory};
use psci_fw::{Firmware, FwFault, Outcome, Start, Taken};
use psci_messages::Ack;
use std::alloc::Global;
use std::marker::Model;

/// A platform, and the firmware of its board.
#[derive(Drop)]
pub struct PlatformFirmware {
    platform: Platform,
    firmware: Firmware,
}

impl Model for PlatformFirmware {
    ghost use Rattle.psci_platform.specs.Platforms.{IsPlatformFirmware, PlatformFirmwareValue};

    ghost Value = { PlatformFirmwareValue };

    ghost view = { λ p. record { platform = p.platform; firmware = p.firmware } };

    ghost invariant = { λ p. IsPlatformFirmware (record {
      platform = p.platform;
      firmware = p.firmware;
    }) };
}

ghost use Rattle.std.specs.Prelude.{◌≡◌, ℕ, IfOk, OnErr};
ghost use Rattle.psci_fw.specs.Reactions.{seen};
ghost use Rattle.psci_fw_spec.specs.declared.call.FwCall.TheVariants as calls;
ghost use Rattle.psci_fw_spec.specs.declared.reply.FwReply.TheVariants as replies;
ghost use Rattle.psci_fw_spec.specs.Effects.{after};
ghost use Rattle.psci_fw_spec.specs.Answer.{answer, reply_of};
ghost use Rattle.psci_fw_spec.specs.Changes.{start_of_life};
ghost use Rattle.psci_messages.specs.declared.taken.Taken.TheVariants.{Old};
ghost use Rattle.psci_platform.specs.Calls.{asked_for};
ghost use Rattle.psci_platform.specs.Platforms.{called};

impl PlatformFirmware {
    /// The firmware of a platform, before any core has entered. It takes the memory of all its
    /// calls here.
    pub fn new(alloc: Global, platform: Platform) -> Result<PlatformFirmware, Memory>
        ensures platform { IfOk result (λ f. f.platform ≡ platform) }
        ensures values { IfOk result (λ f. seen f.firmware ≡ start_of_life platform.board 0) }
    {
        let firmware = Firmware::new(alloc, platform.board())?;
        Ok(PlatformFirmware { platform, firmware })
    }

    /// A secure monitor call of a core in the platform's words: `Firmware::smc` of the translated
    /// registers, in the mode that the firmware is in. Beside it is told which of the platform's
    /// states or resets the call names. It says something only where the core stops and a message
    /// goes out, and it says what the caller asked: how deep each level goes is said by the parts
    /// of the message, as other cores may have asked for less.
    pub fn smc(&mut self, core: Core, regs: Regs) -> (Result<Outcome, FwFault>, Asked)
        ensures answer { reply_of result.0 ≡ answer self.old.platform.board
            (seen self.old.firmware) core.number (calls.Smc (called self.old regs)) }
        ensures asked { result.1 ≡ asked_for self.old.platform.description
            (seen self.old.firmware).mode regs }
        ensures after { seen self.new.firmware ≡ after self.old.platform.board core.number
            (calls.Smc (called self.old regs)) (reply_of result.0) (seen self.old.firmware) }
        ensures platform { self.new.platform ≡ self.old.platform }
        ensures refused { OnErr result.0 (self.new ≡ self.old) }
    {
        let call = self.platform.translate(self.firmware.mode(), regs);
        (self.firmware.smc(core, call.regs), call.asked)
    }

    /// A core enters by this start: `Firmware::enter`.
    pub fn enter(&mut self, core: Core, start: Start) -> Result<Outcome, FwFault>
        ensures answer { reply_of result ≡ answer self.old.platform.board
            (seen self.old.firmware) core.number (calls.Enter start) }
        ensures after { seen self.new.firmware ≡ after self.old.platform.board core.number
            (calls.Enter start) (reply_of result) (seen self.old.firmware) }
        ensures platform { self.new.platform ≡ self.old.platform }
        ensures refused { OnErr result (self.new ≡ self.old) }
    {
        self.firmware.enter(core, start)
    }

    /// Takes an acknowledgement of the power controller: `Firmware::take`.
    pub fn take(&mut self, ack: Ack) -> Taken
        ensures answer { (c : ℕ) → replies.Taken result
            ≡ answer self.old.platform.board (seen self.old.firmware) c (calls.Take ack) }
        ensures after { (c : ℕ) → seen self.new.firmware ≡ after self.old.platform.board c
            (calls.Take ack) (replies.Taken result) (seen self.old.firmware) }
        ensures platform { self.new.platform ≡ self.old.platform }
        ensures old { result ≡ Old → self.new ≡ self.old }
    {
        self.firmware.take(ack)
    }

    /// The platform, which knows the number of a core and its MPIDR.
    pub fn platform(&self) -> &Platform
        ensures { result.now ≡ self.now.platform }
    {
        &self.platform
    }

    /// The firmware, which knows what is kept.
    pub fn firmware(&self) -> &Firmware
        ensures { result.now ≡ self.now.firmware }
    {
        &self.firmware
    }
}
