//! What is in a place: a firmware with its status words, and what its calls name things by.

ghost use Rattle.std.specs.Prelude.{◌≡◌, IfOk, OnErr, option_map, ℕ};
ghost use Rattle.psci_fw.specs.Reactions.{reply_in, seen, sent_from};
ghost use Rattle.psci_fw_spec.specs.Answer.{answer};
ghost use Rattle.psci_fw_spec.specs.declared.call.FwCall.TheVariants as calls;
ghost use Rattle.psci_fw_spec.specs.declared.reply.FwReply.TheVariants as replies;
ghost use Rattle.psci_messages.specs.Message.{AckValue, MessageValue};
ghost use Rattle.psci_status.specs.Seats.{table};
ghost use Rattle.psci_ffi.specs.Frames.{IsAcknowledged, IsFaulty, IsMisplaced};
ghost use Rattle.psci_ffi.specs.Namings.{IsWatchOf, asked_in, machine_of, regs_in};
ghost use Rattle.psci_ffi.specs.Shown.{IsNewIn, IsNextIn, asked_shown};

use crate::answer::GivenAsked;
use crate::codes::{NOT_AN_ACK, frame_code, taken_code};
use crate::naming::{Common, Naming, share};
use crate::poller::Watch;
use psci_board::{Board, Core, Memory};
use psci_fw::{Firmware, FwFault, Reaction, Regs, Start, Taken};
use psci_link::{Heading, ack_in, heading_on};
use psci_messages::{Ack, Message};
use psci_platform::Platform;
use psci_status::PolledFirmware;
use std::alloc::Global;
use std::marker::Model;
use std::sync::Arc;

/// A firmware, and what it shares with those who poll. Contracts see the firmware, the table of its
/// status words, what was written of each core, and the machine, if there is one.
#[derive(Drop)]
pub struct Held {
    pub(crate) common: Arc<Common>,
    pub(crate) polled: PolledFirmware,
}

impl Model for Held {
    ghost use Rattle.std.specs.Prelude.{◌≡◌};
    ghost use Rattle.std.specs.Arc.{arc_value};
    ghost use Rattle.psci_status.specs.Seats.{table};
    ghost use Rattle.psci_ffi.specs.Namings.{PlaceValue, board_of, machine_of};

    ghost Value = { PlaceValue };

    ghost view = { λ h. record {
      polled = h.polled;
      machine = machine_of (arc_value h.common).naming;
    } };

    ghost invariant = { λ h.
        (board_of (arc_value h.common).naming ≡ h.polled.firmware.board)
        × (table (arc_value h.common).words ≡ h.polled.table) };
}

impl Held {
    /// A new firmware of this board, in these words.
    #[inline(never)]
    pub fn new(alloc: Global, naming: Naming) -> Result<Held, Memory>
        ensures { IfOk result (IsNewIn naming) }
    {
        let (polled, words) = PolledFirmware::new(alloc, naming.board())?;
        let common = share(alloc, naming, words)?;
        Ok(Held { common, polled })
    }

    /// The firmware, as what it shares is let go. It has a frame of its own, which is gone when the
    /// firmware is let go.
    #[inline(never)]
    pub fn alone(self) -> PolledFirmware
        ensures { result ≡ self.polled }
    {
        let Held { common, polled } = self;
        drop(common);
        polled
    }

    /// The same of one in memory of its own.
    #[inline(never)]
    pub fn unboxed(held: Box<Held>) -> PolledFirmware
        ensures { result ≡ held.value.polled }
    {
        Box::into_inner(held).alone()
    }

    /// `Firmware::smc_in_slot`. It is compiled once for each `A`, as that is.
    pub fn smc<A>(&mut self, core: Core, regs: Regs) -> Result<Reaction, FwFault>
        ensures answer { let old = self.old.polled.firmware in
            let new = self.new.polled.firmware in
            reply_in new.board (seen new) result
            ≡ answer old.board (seen old) core.number (calls.Smc regs) }
        ensures next { IsNextIn self.old core.number (calls.Smc regs) self.new }
        ensures refused { OnErr result (self.new ≡ self.old) }
    {
        let Held { common, polled } = self;
        polled.smc_in_slot::<A>(&common.words, core, regs)
    }

    /// The registers of the firmware's call for one in the words of the place. What is asked beside
    /// is written.
    #[inline(always)]
    pub fn called(&self, regs: Regs, asked: &mut GivenAsked) -> Regs
        ensures regs { result ≡ regs_in self.now.machine (seen self.now.polled.firmware).mode regs }
        ensures asked { asked.new
            ≡ asked_shown (asked_in self.now.machine (seen self.now.polled.firmware).mode regs) }
    {
        let mode = self.polled.firmware().mode();
        self.common.naming.called(mode, regs, asked)
    }

    /// `Firmware::enter_in_slot`. It is compiled once for each `A`, as that is.
    pub fn enter<A>(&mut self, core: Core, start: Start) -> Result<Reaction, FwFault>
        ensures answer { let old = self.old.polled.firmware in
            let new = self.new.polled.firmware in
            reply_in new.board (seen new) result
            ≡ answer old.board (seen old) core.number (calls.Enter start) }
        ensures next { IsNextIn self.old core.number (calls.Enter start) self.new }
        ensures refused { OnErr result (self.new ≡ self.old) }
    {
        let Held { common, polled } = self;
        polled.enter_in_slot::<A>(&common.words, core, start)
    }

    /// What was just sent: the message in this slot, where it stands.
    pub fn sent(&self, slot: Option<u16>) -> Option<&Message>
        ensures { option_map (λ message. message.now) result
            ≡ sent_from self.now.polled.firmware.board (seen self.now.polled.firmware) slot }
    {
        match slot {
            Some(number) => self.polled.firmware().outstanding(number),
            None => None,
        }
    }

    /// `Firmware::take` of the acknowledgement that these bytes are, and the code of what became
    /// of it, or of why they are none.
    pub fn take(&mut self, bytes: &[u8]) -> u32
        ensures fault { IsFaulty bytes.now result self.old.polled self.new.polled }
        ensures message { (m : MessageValue)
            → IsMisplaced m bytes.now result self.old.polled self.new.polled }
        ensures ack { (a : AckValue)
            → IsAcknowledged a bytes.now result self.old.polled self.new.polled }
        ensures machine { self.new.machine ≡ self.old.machine }
    {
        match heading_on(bytes, self.board()) {
            Err(fault) => frame_code(fault),
            Ok(Heading::Message(_)) => NOT_AN_ACK,
            Ok(Heading::Ack(kind, stale)) => {
                taken_code(self.take_ack(ack_in(kind, stale, bytes)))
            }
        }
    }

    /// `Firmware::take`.
    fn take_ack(&mut self, ack: Ack) -> Taken
        ensures answer { (c : ℕ) → replies.Taken result ≡ answer self.old.polled.firmware.board
            (seen self.old.polled.firmware) c (calls.Take ack) }
        ensures next { (c : ℕ) → IsNextIn self.old c (calls.Take ack) self.new }
    {
        let Held { common, polled } = self;
        polled.take(&common.words, ack)
    }

    /// The board.
    pub fn board(&self) -> &Board
        ensures { result.now ≡ self.now.polled.firmware.board }
    {
        self.polled.firmware().board()
    }

    /// The firmware, to read.
    pub fn firmware(&self) -> &Firmware
        ensures { result.now ≡ self.now.polled.firmware }
    {
        self.polled.firmware()
    }

    /// The machine, if the place was opened with one.
    #[inline(always)]
    pub fn machine(&self) -> Option<&Platform>
        ensures { option_map (λ machine. machine.now) result ≡ self.now.machine }
    {
        self.common.naming.machine()
    }

    /// One who polls. It has seen the last status of each core.
    pub fn watch(&mut self) -> Result<Watch, Memory>
        ensures watch { IfOk result (λ w. IsWatchOf self.old w) }
        ensures same { self.new ≡ self.old }
    {
        let Held { common, polled } = self;
        let shared = Arc::try_clone(common)?;
        let reader = polled.reader(&common.words);
        Ok(Watch::of(shared, reader))
    }
}
