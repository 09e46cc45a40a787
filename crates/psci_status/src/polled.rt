//! The firmware with the writer of its status words.

use crate::seats::{Reader, StatusWords, Writer};
use psci_board::{Board, Core, Memory};
use psci_fw::{Firmware, FwFault, Outcome, Reaction, Regs, Start, Taken, law_values};
use psci_fw_laws::law_kept;
use psci_messages::Ack;
use std::alloc::Global;
use std::marker::Model;

/// A firmware, and the writer of its status words. Contracts see the firmware, the table of the
/// words and what was written of each core.
#[derive(Drop)]
pub struct PolledFirmware {
    pub(crate) firmware: Firmware,
    pub(crate) writer: Writer,
    pub(crate) cores: u16,
}

impl Model for PolledFirmware {
    ghost use Rattle.psci_status.specs.Lists.{IsPolled, PolledView};
    ghost use Rattle.psci_status.specs.Seats.{table_of_writer, written};

    ghost Value = { PolledView };

    ghost view = { λ p. record {
      firmware = p.firmware;
      table = table_of_writer p.writer;
      written = written p.writer;
    } };

    ghost invariant = { λ p.
        IsPolled p.firmware (table_of_writer p.writer) (written p.writer) p.cores };
}

ghost use Rattle.std.specs.Prelude.{◌∷◌, ◌≡◌, [], IfOk, List, map, OnErr, replicate, ℕ};
ghost use Rattle.psci_board.specs.Board.{cores};
ghost use Rattle.psci_fw.specs.Reactions.{IsInItsSlot, reply_in, seen};
ghost use Rattle.psci_fw_spec.specs.declared.call.FwCall.TheVariants as calls;
ghost use Rattle.psci_fw_spec.specs.declared.reply.FwReply.TheVariants as replies;
ghost use Rattle.psci_fw_spec.specs.declared.status.Status.TheVariants.{Off};
ghost use Rattle.psci_fw_spec.specs.Answer.{answer, reply_of};
ghost use Rattle.psci_fw_spec.specs.Changes.{start_of_life};
ghost use Rattle.psci_status.specs.Lists.{HasMet, IsNext, IsPast, newest};
ghost use Rattle.psci_status.specs.Seats.{seen as seen_by, table, table_of_reader};

use crate::laws::law_few_statuses;
use crate::writing::{asked_in, life_of, used_in, write_entered, write_known};

impl PolledFirmware {
    /// The firmware of this board, before any core has entered, and its status words. They take the
    /// memory of all their calls here.
    pub fn new(alloc: Global, board: &Board) -> Result<(PolledFirmware, StatusWords), Memory>
        ensures board { IfOk result (λ r. r.0.firmware.board ≡ board.now) }
        ensures values { IfOk result (λ r. seen r.0.firmware ≡ start_of_life board.now 0) }
        ensures table { IfOk result (λ r. r.0.table ≡ table r.1) }
        ensures words { IfOk result (λ r. (table r.1).words ≡ cores board.now) }
        ensures written { IfOk result (λ r.
            r.0.written ≡ replicate (cores board.now) (Off ∷ [])) }
    {
        law_values();
        // first, so that none who lacks memory for them has a firmware to let go
        let (words, writer) = StatusWords::new(alloc, board)?;
        let firmware = Firmware::new(alloc, board)?;
        let polled = PolledFirmware {
            firmware,
            writer,
            cores: board.cores(),
        };
        Ok((polled, words))
    }

    /// `Firmware::smc`, and what it changed is written.
    pub fn smc(&mut self, words: &StatusWords, core: Core, regs: Regs) -> Result<Outcome, FwFault>
        requires { table words.now ≡ self.old.table }
        ensures answer { reply_of result ≡ answer self.old.firmware.board
            (seen self.old.firmware) core.number (calls.Smc regs) }
        ensures next { IsNext self.old core.number (calls.Smc regs) self.new }
        ensures refused { OnErr result (self.new ≡ self.old) }
    {
        let reaction = self.smc_in_slot::<()>(words, core, regs)?;
        Ok(self.firmware.outcome(reaction))
    }

    /// `Firmware::smc_in_slot`, and what it changed is written. It is compiled once for each `A`,
    /// as that is.
    pub fn smc_in_slot<A>(
        &mut self,
        words: &StatusWords,
        core: Core,
        regs: Regs,
    ) -> Result<Reaction, FwFault>
        requires { table words.now ≡ self.old.table }
        ensures answer { reply_in self.new.firmware.board (seen self.new.firmware) result
            ≡ answer self.old.firmware.board (seen self.old.firmware) core.number (calls.Smc regs) }
        ensures slot { IfOk result
            (IsInItsSlot self.new.firmware.board (seen self.new.firmware)) }
        ensures next { IsNext self.old core.number (calls.Smc regs) self.new }
        ensures refused { OnErr result (self.new ≡ self.old) }
    {
        law_values();
        law_few_statuses();
        law_kept();
        let PolledFirmware {
            firmware,
            writer,
            cores,
        } = self;
        let reaction = firmware.smc_in_slot::<A>(core, regs)?;
        let asked = asked_in(&reaction);
        write_known(words, writer, firmware, asked, *cores);
        Ok(reaction)
    }

    /// `Firmware::enter`, and what it changed is written.
    pub fn enter(
        &mut self,
        words: &StatusWords,
        core: Core,
        start: Start,
    ) -> Result<Outcome, FwFault>
        requires { table words.now ≡ self.old.table }
        ensures answer { reply_of result ≡ answer self.old.firmware.board
            (seen self.old.firmware) core.number (calls.Enter start) }
        ensures next { IsNext self.old core.number (calls.Enter start) self.new }
        ensures refused { OnErr result (self.new ≡ self.old) }
    {
        let reaction = self.enter_in_slot::<()>(words, core, start)?;
        Ok(self.firmware.outcome(reaction))
    }

    /// `Firmware::enter_in_slot`, and what it changed is written. It is compiled once for each `A`,
    /// as a call is.
    pub fn enter_in_slot<A>(
        &mut self,
        words: &StatusWords,
        core: Core,
        start: Start,
    ) -> Result<Reaction, FwFault>
        requires { table words.now ≡ self.old.table }
        ensures answer { reply_in self.new.firmware.board (seen self.new.firmware) result
            ≡ answer self.old.firmware.board (seen self.old.firmware) core.number
            (calls.Enter start) }
        ensures slot { IfOk result
            (IsInItsSlot self.new.firmware.board (seen self.new.firmware)) }
        ensures next { IsNext self.old core.number (calls.Enter start) self.new }
        ensures refused { OnErr result (self.new ≡ self.old) }
    {
        law_values();
        law_few_statuses();
        let PolledFirmware {
            firmware,
            writer,
            cores,
        } = self;
        let before = life_of(firmware);
        let reaction = firmware.enter_in_slot::<A>(core, start)?;
        write_entered(words, writer, firmware, before, core, start.life, *cores);
        Ok(reaction)
    }

    /// `Firmware::take`, and what it changed is written.
    pub fn take(&mut self, words: &StatusWords, ack: Ack) -> Taken
        requires { table words.now ≡ self.old.table }
        ensures answer { (c : ℕ) → replies.Taken result ≡ answer self.old.firmware.board
            (seen self.old.firmware) c (calls.Take ack) }
        ensures next { (c : ℕ) → IsNext self.old c (calls.Take ack) self.new }
    {
        law_values();
        law_few_statuses();
        law_kept();
        let PolledFirmware {
            firmware,
            writer,
            cores,
        } = self;
        let core = ack.core;
        let taken = firmware.take(ack);
        let used = used_in(taken, core);
        write_known(words, writer, firmware, used, *cores);
        taken
    }

    /// A reader for one who polls. It has seen the last status of each core.
    pub fn reader(&mut self, words: &StatusWords) -> Reader
        requires { table words.now ≡ self.old.table }
        ensures table { table_of_reader result ≡ table words.now }
        ensures seen { seen_by result ≡ map newest self.old.written }
        ensures same { self.new ≡ self.old }
    {
        words.reader(&mut self.writer)
    }

    /// A reader comes under the lock: what it had seen was written, and it has now seen the last
    /// status of each core.
    pub fn meet(&mut self, words: &StatusWords, reader: &mut Reader)
        requires words { table words.now ≡ self.old.table }
        requires reader { table_of_reader reader.old ≡ table words.now }
        ensures table { table_of_reader reader.new ≡ table_of_reader reader.old }
        ensures met { HasMet self.old.written (cores self.old.firmware.board)
            (seen_by reader.old) (seen_by reader.new) }
        ensures same { self.new ≡ self.old }
    {
        words.meet(&mut self.writer, reader);
    }

    /// The firmware, to look at.
    pub fn firmware(&self) -> &Firmware
        ensures { result.now ≡ self.now.firmware }
    {
        &self.firmware
    }

    /// There is a legal history that left the firmware's values, and what was written of each core
    /// are its statuses in that history.
    pub fn law_past(&self)
        ensures { IsPast self.now.firmware.board (seen self.now.firmware) self.now.written }
    {
        let _cores = self.cores;
    }
}
