//! The firmware is asked: calls, entries, and acknowledgements that it takes.

ghost use Rattle.std.specs.Prelude.{◌<◌, ◌==◌, ◌≡◌, if◌then◌else◌, List, nat_lt, None, slice_get};
ghost use Rattle.std.specs.Prelude.{Some, ℕ};
ghost use Rattle.psci_fw.specs.psci_board.Board.{cores};
ghost use Rattle.psci_ctl.specs.Seen as controller;
ghost use Rattle.psci_ctl.specs.psci_ctl_spec.Replies.{last_start};
ghost use Rattle.psci_fw.specs.Reactions.{seen};
ghost use Rattle.psci_fw.specs.psci_fw_spec.declared.call.FwCall.TheVariants as calls;
ghost use Rattle.psci_fw.specs.psci_fw_spec.declared.reply.FwReply.TheVariants as replies;
ghost use Rattle.psci_fw.specs.psci_fw_spec.Answer.{answer};
ghost use Rattle.psci_fw.specs.psci_messages.Message.{AckValue, MessageValue};
ghost use Rattle.psci_world_spec.specs.declared.event.Event.TheVariants as events;
ghost use Rattle.psci_world_spec.specs.Legal.{if_running, on_board, place_after, said_of};
ghost use Rattle.psci_machine.specs.Seen.{if_entering, if_there, IsNext, machine_board, place_in};

use crate::machine::Machine;
use crate::starting::place_after;
use psci_ctl::{Ack, Core};
use psci_fw::{Outcome, Regs, law_sizes};
use psci_world_spec::{Place, Said, Sent};

impl Machine {
    /// The core of this number, if the board has it.
    pub(crate) fn core(&self, number: u64) -> Option<Core>
        ensures { result ≡ (if nat_lt number (cores (machine_board self.now))
            then Some (record { number = number }) else None) }
    {
        law_sizes();
        let cores = self.places.len();
        let number = u16::try_from(number).ok()?;
        ((number as usize) < cores).then_some(Core { number })
    }

    /// A core makes a call, if it runs, after so many messages.
    pub(crate) fn call(&mut self, number: u64, regs: Regs, sent: usize) -> Said
        ensures said { result ≡ on_board (machine_board self.old) number
            (if_running (place_in self.old.places number) (said_of sent
            (answer (machine_board self.old) (seen self.old.firmware) number (calls.Smc regs)))) }
        ensures next { (messages : List MessageValue) (made : List AckValue)
            → IsNext messages made self.old (events.Call number regs) result self.new }
    {
        let Some(core) = self.core(number) else {
            return Said::Absent;
        };
        let Place::Running = self.place(core) else {
            return Said::Ignored;
        };
        let Ok(outcome) = self.firmware.smc(core, regs) else {
            return Said::Ignored;
        };
        self.note(core, outcome, sent)
    }

    /// A core enters by its last start, if it has one and has not entered since, after so many
    /// messages.
    pub(crate) fn enter(&mut self, number: u64, sent: usize) -> Said
        ensures said { result ≡ on_board (machine_board self.old) number
            (if_entering (place_in self.old.places number)
            (last_start (controller.seen self.old.controller) number) (λ start. said_of sent
            (answer (machine_board self.old) (seen self.old.firmware) number
            (calls.Enter start)))) }
        ensures next { (messages : List MessageValue) (made : List AckValue)
            → IsNext messages made self.old (events.Enter number) result self.new }
    {
        let Some(core) = self.core(number) else {
            return Said::Absent;
        };
        let Place::Started = self.place(core) else {
            return Said::Ignored;
        };
        let Some(start) = self.controller.started(core) else {
            return Said::Ignored;
        };
        let Ok(outcome) = self.firmware.enter(core, start) else {
            return Said::Ignored;
        };
        self.note(core, outcome, sent)
    }

    /// The firmware takes the acknowledgement of this number, if there is one.
    pub(crate) fn take(&mut self, made: &[Ack], number: u64) -> Said
        ensures said { (n : ℕ) → result ≡ if_there (slice_get made.now number) (λ ack. said_of n
            (answer (machine_board self.old) (seen self.old.firmware) 0 (calls.Take ack))) }
        ensures next { (messages : List MessageValue)
            → IsNext messages made.now self.old (events.Take number) result self.new }
    {
        let Ok(at) = usize::try_from(number) else {
            return Said::Absent;
        };
        let Some(ack) = made.get(at) else {
            return Said::Absent;
        };
        Said::Taken(self.firmware.take(ack.copy()))
    }

    /// Notes where the outcome leaves the core, and numbers its message.
    fn note(&mut self, core: Core, outcome: Outcome, sent: usize) -> Said
        requires { core.number < cores (machine_board self.old) }
        ensures said { result ≡ said_of sent (replies.Out outcome) }
        ensures places { (c : ℕ) → place_in self.new.places c
            ≡ (if c == core.number then place_after outcome.act
            else place_in self.old.places c) }
        ensures firmware { self.new.firmware ≡ self.old.firmware }
        ensures controller { self.new.controller ≡ self.old.controller }
    {
        let Outcome { act, message } = outcome;
        self.places[core.number as usize] = place_after(&act);
        let index = sent as u64;
        Said::Fw {
            act,
            sent: message.map(|message| Sent { index, message }),
        }
    }
}
