//! The firmware of one board.

use psci_abi::Regs;
use psci_board::{Board, Core, Memory, Node};
use psci_fw_spec::{FwFault, Hw, Outcome, Start, Status, SuspendMode};
use psci_fw_state::State;
use psci_messages::{Ack, Message, Taken};
use std::alloc::Global;
use std::marker::Model;

/// The power firmware of one board. Contracts see its state: the board, and what is kept.
#[derive(Drop)]
pub struct Firmware {
    pub(crate) state: Box<State>,
}

impl Model for Firmware {
    ghost use Rattle.psci_fw.specs.Reactions.{FirmwareValue, IsFirmware};

    ghost Value = { FirmwareValue };

    ghost view = { λ f. f.state.value };

    ghost invariant = { λ f. IsFirmware f.state.value };
}

ghost use Rattle.std.specs.Prelude.{◌≡◌, ◌<◌, ℕ, IfOk, OnErr, option_map};
ghost use Rattle.psci_board.specs.Board.{cores};
ghost use Rattle.psci_messages.specs.declared.taken.Taken.TheVariants.{Old};
ghost use Rattle.psci_fw_spec.specs.declared.call.FwCall.TheVariants as calls;
ghost use Rattle.psci_fw_spec.specs.declared.reply.FwReply.TheVariants as replies;
ghost use Rattle.psci_fw_spec.specs.Effects.{after};
ghost use Rattle.psci_fw_spec.specs.Answer.{answer, reply_of};
ghost use Rattle.psci_fw_spec.specs.Changes.{start_of_life};
ghost use Rattle.psci_fw_spec.specs.Phases.{is_running};
ghost use Rattle.psci_fw.specs.Reactions.{hw_shown, IsInItsSlot, life_shown, outcome_in, reply_in};
ghost use Rattle.psci_fw.specs.Reactions.{seen, status_shown};
ghost use Rattle.psci_fw_state.specs.Seen.{message_shown};

use crate::entering::{check_start, enter};
use crate::laws::{law_fresh, law_lives};
use crate::reaction::Reaction;
use crate::smc::dispatch;
use psci_fw_spec::law_invariant;

impl Firmware {
    /// The firmware of this board, before any core has entered. It takes the memory of all its
    /// calls here.
    pub fn new(alloc: Global, board: &Board) -> Result<Firmware, Memory>
        ensures board { IfOk result (λ f. f.board ≡ board.now) }
        ensures values { IfOk result (λ f. seen f ≡ start_of_life board.now 0) }
    {
        law_invariant();
        law_fresh();
        law_lives();
        let state = State::new(alloc, board)?;
        Ok(Firmware { state })
    }

    /// A secure monitor call of a core with these registers. All 64 bits of each count as the
    /// called function reads them.
    ///
    /// Refused with NoCore where the board has no such core, NoLife before any core has entered,
    /// and NotRunning where the core is not running.
    pub fn smc(&mut self, core: Core, regs: Regs) -> Result<Outcome, FwFault>
        ensures answer { reply_of result
            ≡ answer self.old.board (seen self.old) core.number (calls.Smc regs) }
        ensures after { seen self.new
            ≡ after self.old.board core.number (calls.Smc regs) (reply_of result) (seen self.old) }
        ensures board { self.new.board ≡ self.old.board }
        ensures refused { OnErr result (self.new ≡ self.old) }
    {
        let reaction = self.smc_in_slot::<()>(core, regs)?;
        Ok(self.outcome(reaction))
    }

    /// The same call, whose message stays in its slot. It is compiled once for each `A`: so a
    /// caller with an `A` of its own has it compiled in place, and reads what came of it where it
    /// is found.
    #[tactic(auto, unfolding(psci_fw_spec::specs::Effects::after))]
    pub fn smc_in_slot<A>(&mut self, core: Core, regs: Regs) -> Result<Reaction, FwFault>
        ensures answer { reply_in self.new.board (seen self.new) result
            ≡ answer self.old.board (seen self.old) core.number (calls.Smc regs) }
        ensures slot { IfOk result (IsInItsSlot self.new.board (seen self.new)) }
        ensures after { seen self.new ≡ after self.old.board core.number (calls.Smc regs)
            (reply_in self.new.board (seen self.new) result) (seen self.old) }
        ensures board { self.new.board ≡ self.old.board }
        ensures refused { OnErr result (self.new ≡ self.old) }
    {
        law_invariant();
        law_fresh();
        law_lives();
        self.state.check_caller(core)?;
        Ok(dispatch::<A>(&mut self.state, core, regs))
    }

    /// A core enters by this start: it goes on at its opening, resumes after a suspend in standby
    /// or retention that the very next start wakes it from, or parks. In a halting life it stops. A
    /// start of a later life than the firmware's begins that life first.
    ///
    /// Refused with NoCore where the board has no such core, NoLife where it has no such life, and
    /// OldStart where the start is over or can't be: its life is an earlier one than the
    /// firmware's, its number is none that the board allows, or it is no later one than the core's
    /// known start in the firmware's life.
    pub fn enter(&mut self, core: Core, start: Start) -> Result<Outcome, FwFault>
        ensures answer { reply_of result
            ≡ answer self.old.board (seen self.old) core.number (calls.Enter start) }
        ensures after { seen self.new
            ≡ after self.old.board core.number (calls.Enter start) (reply_of result)
            (seen self.old) }
        ensures board { self.new.board ≡ self.old.board }
        ensures refused { OnErr result (self.new ≡ self.old) }
    {
        let reaction = self.enter_in_slot::<()>(core, start)?;
        Ok(self.outcome(reaction))
    }

    /// The same entry, whose message stays in its slot. It is compiled once for each `A`, as a call
    /// is.
    #[tactic(auto, unfolding(psci_fw_spec::specs::Effects::after))]
    pub fn enter_in_slot<A>(&mut self, core: Core, start: Start) -> Result<Reaction, FwFault>
        ensures answer { reply_in self.new.board (seen self.new) result
            ≡ answer self.old.board (seen self.old) core.number (calls.Enter start) }
        ensures slot { IfOk result (IsInItsSlot self.new.board (seen self.new)) }
        ensures after { seen self.new ≡ after self.old.board core.number (calls.Enter start)
            (reply_in self.new.board (seen self.new) result) (seen self.old) }
        ensures board { self.new.board ≡ self.old.board }
        ensures refused { OnErr result (self.new ≡ self.old) }
    {
        law_invariant();
        law_fresh();
        law_lives();
        check_start(&self.state, core, start)?;
        Ok(enter::<A>(&mut self.state, core, start))
    }

    /// What was answered, with a copy of the message that stands in the slot.
    pub fn outcome(&self, reaction: Reaction) -> Outcome
        ensures { result ≡ outcome_in self.now.board (seen self.now) reaction }
    {
        let message = match reaction.slot {
            Some(number) => self.outstanding(number).map(Message::copy),
            None => None,
        };
        Outcome {
            act: reaction.act,
            message,
        }
    }

    /// Takes an acknowledgement of the power controller: used where its message is outstanding,
    /// else old, and nothing changes. Compiled into its callers, so that no acknowledgement is
    /// written to memory.
    #[inline(always)]
    #[tactic(auto, unfolding(psci_fw_spec::specs::Effects::after))]
    pub fn take(&mut self, ack: Ack) -> Taken
        ensures answer { (c : ℕ) → replies.Taken result
            ≡ answer self.old.board (seen self.old) c (calls.Take ack) }
        ensures after { (c : ℕ) → seen self.new
            ≡ after self.old.board c (calls.Take ack) (replies.Taken result) (seen self.old) }
        ensures board { self.new.board ≡ self.old.board }
        ensures old { result ≡ Old → self.new ≡ self.old }
    {
        law_invariant();
        law_fresh();
        law_lives();
        self.state.acknowledge(ack)
    }

    /// The status of a core or power domain by the rule of AFFINITY_INFO; None before any core has
    /// entered. A node that the board does not have is OFF.
    pub fn status(&self, node: Node) -> Option<Status>
        ensures { result ≡ status_shown self.now node }
    {
        (self.state.life() != 0).then(|| self.state.node_status(node))
    }

    /// The board whose firmware it is.
    pub fn board(&self) -> &Board
        ensures { result.now ≡ self.now.board }
    {
        self.state.board()
    }

    /// The status of a core of the board.
    pub fn core_status(&self, core: Core) -> Status
        requires { core.number < cores self.now.board }
        ensures { result ≡ (seen self.now).status core.number }
    {
        self.state.status(core)
    }

    /// The outstanding message of the core of this number, or of the system at the number of cores.
    pub fn outstanding(&self, number: u16) -> Option<&Message>
        ensures { option_map (λ message. message.now) result
            ≡ message_shown self.now.board (seen self.now) number }
    {
        self.state.outstanding(number)
    }

    /// The granted depth of a power domain, 0 of one that the board does not have.
    pub fn granted(&self, node: Node) -> u8
        ensures { result ≡ (seen self.now).granted node.level node.place }
    {
        self.state.granted(node)
    }

    /// The hardware state of a power domain, as far as the power controller has confirmed it; None
    /// before any core has entered. A node that the board does not have is on.
    pub fn hw(&self, node: Node) -> Option<Hw>
        ensures { result ≡ hw_shown self.now node }
    {
        (self.state.life() != 0).then(|| self.state.hw(node))
    }

    /// The known start of a core: the number of the last start by which it entered in this life, or
    /// 0.
    pub fn known(&self, core: Core) -> u32
        ensures { result ≡ (seen self.now).known core.number }
    {
        self.state.known(core)
    }

    /// Whether a core may call a function: it is not pending, and its last outcome was no stop.
    pub fn running(&self, core: Core) -> bool
        ensures { result ≡ is_running ((seen self.now).phase core.number) }
    {
        self.state.is_running(core)
    }

    /// The life of the last start that entered; None before any.
    pub fn life(&self) -> Option<u32>
        ensures { result ≡ life_shown (seen self.now).life }
    {
        let life = self.state.life();
        (life != 0).then_some(life)
    }

    /// Who coordinates the power domains, as PSCI_SET_SUSPEND_MODE last set it in this life.
    pub fn mode(&self) -> SuspendMode
        ensures { result ≡ (seen self.now).mode }
    {
        self.state.mode()
    }

    /// Whether SYSTEM_OFF, SYSTEM_RESET or SYSTEM_RESET2 was accepted in this life.
    pub fn halting(&self) -> bool
        ensures { result ≡ (seen self.now).halting }
    {
        self.state.halting()
    }
}
