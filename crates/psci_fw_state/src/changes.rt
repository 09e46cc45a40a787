//! What calls change in the state: each change of the values by a method of its own.

ghost use Rattle.std.specs.Prelude.{◌≡◌, ◌<◌, Some};
ghost use Rattle.psci_board.specs.Board.{cores};
ghost use Rattle.psci_messages.specs.declared.kind.Kind.TheVariants as kinds;
ghost use Rattle.psci_messages.specs.declared.taken.Taken.TheVariants.{Used, Old};
ghost use Rattle.psci_messages.specs.Slots.{IsOfCores, slot_of};
ghost use Rattle.psci_fw_spec.specs.Changes.{turns_off, with_acknowledgement, with_halt, with_mode};
ghost use Rattle.psci_fw_spec.specs.Changes.{with_pending, with_phase, with_rest};
ghost use Rattle.psci_fw_spec.specs.Effects.{suspends};
ghost use Rattle.psci_fw_spec.specs.Phases.{Away};
ghost use Rattle.psci_fw_spec.specs.Values.{taken_by};
ghost use Rattle.psci_fw_state.specs.Seen.{IsRunningCore, values_in};

use crate::confirm::{applied_of, confirm_parts};
use crate::counts::{put_row, put_status};
use crate::row::{CoreRow, row_of, set_row};
use crate::state::State;
use psci_board::Core;
use psci_fw_spec::{Opening, Status, SuspendMode};
use psci_messages::{Ack, Kind, Message, Taken, law_slots};
use psci_state::Ask;
use psci_tree::{law_confirmed, law_cores, law_granted};

impl State {
    /// A core is off or going off, unless it is pending: it stays so. It has a frame of its own, so
    /// that none is held for it by a call that only asks.
    #[inline(never)]
    #[tactic(auto, unfolding(crate::specs::Seen::values_in))]
    pub fn set_away(&mut self, core: Core)
        requires inside { core.number < cores self.old.board }
        ensures after { values_in self.new ≡ with_phase core.number Away (values_in self.old) }
        ensures board { self.new.board ≡ self.old.board }
    {
        law_cores();
        law_granted();
        law_confirmed();
        if !self.is_pending(core) {
            self.tree.set_off(core);
        }
    }

    /// A running core goes off. Compiled in place, where it takes no more of the stack than what
    /// the call has for a core that is asked on.
    #[inline(always)]
    #[tactic(auto, unfolding(crate::specs::Seen::values_in))]
    pub fn leave(&mut self, core: Core)
        requires { IsRunningCore self.old core.number }
        ensures after { values_in self.new ≡ with_phase core.number Away (values_in self.old) }
        ensures board { self.new.board ≡ self.old.board }
    {
        law_cores();
        law_granted();
        law_confirmed();
        self.tree.set_off(core);
    }

    /// A running core is suspended with this ask; where it powers down it goes on at the opening.
    #[tactic(auto, unfolding(crate::specs::Seen::values_in))]
    pub(crate) fn set_suspended(&mut self, core: Core, ask: Ask, opening: Opening)
        requires { IsRunningCore self.old core.number }
        ensures after { values_in self.new
            ≡ with_rest core.number (suspends opening ask) (values_in self.old) }
        ensures board { self.new.board ≡ self.old.board }
    {
        law_cores();
        law_granted();
        law_confirmed();
        self.tree.set_ask(core, ask);
        if ask.deep() {
            let row = CoreRow {
                opening: Some(opening),
                ..row_of(&self.rows, core)
            };
            set_row(&mut self.rows, core, row);
        }
    }

    /// The target of a Start message is on its way to this opening. Compiled in place, so that a
    /// call that is told what it sends moves no message.
    #[inline(always)]
    #[tactic(auto, unfolding(crate::specs::Seen::values_in))]
    pub fn set_pending(&mut self, message: Message, opening: Opening)
        requires inside { message.core.number < cores self.old.board }
        requires start { message.kind ≡ kinds.Start }
        ensures after { values_in self.new
            ≡ with_pending self.old.board (record { message = message; opening = opening })
            (values_in self.old) }
        ensures board { self.new.board ≡ self.old.board }
    {
        law_cores();
        law_granted();
        law_confirmed();
        law_slots();
        let target = message.core;
        self.tree.set_pending(target);
        let row = CoreRow {
            status: Status::Pending,
            opening: Some(opening),
        };
        put_row(
            &mut self.rows,
            &mut self.counts,
            &self.tree,
            &self.board,
            target,
            row,
        );
        self.slots.put(message);
    }

    /// The mode is set.
    #[tactic(auto, unfolding(crate::specs::Seen::values_in))]
    pub fn set_mode(&mut self, mode: SuspendMode)
        ensures after { values_in self.new ≡ with_mode mode (values_in self.old) }
        ensures board { self.new.board ≡ self.old.board }
    {
        self.mode = mode;
    }

    /// The system goes off or is reset, as this message asks.
    #[tactic(auto, unfolding(crate::specs::Seen::values_in))]
    pub fn halt(&mut self, message: Message)
        requires slot { IsOfCores (cores self.old.board) (slot_of message.kind message.core) }
        ensures after { values_in self.new ≡ with_halt message (values_in self.old) }
        ensures board { self.new.board ≡ self.old.board }
    {
        law_slots();
        self.halting = true;
        self.slots.put(message);
    }

    /// An acknowledgement is taken: where it is of the outstanding message, and says that a part of
    /// a Down was applied, its core is OFF if it is off or going off, and the claims of the parts
    /// that were applied are confirmed. Compiled in place, so that no acknowledgement is written to
    /// memory.
    #[inline(always)]
    #[tactic(auto, unfolding(crate::specs::Seen::values_in))]
    pub fn acknowledge(&mut self, ack: Ack) -> Taken
        ensures taken { result ≡ taken_by (values_in self.old) ack }
        ensures used { result ≡ Used
            → values_in self.new
            ≡ with_acknowledgement self.old.board ack (values_in self.old) }
        ensures old { result ≡ Old → self.new ≡ self.old }
        ensures board { self.new.board ≡ self.old.board }
    {
        law_slots();
        let core = ack.core;
        let is_off = self.turns_off(&ack);
        let Some(message) = self.slots.answered(&ack) else {
            return Taken::Old;
        };
        let done = ack.is_done(message);
        confirm_parts(&mut self.tree, &self.board, core, applied_of(&ack, message));
        self.slots.finish(&ack, done);
        if is_off {
            put_status(
                &mut self.rows,
                &mut self.counts,
                &self.tree,
                &self.board,
                core,
                Status::Off,
            );
        }
        Taken::Used
    }

    /// Whether an acknowledgement says that its core is off.
    fn turns_off(&self, ack: &Ack) -> bool
        ensures { result ≡ turns_off (values_in self.now) ack.now }
    {
        ack.kind == Kind::Down && ack.applied > 0 && self.is_away(ack.core)
    }
}
