//! What the entry of a core changes in the state.

ghost use Rattle.std.specs.Prelude.{◌≡◌, ◌<◌, ◌==◌, ℕ, length, if◌then◌else◌};
ghost use Rattle.psci_board.specs.Board.{cores};
ghost use Rattle.psci_tree.specs.Recount.{IsDomainTree, state_at};
ghost use Rattle.psci_fw_spec.specs.Changes.{in_life, with_arrival, with_phase, with_running};
ghost use Rattle.psci_fw_spec.specs.Phases.{Away};
ghost use Rattle.psci_fw_state.specs.Seen.{stopped, values_in};
ghost use Rattle.psci_fw_state.specs.Trees.{ClearsPath};

use crate::counts::{put_row, reset_counts};
use crate::row::{CoreRow, reset_rows, row_of, set_row};
use crate::state::State;
use psci_board::Core;
use psci_fw_spec::{Start, Status, SuspendMode};
use psci_messages::law_slots;
use psci_tree::{Tree, law_confirmed, law_cores, law_granted, law_start_of_life};

impl State {
    /// The firmware is in this life: all is as at its start, if it is a new one. It has a frame of
    /// its own, since few entries begin a life.
    #[inline(never)]
    #[tactic(auto, unfolding(crate::specs::Seen::values_in))]
    pub fn begin_life(&mut self, life: u32)
        ensures after { values_in self.new ≡ in_life self.old.board life (values_in self.old) }
        ensures board { self.new.board ≡ self.old.board }
    {
        law_start_of_life();
        law_slots();
        if life == self.life {
            return;
        }
        self.life = life;
        self.halting = false;
        self.mode = SuspendMode::Platform;
        self.tree.reset_life();
        reset_rows(&mut self.rows, &self.board);
        reset_counts(&mut self.counts, &self.rows, &self.tree, &self.board);
        self.slots.clear_all();
    }

    /// The firmware is in this life, and all else stays. So the first life begins: a new firmware
    /// is as at the start of a life.
    #[tactic(auto, unfolding(crate::specs::Seen::values_in))]
    pub fn set_life(&mut self, life: u32)
        ensures after { values_in self.new ≡ record (values_in self.old) { life = life } }
        ensures board { self.new.board ≡ self.old.board }
    {
        self.life = life;
    }

    /// A core has entered by this start of the firmware's life, and goes on: it is ON and runs.
    /// Compiled in place: it is what most entries do.
    #[inline(always)]
    #[tactic(auto, unfolding(crate::specs::Seen::values_in))]
    pub fn arrive_running(&mut self, core: Core, start: Start)
        requires inside { core.number < cores self.old.board }
        requires life { (values_in self.old).life ≡ start.life }
        ensures after { values_in self.new ≡ with_running core.number
            (with_arrival self.old.board core.number start (values_in self.old)) }
        ensures board { self.new.board ≡ self.old.board }
    {
        law_cores();
        law_granted();
        law_confirmed();
        law_slots();
        self.tree.set_start(core, start.number);
        let row = CoreRow {
            status: Status::On,
            ..CoreRow::OFF
        };
        put_row(
            &mut self.rows,
            &mut self.counts,
            &self.tree,
            &self.board,
            core,
            row,
        );
        self.slots.clear(core);
    }

    /// A core has entered by this start of the firmware's life, and stops: it is off or going off,
    /// unless it is pending, and stays so.
    #[tactic(auto, unfolding(crate::specs::Seen::values_in))]
    pub fn arrive_away(&mut self, core: Core, start: Start)
        requires inside { core.number < cores self.old.board }
        requires life { (values_in self.old).life ≡ start.life }
        ensures after { values_in self.new ≡ with_phase core.number Away
            (with_arrival self.old.board core.number start (values_in self.old)) }
        ensures board { self.new.board ≡ self.old.board }
    {
        law_slots();
        let pending = self.is_pending(core);
        stop(&mut self.tree, core, start.number, pending);
        let row = CoreRow {
            opening: None,
            ..row_of(&self.rows, core)
        };
        set_row(&mut self.rows, core, row);
        self.slots.clear(core);
    }
}

/// A core has started with this number, and stops in the tree, unless it is pending.
fn stop(tree: &mut Tree, core: Core, number: u32, pending: bool)
    requires tree { IsDomainTree tree.old }
    requires inside { core.number < length tree.old.cores }
    ensures cores { (c : ℕ) → state_at tree.new c ≡ (if core.number == c
        then record { activity = stopped pending; known = number } else state_at tree.old c) }
    ensures path { ClearsPath tree.old tree.new core.number }
{
    law_cores();
    law_granted();
    law_confirmed();
    tree.set_start(core, number);
    if !pending {
        tree.set_off(core);
    }
}
