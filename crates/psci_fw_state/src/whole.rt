//! What is kept of the whole system says of all cores together, so that no core is looked at.

ghost use Rattle.std.specs.Prelude.{◌≡◌, ℕ, true};
ghost use Rattle.std.specs.List.{list_any, range_with_len};
ghost use Rattle.psci_board.specs.Board.{cores, height};
ghost use Rattle.psci_fw_spec.specs.Invariant.{agrees};
ghost use Rattle.psci_fw_spec.specs.Phases.{is_away, is_suspended_or_pending};
ghost use Rattle.psci_fw_spec.specs.PowerCalls.{all_others, is_off_status};
ghost use Rattle.psci_fw_state.specs.Counts.{counts_below};
ghost use Rattle.psci_fw_state.specs.Seen.{values_in};

use crate::counts::{StatusCounts, counted_below};
use crate::row::row_of;
use crate::state::State;
use psci_board::{Core, Node, law_spans};

impl State {
    /// Whether every core but this one is OFF.
    #[tactic(auto, unfolding(crate::specs::Seen::values_in))]
    pub fn are_others_off(&self, core: Core) -> bool
        ensures { let status = (values_in self.now).status in
            result ≡ all_others self.now.board core.number (λ k. is_off_status (status k)) }
    {
        law_spans();
        let own = StatusCounts::of_core(row_of(&self.rows, core).status);
        self.counted().not_off() == own.not_off()
    }

    /// Whether every core but this one is off or going off.
    #[tactic(auto, unfolding(crate::specs::Seen::values_in))]
    pub fn are_others_away(&self, core: Core) -> bool
        ensures { let phase = (values_in self.now).phase in
            result ≡ all_others self.now.board core.number (λ k. is_away (phase k)) }
    {
        law_spans();
        let own = u32::from(!self.is_away(core));
        let off = self.tree.off(self.system());
        off + own == u32::from(self.board.cores())
    }

    /// Whether a core is suspended or pending.
    #[tactic(auto, unfolding(crate::specs::Seen::values_in))]
    pub fn is_some_waiting(&self) -> bool
        requires agree { let v = values_in self.now in
            (k : ℕ) → agrees (v.status k) (v.phase k) ≡ true }
        ensures { let phase = (values_in self.now).phase in
            result ≡ list_any (λ k. is_suspended_or_pending (phase k))
            (range_with_len 0 (cores self.now.board)) }
    {
        law_spans();
        let system = self.system();
        let settled = self.tree.off(system) + self.tree.active(system);
        self.counted().pending > 0 || settled < u32::from(self.board.cores())
    }

    /// What is counted of all cores.
    #[tactic(auto, unfolding(crate::specs::Seen::values_in))]
    fn counted(&self) -> StatusCounts
        ensures { result ≡ counts_below self.now.board.levels (values_in self.now).status
            (record { level = height self.now.board; place = 0 }) }
    {
        counted_below(&self.counts, self.system())
    }

    /// The power domain of the whole system.
    fn system(&self) -> Node
        ensures { result ≡ record { level = height self.now.board; place = 0 } }
    {
        Node {
            level: self.board.height(),
            place: 0,
        }
    }
}
