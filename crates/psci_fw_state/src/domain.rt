//! The status of a power domain, by what is counted of the cores below it.

ghost use Rattle.std.specs.Prelude.{◌≡◌};
ghost use Rattle.psci_fw_spec.specs.PowerCalls.{node_status};
ghost use Rattle.psci_fw_state.specs.Seen.{values_in};

use crate::counts::status_below;
use crate::row::row_of;
use crate::state::State;
use psci_board::{Core, Node};
use psci_fw_spec::Status;

impl State {
    /// The status of a core or power domain, by those of the cores below it. A node that the board
    /// does not have is OFF.
    #[tactic(auto, unfolding(crate::specs::Seen::values_in))]
    pub fn node_status(&self, node: Node) -> Status
        ensures { result ≡ node_status self.now.board (values_in self.now).status node }
    {
        if node.level == 0 {
            return row_of(&self.rows, Core { number: node.place }).status;
        }
        if node.place >= self.board.nodes(node.level) {
            return Status::Off;
        }
        status_below(&self.counts, node)
    }
}
