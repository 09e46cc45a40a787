//! NODE_HW_STATE.

ghost use Rattle.std.specs.Prelude.{◌≡◌};
ghost use Rattle.psci_fw_spec.specs.NodeHwState.{node_hw_state};
ghost use Rattle.psci_fw_state.specs.Seen.{values_in};

use psci_abi::Code;
use psci_fw_state::State;

/// NODE_HW_STATE (DEN0022D): the hardware state of the core or power domain that `target` names at
/// the level, as far as the power controller has confirmed it.
pub fn node_hw_state(state: &State, target: u64, level: u32) -> Code
    ensures { result ≡ node_hw_state state.now.board (values_in state.now) target level }
{
    match state.board().node_of(target, level) {
        Some(node) => state.hw(node).code(),
        None => Code::INVALID_PARAMETERS,
    }
}
