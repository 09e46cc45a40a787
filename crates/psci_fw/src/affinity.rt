//! AFFINITY_INFO.

ghost use Rattle.std.specs.Prelude.{◌≡◌};
ghost use Rattle.psci_fw_spec.specs.PowerCalls.{affinity_info};
ghost use Rattle.psci_fw_state.specs.Seen.{values_in};

use psci_abi::Code;
use psci_fw_state::State;

/// AFFINITY_INFO (DEN0022D): the status of the core or power domain that `target` names at the
/// level.
#[inline(always)]
pub fn affinity_info(state: &State, target: u64, level: u32) -> Code
    ensures { result ≡ affinity_info state.now.board (values_in state.now) target level }
{
    match state.board().node_of(target, level) {
        Some(node) => state.node_status(node).code(),
        None => Code::INVALID_PARAMETERS,
    }
}
