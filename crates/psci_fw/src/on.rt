//! CPU_ON.

ghost use Rattle.std.specs.Prelude.{◌≡◌, ◌<◌, IfOk};
ghost use Rattle.psci_abi.specs.declared.request.Request.TheVariants.{CpuOn};
ghost use Rattle.psci_board.specs.Board.{cores};
ghost use Rattle.psci_fw_spec.specs.PowerCalls.{target_of};
ghost use Rattle.psci_fw.specs.Reactions.{FunctionAnswered, IsReaction, MayCall, outcome_in};
ghost use Rattle.psci_fw_state.specs.Seen.{values_in};

use crate::reaction::Reaction;
use psci_abi::Code;
use psci_board::Core;
use psci_fw_spec::{Act, Opening, Status};
use psci_fw_state::State;
use psci_messages::{Kind, Parts};

/// CPU_ON (DEN0022D): the core that `target` names is to be started, and will go on at the opening.
/// Compiled once for each `A`.
pub fn cpu_on<A>(state: &mut State, caller: Core, target: u64, opening: Opening) -> Reaction
    requires { MayCall state.old caller.number }
    ensures answer { FunctionAnswered state.old.board (values_in state.old) caller.number
        (CpuOn target opening.address opening.context)
        (outcome_in state.new.board (values_in state.new) result) (values_in state.new) }
    ensures reaction { IsReaction state.old state.new result }
{
    let _caller = caller;
    let core = match check_target(state, target, opening.address) {
        Ok(core) => core,
        Err(code) => return Reaction::returns(code),
    };
    let message = state.message(Kind::Start, core, Parts::new());
    state.set_pending(message, opening);
    Reaction {
        act: Act::Return(Code::SUCCESS),
        slot: Some(core.number),
    }
}

/// The core that a CPU_ON starts, or the code of the first check that fails.
#[inline(always)]
#[tactic(auto, unfolding(psci_fw_spec::specs::PowerCalls::target_of))]
fn check_target(state: &State, target: u64, entry_point: u64) -> Result<Core, Code>
    ensures target { result ≡ target_of state.now.board (values_in state.now) target entry_point }
    ensures inside { IfOk result (λ core. core.number < cores state.now.board) }
{
    let board = state.board();
    let Some(core) = board.core_of(target) else {
        return Err(Code::INVALID_PARAMETERS);
    };
    if !board.may_enter(entry_point) {
        return Err(Code::INVALID_ADDRESS);
    }
    match state.status(core) {
        Status::On => Err(Code::ALREADY_ON),
        Status::Pending => Err(Code::ON_PENDING),
        Status::Off if state.known_inside(core) == board.start_limit() => Err(
            Code::INTERNAL_FAILURE,
        ),
        Status::Off => Ok(core),
    }
}
