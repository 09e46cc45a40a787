//! PSCI_SET_SUSPEND_MODE.

ghost use Rattle.std.specs.Prelude.{◌≡◌};
ghost use Rattle.psci_abi.specs.declared.request.Request.TheVariants.{SetSuspendMode};
ghost use Rattle.psci_fw_spec.specs.PowerCalls.{may_set, mode_of};
ghost use Rattle.psci_fw.specs.Reactions.{FunctionAnswered, IsReaction, MayCall, outcome_in};
ghost use Rattle.psci_fw_state.specs.Seen.{values_in};

use crate::reaction::Reaction;
use psci_abi::Code;
use psci_board::Core;
use psci_fw_spec::SuspendMode;
use psci_fw_state::State;

/// PSCI_SET_SUSPEND_MODE (DEN0022D): the mode of this number is set, if the other cores allow it.
pub fn set_suspend_mode(state: &mut State, caller: Core, number: u32) -> Reaction
    requires { MayCall state.old caller.number }
    ensures answer { FunctionAnswered state.old.board (values_in state.old) caller.number
        (SetSuspendMode number) (outcome_in state.new.board (values_in state.new) result)
        (values_in state.new) }
    ensures reaction { IsReaction state.old state.new result }
{
    let Some(mode) = mode_of(number) else {
        return Reaction::returns(Code::INVALID_PARAMETERS);
    };
    if mode == state.mode() {
        return Reaction::returns(Code::SUCCESS);
    }
    if !may_set(state, caller, mode) {
        return Reaction::returns(Code::DENIED);
    }
    state.set_mode(mode);
    Reaction::returns(Code::SUCCESS)
}

/// The mode of a number.
fn mode_of(number: u32) -> Option<SuspendMode>
    ensures { result ≡ mode_of number }
{
    match number {
        0 => Some(SuspendMode::Platform),
        1 => Some(SuspendMode::OsInitiated),
        _ => None,
    }
}

/// Whether the caller may set this mode.
fn may_set(state: &State, caller: Core, mode: SuspendMode) -> bool
    requires { MayCall state.now caller.number }
    ensures { result ≡ may_set state.now.board (values_in state.now) caller.number mode }
{
    match mode {
        SuspendMode::Platform => state.are_others_away(caller),
        SuspendMode::OsInitiated => !state.is_some_waiting(),
    }
}
