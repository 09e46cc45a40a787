//! The functions for the whole system: SYSTEM_SUSPEND, SYSTEM_OFF, SYSTEM_RESET, SYSTEM_RESET2.

ghost use Rattle.std.specs.Prelude.{◌≡◌, ℕ, [], ◌∷◌};
ghost use Rattle.psci_abi.specs.declared.request.Request.TheVariants as requests;
ghost use Rattle.psci_messages.specs.declared.kind.Kind.TheVariants as kinds;
ghost use Rattle.psci_fw_spec.specs.Changes.{with_halt, with_phase};
ghost use Rattle.psci_fw_spec.specs.PowerCalls.{message_for, stops_with, system_message};
ghost use Rattle.psci_fw_spec.specs.Phases.{Away};
ghost use Rattle.psci_fw.specs.Reactions.{FunctionAnswered, IsOfSystem, IsReaction, MayCall};
ghost use Rattle.psci_fw.specs.Reactions.{outcome_in};
ghost use Rattle.psci_fw_state.specs.Seen.{values_in};

use crate::laws::law_may_claim;
use crate::reaction::Reaction;
use crate::suspend::sleep;
use psci_abi::Code;
use psci_board::Core;
use psci_fw_spec::Opening;
use psci_fw_state::State;
use psci_messages::{Kind, Parts};
use psci_state::Ask;

/// The reset type of SYSTEM_RESET2 (DEN0022D) that is there. Bit 31 marks a type of a vendor.
const SYSTEM_WARM_RESET: u32 = 0;

/// SYSTEM_SUSPEND (DEN0022D): the caller is suspended with power-down of all levels, where every
/// other core is OFF. It then goes on at the opening. Compiled once for each `A`.
pub fn system_suspend<A>(state: &mut State, caller: Core, opening: Opening) -> Reaction
    requires { MayCall state.old caller.number }
    ensures answer { FunctionAnswered state.old.board (values_in state.old) caller.number
        (requests.SystemSuspend opening.address opening.context)
        (outcome_in state.new.board (values_in state.new) result) (values_in state.new) }
    ensures reaction { IsReaction state.old state.new result }
{
    law_may_claim();
    let board = state.board();
    if !board.may_enter(opening.address) {
        return Reaction::returns(Code::INVALID_ADDRESS);
    }
    if !state.are_others_off(caller) {
        return Reaction::returns(Code::DENIED);
    }
    if state.known_inside(caller) == board.start_limit() {
        return Reaction::returns(Code::DENIED);
    }
    let ask = Ask::deepest(board.height());
    sleep(state, caller, ask, opening)
}

/// SYSTEM_OFF (DEN0022D): the caller stops, and the system goes off.
pub fn system_off(state: &mut State, caller: Core) -> Reaction
    requires { MayCall state.old caller.number }
    ensures answer { FunctionAnswered state.old.board
        (values_in state.old) caller.number requests.SystemOff
        (outcome_in state.new.board (values_in state.new) result) (values_in state.new) }
    ensures reaction { IsReaction state.old state.new result }
{
    halt(state, caller, Kind::Off)
}

/// SYSTEM_RESET (DEN0022D): the caller stops, and the system is reset.
pub fn system_reset(state: &mut State, caller: Core) -> Reaction
    requires { MayCall state.old caller.number }
    ensures answer { FunctionAnswered state.old.board
        (values_in state.old) caller.number requests.SystemReset
        (outcome_in state.new.board (values_in state.new) result) (values_in state.new) }
    ensures reaction { IsReaction state.old state.new result }
{
    halt(state, caller, Kind::Reset)
}

/// SYSTEM_RESET2 (DEN0022D): the only type that is there is carried out as SYSTEM_RESET. The cookie
/// is of use to types of vendors alone, so it is not looked at.
pub fn system_reset2(state: &mut State, caller: Core, reset_type: u32) -> Reaction
    requires { MayCall state.old caller.number }
    ensures answer { (cookie : ℕ) → FunctionAnswered state.old.board (values_in state.old)
        caller.number (requests.SystemReset2 reset_type cookie)
        (outcome_in state.new.board (values_in state.new) result) (values_in state.new) }
    ensures reaction { IsReaction state.old state.new result }
{
    if reset_type != SYSTEM_WARM_RESET {
        return Reaction::returns(Code::INVALID_PARAMETERS);
    }
    system_reset(state, caller)
}

/// The caller stops, and sends a message of this kind for the whole system.
fn halt(state: &mut State, caller: Core, kind: Kind) -> Reaction
    requires call { MayCall state.old caller.number }
    requires kind { IsOfSystem kind }
    ensures answer { outcome_in state.new.board (values_in state.new) result
        ≡ system_message (values_in state.old) kind caller.number }
    ensures reaction { IsReaction state.old state.new result }
    ensures after { values_in state.new
        ≡ with_halt (message_for (values_in state.old) kind caller.number [])
        (with_phase caller.number Away (values_in state.old)) }
{
    let message = state.message(kind, caller, Parts::new());
    state.set_away(caller);
    state.halt(message);
    Reaction::stops_with(state.board().cores())
}
