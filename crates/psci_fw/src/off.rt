//! CPU_OFF, and what a core sends that stops.

ghost use Rattle.std.specs.Prelude.{◌≡◌};
ghost use Rattle.psci_abi.specs.declared.request.Request.TheVariants.{CpuOff};
ghost use Rattle.psci_messages.specs.declared.kind.Kind.TheVariants as kinds;
ghost use Rattle.psci_fw_spec.specs.Changes.{with_claims};
ghost use Rattle.psci_fw_spec.specs.PowerCalls.{message_for, stops_with};
ghost use Rattle.psci_fw_state.specs.Claims.{IsGrantable};
ghost use Rattle.psci_fw_state.specs.Wishes.{wished_in};
ghost use Rattle.psci_fw.specs.Reactions.{FunctionAnswered, IsReaction, MayCall, outcome_in};
ghost use Rattle.psci_fw_state.specs.Seen.{values_in};

use crate::laws::law_may_claim;
use crate::reaction::Reaction;
use psci_board::Core;
use psci_fw_state::{State, Wish};

/// CPU_OFF (DEN0022D): the caller stops, and goes off.
pub fn cpu_off(state: &mut State, caller: Core) -> Reaction
    requires { MayCall state.old caller.number }
    ensures answer { FunctionAnswered state.old.board (values_in state.old) caller.number CpuOff
        (outcome_in state.new.board (values_in state.new) result) (values_in state.new) }
    ensures reaction { IsReaction state.old state.new result }
{
    law_may_claim();
    state.leave(caller);
    let wish = state.leaving_wish(caller);
    send_down(state, caller, &wish)
}

/// A core stops that wants this: it sends a Down, and its domains are granted what it claims.
/// Compiled into its callers, so that a reaction is never written to memory.
#[inline(always)]
pub fn send_down(state: &mut State, core: Core, wish: &Wish) -> Reaction
    requires { IsGrantable state.old.board core.number (wished_in state.old core.number wish.now)
        (values_in state.old).granted }
    ensures answer { outcome_in state.new.board (values_in state.new) result
        ≡ stops_with (message_for (values_in state.old) kinds.Down core.number
        (wished_in state.old core.number wish.now)) }
    ensures reaction { IsReaction state.old state.new result }
    ensures after { values_in state.new ≡ with_claims state.old.board
        (message_for (values_in state.old) kinds.Down core.number
        (wished_in state.old core.number wish.now)) (values_in state.old) }
{
    state.claim(core, wish);
    Reaction::stops_with(core.number)
}
