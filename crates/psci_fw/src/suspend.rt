//! CPU_SUSPEND.

ghost use Rattle.std.specs.Prelude.{◌≡◌, ◌&&◌, not};
ghost use Rattle.psci_abi.specs.declared.request.Request.TheVariants.{CpuSuspend};
ghost use Rattle.psci_board.specs.Board.{may_enter};
ghost use Rattle.psci_state.specs.PowerState.{is_deep};
ghost use Rattle.psci_fw_spec.specs.PowerCalls.{osi_code, suspend_answer, suspend_parts};
ghost use Rattle.psci_fw_spec.specs.Effects.{suspends};
ghost use Rattle.psci_fw.specs.Reactions.{FunctionAnswered, IsReaction, MayCall, MaySuspend};
ghost use Rattle.psci_fw.specs.Reactions.{outcome_in, Suspends};
ghost use Rattle.psci_fw_state.specs.Seen.{values_in};

use crate::laws::law_may_claim;
use crate::off::send_down;
use crate::reaction::Reaction;
use psci_abi::Code;
use psci_board::{Board, Core};
use psci_fw_spec::Opening;
use psci_fw_state::State;
use psci_messages::Osi;
use psci_state::Ask;

/// CPU_SUSPEND (DEN0022D): the caller stops in this power state, until it is woken. Where it powers
/// down it then goes on at the opening, else after its call. At the start limit it could never be
/// woken, and goes on at once. Compiled once for each `A`.
pub fn cpu_suspend<A>(state: &mut State, caller: Core, word: u32, opening: Opening) -> Reaction
    requires { MayCall state.old caller.number }
    ensures answer { FunctionAnswered state.old.board (values_in state.old) caller.number
        (CpuSuspend word opening.address opening.context)
        (outcome_in state.new.board (values_in state.new) result) (values_in state.new) }
    ensures reaction { IsReaction state.old state.new result }
{
    law_may_claim();
    let board = state.board();
    let Ok(ask) = Ask::read(word, board.format(), board.height()) else {
        return Reaction::returns(Code::INVALID_PARAMETERS);
    };
    if has_invalid_entry(board, ask, opening.address) {
        return Reaction::returns(Code::INVALID_ADDRESS);
    }
    if state.known_inside(caller) == board.start_limit() {
        return Reaction::returns(Code::SUCCESS);
    }
    sleep(state, caller, ask, opening)
}

/// Whether a core that asks for this would go on at an address that it may not enter.
#[inline(always)]
fn has_invalid_entry(board: &Board, ask: Ask, entry_point: u64) -> bool
    ensures { result ≡ (is_deep ask && not (may_enter board.now entry_point)) }
{
    ask.deep() && !board.may_enter(entry_point)
}

/// A core is suspended with this ask, or is answered why it may not be. Compiled into its callers,
/// so that it has no frame of its own.
#[inline(always)]
pub fn sleep(state: &mut State, core: Core, ask: Ask, opening: Opening) -> Reaction
    requires call { MayCall state.old core.number }
    requires may { MaySuspend state.old.board (values_in state.old) core.number ask opening }
    ensures answer { outcome_in state.new.board (values_in state.new) result
        ≡ suspend_answer (values_in state.old) core.number
        (suspend_parts state.old.board (values_in state.old) core.number ask) }
    ensures after { Suspends state.old.board (values_in state.old) core.number
        (suspends opening ask) (outcome_in state.new.board (values_in state.new) result)
        (values_in state.new) }
    ensures reaction { IsReaction state.old state.new result }
{
    match state.suspend(core, ask, opening) {
        Ok(wish) => send_down(state, core, &wish),
        Err(reason) => Reaction::returns(osi_code(reason)),
    }
}

/// What a core is answered that is not the last one of a domain.
fn osi_code(reason: Osi) -> Code
    ensures { result ≡ osi_code reason }
{
    match reason {
        Osi::Invalid => Code::INVALID_PARAMETERS,
        Osi::Denied => Code::DENIED,
    }
}
