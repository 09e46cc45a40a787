//! The entry of a started core: it goes on, or stops.

ghost use Rattle.std.specs.Prelude.{◌≡◌, ◌<◌, MatchResult, None, Some};
ghost use Rattle.psci_board.specs.Board.{cores};
ghost use Rattle.psci_fw_spec.specs.Effects.{change, enter_effect};
ghost use Rattle.psci_fw_spec.specs.Answer.{enter_fault, enter_outcome, is_old, resumes};
ghost use Rattle.psci_fw_spec.specs.Changes.{in_life};
ghost use Rattle.psci_fw_state.specs.Seen.{values_in};
ghost use Rattle.psci_fw.specs.Reactions.{IsFirmware, IsFresh, IsReaction, outcome_in};
ghost use Rattle.psci_fw.specs.Ways.{way_on};

use crate::laws::{law_fresh, law_may_claim};
use crate::off::send_down;
use crate::reaction::Reaction;
use psci_board::Core;
use psci_fw_spec::{Act, Cause, FwFault, Opening, Start};
use psci_fw_state::State;

/// Whether a core may enter by this start, or the first reason why it may not.
pub fn check_start(state: &State, core: Core, start: Start) -> Result<(), FwFault>
    ensures { let fault = enter_fault state.now.board (values_in state.now) core.number start in
        MatchResult result (λ _. fault ≡ None) (λ e. fault ≡ Some e) }
{
    let board = state.board();
    if core.number >= board.cores() {
        return Err(FwFault::NoCore);
    }
    if start.life == 0 || start.life > board.life_limit() {
        return Err(FwFault::NoLife);
    }
    if is_old(state, core, start) {
        return Err(FwFault::OldStart);
    }
    Ok(())
}

/// Whether a start is over, or is none that the board has.
fn is_old(state: &State, core: Core, start: Start) -> bool
    requires { core.number < cores state.now.board }
    ensures { result ≡ is_old state.now.board (values_in state.now) core.number start }
{
    start.life < state.life()
        || start.number == 0
        || start.number > state.board().start_limit()
        || (start.life == state.life() && start.number <= state.known_inside(core))
}

/// What a core does that enters by this start: in a halting life it stops; else it goes on at its
/// opening, resumes after its suspend, or parks. A start of another life begins that life first.
/// Compiled once for each `A`.
pub fn enter<A>(state: &mut State, core: Core, start: Start) -> Reaction
    requires firmware { IsFirmware state.old }
    requires fault { enter_fault state.old.board (values_in state.old) core.number start ≡ None }
    ensures answer { outcome_in state.new.board (values_in state.new) result
        ≡ enter_outcome state.old.board (values_in state.old) core.number start }
    ensures reaction { IsReaction state.old state.new result }
    ensures after { let outcome = outcome_in state.new.board (values_in state.new) result in
        values_in state.new ≡ change state.old.board (enter_effect core.number start
        outcome.act outcome.message) (values_in state.old) }
{
    law_may_claim();
    begin(state, start.life);
    if state.halting() {
        state.arrive_away(core, start);
        return Reaction::stops();
    }
    match way_on(state, core, start) {
        Some(act) => {
            state.arrive_running(core, start);
            Reaction { act, slot: None }
        }
        None => {
            state.arrive_away(core, start);
            let wish = state.leaving_wish(core);
            send_down(state, core, &wish)
        }
    }
}

/// This life begins, if it is another one than the firmware's. Before the first one there is
/// nothing to put back. Compiled into its callers: most entries are of the life that is.
#[inline(always)]
fn begin(state: &mut State, life: u32)
    requires { IsFresh state.old.board (values_in state.old) }
    ensures after { values_in state.new ≡ in_life state.old.board life (values_in state.old) }
    ensures board { state.new.board ≡ state.old.board }
{
    law_fresh();
    if state.life() == life {
        return;
    }
    if state.life() == 0 {
        state.set_life(life);
    } else {
        state.begin_life(life);
    }
}

/// Where a core goes on that enters by this start: at its opening, or after its suspend.
fn way_on(state: &State, core: Core, start: Start) -> Option<Act>
    requires { core.number < cores state.now.board }
    ensures { result ≡ way_on (values_in state.now) core.number start }
{
    match state.opening(core) {
        Some(Opening { address, context }) => Some(Act::Enter { address, context }),
        None => resumes(state, core, start).then_some(Act::Resume),
    }
}

/// Whether a core resumes after its suspend: it was woken by the very next start.
fn resumes(state: &State, core: Core, start: Start) -> bool
    ensures { result ≡ resumes (values_in state.now) core.number start }
{
    state.is_resumable(core)
        && matches!(start.cause, Cause::Wake)
        && state.known(core).checked_add(1) == Some(start.number)
}
