//! The story of a power controller that threads share.

ghost use Rattle.std.specs.Prelude.{◌≡◌, ◌<◌};
ghost use Rattle.psci_board.specs.Board.{cores};

use crate::named::BOARD;
use psci_board::Board;
use psci_fw::Cause;
use psci_shared::{
    Core, CtlPass, GatherCause, Kick, Named, PassFault, SharedController, Start, Tickets,
};
use std::alloc::Global;
use std::marker::Brand;
use std::sync::Wait;
use std::sync::ledger::Blank;

/// Tells the story of this board's power controller, and whether all went as it has to.
pub(crate) fn told_of_starts<R: Wait>(rt: &R, alloc: Global, all: bool) -> Option<bool> {
    let board = Board::read(alloc, BOARD).ok()?;
    let tickets = Tickets::new();
    tell_of_starts::<Brand, R>(rt, alloc, all, &board, &tickets, Blank::new(1001))
}

fn tell_of_starts<N: Named, R: Wait>(
    rt: &R,
    alloc: Global,
    all: bool,
    board: &Board,
    tickets: &Tickets,
    blank: Blank,
) -> Option<bool>
    requires room { N.room ≡ 2 }
    requires board { board.now ≡ N.board }
    requires name { blank.name ≡ N.name }
    requires parts { (blank.parts ≡ N.parts) × (N.parts ≡ 1001) }
{
    let core = Core { number: 1 };
    if core.number >= board.cores() {
        return None;
    }
    let shared = SharedController::<N>::new(alloc, board, 2, tickets, blank).ok()?;
    two_wake_ups(rt, alloc, all, shared, core)
}

/// The first start of a core, by a wake-up.
const WOKEN: Start = Start {
    life: 1,
    number: 1,
    cause: Cause::Wake,
};

/// A core that was not started yet is woken, and is started; it is not woken a second time. Then
/// the book with its two entries is full, and a reset is refused. The core's start is known. There
/// are 1,000 passes at most; all are gathered, or all but the one that called.
fn two_wake_ups<N: Named, R: Wait>(
    rt: &R,
    alloc: Global,
    all: bool,
    mut shared: SharedController<'_, N>,
    core: Core,
) -> Option<bool>
    requires { core.number < cores N.board }
{
    let mut pass = shared.pass().ok()?;
    let first = shared.wake(rt, &mut pass, core, 0).ok()?;
    let second = shared.wake(rt, &mut pass, core, 0).ok()?;
    let is_refused = shared.reset(rt, &mut pass, core).is_err();
    let last = shared.started(rt, core);
    let right = first == Kick::Started(WOKEN)
        && second == Kick::Ignored
        && is_refused
        && last == Some(WOKEN)
        && are_first_two(&pass);
    let mut passes = Vec::with_capacity(alloc, 1000).ok()?;
    if all {
        passes.push(pass).ok()?;
    }
    for _ in 1..1000u32 {
        passes.push(shared.pass().ok()?).ok()?;
    }
    let none = shared.pass().err()?;
    let right = right && none == PassFault::TooMany;
    match shared.gather(passes) {
        Ok(books) => Some(right && all && books.book.len() == 2),
        Err(fault) => {
            let is_told = fault.cause == GatherCause::Missing && fault.made == 1000;
            Some(right && !all && is_told)
        }
    }
}

/// Whether the pass has the places 0 and 1, and was told that the book is full.
fn are_first_two<N: Named>(pass: &CtlPass<N>) -> bool {
    match pass.items() {
        [one, other] => one.place == 0 && other.place == 1 && pass.told_full(),
        _ => false,
    }
}
