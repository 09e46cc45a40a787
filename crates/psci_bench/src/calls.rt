//! Which calls a core makes.

ghost use Rattle.std.specs.Prelude.{◌≡◌, ◌≢◌, ◌<◌, ℕ};
ghost use Rattle.psci_abi.specs.declared.request.Request.TheVariants.{CpuOn, Version};
ghost use Rattle.psci_board.specs.Board.{cores};
ghost use Rattle.psci_bench.specs.Watches.{EndsLife};

use psci_abi::Request;
use psci_board::{Board, Core};
use psci_storm::{Draws, affinity};

/// The call of this number of a core, which may go off or not. The first calls are the same
/// whatever the seed, later ones are drawn.
pub fn request_of(
    draws: &mut Draws,
    board: &Board,
    core: Core,
    call: u64,
    may_go_off: bool,
) -> Request
    ensures first { core.number ≡ 0 → call ≡ 0 → 1 < cores board.now
        → (target : ℕ) × (result ≡ CpuOn target board.now.boot 1) }
    ensures second { core.number ≢ 0 → call ≡ 0 → result ≡ Version }
    ensures third { call ≡ 1 → result ≡ Version }
    ensures lives { EndsLife result → ⊥ }
{
    if core.number == 0 && call == 0 && board.cores() > 1 {
        return first_call(board);
    }
    if call < 2 {
        return Request::Version;
    }
    match drawn(draws, board) {
        Request::CpuOff if !may_go_off => Request::Version,
        Request::SystemOff | Request::SystemReset | Request::SystemReset2 { .. } => {
            Request::Version
        }
        request => request,
    }
}

/// Core 1 is asked on, at the board's boot address.
fn first_call(board: &Board) -> Request
    requires { 1 < cores board.now }
    ensures { (target : ℕ) × (result ≡ CpuOn target board.now.boot 1) }
{
    Request::CpuOn {
        target: affinity(board, 1),
        entry: board.boot(),
        context: 1,
    }
}

/// Any request that does not end the life. Cores are asked on more often than they go off.
fn drawn(draws: &mut Draws, board: &Board) -> Request {
    match draws.below(8) {
        0..=2 => Request::CpuOn {
            target: draws.good_target(board),
            entry: draws.good_entry(board),
            context: draws.word(),
        },
        3 | 4 => Request::CpuSuspend {
            state: draws.good_state(board),
            entry: draws.good_entry(board),
            context: draws.word(),
        },
        _ => draws.request(board),
    }
}
