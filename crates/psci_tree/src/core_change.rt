//! A core comes into another state, and the domains on its path keep what is so then.

ghost use Rattle.std.specs.Prelude.{◌≡◌, length, map, slice_set};
ghost use Rattle.psci_board.specs.Board.{size_below};
ghost use Rattle.psci_tree.specs.Kept.{AreKept, low_in};
ghost use Rattle.psci_tree.specs.Way.{LeadsTo};

use crate::domains::exchange;
use crate::kept::Kept;
use crate::way::Way;
use psci_board::{Board, Core, MOST_ON_PATH, Node, law_spans};
use psci_state::{CoreState, POWER_DOWN};

/// Puts a core to which this way leads into another state, and what each domain on its path keeps.
pub fn change_core(
    cores: &mut [CoreState],
    rows: &mut [Vec<Kept>],
    board: &Board,
    core: Core,
    way: &Way,
    state: &CoreState,
)
    requires lead { LeadsTo board.now.levels core.number way.now }
    requires count { length cores.old ≡ size_below board.now.levels }
    requires kept { AreKept board.now.levels cores.old (map (λ v. v.items) rows.old) }
    ensures cores { cores.new ≡ slice_set cores.old core.number state.now }
    ensures kept { AreKept board.now.levels cores.new (map (λ v. v.items) rows.new) }
{
    law_spans();
    let number = core.number as usize;
    let was = cores[number];
    // of it the prover knows that it has 32 bits, and the sums rest on that
    let _known = state.known;
    cores[number] = *state;
    // so many turns at most, which a compiler lays out one after the other
    for level in 1..MOST_ON_PATH as u32 {
        if level > board.height() {
            break;
        }
        let place = way.places[level as usize];
        exchange(rows, Node { level, place }, &was, state);
    }
}

/// The least that these cores ask at a level.
pub fn least_of(cores: &[CoreState], level: u32) -> u8
    ensures { result ≡ low_in level cores.now }
{
    let mut low = POWER_DOWN;
    for core in cores {
        low = low.min(core.ask(level));
    }
    low
}
