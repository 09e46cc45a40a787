//! What holds of each run of turns: the law is the contract of a function that does nothing.

ghost use Rattle.std.specs.Prelude.{List};
ghost use Rattle.psci_board.specs.Board.{BoardValue, IsBoard};
ghost use Rattle.psci_guest.specs.Turns.{IsSettled, Turn, turns};

use crate::steps::law_steps;

/// Each run of turns is a legal run of the world, and was safe at every moment. After each turn all
/// is settled: in a life nothing is outstanding, no core waits at its start, the firmware granted
/// each domain the depth that it has, NODE_HW_STATE says the state of that depth, and a core is OFF
/// exactly where it is off. Without a life every core stands.
pub fn law_turns()
    ensures { (b : BoardValue) (ts : List Turn) → IsBoard b → IsSettled b (turns b ts) }
{
    law_steps();
}
