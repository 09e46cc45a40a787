//! What the firmware sends, whatever it keeps: the law is the contract of a function that does
//! nothing.

ghost use Rattle.psci_board.specs.Board.{BoardValue, IsBoard};
ghost use Rattle.psci_guest.specs.Pair.{SendsSound};

use psci_board::law_words;
use psci_messages::{law_claims, law_last_core};

/// What the firmware of a board sends is for a core of it, with no more parts than there are
/// levels: a message names its sender or the target of a CPU_ON.
pub fn law_sends()
    ensures { (b : BoardValue) → IsBoard b → SendsSound b }
{
    law_words();
    law_claims();
    law_last_core();
}
