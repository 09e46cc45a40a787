//! What both keep, step by step: the law is the contract of a function that does nothing.

ghost use Rattle.psci_board.specs.Board.{BoardValue, IsBoard};
ghost use Rattle.psci_guest.specs.Steps.{AreSteps};

use psci_headline::law_safe;

/// What an exchange of each run of turns leaves of firmware and power controller, and of the core
/// that it starts; and that the run is settled.
pub fn law_steps()
    ensures { (b : BoardValue) → IsBoard b → AreSteps b }
{
    law_safe();
}
