//! The cores below a power domain.

ghost use Rattle.std.specs.Prelude.{◌≡◌, length, sum};
ghost use Rattle.psci_board.specs.Board.{first_core, IsTree, size_below};

use crate::level::Level;

/// Cores that stand side by side.
#[derive(Clone, Copy, Debug, PartialEq, Eq)]
pub struct CoreSpan {
    /// The number of the first core.
    pub first: u16,
    /// How many cores there are.
    pub count: u16,
}

/// The number of the first core below the node at `place` on the level above these. It takes one
/// step for each level.
#[tactic(auto, using(crate::proofs::Paths::first_step))]
pub fn first_core(levels: &[Level], place: u16) -> u16
    ensures { result ≡ first_core levels.now (length levels.now) place }
{
    match levels.split_last() {
        Some((level, lower)) => first_core(lower, level.first_child(place)),
        None => place,
    }
}
