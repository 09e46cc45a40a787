//! The laws of claims: what the cores below a domain ask together, what a core claims in each mode,
//! and what the check of the last core lets through. A law is the contract of a function that does
//! nothing.

ghost use Rattle.std.specs.Prelude.{ℕ, ◌<◌, List};
ghost use Rattle.psci_board.specs.Board.{BoardValue, IsBoard, cores};
ghost use Rattle.psci_state.specs.PowerState.{IsAsk};
ghost use Rattle.psci_messages.specs.View.{PowerView};
ghost use Rattle.psci_messages.specs.Claim.{BelowLaws, ClaimLaws, LastCoreLaws, OffLaws, OwnLaws};
ghost use Rattle.psci_messages.specs.Claim.{PlatformLaws};

use psci_board::{law_children, law_paths};

/// The least ask of a domain is the greatest depth, of 3 at most, that no core below undercuts. All
/// cores below are off or going off exactly where each one is.
pub fn law_below()
    ensures { (b : BoardValue) (v : PowerView) (core level : ℕ) → BelowLaws b v core level }
{}

/// A claim has one part for each level from 0 up, each with the depth that is wanted there and the
/// generation of its domain, and it ends where no depth is wanted.
pub fn law_claims()
    ensures { (b : BoardValue) (v : PowerView) (core : ℕ) (wanted : ℕ → ℕ)
        → ClaimLaws b v core wanted }
{}

/// In platform-coordinated mode no part is deeper than what any core below its domain asks, and the
/// claim goes as far up as that allows.
#[tactic(auto, using(crate::proofs::ClaimLaws::platform_laws))]
pub fn law_platform()
    ensures { (b : BoardValue) (v : PowerView) (core : ℕ) → IsBoard b → core < cores b
        → PlatformLaws b v core }
{
    law_paths();
}

/// What a core itself asks is claimed of each level of which it asks something, and no depth grows
/// upwards.
#[tactic(auto, using(crate::proofs::OsiLaws::own_laws))]
pub fn law_own()
    ensures { (b : BoardValue) (v : PowerView) (core : ℕ) (ask : List ℕ) → IsAsk ask
        → OwnLaws b v core ask }
{}

/// A core that goes off in OS-initiated mode claims power-down, of itself and of exactly those
/// domains on its path where every core below is off or going off.
#[tactic(auto, using(crate::proofs::OsiLaws::off_laws))]
pub fn law_off()
    ensures { (b : BoardValue) (v : PowerView) (core : ℕ) → OffLaws b v core }
{}

/// An OS-initiated request that is accepted asks no more of a domain than each other core below it
/// asks of itself, provided that no domain is granted more than the one below it on a path, nor
/// than a core below asks of itself.
#[tactic(auto, using(crate::proofs::ClaimLaws::last_core_laws))]
pub fn law_last_core()
    ensures { (b : BoardValue) (v : PowerView) (core : ℕ) (ask : List ℕ) → IsBoard b
        → core < cores b → LastCoreLaws b v core ask }
{
    law_paths();
    law_children();
}
