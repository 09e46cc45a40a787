//! What holds of the statuses of a core: each law is the contract of a function that does nothing.

ghost use Rattle.std.specs.Prelude.{◌≡◌, ◌≢◌, ◌≤◌, ℕ, false, List, ◌∷◌, length};
ghost use Rattle.psci_board.specs.Board.{BoardValue, IsBoard};
ghost use Rattle.psci_fw_spec.specs.Effects.{FwExchange, effect};
ghost use Rattle.psci_fw_spec.specs.History.{life, status};
ghost use Rattle.psci_fw_spec.specs.Legal.{IsLegal};
ghost use Rattle.psci_fw_spec.specs.Statuses.{statuses};
ghost use Rattle.psci_status.specs.Lists.{most_statuses, names};

/// Where a call leaves the life, the status of every core stays but of the one that the call names:
/// the target of an accepted CPU_ON, a core that entered and goes on, the core of an
/// acknowledgement that was used.
pub fn law_statuses_stay()
    ensures { (b : BoardValue) (e : FwExchange) (h : List FwExchange) (core : ℕ)
        → life b (e ∷ h) ≡ life b h → names (effect b e) core ≡ false
        → status b (e ∷ h) core ≡ status b h core }
{}

/// However many calls there were, a core has had no more statuses than the board's limits of starts
/// and lives allow: a start of a core brings three at most, and a life three more.
pub fn law_few_statuses()
    ensures { (b : BoardValue) (h : List FwExchange) (core : ℕ) → IsBoard b → IsLegal b h
        → length (statuses b h core) ≤ most_statuses b }
{}
