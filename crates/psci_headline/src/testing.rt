//! What holds of the definitions alone: each law is the contract of a function that does nothing.

ghost use Rattle.std.specs.Prelude.{◌≡◌, ◌↔◌, ◌&&◌, true, List};
ghost use Rattle.psci_fw_laws.specs.psci_board.Board.{BoardValue};
ghost use Rattle.psci_world_spec.specs.declared.said.Record.{Record};
ghost use Rattle.psci_world_spec.specs.Legal.{firmware_history};
ghost use Rattle.psci_headline.specs.Safe.{AlwaysSafe, AreTakenUp, NoDeeperThanAsked};
ghost use Rattle.psci_headline.specs.Safe.{NoneBelowSleeping, OffIsDown, OneLiveClaim, Safe};
ghost use Rattle.psci_headline.specs.Safe.{StatesWereReal};
ghost use Rattle.psci_headline.specs.Test.{is_always_safe, is_asked, is_each_once, is_each_open};
ghost use Rattle.psci_headline.specs.Test.{is_each_real, is_off_down, is_off_stopped, is_one};
ghost use Rattle.psci_headline.specs.Test.{is_powered, is_safe};

/// The world is safe at a moment where the test says so, and nowhere else. So it is with each thing
/// that is said of a moment, and with all moments of a run.
pub fn law_tested()
    ensures tested { (b : BoardValue) (past : List Record) → Safe b past → is_safe b past ≡ true }
    ensures safe { (b : BoardValue) (past : List Record) → is_safe b past ≡ true → Safe b past }
    ensures always { (b : BoardValue) (past : List Record)
        → (is_always_safe b past ≡ true) ↔ AlwaysSafe b past }
    // Each by itself.
    ensures powered { (b : BoardValue) (past : List Record)
        → (is_powered b past ≡ true) ↔ NoneBelowSleeping b past }
    ensures off { (b : BoardValue) (past : List Record)
        → ((is_off_stopped b past && is_off_down b past) ≡ true) ↔ OffIsDown b past }
    ensures one { (b : BoardValue) (past : List Record)
        → (is_one b past ≡ true) ↔ OneLiveClaim b past }
    ensures asked { (b : BoardValue) (past : List Record)
        → (is_asked b past ≡ true) ↔ NoDeeperThanAsked b past }
    ensures entries { (b : BoardValue) (past : List Record)
        → ((is_each_open b past && is_each_once b past) ≡ true)
        ↔ AreTakenUp b (firmware_history b past) }
    ensures states { (b : BoardValue) (past : List Record)
        → (is_each_real b past ≡ true) ↔ StatesWereReal b past }
{}
