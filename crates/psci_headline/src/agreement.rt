//! What holds of every legal run: each law is the contract of a function that does nothing.

ghost use Rattle.std.specs.Prelude.{◌≡◌, ℕ, List, Some, slice_get};
ghost use Rattle.psci_board.specs.Board.{BoardValue, IsBoard};
ghost use Rattle.psci_ctl_spec.specs.History as controls;
ghost use Rattle.psci_fw_laws.specs.psci_fw_spec.Effects.{sent_messages};
ghost use Rattle.psci_ctl_spec.specs.psci_messages.Message.{AckValue};
ghost use Rattle.psci_world_spec.specs.declared.said.Record.{Record};
ghost use Rattle.psci_world_spec.specs.Legal.{acks, controller_history, firmware_history};
ghost use Rattle.psci_world_spec.specs.Legal.{IsLegalPast, sent};
ghost use Rattle.psci_headline.specs.Laws.{Agree, NoneRefused, WasMade};

/// The messages of a legal run are those that the firmware's history says were sent.
pub fn law_sent()
    ensures { (b : BoardValue) (past : List Record) → IsLegalPast b past
        → sent past ≡ sent_messages b (firmware_history b past) }
{}

/// The power controller's history of a legal run is one of its legal histories: what is delivered
/// was sent, and so can be sent on this board.
pub fn law_controlled()
    ensures { (b : BoardValue) (past : List Record) → IsBoard b → IsLegalPast b past
        → controls.IsLegal b (controller_history b past) }
{}

/// Each acknowledgement was made as its message was delivered.
pub fn law_acknowledged()
    ensures { (b : BoardValue) (past : List Record) → IsBoard b → IsLegalPast b past
        → (k : ℕ) (a : AckValue) → slice_get (acks past) k ≡ Some a → WasMade b past a }
{}

/// Firmware and power controller agree on where each core is.
pub fn law_agreement()
    ensures { (b : BoardValue) (past : List Record) → IsBoard b → IsLegalPast b past
        → Agree b past }
{}

/// The firmware refuses no call of a running core, and no entry of a started one.
pub fn law_never_refused()
    ensures { (b : BoardValue) (past : List Record) → IsBoard b → IsLegalPast b past
        → NoneRefused b past }
{}
