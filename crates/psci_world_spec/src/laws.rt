//! What holds of the definitions alone: each law is the contract of a function that does nothing.

ghost use Rattle.std.specs.Prelude.{◌≡◌, List, [], ◌++◌, map, reverse};
ghost use Rattle.psci_fw_spec.specs.psci_board.Board.{BoardValue};
ghost use Rattle.psci_fw_spec.specs.Legal as answers;
ghost use Rattle.psci_world_spec.specs.declared.event.Event.{Event};
ghost use Rattle.psci_world_spec.specs.declared.said.Record.{Record};
ghost use Rattle.psci_world_spec.specs.Legal.{controller_history, firmware_history, IsLegalPast};
ghost use Rattle.psci_world_spec.specs.Legal.{IsReplied, run_from};

/// To each list of events there is exactly one legal run: what `run_from` gives is legal and has
/// these events, newest first, and of the same events no other past is legal.
pub fn law_runs()
    ensures legal { (b : BoardValue) (events : List Event) → IsLegalPast b (run_from b [] events) }
    ensures events { (b : BoardValue) (events : List Event)
        → map (λ r. r.event) (run_from b [] events) ≡ reverse events }
    ensures only { (b : BoardValue) (one other : List Record) → IsLegalPast b one
        → IsLegalPast b other → map (λ r. r.event) one ≡ map (λ r. r.event) other → one ≡ other }
    // So each legal past is the run of its events.
    ensures run { (b : BoardValue) (past : List Record) → IsLegalPast b past
        → past ≡ run_from b [] (reverse (map (λ r. r.event) past)) }
    // A run goes on from where it has come to.
    ensures goes_on { (b : BoardValue) (past : List Record) (events more : List Event)
        → run_from b past (events ++ more) ≡ run_from b (run_from b past events) more }
    ensures stays_legal { (b : BoardValue) (past : List Record) (events : List Event)
        → IsLegalPast b past → IsLegalPast b (run_from b past events) }
{}

/// In the histories of a legal past every reply is the one reply: the firmware's history is one of
/// its legal histories, and in the power controller's each call is answered as after the exchanges
/// before it.
pub fn law_histories()
    ensures firmware { (b : BoardValue) (past : List Record) → IsLegalPast b past
        → answers.IsLegal b (firmware_history b past) }
    ensures controller { (b : BoardValue) (past : List Record) → IsLegalPast b past
        → IsReplied b (controller_history b past) }
{}
