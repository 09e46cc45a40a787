//! What holds of each run of a port: each law is the contract of a function that does nothing.

ghost use Rattle.std.specs.Prelude.{◌≡◌, ◌<◌, ℕ, ◌∷◌, false, List};
ghost use Rattle.psci_board.specs.Board.{BoardValue, IsBoard};
ghost use Rattle.psci_headline.specs.Complete.{IsToldWhole};
ghost use Rattle.psci_headline.specs.Settling.{AreAtRest, is_halting};
ghost use Rattle.psci_port.specs.Kept.{AreLegal, AreSafe, EachTakesItsLast, IsLocked, NoneCut};
ghost use Rattle.psci_port.specs.Kept.{runs, WordsTell};
ghost use Rattle.psci_port.specs.Port.{Act, state};
ghost use Rattle.psci_port.specs.Rebooted.{rebooted};
ghost use Rattle.psci_port.specs.Resting.{IsAtRest, IsDue, left};
ghost use Rattle.psci_port.specs.Rules.{AreTrue, IsPortRun};
ghost use Rattle.psci_port.specs.Served.{AllServed, AreHeard};
ghost use Rattle.psci_world_spec.specs.Legal.{firmware_values};

use psci_board::{law_paths, law_sizes};
use psci_ctl_spec::{law_limits, law_replies, law_values};
use psci_headline::{law_never_refused, law_safe};

/// Power goes under no core from its start until it says that it stands, or of an armed one until
/// its WFI: whatever messages are delivered, and whatever the firmware answers.
pub fn law_power()
    ensures { (b : BoardValue) (acts : List Act) → IsBoard b → IsPortRun b acts
        → NoneCut b (state b acts) }
{
    law_paths();
    law_replies();
}

/// One core at a time is inside the firmware, who has the lock is never cut off with it, and so no
/// call finds a firmware that another one left torn.
pub fn law_lock()
    ensures { (b : BoardValue) (acts : List Act) → IsPortRun b acts → IsLocked (state b acts) }
{}

/// Each start that a core takes up is its last one, and one that it did not use before, though the
/// core may be reset between any two steps of its door. And the words that say which cores stand
/// tell the truth.
pub fn law_starts()
    ensures each { (b : BoardValue) (acts : List Act) → IsPortRun b acts
        → EachTakesItsLast b acts }
    ensures words { (b : BoardValue) (acts : List Act) → IsPortRun b acts
        → WordsTell (state b acts) }
{}

/// What the firmware and the power controller were asked and said is a legal run of the world, from
/// each reset that nobody asked for to the next and since the last one; so each was safe at every
/// moment. After a reset that the power controller outlives, the run follows as many lives that
/// their boot core ended at once. The firmware of these has the last one as its life: one that is
/// made anew answers the next entry as it does (`law_new_life`).
pub fn law_port()
    ensures legal { (b : BoardValue) (acts : List Act) → IsPortRun b acts → AreTrue b acts
        → AreLegal b (runs (state b acts)) }
    ensures safe { (b : BoardValue) (acts : List Act) → IsBoard b → IsPortRun b acts
        → AreTrue b acts → AreSafe b (runs (state b acts)) }
    ensures anew { (b : BoardValue) (life : ℕ) → IsBoard b → life < b.lives
        → (firmware_values b (rebooted b life)).life ≡ life }
{
    law_values();
    psci_headline::law_values();
    law_sizes();
    law_safe();
}

/// Nothing waits for ever inside a port: each act that is due leaves less to do, so that no run of
/// such acts is longer than what there is. Where none is due the port is at rest, and what waits
/// there, waits for a core that is in the normal world.
pub fn law_rests()
    ensures lowers { (b : BoardValue) (acts : List Act) (act : Act) → IsBoard b
        → IsPortRun b acts → AreTrue b acts → IsDue b (state b acts) act
        → left b (state b (act ∷ acts)) < left b (state b acts) }
    ensures rests { (b : BoardValue) (acts : List Act) → IsBoard b → IsPortRun b acts
        → ((act : Act) → IsDue b (state b acts) act → ⊥) → IsAtRest b (state b acts) }
{
    law_values();
    psci_headline::law_values();
    law_sizes();
    law_limits();
    law_never_refused();
}

/// Where no act of a port is due, each outstanding message may be delivered. Where none is to be
/// served either, nothing is outstanding, firmware and power controller agree, and all is told,
/// unless the system is being turned off or reset, or is off. So what waits in a port, waits for a
/// frame, or for a call, an interrupt or a reset from outside.
pub fn law_agrees()
    ensures { (b : BoardValue) (acts : List Act) → IsBoard b → IsPortRun b acts → AreTrue b acts
        → ((act : Act) → IsDue b (state b acts) act → ⊥)
        → AreHeard b (state b acts)
        × (is_halting b (state b acts).past ≡ false → AllServed b (state b acts)
        → AreAtRest b (state b acts).past × IsToldWhole b (state b acts).past) }
{}
