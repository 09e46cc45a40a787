//! What holds of each run of a machine with both sides of a port: the law is the contract of a
//! function that does nothing.

ghost use Rattle.std.specs.Prelude.{◌≡◌, ℕ, ◌≤◌, ◌+◌, ◌*◌, ◌++◌, length, List};
ghost use Rattle.psci_board.specs.Board.{BoardValue, IsBoard, cores};
ghost use Rattle.psci_control.specs.ControlSide.{ControlValue};
ghost use Rattle.psci_fw.specs.Reactions.{FirmwareValue};
ghost use Rattle.psci_port.specs.Kept.{AreLegal, AreSafe, runs};
ghost use Rattle.psci_port.specs.Port.{Act, state};
ghost use Rattle.psci_port.specs.Rules.{AreTrue, IsPortRun};
ghost use Rattle.psci_sides.specs.Frames.{
  EachServes,
  IsLeft,
  IsServed,
  Serves,
  most_served,
  most_visit,
  visits,
};
ghost use Rattle.psci_sides.specs.Kept.{Agree, AllStill, EachTakesItsLast, IsSound, NoneToServe};
ghost use Rattle.psci_sides.specs.Machine.{cold};
ghost use Rattle.psci_sides.specs.Resting.{EachGoes, Goes, IsAtRest, most_steps};
ghost use Rattle.psci_sides.specs.Seen.{AreShown, IsMachineOf};
ghost use Rattle.psci_sides.specs.Steps.{Holds, IsCold, IsRun, Step, machine};

use psci_board::law_sizes;
use psci_ctl_spec::{law_limits, law_replies, law_values};
use psci_enter::{law_firmware, law_others};
use psci_fw_laws::law_new_life;
use psci_headline::law_agreement;
use psci_port::{law_agrees, law_port, law_power, law_rests, law_undone};

/// Every run of a machine in which both sides call, and the board's hooks carry their orders out,
/// is a true run of a port, seen through its acts, and the two sides go on describing that port. So
/// what is asked and said is a legal run from each reset of all to the next, and safe. At every
/// moment no power is off under a core from its start until it says that it stands, or of an armed
/// one until its WFI. One core at a time is inside the firmware, and no wake-up is lost before WFI.
/// Each start is taken up at most once, as its core's last one. Where nothing is due and nothing is
/// left to serve, firmware and power controller agree. Once nothing comes from outside, a machine
/// is at rest after at most `most_steps` steps for each core of the board.
///
/// Once frames get through, its own steps and those that serve are at most `most_served` for each
/// core, and `most_visit` for each time that a core of the normal world comes in to take what ended
/// or to send again: all comes to rest, unless cores come in for ever. Where none is left, no frame
/// is of use; and where a core is in the normal world and the life does not halt, both sides agree.
///
/// The power controller has a core of its own, and no core is armed; or it is in the monitors, and
/// whoever has the lock is it. Then a core may say that it stands with the lock in hand, and carry
/// out its own Down: its power goes at its WFI, and no earlier. An interrupt brings it back armed,
/// and it tells its own wake-up with the lock in hand, which waits where others started the core
/// meanwhile. A run may mix both.
pub fn law_sides()
    ensures seen { (b : BoardValue) (f : FirmwareValue) (s : ControlValue) (steps : List Step)
        → IsBoard b → IsCold b f s → IsRun b (cold b f s) steps
        → (acts : List Act) × AreShown b (cold b f s) steps acts
        × IsPortRun b acts × AreTrue b acts
        × IsMachineOf b (machine b (cold b f s) steps) (state b acts)
        × AreLegal b (runs (state b acts)) × AreSafe b (runs (state b acts)) }
    ensures sound { (b : BoardValue) (f : FirmwareValue) (s : ControlValue) (steps : List Step)
        → IsBoard b → IsCold b f s → IsRun b (cold b f s) steps
        → IsSound b (machine b (cold b f s) steps) }
    ensures starts { (b : BoardValue) (f : FirmwareValue) (s : ControlValue) (steps : List Step)
        → IsBoard b → IsCold b f s → IsRun b (cold b f s) steps
        → EachTakesItsLast b (cold b f s) steps }
    ensures agrees { (b : BoardValue) (f : FirmwareValue) (s : ControlValue) (steps : List Step)
        → IsBoard b → IsCold b f s → IsRun b (cold b f s) steps
        → AllStill b (machine b (cold b f s) steps)
        → NoneToServe b (machine b (cold b f s) steps)
        → Agree b (machine b (cold b f s) steps) }
    ensures settles { (b : BoardValue) (f : FirmwareValue) (s : ControlValue)
        (steps newest : List Step) → IsBoard b → IsCold b f s
        → IsRun b (cold b f s) (newest ++ steps) → EachGoes b (cold b f s) steps newest
        → length newest ≤ most_steps * cores b }
    ensures rests { (b : BoardValue) (f : FirmwareValue) (s : ControlValue) (steps : List Step)
        → IsBoard b → IsCold b f s → IsRun b (cold b f s) steps
        → ((x : Step) → Goes b (machine b (cold b f s) steps) x → ⊥)
        → IsAtRest b (machine b (cold b f s) steps) }
    ensures served { (b : BoardValue) (f : FirmwareValue) (s : ControlValue) (steps : List Step)
        → IsBoard b → IsCold b f s → IsRun b (cold b f s) steps
        → ((x : Step) → Goes b (machine b (cold b f s) steps) x → ⊥)
        → ((x : Step) → Serves b (machine b (cold b f s) steps) x → ⊥)
        → IsServed b (machine b (cold b f s) steps) }
    ensures left { (b : BoardValue) (f : FirmwareValue) (s : ControlValue) (steps : List Step)
        (c : ℕ) → IsBoard b → IsCold b f s → IsRun b (cold b f s) steps
        → Holds b (machine b (cold b f s) steps) c → IsLeft b (machine b (cold b f s) steps)
        → (x : Step) × Serves b (machine b (cold b f s) steps) x }
    ensures finite { (b : BoardValue) (f : FirmwareValue) (s : ControlValue)
        (steps newest : List Step) → IsBoard b → IsCold b f s
        → IsRun b (cold b f s) (newest ++ steps) → EachServes b (cold b f s) steps newest
        → length newest ≤ most_served * cores b + most_visit * visits b (cold b f s) steps newest }
{
    law_sizes();
    law_values();
    psci_fw_spec::law_values();
    law_replies();
    law_limits();
    law_new_life();
    law_agreement();
    law_power();
    law_port();
    law_agrees();
    law_rests();
    law_undone();
    law_firmware();
    law_others();
}
