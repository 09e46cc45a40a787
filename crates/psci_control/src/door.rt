//! What is due at the door of a core.

ghost use Rattle.std.specs.Prelude.{◌≡◌, ◌<◌, ◌==◌, not, None, Some, option_map};
ghost use Rattle.psci_board.specs.Board.{cores};
ghost use Rattle.psci_control.specs.declared.door.DoorOrder.TheVariants as orders;
ghost use Rattle.psci_ctl.specs.Seen.{seen};
ghost use Rattle.psci_ctl_spec.specs.Replies.{last_start};

use psci_board::Core;
use psci_ctl::Controller;
use psci_messages::Start;

/// What is to be done next at a door.
#[derive(Clone, Copy, Debug, PartialEq, Eq)]
pub enum DoorOrder {
    /// This start is written at the door.
    Write(Start),
    /// The door is opened for the start of this number.
    Open(u32),
}

/// What is due at the door of a core, by the start that stands there and by the number of the start
/// for which it was opened last: its last start is written, and only then its door is opened.
pub fn door_order(
    controller: &Controller,
    core: Core,
    written: Option<Start>,
    opened: u32,
) -> Option<DoorOrder>
    requires { core.number < cores controller.now.board }
    ensures nothing { opened ≡ (seen controller.now).starts core.number → result ≡ None }
    ensures write { (opened ≡ (seen controller.now).starts core.number → ⊥)
        → (written ≡ last_start (seen controller.now) core.number → ⊥)
        → result ≡ option_map (λ s. orders.Write s) (last_start (seen controller.now) core.number) }
    ensures open { (opened ≡ (seen controller.now).starts core.number → ⊥)
        → written ≡ last_start (seen controller.now) core.number
        → result ≡ Some (orders.Open ((seen controller.now).starts core.number)) }
{
    let starts = controller.starts(core);
    if opened == starts {
        return None;
    }
    let last = controller.started(core);
    if written == last {
        return Some(DoorOrder::Open(starts));
    }
    match last {
        Some(start) => Some(DoorOrder::Write(start)),
        None => None,
    }
}

/// Whether a core takes up what stands at its door: the door is open for a start that the core did
/// not use.
pub fn takes_up(opened: u32, used: u32) -> bool
    ensures { result ≡ not (opened == used) }
{
    opened != used
}
