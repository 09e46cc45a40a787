//! What the power controller's side of a port hears of a core and has done at its door, and what is
//! read of its power controller, as of one in a place of its own.

ghost use Rattle.std.specs.Prelude.{◌≡◌, option_and_then};
ghost use Rattle.std.specs.Option.{option_map_or};
ghost use Rattle.psci_control.specs.ControlSide.{values_of};
ghost use Rattle.psci_ffi.specs.Codes.{no_firmware};
ghost use Rattle.psci_ffi.specs.Controllers.{depth_of, life_number, start_shown, started_of};
ghost use Rattle.psci_ffi.specs.Controllers.{starts_of};
ghost use Rattle.psci_ffi.specs.Controls.{IsRungIn, door_told, due_in, due_number, due_shown};
ghost use Rattle.psci_ffi.specs.Controls.{left_in, said_in, stepped, told};

use crate::codes::{NO_FIRMWARE, refusal};
use crate::control_place::ControlPlace;
use crate::controller_calls::{ControllerStart, NO_START, start_of};
use crate::controller_readers::{depth_of, started_of, starts_of};
use crate::port_core::PortDoor;
use crate::readers::node;
use psci_board::{Core, law_sizes};
use psci_control::DoorOrder;
use psci_fw::FwFault;

/// No core.
pub const NOBODY: u16 = 0xffff;

/// A core has said that it stands in its stop of this start: 0. From 16 on nothing changed.
#[unsafe(no_mangle)]
pub extern "C" fn psci_control_stands(place: &mut ControlPlace, core: u16, word: u32) -> u32
    ensures said { result ≡ said_in (λ s c. 0) place.old.slot.kept core }
    ensures left { place.new.slot.kept ≡ left_in (told word) place.old.slot.kept core }
{
    let side = lent!(place.side else NO_FIRMWARE);
    let Some(core) = side.controller().board().core(core) else {
        return refusal(FwFault::NoCore);
    };
    side.stands(core, word);
    0
}

/// The next step of a core's door: 0 there is none, 1 this start is written there, 2 it is opened
/// for the start of this number. From 16 on nothing changed, and nothing is written.
#[unsafe(no_mangle)]
pub extern "C" fn psci_control_door(place: &mut ControlPlace, core: u16, door: &mut PortDoor) -> u32
    ensures said { result ≡ said_in (λ s c. due_number (due_in s c)) place.old.slot.kept core }
    ensures door { door.new ≡ door_told place.old.slot.kept core door.old }
    ensures left { place.new.slot.kept ≡ left_in stepped place.old.slot.kept core }
{
    let side = lent!(place.side else NO_FIRMWARE);
    let Some(core) = side.controller().board().core(core) else {
        return refusal(FwFault::NoCore);
    };
    let due = side.door(core);
    *door = due_shown(core, due);
    due_number(due)
}

/// Which core is rung for an acknowledgement: one that does not stand; 0xffff where there is none.
#[unsafe(no_mangle)]
pub extern "C" fn psci_control_rings(place: &mut ControlPlace) -> u16
    ensures rung { IsRungIn place.old.slot.kept result }
    ensures same { place.new.slot.kept ≡ place.old.slot.kept }
{
    law_sizes();
    let side = lent!(place.side else NOBODY);
    let _cores = side.controller().board().cores();
    match side.rings() {
        Some(core) => core.number,
        None => NOBODY,
    }
}

/// What is to stand at a door.
fn due_shown(core: Core, due: Option<DoorOrder>) -> PortDoor
    ensures { result ≡ due_shown core due }
{
    match due {
        None => PortDoor {
            start: NO_START,
            opened: 0,
        },
        Some(DoorOrder::Write(start)) => PortDoor {
            start: start_of(core, Some(start)),
            opened: 0,
        },
        Some(DoorOrder::Open(number)) => PortDoor {
            start: NO_START,
            opened: number,
        },
    }
}

/// The number of what is due.
fn due_number(due: Option<DoorOrder>) -> u32
    ensures { result ≡ due_number due }
{
    match due {
        None => 0,
        Some(DoorOrder::Write(_)) => 1,
        Some(DoorOrder::Open(_)) => 2,
    }
}

/// `psci_ctl_life`.
#[unsafe(no_mangle)]
pub extern "C" fn psci_control_life(place: &mut ControlPlace) -> u32
    ensures life { result
        ≡ option_map_or (λ s. life_number (values_of s).life) place.old.slot.kept 0 }
    ensures same { place.new.slot.kept ≡ place.old.slot.kept }
{
    lent!(place.side else 0).controller().life().unwrap_or(0)
}

/// `psci_ctl_starts`.
#[unsafe(no_mangle)]
pub extern "C" fn psci_control_starts(place: &mut ControlPlace, core: u16) -> u32
    ensures starts { result
        ≡ option_map_or (λ s. starts_of s.controller core) place.old.slot.kept 0 }
    ensures same { place.new.slot.kept ≡ place.old.slot.kept }
{
    starts_of(lent!(place.side else 0).controller(), core)
}

/// `psci_ctl_started`.
#[unsafe(no_mangle)]
pub extern "C" fn psci_control_started(
    place: &mut ControlPlace,
    core: u16,
    start: &mut ControllerStart,
)
    ensures start { start.new ≡ start_shown core
        (option_and_then (λ s. started_of s.controller core) place.old.slot.kept) }
    ensures same { place.new.slot.kept ≡ place.old.slot.kept }
{
    let side = lent!(place.side else *start = start_of(Core { number: core }, None));
    *start = start_of(Core { number: core }, started_of(side.controller(), core));
}

/// `psci_ctl_depth`.
#[unsafe(no_mangle)]
pub extern "C" fn psci_control_depth(place: &mut ControlPlace, level: u32, index: u16) -> u32
    ensures depth { result ≡ option_map_or
        (λ s. depth_of s.controller (record { level = level; place = index }))
        place.old.slot.kept no_firmware }
    ensures same { place.new.slot.kept ≡ place.old.slot.kept }
{
    let controller = lent!(place.side else NO_FIRMWARE).controller();
    depth_of(controller, node(level, index))
}
