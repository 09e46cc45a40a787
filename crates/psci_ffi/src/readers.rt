//! What is read of a firmware, of its board, and of its machine's names. An empty place is as a
//! firmware before any core has entered, and has no board.

ghost use Rattle.std.specs.Prelude.{◌-◌, ◌^◌, ◌≡◌, false};
ghost use Rattle.std.specs.Option.{option_map_or};
ghost use Rattle.psci_board.specs.Board.{children, cores, height};
ghost use Rattle.psci_fw.specs.Reactions.{seen};
ghost use Rattle.psci_fw_spec.specs.Phases.{is_running};
ghost use Rattle.psci_fw_state.specs.Seen.{message_shown};
ghost use Rattle.psci_ffi.specs.Codes.{no_firmware};
ghost use Rattle.psci_ffi.specs.Readers.{core_in, granted_said, hw_said, mpidr_in, nodes_said};
ghost use Rattle.psci_ffi.specs.Readers.{place_in, status_said};
ghost use Rattle.psci_ffi.specs.Shown.{frame_shown, no_frame};

use crate::answer::{SomeFrame, no_frame, write_frame};
use crate::codes::{NO_FIRMWARE, hw_number, refusal, status_code};
use crate::place::Place;
use psci_board::{Core, Node};
use psci_fw::{Firmware, FwFault};

/// The life of the last start that entered; 0 before any.
#[unsafe(no_mangle)]
pub extern "C" fn psci_life(place: &mut Place) -> u32
    ensures life { result
        ≡ option_map_or (λ f. (seen f.polled.firmware).life) place.old.slot.kept 0 }
    ensures same { place.new.slot.kept ≡ place.old.slot.kept }
{
    lent!(place.held else 0).firmware().life().unwrap_or(0)
}

/// Whether SYSTEM_OFF, SYSTEM_RESET or SYSTEM_RESET2 was accepted in this life.
#[unsafe(no_mangle)]
pub extern "C" fn psci_halting(place: &mut Place) -> bool
    ensures halting { result
        ≡ option_map_or (λ f. (seen f.polled.firmware).halting) place.old.slot.kept false }
    ensures same { place.new.slot.kept ≡ place.old.slot.kept }
{
    lent!(place.held else false).firmware().halting()
}

/// The status of a core (level 0) or power domain by the rule of AFFINITY_INFO: 0 ON, 1 OFF, 2
/// ON_PENDING. 16 where there is no firmware, 17 where the board has no such node, 18 before any
/// core has entered.
#[unsafe(no_mangle)]
pub extern "C" fn psci_status(place: &mut Place, level: u32, index: u16) -> u32
    ensures status { result ≡ option_map_or
        (λ f. status_said f.polled.firmware (record { level = level; place = index }))
        place.old.slot.kept no_firmware }
    ensures same { place.new.slot.kept ≡ place.old.slot.kept }
{
    let firmware = lent!(place.held else NO_FIRMWARE).firmware();
    status_of(firmware, node(level, index))
}

/// The granted depth of a core's domain (level 0) or a power domain. 16 where there is no firmware,
/// 17 where the board has no such domain.
#[unsafe(no_mangle)]
pub extern "C" fn psci_granted(place: &mut Place, level: u32, index: u16) -> u32
    ensures granted { result ≡ option_map_or
        (λ f. granted_said f.polled.firmware (record { level = level; place = index }))
        place.old.slot.kept no_firmware }
    ensures same { place.new.slot.kept ≡ place.old.slot.kept }
{
    let firmware = lent!(place.held else NO_FIRMWARE).firmware();
    granted_of(firmware, node(level, index))
}

/// The state of the hardware of a core (level 0) or power domain, as far as the power controller
/// has confirmed it: 0 HW_ON, 1 HW_OFF, 2 HW_STANDBY. 16 where there is no firmware, 17 where the
/// board has no such node, 18 before any core has entered.
#[unsafe(no_mangle)]
pub extern "C" fn psci_hw(place: &mut Place, level: u32, index: u16) -> u32
    ensures hw { result ≡ option_map_or
        (λ f. hw_said f.polled.firmware (record { level = level; place = index }))
        place.old.slot.kept no_firmware }
    ensures same { place.new.slot.kept ≡ place.old.slot.kept }
{
    let firmware = lent!(place.held else NO_FIRMWARE).firmware();
    hw_of(firmware, node(level, index))
}

/// The number of the last start by which a core entered in this life, or 0.
#[unsafe(no_mangle)]
pub extern "C" fn psci_known(place: &mut Place, core: u16) -> u32
    ensures known { result
        ≡ option_map_or (λ f. (seen f.polled.firmware).known core) place.old.slot.kept 0 }
    ensures same { place.new.slot.kept ≡ place.old.slot.kept }
{
    lent!(place.held else 0)
        .firmware()
        .known(Core { number: core })
}

/// Whether a core may call a function.
#[unsafe(no_mangle)]
pub extern "C" fn psci_running(place: &mut Place, core: u16) -> bool
    ensures running { result ≡ option_map_or
        (λ f. is_running ((seen f.polled.firmware).phase core)) place.old.slot.kept false }
    ensures same { place.new.slot.kept ≡ place.old.slot.kept }
{
    lent!(place.held else false)
        .firmware()
        .running(Core { number: core })
}

/// The frame of the outstanding message of a core, or of the system at the number of cores.
#[unsafe(no_mangle)]
pub extern "C" fn psci_outstanding(place: &mut Place, number: u16, message: &mut SomeFrame)
    ensures message { message.new ≡ option_map_or
        (λ f. frame_shown (message_shown f.polled.firmware.board (seen f.polled.firmware) number))
        place.old.slot.kept no_frame }
    ensures same { place.new.slot.kept ≡ place.old.slot.kept }
{
    let firmware = lent!(place.held else *message = no_frame()).firmware();
    write_frame(message, firmware.outstanding(number));
}

/// The core (level 0) or power domain of this index.
pub fn node(level: u32, index: u16) -> Node
    ensures { result ≡ record { level = level; place = index } }
{
    Node {
        level,
        place: index,
    }
}

/// The number of the status of a node, if the board has it.
pub fn status_of(firmware: &Firmware, node: Node) -> u32
    ensures { result ≡ status_said firmware.now node }
{
    if node.place >= firmware.board().nodes(node.level) {
        return refusal(FwFault::NoCore);
    }
    status_code(firmware.status(node))
}

/// The granted depth of a domain, if the board has it.
fn granted_of(firmware: &Firmware, node: Node) -> u32
    ensures { result ≡ granted_said firmware.now node }
{
    if node.place >= firmware.board().nodes(node.level) {
        return refusal(FwFault::NoCore);
    }
    u32::from(firmware.granted(node))
}

/// The number of the hardware state of a node, if the board has it.
pub fn hw_of(firmware: &Firmware, node: Node) -> u32
    ensures { result ≡ hw_said firmware.now node }
{
    if node.place >= firmware.board().nodes(node.level) {
        return refusal(FwFault::NoCore);
    }
    hw_number(firmware.hw(node))
}

/// How many cores there are.
#[unsafe(no_mangle)]
pub extern "C" fn psci_cores(place: &mut Place) -> u16
    ensures cores { result
        ≡ option_map_or (λ f. cores f.polled.firmware.board) place.old.slot.kept 0 }
    ensures same { place.new.slot.kept ≡ place.old.slot.kept }
{
    lent!(place.held else 0).board().cores()
}

/// The level of the system.
#[unsafe(no_mangle)]
pub extern "C" fn psci_height(place: &mut Place) -> u32
    ensures height { result
        ≡ option_map_or (λ f. height f.polled.firmware.board) place.old.slot.kept 0 }
    ensures same { place.new.slot.kept ≡ place.old.slot.kept }
{
    lent!(place.held else 0).board().height()
}

/// How many cores (level 0) or power domains a level has: none above the system.
#[unsafe(no_mangle)]
pub extern "C" fn psci_nodes(place: &mut Place, level: u32) -> u16
    ensures nodes { result
        ≡ option_map_or (λ f. nodes_said f.polled.firmware.board level) place.old.slot.kept 0 }
    ensures same { place.new.slot.kept ≡ place.old.slot.kept }
{
    lent!(place.held else 0).board().nodes(level)
}

/// How many children a power domain has. A core has none, nor has one that the board does not have.
#[unsafe(no_mangle)]
pub extern "C" fn psci_children(place: &mut Place, level: u32, index: u16) -> u32
    ensures children { result ≡ option_map_or
        (λ f. children f.polled.firmware.board (record { level = level; place = index }))
        place.old.slot.kept 0 }
    ensures same { place.new.slot.kept ≡ place.old.slot.kept }
{
    lent!(place.held else 0)
        .board()
        .children(node(level, index))
}

/// The number of no core.
const NO_CORE_OF: u16 = 0xffff;

/// The MPIDR of no core.
const NO_MPIDR: u64 = u64::MAX;

/// The number of the core with this MPIDR, as the calls have it; 0xffff where the machine has none,
/// and where the place was opened without a machine or is empty.
#[unsafe(no_mangle)]
pub extern "C" fn psci_core_of(place: &mut Place, mpidr: u64) -> u16
    ensures core { result
        ≡ option_map_or (λ f. core_in f.machine mpidr) place.old.slot.kept 65535 }
    ensures same { place.new.slot.kept ≡ place.old.slot.kept }
{
    let Some(machine) = lent!(place.held else NO_CORE_OF).machine() else {
        return NO_CORE_OF;
    };
    match machine.core(mpidr) {
        Some(core) => core.number,
        None => NO_CORE_OF,
    }
}

/// The MPIDR of a core that a message names; all ones where the machine has no such core, and where
/// the place was opened without a machine or is empty.
#[unsafe(no_mangle)]
pub extern "C" fn psci_mpidr_of(place: &mut Place, core: u16) -> u64
    ensures mpidr { result
        ≡ option_map_or (λ f. mpidr_in f.machine core) place.old.slot.kept (2 ^ 64 - 1) }
    ensures same { place.new.slot.kept ≡ place.old.slot.kept }
{
    let Some(machine) = lent!(place.held else NO_MPIDR).machine() else {
        return NO_MPIDR;
    };
    machine.mpidr(Core { number: core }).unwrap_or(NO_MPIDR)
}

/// Which core (level 0) or power domain of the tree, in its order from left to right, one of the
/// firmware is, and which of the firmware's one of the tree is. Where the first core boots, each is
/// the same, and so without a machine.
#[unsafe(no_mangle)]
pub extern "C" fn psci_place_of(place: &mut Place, level: u32, index: u16) -> u16
    ensures place { result ≡ option_map_or
        (λ f. place_in f.machine (record { level = level; place = index }))
        place.old.slot.kept index }
    ensures same { place.new.slot.kept ≡ place.old.slot.kept }
{
    let Some(machine) = lent!(place.held else index).machine() else {
        return index;
    };
    machine.place(node(level, index)).place
}
