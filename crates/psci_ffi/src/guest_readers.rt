//! What is read of the power of a guest, and the power of a guest as words. An empty place has no
//! cores.

ghost use Rattle.std.specs.Prelude.{◌≡◌, length};
ghost use Rattle.std.specs.Option.{option_map_or};
ghost use Rattle.psci_board.specs.Board.{children, cores, height};
ghost use Rattle.psci_guest.specs.Pair.{board_of};
ghost use Rattle.psci_guest.specs.Saved.{saved};
ghost use Rattle.psci_ffi.specs.Codes.{no_firmware};
ghost use Rattle.psci_ffi.specs.Guests.{GuestLoads, GuestSaves, firmware_code, load_code};
ghost use Rattle.psci_ffi.specs.Guests.{loaded_code};
ghost use Rattle.psci_ffi.specs.Readers.{hw_said, nodes_said, status_said};

use crate::codes::{NO_FIRMWARE, NO_MEMORY};
use crate::controller_readers::saved_code;
use crate::guest::GuestPlace;
use crate::readers::{hw_of, node, status_of};
use psci_ctl::SavedFault as ControllerFault;
use psci_fw::SavedFault;
use psci_guest::LoadFault;
use std::alloc::Global;

/// The status of a core (level 0) or power domain by the rule of AFFINITY_INFO: 0 ON, 1 OFF, 2
/// ON_PENDING. 16 where there is no guest, 17 where the board has no such node.
#[unsafe(no_mangle)]
pub extern "C" fn psci_guest_status(place: &mut GuestPlace, level: u32, index: u16) -> u32
    ensures status { result ≡ option_map_or
        (λ g. status_said g.power.firmware (record { level = level; place = index }))
        place.old.slot.kept no_firmware }
    ensures same { place.new.slot.kept ≡ place.old.slot.kept }
{
    let firmware = lent!(place.guest else NO_FIRMWARE).firmware();
    status_of(firmware, node(level, index))
}

/// The state of the hardware of a core (level 0) or power domain: 0 HW_ON, 1 HW_OFF, 2 HW_STANDBY.
/// 16 where there is no guest, 17 where the board has no such node.
#[unsafe(no_mangle)]
pub extern "C" fn psci_guest_hw(place: &mut GuestPlace, level: u32, index: u16) -> u32
    ensures hw { result ≡ option_map_or
        (λ g. hw_said g.power.firmware (record { level = level; place = index }))
        place.old.slot.kept no_firmware }
    ensures same { place.new.slot.kept ≡ place.old.slot.kept }
{
    let firmware = lent!(place.guest else NO_FIRMWARE).firmware();
    hw_of(firmware, node(level, index))
}

/// How many cores there are.
#[unsafe(no_mangle)]
pub extern "C" fn psci_guest_cores(place: &mut GuestPlace) -> u16
    ensures cores { result ≡ option_map_or (λ g. cores (board_of g.power)) place.old.slot.kept 0 }
    ensures same { place.new.slot.kept ≡ place.old.slot.kept }
{
    lent!(place.guest else 0).board().cores()
}

/// The level of the system.
#[unsafe(no_mangle)]
pub extern "C" fn psci_guest_height(place: &mut GuestPlace) -> u32
    ensures height { result
        ≡ option_map_or (λ g. height (board_of g.power)) place.old.slot.kept 0 }
    ensures same { place.new.slot.kept ≡ place.old.slot.kept }
{
    lent!(place.guest else 0).board().height()
}

/// How many cores (level 0) or power domains a level has: none above the system.
#[unsafe(no_mangle)]
pub extern "C" fn psci_guest_nodes(place: &mut GuestPlace, level: u32) -> u16
    ensures nodes { result
        ≡ option_map_or (λ g. nodes_said (board_of g.power) level) place.old.slot.kept 0 }
    ensures same { place.new.slot.kept ≡ place.old.slot.kept }
{
    lent!(place.guest else 0).board().nodes(level)
}

/// How many children a power domain has. A core has none, nor has one that the board does not have.
#[unsafe(no_mangle)]
pub extern "C" fn psci_guest_children(place: &mut GuestPlace, level: u32, index: u16) -> u32
    ensures children { result ≡ option_map_or
        (λ g. children (board_of g.power) (record { level = level; place = index }))
        place.old.slot.kept 0 }
    ensures same { place.new.slot.kept ≡ place.old.slot.kept }
{
    lent!(place.guest else 0)
        .board()
        .children(node(level, index))
}

/// How many words of 64 bits the power of the guest is saved as, as many for each of its board; 0
/// where there is none.
#[unsafe(no_mangle)]
pub extern "C" fn psci_guest_save_size(place: &mut GuestPlace) -> usize
    ensures size { result ≡ option_map_or (λ g. length (saved g.power)) place.old.slot.kept 0 }
    ensures same { place.new.slot.kept ≡ place.old.slot.kept }
{
    lent!(place.guest else 0).saved_count()
}

/// Writes the power of the guest into so many words: 0. Else 16 where there is none, or 50 where
/// the words are not as many, and no word is written.
#[unsafe(no_mangle)]
pub extern "C" fn psci_guest_save(place: &mut GuestPlace, words: &mut [u64]) -> u32
    ensures words { GuestSaves place.old.slot.kept words.old result words.new }
    ensures same { place.new.slot.kept ≡ place.old.slot.kept }
{
    let guest = lent!(place.guest else NO_FIRMWARE);
    if words.len() != guest.saved_count() {
        return saved_code(ControllerFault::Length);
    }
    guest.save(words);
    0
}

/// The guest of the place goes on where one of the same board was saved as these words: 0. Else 16
/// where there is none, 8 where memory lacks, or the first fault of the words, and nothing changes:
/// from 80 on of the firmware's, 50 to 55 of the power controller's behind them.
#[unsafe(no_mangle)]
pub extern "C" fn psci_guest_load(alloc: Global, place: &mut GuestPlace, words: &[u64]) -> u32
    ensures { GuestLoads place.old.slot.kept words.now result place.new.slot.kept }
{
    loaded_code(lent!(place.guest else NO_FIRMWARE).load(alloc, words))
}

/// What came of loading words.
fn loaded_code(loaded: Result<(), LoadFault>) -> u32
    ensures { result ≡ loaded_code loaded }
{
    match loaded {
        Ok(()) => 0,
        Err(fault) => load_code(fault),
    }
}

/// Why words are not loaded.
fn load_code(fault: LoadFault) -> u32
    ensures { result ≡ load_code fault }
{
    match fault {
        LoadFault::Memory => NO_MEMORY,
        LoadFault::Firmware(fault) => firmware_code(fault),
        LoadFault::Values => 89,
        LoadFault::Controller(fault) => saved_code(fault),
    }
}

/// The first fault of the firmware's words.
fn firmware_code(fault: SavedFault) -> u32
    ensures { result ≡ firmware_code fault }
{
    match fault {
        SavedFault::Length => 80,
        SavedFault::Format => 81,
        SavedFault::Sum => 82,
        SavedFault::Life => 83,
        SavedFault::Mode => 84,
        SavedFault::Core => 85,
        SavedFault::Depth => 86,
        SavedFault::Row => 87,
        SavedFault::Message => 88,
    }
}
