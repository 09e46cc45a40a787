//! What is read of a power controller, and the power controller as words. An empty place is as one
//! whose system is off.

ghost use Rattle.std.specs.Prelude.{◌≡◌, length, option_and_then};
ghost use Rattle.std.specs.Option.{option_map_or};
ghost use Rattle.psci_ctl.specs.Saved.{saved, saved_fault};
ghost use Rattle.psci_ctl.specs.Seen.{seen};
ghost use Rattle.psci_ffi.specs.Codes.{no_firmware};
ghost use Rattle.psci_ffi.specs.Controllers.{Loads, LoadsBy, Saves, depth_of, life_number};
ghost use Rattle.psci_ffi.specs.Controllers.{saved_code, start_shown, started_of, starts_of};

use crate::codes::{NO_FIRMWARE, refusal};
use crate::controller_calls::{ControllerStart, start_of};
use crate::controller_place::ControllerPlace;
use crate::readers::node;
use psci_board::{Core, Node};
use psci_ctl::{Controller, SavedFault, Start};
use psci_fw::FwFault;

/// The present life, counted from 1; 0 once the system is off.
#[unsafe(no_mangle)]
pub extern "C" fn psci_ctl_life(place: &mut ControllerPlace) -> u32
    ensures life { result ≡ option_map_or (λ c. life_number (seen c).life) place.old.slot.kept 0 }
    ensures same { place.new.slot.kept ≡ place.old.slot.kept }
{
    lent!(place.controller else 0).life().unwrap_or(0)
}

/// How many times a core was started in this life. One that the board does not have never was.
#[unsafe(no_mangle)]
pub extern "C" fn psci_ctl_starts(place: &mut ControllerPlace, core: u16) -> u32
    ensures starts { result ≡ option_map_or (λ c. starts_of c core) place.old.slot.kept 0 }
    ensures same { place.new.slot.kept ≡ place.old.slot.kept }
{
    starts_of(lent!(place.controller else 0), core)
}

/// The start that a core finds: its last one in this life. Zeros where there is none.
#[unsafe(no_mangle)]
pub extern "C" fn psci_ctl_started(
    place: &mut ControllerPlace,
    core: u16,
    start: &mut ControllerStart,
)
    ensures start { start.new
        ≡ start_shown core (option_and_then (λ c. started_of c core) place.old.slot.kept) }
    ensures same { place.new.slot.kept ≡ place.old.slot.kept }
{
    let controller = lent!(place.controller else *start = start_of(Core { number: core }, None));
    *start = start_of(Core { number: core }, started_of(controller, core));
}

/// How deep a core's domain (level 0) or a power domain is: 0 fully on, 1 standby, 2 retention, 3
/// power-down. 16 where there is no power controller, 17 where the board has no such domain, 18
/// once the system is off.
#[unsafe(no_mangle)]
pub extern "C" fn psci_ctl_depth(place: &mut ControllerPlace, level: u32, index: u16) -> u32
    ensures depth { result ≡ option_map_or
        (λ c. depth_of c (record { level = level; place = index }))
        place.old.slot.kept no_firmware }
    ensures same { place.new.slot.kept ≡ place.old.slot.kept }
{
    depth_of(lent!(place.controller else NO_FIRMWARE), node(level, index))
}

/// The starts of a core, 0 of one that the board does not have.
pub fn starts_of(controller: &Controller, core: u16) -> u32
    ensures { result ≡ starts_of controller.now core }
{
    match controller.board().core(core) {
        Some(core) => controller.starts(core),
        None => 0,
    }
}

/// The last start of a core, none of one that the board does not have.
pub fn started_of(controller: &Controller, core: u16) -> Option<Start>
    ensures { result ≡ started_of controller.now core }
{
    let core = controller.board().core(core)?;
    controller.started(core)
}

/// How deep a domain is, if the board has it and there is a life.
pub fn depth_of(controller: &Controller, node: Node) -> u32
    ensures { result ≡ depth_of controller.now node }
{
    if node.place >= controller.board().nodes(node.level) {
        return refusal(FwFault::NoCore);
    }
    if controller.life().is_none() {
        return refusal(FwFault::NoLife);
    }
    u32::from(controller.depth(node))
}

/// How many words of 64 bits the power controller is saved as, as many for each of its board; 0
/// where there is none.
#[unsafe(no_mangle)]
pub extern "C" fn psci_ctl_save_size(place: &mut ControllerPlace) -> usize
    ensures size { result ≡ option_map_or (λ c. length (saved c)) place.old.slot.kept 0 }
    ensures same { place.new.slot.kept ≡ place.old.slot.kept }
{
    lent!(place.controller else 0).saved_count()
}

/// Writes the power controller into so many words: 0. Else 16 where there is none, or 50 where
/// the words are not as many, and no word is written.
#[unsafe(no_mangle)]
pub extern "C" fn psci_ctl_save(place: &mut ControllerPlace, words: &mut [u64]) -> u32
    ensures words { Saves place.old.slot.kept words.old result words.new }
    ensures same { place.new.slot.kept ≡ place.old.slot.kept }
{
    let controller = lent!(place.controller else NO_FIRMWARE);
    if words.len() != controller.saved_count() {
        return saved_code(SavedFault::Length);
    }
    controller.save(words);
    0
}

/// The power controller of the place is as the one of the same board that these words were saved
/// of: 0. Else 16 where there is none, or from 50 on the first fault of the words, and nothing
/// changes.
#[unsafe(no_mangle)]
pub extern "C" fn psci_ctl_load(place: &mut ControllerPlace, words: &[u64]) -> u32
    ensures { Loads place.old.slot.kept words.now result place.new.slot.kept }
{
    load(lent!(place.controller else NO_FIRMWARE), words)
}

/// The same of a power controller.
fn load(controller: &mut Controller, words: &[u64]) -> u32
    ensures { LoadsBy (saved_fault controller.old.board words.now) controller.old words.now result
        controller.new }
{
    match controller.load(words) {
        Ok(()) => 0,
        Err(fault) => saved_code(fault),
    }
}

/// The first fault of words.
pub fn saved_code(fault: SavedFault) -> u32
    ensures { result ≡ saved_code fault }
{
    match fault {
        SavedFault::Length => 50,
        SavedFault::Format => 51,
        SavedFault::Sum => 52,
        SavedFault::Life => 53,
        SavedFault::Starts => 54,
        SavedFault::Depth => 55,
    }
}
