//! The calls of the cores, the acknowledgements of the power controller, and how a core stops.

ghost use Rattle.std.specs.Prelude.{◌≡◌, Some, option_map, slice_get};
ghost use Rattle.psci_ffi.specs.Frames.{IsTakenIn};
ghost use Rattle.psci_ffi.specs.Shown.{IsAfter, IsSameRefused, answered, called_in, depth_of};
ghost use Rattle.psci_ffi.specs.Shown.{depths_of, is_down, is_suspend, regs_given, start_called};
ghost use Rattle.psci_ffi.specs.Shown.{stop_read, stop_sent, told_in, with_asked};

use crate::answer::{Answer, nothing_asked, refused, write_answer};
use crate::codes::{NO_CAUSE, NO_FIRMWARE, cause_of};
use crate::place::Place;
use psci_abi::words::{CPU_SUSPEND_32, CPU_SUSPEND_64, SYSTEM_SUSPEND_32, SYSTEM_SUSPEND_64};
use psci_board::Core;
use psci_fw::{Regs, Start};
use psci_messages::{Kind, Message, Part};
use std::mem::size_of;

/// Stands for the calls of this file, so that the firmware's code is compiled in place in them.
struct CoreCall;

/// A secure monitor call of a core with these registers, in the words that the place was opened
/// with: those of the board, or those of a machine. Beside the answer it is told which of the
/// machine's states, or which reset of the vendor, the caller asked for.
#[unsafe(no_mangle)]
pub extern "C" fn psci_smc(
    place: &mut Place,
    core: u16,
    x0: u64,
    x1: u64,
    x2: u64,
    x3: u64,
    answer: &mut Answer,
)
    ensures answer { let regs = regs_given x0 x1 x2 x3 in
        answer.new ≡ with_asked (told_in place.old.slot.kept regs)
        (answered place.old.slot.kept core (Some (called_in place.old.slot.kept regs))) }
    ensures after { let call = called_in place.old.slot.kept (regs_given x0 x1 x2 x3) in
        IsAfter place.old.slot.kept core (Some call) place.new.slot.kept }
    ensures refused { let call = called_in place.old.slot.kept (regs_given x0 x1 x2 x3) in
        IsSameRefused place.old.slot.kept core (Some call) place.new.slot.kept }
{
    let held = lent!(place.held else *answer = refused(NO_FIRMWARE));
    let regs = held.called(Regs { x0, x1, x2, x3 }, &mut answer.asked);
    let made = held.smc::<CoreCall>(Core { number: core }, regs);
    write_answer(answer, held, made);
}

/// A core enters by the start of this number in this life, whose cause is 0 a boot, 1 CPU_ON, 2 a
/// wake-up, or 3 a reset of the core.
#[unsafe(no_mangle)]
pub extern "C" fn psci_enter(
    place: &mut Place,
    core: u16,
    life: u32,
    number: u32,
    cause: u32,
    answer: &mut Answer,
)
    ensures answer { answer.new
        ≡ answered place.old.slot.kept core (start_called life number cause) }
    ensures after { IsAfter place.old.slot.kept core (start_called life number cause)
        place.new.slot.kept }
    ensures refused { IsSameRefused place.old.slot.kept core (start_called life number cause)
        place.new.slot.kept }
{
    let Some(cause) = cause_of(cause) else {
        *answer = refused(NO_CAUSE);
        return;
    };
    let held = lent!(place.held else *answer = refused(NO_FIRMWARE));
    let start = Start {
        life,
        number,
        cause,
    };
    let made = held.enter::<CoreCall>(Core { number: core }, start);
    answer.asked = nothing_asked();
    write_answer(answer, held, made);
}

/// Takes the acknowledgement whose frame these bytes are: 0 where it was used, 1 where it was old.
/// From 16 on nothing changed: 33 to 40 are the faults of frames, 41 says the frame of a message.
#[unsafe(no_mangle)]
pub extern "C" fn psci_take(place: &mut Place, frame: &[u8]) -> u32
    ensures { IsTakenIn place.old.slot.kept frame.now result place.new.slot.kept }
{
    let held = lent!(place.held else NO_FIRMWARE);
    held.take(frame)
}

/// A stop of a core.
#[repr(C)]
#[derive(Clone, Copy)]
pub struct Stopping {
    /// How deep the domain of each level on the core's path goes, as far as the core is concerned,
    /// from its own at level 0 up: 0 stays as it is, 1 standby, 2 retention, 3 power-down.
    pub depths: [u8; 4],
    /// Whether a wake-up event may end it: the core was suspended, and not taken off.
    pub wakes: bool,
}

// The size that psci.h gives it.
const _: () = prove!(size_of::<Stopping>() == 5);

/// What the stop is that a core was just answered, under the same lock: after a call with this x0,
/// or after an entry with 0. Zeros where nothing was sent, as where the system is to end, and where
/// there is no firmware.
#[unsafe(no_mangle)]
pub extern "C" fn psci_stop(place: &mut Place, core: u16, x0: u64, stop: &mut Stopping)
    ensures stop { stop.new ≡ stop_read place.old.slot.kept core x0 }
    ensures same { place.new.slot.kept ≡ place.old.slot.kept }
{
    let firmware = lent!(place.held else write_stop(stop, None, x0)).firmware();
    write_stop(stop, firmware.outstanding(core), x0);
}

/// Writes the stop by which this message was sent, if one was.
pub fn write_stop(stop: &mut Stopping, message: Option<&Message>, x0: u64)
    ensures { stop.new ≡ stop_sent (option_map (λ message. message.now) message.entry) x0 }
{
    match message {
        None => {
            stop.depths = [0; 4];
            stop.wakes = false;
        }
        Some(message) => {
            stop.depths = depths_of(message.parts.as_slice());
            stop.wakes = is_down(message.kind) && is_suspend(x0);
        }
    }
}

/// The depths that some parts ask, from level 0 up.
pub fn depths_of(parts: &[Part]) -> [u8; 4]
    ensures { result ≡ depths_of parts.now }
{
    [
        depth_at(parts, 0),
        depth_at(parts, 1),
        depth_at(parts, 2),
        depth_at(parts, 3),
    ]
}

/// The depth that the part of a level asks, 0 where there is none.
fn depth_at(parts: &[Part], level: usize) -> u8
    ensures { result ≡ depth_of (slice_get parts.now level) }
{
    match parts.get(level) {
        None => 0,
        Some(part) => part.depth,
    }
}

/// Whether a message takes domains down.
pub fn is_down(kind: Kind) -> bool
    ensures { result ≡ is_down kind }
{
    matches!(kind, Kind::Down)
}

/// Whether a call with this x0 suspends: CPU_SUSPEND and SYSTEM_SUSPEND do. The words are compared
/// here, and a call of `read` is left to `psci_smc` alone, where it takes no stack of its own.
fn is_suspend(x0: u64) -> bool
    ensures { result ≡ is_suspend x0 }
{
    let word = (x0 & 0xffff_ffff) as u32;
    word == CPU_SUSPEND_32
        || word == CPU_SUSPEND_64
        || word == SYSTEM_SUSPEND_32
        || word == SYSTEM_SUSPEND_64
}
