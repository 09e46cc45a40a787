//! The turns of a guest, in which a core calls, has a wake-up event or is reset, and what C is told
//! of them.

ghost use Rattle.std.specs.Prelude.{◌<◌, ◌≡◌};
ghost use Rattle.psci_board.specs.Board.{cores};
ghost use Rattle.psci_guest.specs.Pair.{board_of};
ghost use Rattle.psci_ffi.specs.Guests.{IsCallTold, IsMade, IsResetTold, IsWakeTold};
ghost use Rattle.psci_ffi.specs.Guests.{answer_arrived, arrival_shown, called_shown, start_arrived};
ghost use Rattle.psci_ffi.specs.Guests.{turn_refused};
ghost use Rattle.psci_ffi.specs.Shown.{regs_given};

use crate::answer::{Answer, GivenAsked, nothing_asked, refused, write_outcome};
use crate::calls::{Stopping, write_stop};
use crate::codes::{NO_FIRMWARE, refusal};
use crate::controller_calls::{ControllerStart, NO_START, start_of};
use crate::guest::{Guest, GuestPlace};
use psci_board::Core;
use psci_fw::{FwFault, Regs};
use psci_guest::{Arrival, Turned};
use std::mem::size_of;

/// What came of a turn.
#[repr(C)]
#[derive(Clone, Copy)]
pub struct GuestTurn {
    /// 0 where it was made; from 16 on it was refused, nothing changed, and all else is 0.
    pub what: u32,
    /// The life after it, counted from 1; 0 once the system is off.
    pub life: u32,
    /// What a caller does next, and the message that was delivered; else zeros.
    pub caller: Answer,
    /// The start by which a core entered; zeros where none did.
    pub start: ControllerStart,
    /// What this core does next.
    pub entry: Answer,
    /// The stop of a caller that stops; else zeros.
    pub stop: Stopping,
}

// The size that psci_guest.h gives it.
const _: () = prove!(size_of::<GuestTurn>() == 224);

/// Writes a refusal.
pub fn refuse_turn(turn: &mut GuestTurn, what: u32)
    ensures { turn.new ≡ turn_refused what }
{
    write_arrival(turn, None, None);
    turn.what = what;
}

/// Writes what comes of a wake-up event, of a reset, or of an opening.
pub fn write_arrival(turn: &mut GuestTurn, life: Option<u32>, arrival: Option<Arrival>)
    ensures { turn.new ≡ arrival_shown life arrival }
{
    turn.what = 0;
    turn.life = life.unwrap_or(0);
    turn.caller = refused(0);
    write_stop(&mut turn.stop, None, 0);
    turn.start = start_arrived(&arrival);
    write_entry(&mut turn.entry, &arrival);
}

/// Writes what comes of a call with this x0, beside which this is asked.
pub fn write_called(turn: &mut GuestTurn, called: Option<Turned>, x0: u64, asked: GivenAsked)
    ensures { turn.new ≡ called_shown called x0 asked }
{
    let Some(told) = called else {
        refuse_turn(turn, refusal(FwFault::NotRunning));
        return;
    };
    write_arrival(turn, told.life, told.arrival);
    turn.caller.asked = asked;
    write_outcome(&mut turn.caller, &told.outcome);
    write_stop(&mut turn.stop, told.outcome.message.as_ref(), x0);
}

/// The start by which a core entered, if one did.
fn start_arrived(arrival: &Option<Arrival>) -> ControllerStart
    ensures { result ≡ start_arrived arrival.now }
{
    match arrival {
        None => NO_START,
        Some(arrival) => start_of(arrival.core, Some(arrival.start)),
    }
}

/// Writes what it does next.
fn write_entry(entry: &mut Answer, arrival: &Option<Arrival>)
    ensures { entry.new ≡ answer_arrived arrival.now }
{
    match arrival {
        None => *entry = refused(0),
        Some(arrival) => {
            entry.asked = nothing_asked();
            write_outcome(entry, &arrival.outcome);
        }
    }
}

/// A core that runs in this life calls with these registers, in the words that the place was opened
/// with. What it sends is delivered, the acknowledgement taken, and a core that this starts enters.
/// 19 refuses a call behind the end of its life, and of a core that stands.
#[unsafe(no_mangle)]
pub extern "C" fn psci_guest_call(
    place: &mut GuestPlace,
    core: u16,
    life: u32,
    x0: u64,
    x1: u64,
    x2: u64,
    x3: u64,
    turn: &mut GuestTurn,
)
    ensures { IsMade place.old.slot.kept core
        (IsCallTold core life (regs_given x0 x1 x2 x3) turn.new) turn.new place.new.slot.kept }
{
    let guest = lent!(place.guest else refuse_turn(turn, NO_FIRMWARE));
    match guest.core(core) {
        Some(core) => call(guest, core, life, Regs { x0, x1, x2, x3 }, turn),
        None => refuse_turn(turn, refusal(FwFault::NoCore)),
    }
}

/// A core that stands has a wake-up event: it is started, if it can be, and enters. Nothing comes
/// of one of a core that runs.
#[unsafe(no_mangle)]
pub extern "C" fn psci_guest_wake(place: &mut GuestPlace, core: u16, turn: &mut GuestTurn)
    ensures { IsMade place.old.slot.kept core (IsWakeTold core turn.new) turn.new
        place.new.slot.kept }
{
    let guest = lent!(place.guest else refuse_turn(turn, NO_FIRMWARE));
    match guest.core(core) {
        Some(core) => wake(guest, core, turn),
        None => refuse_turn(turn, refusal(FwFault::NoCore)),
    }
}

/// A core is reset by itself: it is started, if it can be, and enters.
#[unsafe(no_mangle)]
pub extern "C" fn psci_guest_reset(place: &mut GuestPlace, core: u16, turn: &mut GuestTurn)
    ensures { IsMade place.old.slot.kept core (IsResetTold core turn.new) turn.new
        place.new.slot.kept }
{
    let guest = lent!(place.guest else refuse_turn(turn, NO_FIRMWARE));
    match guest.core(core) {
        Some(core) => reset(guest, core, turn),
        None => refuse_turn(turn, refusal(FwFault::NoCore)),
    }
}

/// `Guest::call`.
fn call(guest: &mut Guest, core: Core, life: u32, regs: Regs, turn: &mut GuestTurn)
    requires { core.number < cores (board_of guest.old.power) }
    ensures { IsCallTold core.number life regs turn.new guest.old guest.new }
{
    let x0 = regs.x0;
    let mut asked = nothing_asked();
    let called = guest.call(core, life, regs, &mut asked);
    write_called(turn, called, x0, asked);
}

/// `Guest::wake`.
fn wake(guest: &mut Guest, core: Core, turn: &mut GuestTurn)
    requires { core.number < cores (board_of guest.old.power) }
    ensures { IsWakeTold core.number turn.new guest.old guest.new }
{
    let arrival = guest.wake(core);
    write_arrival(turn, guest.life(), arrival);
}

/// `Guest::reset`.
fn reset(guest: &mut Guest, core: Core, turn: &mut GuestTurn)
    requires { core.number < cores (board_of guest.old.power) }
    ensures { IsResetTold core.number turn.new guest.old guest.new }
{
    let arrival = guest.reset(core);
    write_arrival(turn, guest.life(), arrival);
}
