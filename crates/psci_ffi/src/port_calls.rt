//! What a core's monitor asks of the firmware, by its side of a port, and when a message is sent
//! once more.

ghost use Rattle.std.specs.Prelude.{◌≡◌, Some, option_map};
ghost use Rattle.psci_enter.specs.declared.post.Post.TheVariants as posts;
ghost use Rattle.psci_fw_spec.specs.declared.call.FwCall.TheVariants as calls;
ghost use Rattle.psci_ffi.specs.PortCalls.{again_left, again_said, again_shown, call_kept};
ghost use Rattle.psci_ffi.specs.PortCalls.{call_left, call_shown, core_in, entry_kept, entry_left};
ghost use Rattle.psci_ffi.specs.PortCalls.{entry_shown, is_running, is_sent, port_call};
ghost use Rattle.psci_ffi.specs.PortCalls.{port_called, port_entered, port_entry, reply_in};
ghost use Rattle.psci_ffi.specs.PortCalls.{sent_number, sent_shown, still_sent};
ghost use Rattle.psci_ffi.specs.PortShown.{Keeps, side_given};
ghost use Rattle.psci_ffi.specs.Shown.{IsAfter, IsNextIn, IsSameIf, IsSameRefused, called_in};
ghost use Rattle.psci_ffi.specs.Shown.{frame_shown, regs_given};

use crate::answer::{SomeFrame, no_frame, nothing_asked, write_frame};
use crate::codes::{NO_FIRMWARE, refusal};
use crate::fields::kind_code;
use crate::held::Held;
use crate::place::Place;
use crate::port_core::{
    NO_SIDE, OUT_OF_ORDER, PortCore, PortOrders, refuse_port, side_given, side_shown, start_kept,
    write_called, write_orders,
};
use psci_enter::{FirmwareSide, Next, Post};
use psci_fw::{FwFault, Regs, Start};
use psci_messages::Message;
use std::mem::size_of;

/// Stands for the calls of this file, so that the firmware's code is compiled in place in them.
struct PortCall;

/// A secure monitor call of a core with these registers, in the words that the place was opened
/// with, where the core runs. From 16 on it was refused, and nothing changed: 48 says that no call
/// wrote what the core's monitor keeps, 49 that the core does not run.
#[unsafe(no_mangle)]
pub extern "C" fn psci_port_call(
    place: &mut Place,
    core: &mut PortCore,
    x0: u64,
    x1: u64,
    x2: u64,
    x3: u64,
    orders: &mut PortOrders,
)
    ensures orders { orders.new
        ≡ port_called place.old.slot.kept (side_given core.old) (regs_given x0 x1 x2 x3) }
    ensures side { core.new ≡ call_left place.old.slot.kept core.old (side_given core.old)
        (regs_given x0 x1 x2 x3) }
    ensures after { IsAfter place.old.slot.kept (core_in (side_given core.old))
        (port_call place.old.slot.kept (side_given core.old) (regs_given x0 x1 x2 x3))
        place.new.slot.kept }
    ensures refused { IsSameRefused place.old.slot.kept (core_in (side_given core.old))
        (port_call place.old.slot.kept (side_given core.old) (regs_given x0 x1 x2 x3))
        place.new.slot.kept }
{
    let Some(side) = side_given(core) else {
        refuse_port(orders, NO_SIDE);
        return;
    };
    if !is_running(side.post) {
        refuse_port(orders, OUT_OF_ORDER);
        return;
    }
    let held = lent!(place.held else refuse_port(orders, NO_FIRMWARE));
    call(held, side, Regs { x0, x1, x2, x3 }, core, orders);
}

/// The core enters by the start that it took up. From 16 on it was refused, and nothing changed: 48
/// as of `psci_port_call`, and 49 says that the core took up none.
#[unsafe(no_mangle)]
pub extern "C" fn psci_port_enter(place: &mut Place, core: &mut PortCore, orders: &mut PortOrders)
    ensures orders { orders.new ≡ port_entered place.old.slot.kept (side_given core.old) }
    ensures side { core.new ≡ entry_left place.old.slot.kept core.old (side_given core.old) }
    ensures after { IsAfter place.old.slot.kept (core_in (side_given core.old))
        (port_entry (side_given core.old)) place.new.slot.kept }
    ensures refused { IsSameRefused place.old.slot.kept (core_in (side_given core.old))
        (port_entry (side_given core.old)) place.new.slot.kept }
{
    let Some(side) = side_given(core) else {
        refuse_port(orders, NO_SIDE);
        return;
    };
    let Some(start) = start_kept(side.post) else {
        refuse_port(orders, OUT_OF_ORDER);
        return;
    };
    let held = lent!(place.held else refuse_port(orders, NO_FIRMWARE));
    enter(held, side, start, core, orders);
}

/// The firmware is asked for a call of a core that runs, and what follows is ordered.
#[inline(always)]
fn call(
    held: &mut Held,
    mut side: FirmwareSide,
    regs: Regs,
    core: &mut PortCore,
    orders: &mut PortOrders,
)
    requires running { side.post ≡ posts.Running }
    requires held { Keeps core.old side }
    ensures orders { orders.new ≡ call_shown (Some held.old) side regs }
    ensures side { core.new ≡ call_kept (Some held.old) core.old side regs }
    ensures next { IsNextIn held.old side.core.number (called_in (Some held.old) regs) held.new }
    ensures refused { IsSameIf (reply_in held.old side (called_in (Some held.old) regs))
        (Some held.old) (Some held.new) }
{
    let asked = held.called(regs, &mut orders.asked);
    match held.smc::<PortCall>(side.core, asked) {
        Err(fault) => write_orders(orders, Next::Refused(fault), None),
        Ok(reaction) => {
            let message = held.sent(reaction.slot);
            let next = side.called(regs, reaction.act, message);
            write_orders(orders, next, message);
            write_called(core, side);
        }
    }
}

/// The same of an entry by a start.
#[inline(always)]
fn enter(
    held: &mut Held,
    mut side: FirmwareSide,
    start: Start,
    core: &mut PortCore,
    orders: &mut PortOrders,
)
    requires { side.post ≡ posts.Entering start }
    ensures orders { orders.new ≡ entry_shown (Some held.old) side (Some start) }
    ensures side { core.new ≡ entry_kept (Some held.old) core.old side (Some start) }
    ensures next { IsNextIn held.old side.core.number (calls.Enter start) held.new }
    ensures refused { IsSameIf (reply_in held.old side (calls.Enter start)) (Some held.old)
        (Some held.new) }
{
    orders.asked = nothing_asked();
    match held.enter::<PortCall>(side.core, start) {
        Err(fault) => write_orders(orders, Next::Refused(fault), None),
        Ok(reaction) => {
            let message = held.sent(reaction.slot);
            let next = side.entered(reaction.act, message);
            write_orders(orders, next, message);
            *core = side_shown(side);
        }
    }
}

/// Whether a core is in the normal world, or in the monitor by a call of it.
fn is_running(post: Post) -> bool
    ensures { result ≡ is_running post }
{
    matches!(post, Post::Running)
}

/// Which message of a core, or of the system, was outstanding at the last look. All zero is none.
#[repr(C)]
#[derive(Clone, Copy)]
pub struct PortSent {
    /// 1 Down, 2 Start, 3 Off, 4 Reset; 0 none was.
    pub kind: u8,
    /// Its life.
    pub life: u32,
    /// Its number.
    pub number: u32,
}

// The size that psci_port.h gives it.
const _: () = prove!(size_of::<PortSent>() == 12);

/// Nothing is outstanding.
pub const NONE: u32 = 0;

/// A message is that was not at the last look.
pub const SENT: u32 = 1;

/// A message is that was at the last look, too.
pub const AGAIN: u32 = 2;

/// What C holds where nothing was outstanding.
const NO_MESSAGE: PortSent = PortSent {
    kind: 0,
    life: 0,
    number: 0,
};

/// A look at what is outstanding of a core, or of the system at the number of cores, with the lock
/// in hand: 0 nothing is, 1 a message is that was not at the last look, 2 one is that was, and its
/// frame goes into the mailbox once more. From 16 on nothing changed: 16 where there is no
/// firmware, 17 above the number of cores.
#[unsafe(no_mangle)]
pub extern "C" fn psci_port_again(
    place: &mut Place,
    number: u16,
    last: &mut PortSent,
    message: &mut SomeFrame,
) -> u32
    ensures said { result ≡ again_said place.old.slot.kept number last.old }
    ensures message { message.new ≡ again_shown place.old.slot.kept number last.old }
    ensures last { last.new ≡ again_left place.old.slot.kept number last.old }
    ensures same { place.new.slot.kept ≡ place.old.slot.kept }
{
    if !place.full {
        *message = no_frame();
        return NO_FIRMWARE;
    }
    let held = place.slot.held();
    again(held, number, last, message)
}

/// The same of a firmware.
fn again(held: &Held, number: u16, last: &mut PortSent, message: &mut SomeFrame) -> u32
    ensures said { result ≡ again_said (Some held.now) number last.old }
    ensures message { message.new ≡ again_shown (Some held.now) number last.old }
    ensures last { last.new ≡ again_left (Some held.now) number last.old }
{
    if number > held.board().cores() {
        *message = no_frame();
        return refusal(FwFault::NoCore);
    }
    look(held.firmware().outstanding(number), last, message)
}

/// A look where this is outstanding.
fn look(now: Option<&Message>, last: &mut PortSent, message: &mut SomeFrame) -> u32
    ensures said { result
        ≡ sent_number last.old (option_map (λ message. message.now) now.entry) }
    ensures message { message.new
        ≡ frame_shown (still_sent last.old (option_map (λ message. message.now) now.entry)) }
    ensures last { last.new ≡ sent_shown (option_map (λ message. message.now) now.entry) }
{
    let before = *last;
    *message = no_frame();
    let Some(outstanding) = now else {
        *last = NO_MESSAGE;
        return NONE;
    };
    *last = sent_of(outstanding);
    if !is_sent(before, outstanding) {
        return SENT;
    }
    write_frame(message, now);
    AGAIN
}

/// What C holds of a message.
fn sent_of(message: &Message) -> PortSent
    ensures { result ≡ sent_shown (Some message.now) }
{
    PortSent {
        kind: kind_code(message.kind),
        life: message.life,
        number: message.number,
    }
}

/// Whether what C holds is of this message.
fn is_sent(last: PortSent, message: &Message) -> bool
    ensures { result ≡ is_sent last message.now }
{
    last.kind == kind_code(message.kind)
        && last.life == message.life
        && last.number == message.number
}
