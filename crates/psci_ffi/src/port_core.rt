//! What a core's monitor keeps, and what a call of a core orders, as C sees it.

ghost use Rattle.std.specs.Prelude.{◌≡◌, Some, option_map};
ghost use Rattle.psci_ffi.specs.PortShown.{Keeps, door_given, next_shown, orders_refused};
ghost use Rattle.psci_ffi.specs.PortShown.{post_given, post_number, sent_depths, side_given};
ghost use Rattle.psci_ffi.specs.PortShown.{side_shown, start_given, start_kept, stop_given};
ghost use Rattle.psci_ffi.specs.PortShown.{stop_number, with_asked, with_sent};

use crate::answer::{GivenAsked, SomeFrame, no_frame, nothing_asked, write_frame};
use crate::calls::{depths_of, is_down};
use crate::codes::{cause_of, refusal};
use crate::controller_calls::{ControllerStart, cause_number, start_of};
use psci_board::Core;
use psci_enter::{Door, FirmwareSide, Next, Post, Stop};
use psci_fw::Start;
use psci_messages::Message;
use std::mem::size_of;

/// No call wrote what a core's monitor is said to keep.
pub const NO_SIDE: u32 = 48;

/// The core's monitor is elsewhere.
pub const OUT_OF_ORDER: u32 = 49;

/// What a core's monitor keeps. All zero is core 0 in a new life.
#[repr(C)]
#[derive(Clone, Copy)]
pub struct PortCore {
    /// The core.
    pub core: u16,
    /// Where its monitor is: 0 it looks at its door, 1 it enters, 2 it runs, 3 it is on its way to
    /// its stop, 4 it is armed, 5 it woke itself.
    pub post: u32,
    /// The number of the start that it took up last, 0 in a new life.
    pub used: u32,
    /// The start in whose stop it told of a wake-up.
    pub told: u32,
    /// Why it was started last: 0 a boot, 1 CPU_ON, 2 a wake-up, 3 a reset of the core.
    pub cause: u32,
    /// How it stands: 0 off, 1 suspended, 2 as the life ends.
    pub stop: u32,
    /// The start by which it enters, where it does.
    pub start: ControllerStart,
}

/// What stands at the door of a core.
#[repr(C)]
#[derive(Clone, Copy)]
pub struct PortDoor {
    /// The start that is written there; number 0 is none.
    pub start: ControllerStart,
    /// The number of the start for which it was opened last, 0 in a new life.
    pub opened: u32,
}

// The sizes that psci_port.h gives these.
const _: () = prove!(size_of::<PortCore>() == 40);

const _: () = prove!(size_of::<PortDoor>() == 20);

/// What a core's monitor keeps that C holds, if a call wrote it.
#[inline(always)]
pub fn side_given(core: &PortCore) -> Option<FirmwareSide>
    ensures { result ≡ side_given core.now }
{
    let start = start_given(&core.start)?;
    Some(FirmwareSide {
        core: Core { number: core.core },
        post: post_given(core.post, start)?,
        used: core.used,
        told: core.told,
        cause: cause_of(core.cause)?,
        stop: stop_given(core.stop)?,
    })
}

/// What C holds of it.
#[inline(always)]
pub fn side_shown(side: FirmwareSide) -> PortCore
    ensures { result ≡ side_shown side }
{
    PortCore {
        core: side.core.number,
        post: post_number(side.post),
        used: side.used,
        told: side.told,
        cause: cause_number(side.cause),
        stop: stop_number(side.stop),
        start: start_of(side.core, start_kept(side.post)),
    }
}

/// Writes what a call left of a monitor that C held: its post, how it stands, and no start.
#[inline(always)]
pub fn write_called(core: &mut PortCore, side: FirmwareSide)
    requires held { Keeps core.old side }
    ensures { core.new ≡ side_shown side }
{
    core.post = post_number(side.post);
    core.stop = stop_number(side.stop);
    core.start = start_of(side.core, start_kept(side.post));
}

/// A start that C gives, if there is such a cause.
fn start_given(start: &ControllerStart) -> Option<Start>
    ensures { result ≡ start_given start.now }
{
    Some(Start {
        life: start.life,
        number: start.number,
        cause: cause_of(start.cause)?,
    })
}

/// What C says that a core reads at its door, if there is such a cause.
#[inline(always)]
pub fn door_given(door: &PortDoor) -> Option<Door>
    ensures { result ≡ door_given door.now }
{
    let start = start_given(&door.start)?;
    let opened = door.opened;
    if start.number == 0 {
        return Some(Door {
            opened,
            start: None,
        });
    }
    Some(Door {
        opened,
        start: Some(start),
    })
}

/// The post of this number, of a core that enters by this start if it does.
fn post_given(number: u32, start: Start) -> Option<Post>
    ensures { result ≡ post_given number start }
{
    match number {
        0 => Some(Post::Waiting),
        1 => Some(Post::Entering(start)),
        2 => Some(Post::Running),
        3 => Some(Post::Leaving),
        4 => Some(Post::Armed),
        5 => Some(Post::Woken),
        _ => None,
    }
}

/// The number of a post.
fn post_number(post: Post) -> u32
    ensures { result ≡ post_number post }
{
    match post {
        Post::Waiting => 0,
        Post::Entering(_) => 1,
        Post::Running => 2,
        Post::Leaving => 3,
        Post::Armed => 4,
        Post::Woken => 5,
    }
}

/// The start that a core enters by.
pub fn start_kept(post: Post) -> Option<Start>
    ensures { result ≡ start_kept post }
{
    match post {
        Post::Entering(start) => Some(start),
        _ => None,
    }
}

/// How a core stands, by its number.
fn stop_given(number: u32) -> Option<Stop>
    ensures { result ≡ stop_given number }
{
    match number {
        0 => Some(Stop::Off),
        1 => Some(Stop::Suspended),
        2 => Some(Stop::Ending),
        _ => None,
    }
}

/// The number of it.
pub fn stop_number(stop: Stop) -> u32
    ensures { result ≡ stop_number stop }
{
    match stop {
        Stop::Off => 0,
        Stop::Suspended => 1,
        Stop::Ending => 2,
    }
}

/// What a call or an entry orders.
#[repr(C)]
#[derive(Clone, Copy)]
pub struct PortOrders {
    /// 0 the core goes back to its caller, 1 it enters the normal world, 2 it resumes, 3 it stands;
    /// from 16 on the call was refused, and nothing changed.
    pub next: u32,
    /// Why a core was started that enters.
    pub cause: u32,
    /// The register x0 that the core leaves with.
    pub x0: u64,
    /// Where it enters.
    pub address: u64,
    /// The message that is sent to the power controller.
    pub message: SomeFrame,
    /// How deep that takes the domains of the core's path, from level 0 up.
    pub depths: [u8; 4],
    /// How a core stands that does: 0 off, 1 suspended, 2 as the life ends.
    pub stop: u32,
    /// Which of a machine's states or resets the call names.
    pub asked: GivenAsked,
}

// The size that psci_port.h gives it.
const _: () = prove!(size_of::<PortOrders>() == 104);

/// Writes a refusal.
pub fn refuse_port(orders: &mut PortOrders, what: u32)
    ensures { orders.new ≡ orders_refused what }
{
    orders.message = no_frame();
    orders.depths = [0; 4];
    orders.asked = nothing_asked();
    write_next(orders, what, 0, 0, 0, 0);
}

/// Writes what an outcome orders, beside what the call asks. The message is read where it stands.
#[inline(always)]
pub fn write_orders(orders: &mut PortOrders, next: Next, message: Option<&Message>)
    ensures { orders.new ≡ with_asked orders.old.asked
        (with_sent (option_map (λ message. message.now) message.entry) (next_shown next)) }
{
    match next {
        Next::Leave(x0) => write_next(orders, 0, 0, x0, 0, 0),
        Next::Enter(entry) => {
            let cause = cause_number(entry.cause);
            write_next(orders, 1, cause, entry.context, entry.address, 0);
        }
        Next::Resume => write_next(orders, 2, 0, 0, 0, 0),
        Next::Stand(stop) => write_next(orders, 3, 0, 0, 0, stop_number(stop)),
        Next::Refused(fault) => write_next(orders, refusal(fault), 0, 0, 0, 0),
    }
    write_sent(orders, message);
}

/// Writes what is sent.
#[inline(always)]
fn write_sent(orders: &mut PortOrders, message: Option<&Message>)
    ensures { orders.new
        ≡ with_sent (option_map (λ message. message.now) message.entry) orders.old }
{
    match message {
        None => {
            orders.depths = [0; 4];
            orders.message = no_frame();
        }
        Some(message) => {
            orders.depths = sent_depths(message);
            write_frame(&mut orders.message, Some(message));
        }
    }
}

/// Writes all but what is sent and asked.
fn write_next(orders: &mut PortOrders, next: u32, cause: u32, x0: u64, address: u64, stop: u32)
    ensures { orders.new ≡ record orders.old {
      next = next;
      cause = cause;
      x0 = x0;
      address = address;
      stop = stop;
    } }
{
    orders.next = next;
    orders.cause = cause;
    orders.x0 = x0;
    orders.address = address;
    orders.stop = stop;
}

/// How deep a message takes the domains of its core's path.
fn sent_depths(message: &Message) -> [u8; 4]
    ensures { result ≡ sent_depths (Some message.now) }
{
    if !is_down(message.kind) {
        return [0; 4];
    }
    depths_of(message.parts.as_slice())
}
