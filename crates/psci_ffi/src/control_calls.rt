//! What comes to the power controller's side of a port, and what it orders, as C sees it.

ghost use Rattle.std.specs.Prelude.{◌<◌, ◌≡◌};
ghost use Rattle.psci_board.specs.Board.{cores};
ghost use Rattle.psci_control.specs.ControlSide.{board_of, values_of, waits_in};
ghost use Rattle.psci_ctl_spec.specs.declared.call.CtlCall.TheVariants.{Deliver};
ghost use Rattle.psci_link.specs.Frame.{IsOf};
ghost use Rattle.psci_link.specs.declared.encoding.Frame.TheVariants as frames;
ghost use Rattle.psci_messages.specs.Message.{AckValue, MessageValue};
ghost use Rattle.psci_ffi.specs.Controls.{IsDelivered, IsFaulty, IsGivenIf, IsGivenTo, IsMade};
ghost use Rattle.psci_ffi.specs.Controls.{IsMisplaced, IsReset, IsServed, IsWoken, domain_at};
ghost use Rattle.psci_ffi.specs.Controls.{due_orders, end_number, none_ordered, orders_shown};
ghost use Rattle.psci_ffi.specs.Controls.{with_domain, with_order};

use crate::answer::{SomeFrame, no_frame};
use crate::codes::{NO_FIRMWARE, NOT_A_MESSAGE, frame_code, refusal};
use crate::control_place::ControlPlace;
use crate::controller_calls::{
    ControllerStart, DomainDepth, NO_DOMAIN, NO_START, start_of, write_ack,
};
use psci_board::{Board, Core};
use psci_control::{ControlSide, Ending, Order, Orders};
use psci_fw::FwFault;
use psci_link::{Heading, heading_on, message_in};
use psci_messages::Message;
use std::mem::size_of;

/// What a call orders, to be done in the order of its fields.
#[repr(C)]
#[derive(Clone, Copy)]
pub struct ControlOrders {
    /// 0 the rest is to be carried out, 1 nothing is to be done; from 16 on the call was refused,
    /// and nothing changed.
    pub what: u32,
    /// How many domains go to their depths.
    pub many: u32,
    /// These domains, the lowest level first; zeros after them.
    pub domains: [DomainDepth; 4],
    /// The start of a core, each domain on whose path has its power; else zeros.
    pub start: ControllerStart,
    /// The acknowledgement, which goes back to the firmware.
    pub ack: SomeFrame,
    /// How the life ends: 0 it goes on, 1 the system goes off, 2 the next life begins.
    pub ends: u32,
}

// The size that psci_port.h gives it.
const _: () = prove!(size_of::<ControlOrders>() == 116);

/// Nothing is to be done.
const WAITS: u32 = 1;

/// Writes this number, and no order.
pub fn write_none(orders: &mut ControlOrders, what: u32)
    ensures { orders.new ≡ none_ordered what }
{
    orders.what = what;
    orders.many = 0;
    orders.domains = [NO_DOMAIN; 4];
    orders.start = NO_START;
    orders.ack = no_frame();
    orders.ends = 0;
}

/// Writes what is ordered, if anything is to be done.
pub fn write_ordered(orders: &mut ControlOrders, side: &ControlSide, due: Option<Orders>)
    ensures { orders.new ≡ due_orders (board_of side.now) (values_of side.now) due }
{
    match due {
        None => write_none(orders, WAITS),
        Some(due) => write_orders(orders, side, due),
    }
}

/// Writes one order after the other.
#[inline(never)]
pub fn write_orders(orders: &mut ControlOrders, side: &ControlSide, mut due: Orders)
    ensures { orders.new ≡ orders_shown (board_of side.now) (values_of side.now) due }
{
    write_none(orders, 0);
    while let Some(order) = due.next() {
        write_order(orders, side, &order);
    }
}

/// Writes one order.
fn write_order(orders: &mut ControlOrders, side: &ControlSide, order: &Order)
    ensures { orders.new
        ≡ with_order (board_of side.now) (values_of side.now) order.now orders.old }
{
    let controller = side.controller();
    match order {
        Order::Switch(core, level, depth) => {
            if let Some(core) = controller.board().core(core.number) {
                write_domain(orders, domain_at(controller.board(), core, *level, *depth));
            }
        }
        Order::Raise(core) => {
            if let Some(core) = controller.board().core(core.number) {
                orders.start = start_of(core, controller.started(core));
            }
        }
        Order::Acknowledge(ack) => write_ack(&mut orders.ack, ack),
        Order::End(ending) => orders.ends = end_number(*ending),
    }
}

/// The domain of this level on the path of a core, with its depth.
fn domain_at(board: &Board, core: Core, level: u32, depth: u8) -> DomainDepth
    requires { core.number < cores board.now }
    ensures { result ≡ domain_at board.now core level depth }
{
    let path = board.path(core);
    let index = match path.as_slice().get(level as usize) {
        Some(node) => node.place,
        None => 0,
    };
    DomainDepth {
        level,
        index,
        depth,
    }
}

/// Writes one more domain, if there is room.
fn write_domain(orders: &mut ControlOrders, domain: DomainDepth)
    ensures { orders.new ≡ with_domain domain orders.old }
{
    if orders.many < 4 {
        orders.domains[orders.many as usize] = domain;
        orders.many += 1;
    }
}

/// The number of how a life ends.
fn end_number(ending: Ending) -> u32
    ensures { result ≡ end_number ending }
{
    match ending {
        Ending::Off => 1,
        Ending::Restart => 2,
    }
}

/// A message comes, whose frame these bytes are: what is to be done, or nothing where it waits
/// until its core stands. From 16 on it was refused, and nothing changed: 33 to 40 are the faults
/// of frames, 42 says the frame of an acknowledgement.
#[unsafe(no_mangle)]
pub extern "C" fn psci_control_message(
    place: &mut ControlPlace,
    frame: &[u8],
    orders: &mut ControlOrders,
)
    ensures { IsGivenTo place.old.slot.kept frame.now orders.new place.new.slot.kept }
{
    let side = lent!(place.side else write_none(orders, NO_FIRMWARE));
    give(side, frame, orders);
}

/// The message that waits for a core, if it no longer has to: what is to be done.
#[unsafe(no_mangle)]
pub extern "C" fn psci_control_waited(
    place: &mut ControlPlace,
    core: u16,
    orders: &mut ControlOrders,
)
    ensures { IsMade IsServed place.old.slot.kept core orders.new place.new.slot.kept }
{
    let side = lent!(place.side else write_none(orders, NO_FIRMWARE));
    match side.controller().board().core(core) {
        Some(core) => serve(side, core, orders),
        None => write_none(orders, refusal(FwFault::NoCore)),
    }
}

/// A core has a wake-up: what is to be done, or nothing where the core does not stand.
#[unsafe(no_mangle)]
pub extern "C" fn psci_control_wake(place: &mut ControlPlace, core: u16, orders: &mut ControlOrders)
    ensures { IsMade IsWoken place.old.slot.kept core orders.new place.new.slot.kept }
{
    let side = lent!(place.side else write_none(orders, NO_FIRMWARE));
    match side.controller().board().core(core) {
        Some(core) => wake(side, core, orders),
        None => write_none(orders, refusal(FwFault::NoCore)),
    }
}

/// A core is reset by itself: what is to be done.
#[unsafe(no_mangle)]
pub extern "C" fn psci_control_reset(
    place: &mut ControlPlace,
    core: u16,
    orders: &mut ControlOrders,
)
    ensures { IsMade IsReset place.old.slot.kept core orders.new place.new.slot.kept }
{
    let side = lent!(place.side else write_none(orders, NO_FIRMWARE));
    match side.controller().board().core(core) {
        Some(core) => reset(side, core, orders),
        None => write_none(orders, refusal(FwFault::NoCore)),
    }
}

/// A frame comes.
fn give(side: &mut ControlSide, bytes: &[u8], orders: &mut ControlOrders)
    ensures fault { IsFaulty side.old bytes.now orders.new side.new }
    ensures ack { (a : AckValue) → IsMisplaced a side.old bytes.now orders.new side.new }
    ensures message { (m : MessageValue) → IsDelivered m side.old bytes.now orders.new side.new }
{
    match heading_on(bytes, side.controller().board()) {
        Err(fault) => write_none(orders, frame_code(fault)),
        Ok(Heading::Ack(..)) => write_none(orders, NOT_A_MESSAGE),
        Ok(Heading::Message(kind)) => {
            let message = message_in(kind, bytes);
            deliver(side, &message, orders);
        }
    }
}

/// `ControlSide::message`. It has a frame of its own, so that none is held while a frame is read.
#[inline(never)]
#[tactic(auto, using(crate::proofs::Making::of_board))]
fn deliver(side: &mut ControlSide, message: &Message, orders: &mut ControlOrders)
    requires { IsOf (board_of side.old) (frames.Message message.now) }
    ensures { IsGivenIf (waits_in side.old (Deliver message.now)) side.old message.now orders.new
        side.new }
{
    prove!(message.core.number < 256);
    let due = side.message(message);
    write_ordered(orders, side, due);
}

/// `ControlSide::waited`.
fn serve(side: &mut ControlSide, core: Core, orders: &mut ControlOrders)
    requires { core.number < cores (board_of side.old) }
    ensures { IsServed side.old core orders.new side.new }
{
    let due = side.waited(core);
    write_ordered(orders, side, due);
}

/// `ControlSide::wake`.
fn wake(side: &mut ControlSide, core: Core, orders: &mut ControlOrders)
    requires { core.number < cores (board_of side.old) }
    ensures { IsWoken side.old core orders.new side.new }
{
    let due = side.wake(core);
    write_ordered(orders, side, due);
}

/// `ControlSide::reset`.
fn reset(side: &mut ControlSide, core: Core, orders: &mut ControlOrders)
    requires { core.number < cores (board_of side.old) }
    ensures { IsReset side.old core orders.new side.new }
{
    let due = side.reset(core);
    write_orders(orders, side, due);
}
