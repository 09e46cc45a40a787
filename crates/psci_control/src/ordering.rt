//! What a reply of the power controller orders.

ghost use Rattle.std.specs.Prelude.{◌≡◌, ℕ};
ghost use Rattle.psci_board.specs.Board.{BoardValue};
ghost use Rattle.psci_control.specs.Orders.{orders_of, ending_of};
ghost use Rattle.psci_ctl_spec.specs.Replies.{effect_of, message_effect};
ghost use Rattle.psci_ctl_spec.specs.declared.call.CtlCall.TheVariants as calls;
ghost use Rattle.psci_ctl_spec.specs.declared.delivery.Delivery.TheVariants as deliveries;
ghost use Rattle.psci_ctl_spec.specs.declared.reply.CtlReply.TheVariants as replies;

use crate::order::{Ending, Orders};
use psci_board::{Board, Core};
use psci_ctl::{Ack, Delivery, Kick, Kind, Message, Parts};

/// How a life ends by the delivery of a message, if it does.
#[tactic(auto, unfolding(psci_ctl_spec::specs::Replies::effect_of))]
pub fn ending_by(board: &Board, message: &Message, delivery: &Delivery) -> Option<Ending>
    ensures { result ≡ ending_of (effect_of board.now (calls.Deliver message.now)
        (replies.Delivery delivery.now)) }
{
    match delivery {
        Delivery::Ignored => None,
        Delivery::Applied(ack) => ending_applied(board, message, ack),
    }
}

/// The same of a message that was carried out as this says.
fn ending_applied(board: &Board, message: &Message, ack: &Ack) -> Option<Ending>
    ensures { result ≡ ending_of
        (message_effect board.now message.now ack.now message.now.kind) }
{
    match message.kind {
        Kind::Down => None,
        Kind::Start if ack.applied == 0 => None,
        Kind::Start => None,
        Kind::Off => Some(Ending::Off),
        Kind::Reset if message.life < board.life_limit() => Some(Ending::Restart),
        Kind::Reset => Some(Ending::Off),
    }
}

/// What the delivery of a message orders.
#[tactic(auto, unfolding(psci_ctl_spec::specs::Replies::effect_of))]
pub fn delivery_orders(board: &Board, message: &Message, delivery: Delivery) -> Orders
    ensures { result ≡ orders_of (effect_of board.now (calls.Deliver message.now)
        (replies.Delivery delivery)) (replies.Delivery delivery) }
{
    match delivery {
        Delivery::Ignored => Orders::none(message.core),
        Delivery::Applied(ack) => applied_orders(board, message, ack),
    }
}

/// What a message orders that was carried out as this says.
fn applied_orders(board: &Board, message: &Message, ack: Ack) -> Orders
    ensures { result ≡ orders_of
        (message_effect board.now message.now ack message.now.kind)
        (replies.Delivery (deliveries.Applied ack)) }
{
    let ending = ending_applied(board, message, &ack);
    let (parts, raises) = match message.kind {
        Kind::Down => (message.parts.first(ack.applied as usize), false),
        Kind::Start => (Parts::new(), ack.applied != 0),
        Kind::Off => (Parts::new(), false),
        Kind::Reset => (Parts::new(), false),
    };
    Orders::of(message.core, parts, raises, Some(ack), ending)
}

/// What a wake-up or a reset of a core orders.
#[tactic(auto, unfolding(psci_ctl_spec::specs::Replies::effect_of))]
pub fn kick_orders(core: Core, kick: Kick) -> Orders
    ensures wake { (b : BoardValue) (halted : ℕ) → result
        ≡ orders_of (effect_of b (calls.Wake core halted) (replies.Kick kick)) (replies.Kick kick) }
    ensures reset { (b : BoardValue) → result
        ≡ orders_of (effect_of b (calls.Reset core) (replies.Kick kick)) (replies.Kick kick) }
{
    match kick {
        Kick::Started(_) => Orders::of(core, Parts::new(), true, None, None),
        Kick::Ignored => Orders::none(core),
    }
}
