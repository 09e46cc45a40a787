//! What a book and a pass keep of a call.

ghost use Rattle.std.specs.Prelude.{◌≡◌, ◌↔◌, IsTrue};

use crate::{Entry, Item, PassOf, is_same_message};
use psci_ctl::{CtlCall, CtlReply};

/// A call of the power controller, as its book keeps it. No core calls through a pass.
pub type CtlEntry = Entry<(), CtlCall, CtlReply>;

/// A call of the power controller, as the pass keeps it that made it.
pub type CtlItem = Item<CtlCall, CtlReply>;

/// A pass. It keeps what the thread asked and was answered.
pub type CtlPass<N> = PassOf<N, (), (), CtlCall, CtlReply>;

/// Whether two calls are one.
pub(crate) fn is_same_call(one: &CtlCall, other: &CtlCall) -> bool
    ensures { IsTrue result ↔ one.now ≡ other.now }
{
    match (one, other) {
        (CtlCall::Deliver(message), CtlCall::Deliver(other)) => is_same_message(message, other),
        (CtlCall::Wake(core, halted), CtlCall::Wake(other, number)) => {
            core == other && halted == number
        }
        (CtlCall::Reset(core), CtlCall::Reset(other)) => core == other,
        _ => false,
    }
}

/// Whether two replies are one.
pub(crate) fn is_same_reply(one: &CtlReply, other: &CtlReply) -> bool
    ensures { IsTrue result ↔ one.now ≡ other.now }
{
    match (one, other) {
        (CtlReply::Delivery(delivery), CtlReply::Delivery(other)) => delivery == other,
        (CtlReply::Kick(kick), CtlReply::Kick(other)) => kick == other,
        _ => false,
    }
}
