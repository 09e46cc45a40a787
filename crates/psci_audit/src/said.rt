//! Whether what was said of an event is a reply.

ghost use Rattle.std.specs.Prelude.{◌≡◌, ◌↔◌, IsTrue, option_map};
ghost use Rattle.psci_audit.specs.Told.{SaysDelivery, SaysKick, SaysOutcome, SaysTaken};

use psci_ctl::{CtlReply, Delivery, Kick};
use psci_fw::FwReply;
use psci_shared::is_same_message;
use psci_world::{Message, Said, Sent};

/// Whether this outcome of the firmware was said.
pub(crate) fn says_outcome(said: &Said, reply: &FwReply) -> bool
    ensures { IsTrue result ↔ SaysOutcome said.now reply.now }
{
    match (said, reply) {
        (Said::Fw { act, sent }, FwReply::Out(outcome)) => {
            *act == outcome.act && is_same_sent(sent, &outcome.message)
        }
        _ => false,
    }
}

/// Whether the message that was sent is this one.
fn is_same_sent(sent: &Option<Sent>, message: &Option<Message>) -> bool
    ensures { IsTrue result ↔ option_map (λ s. s.message) sent.now ≡ message.now }
{
    match (sent, message) {
        (None, None) => true,
        (Some(sent), Some(message)) => is_same_message(&sent.message, message),
        _ => false,
    }
}

/// Whether it was said that the firmware took an acknowledgement so.
pub(crate) fn says_taken(said: &Said, reply: &FwReply) -> bool
    ensures { IsTrue result ↔ SaysTaken said.now reply.now }
{
    match (said, reply) {
        (Said::Taken(taken), FwReply::Taken(other)) => *taken == *other,
        _ => false,
    }
}

/// Whether it was said that this became of a message.
pub(crate) fn says_delivery(said: &Said, reply: &CtlReply) -> bool
    ensures { IsTrue result ↔ SaysDelivery said.now reply.now }
{
    match (said, reply) {
        (Said::Acked { index: _, ack }, CtlReply::Delivery(Delivery::Applied(other))) => {
            ack == other
        }
        (Said::Ignored, CtlReply::Delivery(Delivery::Ignored)) => true,
        _ => false,
    }
}

/// Whether it was said that this became of a wake-up or a reset.
pub(crate) fn says_kick(said: &Said, reply: &CtlReply) -> bool
    ensures { IsTrue result ↔ SaysKick said.now reply.now }
{
    match (said, reply) {
        (Said::Kick(start), CtlReply::Kick(Kick::Started(other))) => *start == *other,
        (Said::Ignored, CtlReply::Kick(Kick::Ignored)) => true,
        _ => false,
    }
}
