//! A message or an acknowledgement is looked for among all so far. What was made last is looked at
//! first: it is what most often comes next.

ghost use Rattle.std.specs.Prelude.{◌≡◌, ◌↔◌, ℕ, IsTrue, MatchOption, Some, slice_get};

use psci_shared::is_same_message;
use psci_world::{Ack, Message};

/// The number of this message, if it is one of these.
pub(crate) fn find_message(messages: &[Message], message: &Message) -> Option<u64>
    ensures { MatchOption result
        ((k : ℕ) → slice_get messages.now k ≡ Some message.now → ⊥)
        (λ k. slice_get messages.now k ≡ Some message.now) }
{
    let mut left = messages.len();
    while left > 0 {
        left -= 1;
        if is_same_message(&messages[left], message) {
            return Some(left as u64);
        }
    }
    None
}

/// The number of this acknowledgement, if it is one of these.
pub(crate) fn find_ack(acks: &[Ack], ack: &Ack) -> Option<u64>
    ensures { MatchOption result
        ((k : ℕ) → slice_get acks.now k ≡ Some ack.now → ⊥)
        (λ k. slice_get acks.now k ≡ Some ack.now) }
{
    let mut left = acks.len();
    while left > 0 {
        left -= 1;
        if is_same_ack(&acks[left], ack) {
            return Some(left as u64);
        }
    }
    None
}

/// Whether two acknowledgements are one.
fn is_same_ack(one: &Ack, other: &Ack) -> bool
    ensures { IsTrue result ↔ one.now ≡ other.now }
{
    one == other
}
