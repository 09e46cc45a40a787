//! Whether calls and replies are the same.

ghost use Rattle.std.specs.Prelude.{◌≡◌, ◌↔◌, IsTrue, option_map};

use psci_fw::{FwCall, FwReply, Outcome};
use psci_fw_spec::{Message, Part};

pub(crate) fn is_same_call(one: &FwCall, other: &FwCall) -> bool
    ensures { IsTrue result ↔ one.now ≡ other.now }
{
    match (one, other) {
        (FwCall::Smc(regs), FwCall::Smc(others)) => *regs == *others,
        (FwCall::Enter(start), FwCall::Enter(others)) => *start == *others,
        (FwCall::Take(ack), FwCall::Take(others)) => ack == others,
        _ => false,
    }
}

pub(crate) fn is_same_reply(one: &FwReply, other: &FwReply) -> bool
    ensures { IsTrue result ↔ one.now ≡ other.now }
{
    match (one, other) {
        (FwReply::Out(outcome), FwReply::Out(others)) => is_same_outcome(outcome, others),
        (FwReply::Taken(taken), FwReply::Taken(others)) => *taken == *others,
        (FwReply::Fault(fault), FwReply::Fault(others)) => *fault == *others,
        _ => false,
    }
}

fn is_same_outcome(one: &Outcome, other: &Outcome) -> bool
    ensures { IsTrue result ↔ one.now ≡ other.now }
{
    let same_message = match (&one.message, &other.message) {
        (None, None) => true,
        (Some(message), Some(others)) => is_same_message(message, others),
        _ => false,
    };
    one.act == other.act && same_message
}

/// Whether two messages are the same in kind, core, life, number and parts.
pub fn is_same_message(one: &Message, other: &Message) -> bool
    ensures { IsTrue result ↔ one.now ≡ other.now }
{
    let same_parts = is_same_parts(one.parts.as_slice(), other.parts.as_slice());
    let same_name = one.kind == other.kind && one.core == other.core;
    same_name && one.life == other.life && one.number == other.number && same_parts
}

fn is_same_parts(one: &[Part], other: &[Part]) -> bool
    ensures { IsTrue result ↔ one.now ≡ other.now }
{
    match (one, other) {
        ([], []) => true,
        ([part, rest @ ..], [others, more @ ..]) => {
            *part == *others && is_same_parts(rest, more)
        }
        _ => false,
    }
}
