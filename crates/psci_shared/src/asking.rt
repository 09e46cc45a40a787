//! The firmware is asked, and what it replies is written down.

ghost use Rattle.std.specs.Prelude.{◌<◌, ◌≡◌, MatchResult, None, vec_capacity, vec_len};
ghost use Rattle.psci_fw.specs.Reactions.{seen};
ghost use Rattle.psci_fw.specs.psci_fw_spec.Effects.{after};
ghost use Rattle.psci_fw.specs.psci_fw_spec.Answer.{answer};
ghost use Rattle.psci_fw.specs.psci_fw_spec.declared.call.FwCall.TheVariants as calls;
ghost use Rattle.psci_fw.specs.psci_fw_spec.declared.reply.FwReply.TheVariants as replies;
ghost use Rattle.psci_fw.specs.Reactions.{outcome_in, reply_in};
ghost use Rattle.psci_status.specs.Lists.{asked_by};
ghost use Rattle.psci_shared.specs.Passes.{entry, Fits};
ghost use Rattle.psci_shared.specs.Locked.{IsDone, Pushed};
ghost use Rattle.psci_shared.specs.Places.{item};

use crate::done::{Done, Said};
use crate::entry::{FwEntry, FwItem, quiet, sending, sent_from};
use psci_fw::{Act, Firmware, FwCall, FwFault, FwReply, Reaction};
use psci_messages::Ack;
use psci_status::Core;

/// The firmware's reply to a call of this core.
pub(crate) fn ask(firmware: &mut Firmware, core: Core, call: &FwCall) -> FwReply
    ensures reply { result ≡ answer firmware.old.board (seen firmware.old) core.number call.now }
    ensures fits { Fits call.now result }
    ensures after { seen firmware.new ≡ after firmware.old.board core.number call.now result
        (seen firmware.old) }
    ensures board { firmware.new.board ≡ firmware.old.board }
{
    let answered = match call {
        FwCall::Smc(regs) => firmware.smc(core, *regs),
        FwCall::Enter(start) => firmware.enter(core, *start),
        FwCall::Take(ack) => return FwReply::Taken(firmware.take(ack.copy())),
    };
    match answered {
        Ok(outcome) => FwReply::Out(outcome),
        Err(fault) => FwReply::Fault(fault),
    }
}

/// The firmware's reply to a call of this core goes into the book and into the list of a pass. Each
/// kind of reply is written to its places where it is found, so that none of them is moved on the
/// way.
pub(crate) fn ask_for<A>(
    firmware: &mut Firmware,
    entries: &mut Vec<FwEntry>,
    items: &mut Vec<FwItem>,
    place: u32,
    ticket: u64,
    core: Core,
    call: FwCall,
) -> Done
    requires room { (vec_len entries.old < vec_capacity entries.old)
        × (vec_len items.old < vec_capacity items.old) }
    ensures entries { Pushed entries.old entries.new (entry ticket core call
        (answer firmware.old.board (seen firmware.old) core.number call)) }
    ensures items { Pushed items.old items.new (item place call
        (answer firmware.old.board (seen firmware.old) core.number call)) }
    ensures done { IsDone core call
        (answer firmware.old.board (seen firmware.old) core.number call) firmware.new.board
        (seen firmware.new) result }
    ensures after { (firmware.new.board ≡ firmware.old.board)
        × (seen firmware.new ≡ after firmware.old.board core.number call
        (answer firmware.old.board (seen firmware.old) core.number call) (seen firmware.old)) }
{
    match call {
        FwCall::Smc(regs) => {
            let reacted = firmware.smc_in_slot::<A>(core, regs);
            let named = record::<A>(firmware, entries, items, place, ticket, core, call, reacted);
            Done::reacted(named, reacted)
        }
        FwCall::Enter(start) => {
            let reacted = firmware.enter_in_slot::<A>(core, start);
            let _asked = record::<A>(firmware, entries, items, place, ticket, core, call, reacted);
            Done::reacted(reacted.is_ok().then_some(core), reacted)
        }
        FwCall::Take(ack) => take(firmware, entries, items, place, ticket, core, ack),
    }
}

/// The same of an acknowledgement.
#[inline(always)]
fn take(
    firmware: &mut Firmware,
    entries: &mut Vec<FwEntry>,
    items: &mut Vec<FwItem>,
    place: u32,
    ticket: u64,
    core: Core,
    ack: Ack,
) -> Done
    requires room { (vec_len entries.old < vec_capacity entries.old)
        × (vec_len items.old < vec_capacity items.old) }
    ensures entries { Pushed entries.old entries.new (entry ticket core (calls.Take ack)
        (answer firmware.old.board (seen firmware.old) core.number (calls.Take ack))) }
    ensures items { Pushed items.old items.new (item place (calls.Take ack)
        (answer firmware.old.board (seen firmware.old) core.number (calls.Take ack))) }
    ensures done { IsDone core (calls.Take ack)
        (answer firmware.old.board (seen firmware.old) core.number (calls.Take ack))
        firmware.new.board (seen firmware.new) result }
    ensures after { (firmware.new.board ≡ firmware.old.board)
        × (seen firmware.new ≡ after firmware.old.board core.number (calls.Take ack)
        (answer firmware.old.board (seen firmware.old) core.number (calls.Take ack))
        (seen firmware.old)) }
{
    let named = Some(ack.core);
    let taken = firmware.take(ack.copy());
    let call = FwCall::Take(ack);
    items.push_reserved(FwItem::of(place, call.copy(), FwReply::Taken(taken)));
    entries.push_reserved(FwEntry::of(ticket, core, call, FwReply::Taken(taken)));
    let said = Said::Taken(taken);
    Done { named, said }
}

/// Writes down what came of a call, and returns the core that it asks on. Compiled in place, so
/// that what is written down is not written before.
#[inline(always)]
fn record<A>(
    firmware: &Firmware,
    entries: &mut Vec<FwEntry>,
    items: &mut Vec<FwItem>,
    place: u32,
    ticket: u64,
    core: Core,
    call: FwCall,
    reacted: Result<Reaction, FwFault>,
) -> Option<Core>
    requires room { (vec_len entries.old < vec_capacity entries.old)
        × (vec_len items.old < vec_capacity items.old) }
    ensures entries { Pushed entries.old entries.new (entry ticket core call
        (reply_in firmware.now.board (seen firmware.now) reacted)) }
    ensures items { Pushed items.old items.new (item place call
        (reply_in firmware.now.board (seen firmware.now) reacted)) }
    ensures asked { MatchResult reacted
        (λ r. result ≡ asked_by (outcome_in firmware.now.board (seen firmware.now) r))
        (λ _. result ≡ None) }
{
    match reacted {
        Ok(done) => record_done(firmware, entries, items, place, ticket, core, call, done),
        Err(fault) => {
            items.push_reserved(FwItem::of(place, call.copy(), FwReply::Fault(fault)));
            entries.push_reserved(FwEntry::of(ticket, core, call, FwReply::Fault(fault)));
            None
        }
    }
}

/// The same of a call that was not refused. A message is copied from its slot, and where there is
/// none, none is.
#[inline(always)]
fn record_done(
    firmware: &Firmware,
    entries: &mut Vec<FwEntry>,
    items: &mut Vec<FwItem>,
    place: u32,
    ticket: u64,
    core: Core,
    call: FwCall,
    done: Reaction,
) -> Option<Core>
    requires room { (vec_len entries.old < vec_capacity entries.old)
        × (vec_len items.old < vec_capacity items.old) }
    ensures entries { Pushed entries.old entries.new (entry ticket core call
        (replies.Out (outcome_in firmware.now.board (seen firmware.now) done))) }
    ensures items { Pushed items.old items.new (item place call
        (replies.Out (outcome_in firmware.now.board (seen firmware.now) done))) }
    ensures asked { result ≡ asked_by (outcome_in firmware.now.board (seen firmware.now) done) }
{
    let Reaction { act, slot } = done;
    let Some(message) = sent_from(firmware, slot) else {
        items.push_reserved(FwItem::of(place, call.copy(), FwReply::Out(quiet(act))));
        entries.push_reserved(FwEntry::of(ticket, core, call, FwReply::Out(quiet(act))));
        return None;
    };
    let reply = FwReply::Out(sending(act, message));
    items.push_reserved(FwItem::of(place, call.copy(), reply));
    let reply = FwReply::Out(sending(act, message));
    entries.push_reserved(FwEntry::of(ticket, core, call, reply));
    match act {
        Act::Return(_) => Some(message.core),
        _ => None,
    }
}
