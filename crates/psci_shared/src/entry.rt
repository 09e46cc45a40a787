//! What a book and a pass keep of a call.

ghost use Rattle.std.specs.Prelude.{◌≡◌, None, Some, option_map};
ghost use Rattle.psci_fw.specs.Reactions.{seen, sent_from};
ghost use Rattle.psci_shared.specs.Passes.{entry};
ghost use Rattle.psci_shared.specs.Places.{item};

use psci_fw::{Act, Firmware, FwCall, FwReply, Outcome, Regs, Taken};
use psci_messages::Message;
use psci_status::Core;

/// The registers of no call.
const NOTHING: Regs = Regs {
    x0: 0,
    x1: 0,
    x2: 0,
    x3: 0,
};

/// A call, as the book keeps it.
#[derive(Debug, PartialEq, Drop)]
pub struct Entry<W, C, R> {
    /// Drawn while the lock was held.
    pub ticket: u64,
    /// The pass's core, or `()` where passes have none. Of an acknowledgement it is never read.
    pub core: W,
    /// What was asked.
    pub call: C,
    /// What was answered.
    pub reply: R,
}

/// A call, as the pass keeps it that made it.
#[derive(Debug, PartialEq, Drop)]
pub struct Item<C, R> {
    /// The place of its entry in the book, from 0.
    pub place: u32,
    /// What was asked.
    pub call: C,
    /// What was answered.
    pub reply: R,
}

/// A call of the firmware, as its book keeps it.
pub type FwEntry = Entry<Core, FwCall, FwReply>;

/// A call of the firmware, as the pass keeps it that made it.
pub type FwItem = Item<FwCall, FwReply>;

impl FwEntry {
    /// An entry of no call.
    pub(crate) fn blank() -> FwEntry {
        let core = Core { number: 0 };
        FwEntry::of(0, core, FwCall::Smc(NOTHING), FwReply::Taken(Taken::Used))
    }

    /// An entry.
    pub(crate) fn of(ticket: u64, core: Core, call: FwCall, reply: FwReply) -> FwEntry
        ensures { result ≡ entry ticket core call reply }
    {
        FwEntry {
            ticket,
            core,
            call,
            reply,
        }
    }
}

impl FwItem {
    /// An item of no call.
    pub(crate) fn blank() -> FwItem {
        FwItem::of(0, FwCall::Smc(NOTHING), FwReply::Taken(Taken::Used))
    }
}

impl<C: Drop, R: Drop> Item<C, R> {
    /// An item.
    pub fn of(place: u32, call: C, reply: R) -> Item<C, R>
        ensures { result ≡ item place call reply }
    {
        Item { place, call, reply }
    }
}

/// The book, or the pass's own list, has no room for one call more.
#[derive(Clone, Copy, Debug, PartialEq, Eq, Drop)]
pub struct BookFull;

/// An outcome that sends nothing. Where there is no message, none is copied: its room stays as it
/// is.
pub(crate) fn quiet(act: Act) -> Outcome
    ensures { result ≡ record { act = act; message = None } }
{
    Outcome { act, message: None }
}

/// An outcome that sends a message, which is copied from where it stands.
pub(crate) fn sending(act: Act, message: &Message) -> Outcome
    ensures { result ≡ record { act = act; message = Some message.now } }
{
    Outcome {
        act,
        message: Some(message.copy()),
    }
}

/// The message that stands in a slot, where one is named.
pub(crate) fn sent_from(firmware: &Firmware, slot: Option<u16>) -> Option<&Message>
    ensures { option_map (λ message. message.now) result
        ≡ sent_from firmware.now.board (seen firmware.now) slot }
{
    match slot {
        Some(number) => firmware.outstanding(number),
        None => None,
    }
}
