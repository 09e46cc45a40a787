//! What came of a call, while its message stands in its slot.

ghost use Rattle.std.specs.Prelude.{◌≡◌};
ghost use Rattle.psci_fw.specs.Reactions.{seen};
ghost use Rattle.psci_shared.specs.declared.done.Said.TheVariants as says;
ghost use Rattle.psci_shared.specs.Locked.{reply_said};

use crate::entry::{quiet, sending, sent_from};
use psci_fw::{Firmware, FwFault, FwReply, Reaction, Taken};
use psci_status::Core;

/// What was replied to a call.
#[derive(Clone, Copy)]
pub(crate) enum Said {
    /// To a secure monitor call or an entry.
    Reacted(Result<Reaction, FwFault>),
    /// To an acknowledgement.
    Taken(Taken),
}

/// A call that was carried out.
#[derive(Clone, Copy)]
pub(crate) struct Done {
    /// The core whose status it may have changed, unless it began a life.
    pub(crate) named: Option<Core>,
    /// What was replied.
    pub(crate) said: Said,
}

impl Done {
    /// A secure monitor call or an entry, of which this came.
    #[inline(always)]
    pub(crate) fn reacted(named: Option<Core>, reacted: Result<Reaction, FwFault>) -> Done
        ensures { result ≡ record { named = named; said = says.Reacted reacted } }
    {
        let said = Said::Reacted(reacted);
        Done { named, said }
    }
}

/// The reply, with the message that stands in its slot. Where there is none, none is copied.
pub(crate) fn reply_of(firmware: &Firmware, said: Said) -> FwReply
    ensures { result ≡ reply_said firmware.now.board (seen firmware.now) said }
{
    match said {
        Said::Reacted(Ok(Reaction { act, slot })) => match sent_from(firmware, slot) {
            None => FwReply::Out(quiet(act)),
            Some(message) => FwReply::Out(sending(act, message)),
        },
        Said::Reacted(Err(fault)) => FwReply::Fault(fault),
        Said::Taken(taken) => FwReply::Taken(taken),
    }
}
