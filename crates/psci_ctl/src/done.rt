//! What was done with a message.

ghost use Rattle.std.specs.Prelude.{◌≡◌, ◌≤◌};
ghost use Rattle.psci_messages.specs.Message.{most_applied};
ghost use Rattle.psci_ctl_spec.specs.Replies.{ack_of};
ghost use Rattle.psci_ctl.specs.Seen.{done};

use psci_messages::{Ack, Message};

/// What was done with a message of this life.
#[derive(Clone, Copy)]
pub struct Done {
    /// How many parts of a Down were applied; else 1 where the message was carried out.
    pub applied: u8,
    /// Whether the message is out of date.
    pub stale: bool,
}

impl Done {
    /// The message was carried out.
    pub const WHOLE: Done = Done {
        applied: 1,
        stale: false,
    };

    /// The message came too late.
    pub const LATE: Done = Done {
        applied: 0,
        stale: true,
    };

    /// So much of it was carried out.
    pub fn of(applied: u8, stale: bool) -> Done
        ensures { result ≡ done applied stale }
    {
        Done { applied, stale }
    }

    /// The acknowledgement of the message.
    pub fn ack(self, message: &Message) -> Ack
        requires { self.applied ≤ most_applied message.now.kind }
        ensures { result ≡ ack_of message.now self.applied self.stale }
    {
        Ack {
            kind: message.kind,
            core: message.core,
            life: message.life,
            number: message.number,
            applied: self.applied,
            stale: self.stale,
        }
    }
}
