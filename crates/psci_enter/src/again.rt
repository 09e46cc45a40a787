//! When a message is sent once more.

use psci_messages::Message;
use std::marker::Model;

/// What was outstanding as the firmware was looked at last: a message that still is goes into the
/// mailbox once more, since its frame, or that of its acknowledgement, may be lost.
#[derive(Drop)]
pub struct Reminder {
    /// Of each core, in the order of their numbers, and of the system.
    pub(crate) before: Vec<Option<Message>>,
}

impl Model for Reminder {
    ghost use Rattle.std.specs.Prelude.{List, Option};
    ghost use Rattle.psci_messages.specs.Message.{MessageValue};

    ghost Value = { List (Option MessageValue) };

    ghost view = { λ r. r.before.items };
}

ghost use Rattle.std.specs.Prelude.{◌+◌, ◌<◌, ◌≡◌, IfOk, length, None, replicate, slice_index_or};
ghost use Rattle.std.specs.Prelude.{slice_set};
ghost use Rattle.psci_board.specs.Board.{cores};
ghost use Rattle.psci_enter.specs.Again.{is_same, outstanding_in, still};

use psci_board::{Board, Memory, law_sizes};
use psci_fw::Firmware;
use std::alloc::Global;

impl Reminder {
    /// Nothing was outstanding, on this board.
    pub fn new(alloc: Global, board: &Board) -> Result<Reminder, Memory>
        ensures { IfOk result (λ r. r ≡ replicate (cores board.now + 1) None) }
    {
        law_sizes();
        Ok(Reminder {
            before: vec![in alloc; None; board.cores() as usize + 1]?,
        })
    }

    /// A look at what is outstanding of the core of this number, or of the system at the number of
    /// cores, with the lock in hand: what is to be sent once more.
    pub fn again(&mut self, firmware: &Firmware, number: u16) -> Option<Message>
        requires { number < length self.old }
        ensures due { result ≡ still (slice_index_or self.old number None)
            (outstanding_in firmware.now number) }
        ensures seen { self.new ≡ slice_set self.old number (outstanding_in firmware.now number) }
    {
        let now = firmware.outstanding(number).map(Message::copy);
        let due = still(&self.before[number as usize], &now);
        self.before[number as usize] = now;
        due
    }
}

/// What was outstanding before, and is now.
fn still(before: &Option<Message>, now: &Option<Message>) -> Option<Message>
    ensures { result ≡ still before.now now.now }
{
    let last = before.as_ref()?;
    let message = now.as_ref()?;
    if is_same(last, message) {
        return Some(message.copy());
    }
    None
}

/// Whether two messages of one core, or of the system, are the same.
fn is_same(last: &Message, message: &Message) -> bool
    ensures { result ≡ is_same last.now message.now }
{
    last.kind == message.kind && last.life == message.life && last.number == message.number
}
