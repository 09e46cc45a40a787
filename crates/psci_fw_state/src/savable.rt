//! What is saved of every state: a look at each known start, and at each message.

ghost use Rattle.std.specs.Prelude.{◌≡◌, ◌<◌, ◌^◌, Some, length};
ghost use Rattle.psci_messages.specs.Message.{MessageValue};
ghost use Rattle.psci_messages.specs.Saved.{AreKept, IsKept};
ghost use Rattle.psci_messages.specs.Slots.{message_in, slot_of};
ghost use Rattle.psci_tree.specs.Recount.{known_at};
ghost use Rattle.psci_tree.specs.Saved.{AreCounted};

use psci_board::Core;
use psci_messages::{Kind, Message, Slots};
use psci_tree::Tree;

/// Known starts have 32 bits.
pub fn look_at_starts(tree: &Tree)
    ensures { AreCounted tree.now.cores }
{
    for number in 0..tree.core_count() {
        look_at_start(tree, Core { number });
    }
}

/// So has that of one core.
fn look_at_start(tree: &Tree, core: Core)
    ensures { known_at tree.now core.number < 2 ^ 32 }
{
    let _known = tree.known_start(core);
}

/// The messages of so many cores, and that of the system, have lives and numbers of 32 bits.
pub fn look_at_messages(slots: &Slots, cores: u16)
    requires { length slots.now.cores ≡ cores }
    ensures { AreKept slots.now }
{
    for number in 0..cores {
        look_in(slots, Kind::Down, Core { number });
    }
    look_in(slots, Kind::Off, Core { number: 0 });
}

/// So has one in the slot of this kind and core.
fn look_in(slots: &Slots, kind: Kind, core: Core)
    ensures { (m : MessageValue) → message_in slots.now (slot_of kind core) ≡ Some m → IsKept m }
{
    if let Some(message) = slots.message(kind, core) {
        look_at(message);
    }
}

/// So has a message.
fn look_at(message: &Message)
    ensures { IsKept message.now }
{
    let _life = message.life;
    let _number = message.number;
}
