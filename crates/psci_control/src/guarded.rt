//! The power controller's calls, each of which waits where its rule says so.

ghost use Rattle.std.specs.Prelude.{◌≡◌, ◌<◌, false, true, None, Some, option_map};
ghost use Rattle.psci_board.specs.Board.{cores};
ghost use Rattle.psci_ctl.specs.Seen.{seen};
ghost use Rattle.psci_ctl_spec.specs.Replies.{after, reply};
ghost use Rattle.psci_ctl_spec.specs.History.{IsOfBoard};
ghost use Rattle.psci_ctl_spec.specs.declared.call.CtlCall.TheVariants as calls;
ghost use Rattle.psci_ctl_spec.specs.declared.reply.CtlReply.TheVariants as replies;
ghost use Rattle.psci_port.specs.Waiting.{waits};

use crate::waiting::{has_to_wait, is_heard};
use psci_board::Core;
use psci_ctl::Controller;
use psci_ctl_spec::{Delivery, Kick};
use psci_messages::Message;

/// Delivers a message, unless it has to wait: then nothing changes, and it is to be delivered once
/// its core stands.
pub fn deliver(controller: &mut Controller, message: &Message, word: u32) -> Option<Delivery>
    requires { IsOfBoard controller.old.board message.now }
    ensures waits { waits controller.old.board (seen controller.old) (λ c. word)
        (calls.Deliver message.now) ≡ true → result ≡ None }
    ensures same { result ≡ None → controller.new ≡ controller.old }
    ensures reply { waits controller.old.board (seen controller.old) (λ c. word)
        (calls.Deliver message.now) ≡ false
        → option_map (λ d. replies.Delivery d) result
        ≡ Some (reply controller.old.board (seen controller.old) (calls.Deliver message.now)) }
    ensures after { waits controller.old.board (seen controller.old) (λ c. word)
        (calls.Deliver message.now) ≡ false
        → seen controller.new ≡ after controller.old.board (calls.Deliver message.now)
        (reply controller.old.board (seen controller.old) (calls.Deliver message.now))
        (seen controller.old) }
    ensures board { controller.new.board ≡ controller.old.board }
{
    if has_to_wait(controller, message, word) {
        return None;
    }
    Some(controller.deliver(message))
}

/// Carries out a wake-up of a core, unless the core does not stand: then nothing changes.
pub fn wake(controller: &mut Controller, core: Core, word: u32) -> Option<Kick>
    requires { core.number < cores controller.old.board }
    ensures waits { waits controller.old.board (seen controller.old) (λ c. word)
        (calls.Wake core word) ≡ true → result ≡ None }
    ensures same { result ≡ None → controller.new ≡ controller.old }
    ensures reply { waits controller.old.board (seen controller.old) (λ c. word)
        (calls.Wake core word) ≡ false
        → option_map (λ k. replies.Kick k) result
        ≡ Some (reply controller.old.board (seen controller.old) (calls.Wake core word)) }
    ensures after { waits controller.old.board (seen controller.old) (λ c. word)
        (calls.Wake core word) ≡ false
        → seen controller.new ≡ after controller.old.board (calls.Wake core word)
        (reply controller.old.board (seen controller.old) (calls.Wake core word))
        (seen controller.old) }
    ensures board { controller.new.board ≡ controller.old.board }
{
    if !is_heard(controller, core, word) {
        return None;
    }
    Some(controller.wake(core, word))
}
