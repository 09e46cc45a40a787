//! The firmware's side of a port, of a caller that asks the firmware itself and tells what it
//! answered.

ghost use Rattle.std.specs.Prelude.{◌≡◌, false, option_map};
ghost use Rattle.psci_abi.specs.Calls.{request_of};
ghost use Rattle.psci_enter.specs.Orders.{called_next, entered_next, is_suspending, stop_by};
ghost use Rattle.psci_enter.specs.Side.{post_after, told};
ghost use Rattle.psci_enter.specs.declared.post.Post.{Post};
ghost use Rattle.psci_enter.specs.declared.post.Post.TheVariants as posts;
ghost use Rattle.psci_messages.specs.declared.start.Start.{Start};

use crate::order::{Next, Stop};
use crate::ordering::{entered_next, entry, is_suspending, stop_by};
use crate::post::Post;
use crate::side::FirmwareSide;
use psci_abi::Regs;
use psci_fw_spec::Act;
use psci_messages::{Kind, Message};

impl FirmwareSide {
    /// The firmware answered a call of the core with these registers, and did not refuse it: what
    /// the core does next. As `call`, which asks the firmware besides.
    pub fn called(&mut self, regs: Regs, act: Act, message: Option<&Message>) -> Next
        requires { self.old.post ≡ posts.Running }
        ensures next { result ≡ called_next self.old.cause regs
            (option_map (λ message. message.now) message.entry) act }
        ensures side { self.new ≡ told (is_suspending (request_of regs)) act
            (option_map (λ message. message.now) message.entry) self.old }
    {
        let stop = stop_in(regs, message);
        self.leave(act, stop);
        match act {
            Act::Return(code) => Next::Leave(regs.result(code)),
            Act::Stop => Next::Stand(stop),
            Act::Enter { address, context } => entry(self.cause, address, context),
            Act::Resume => Next::Resume,
        }
    }

    /// The firmware answered an entry of the core, and did not refuse it. As `enter`.
    pub fn entered(&mut self, act: Act, message: Option<&Message>) -> Next
        requires { (start : Start) × (self.old.post ≡ posts.Entering start) }
        ensures next { result ≡ entered_next self.old.cause
            (option_map (λ message. message.now) message.entry) act }
        ensures side { self.new ≡ told false act
            (option_map (λ message. message.now) message.entry) self.old }
    {
        self.leave(act, stop_by(false, message));
        entered_next(self.cause, act, message)
    }

    /// Where an outcome leaves the core.
    fn leave(&mut self, act: Act, stop: Stop)
        ensures { self.new ≡ record self.old { post = post_after act; stop = stop } }
    {
        self.stop = stop;
        self.post = match act {
            Act::Stop => Post::Leaving,
            _ => Post::Running,
        };
    }
}

/// How a core stands that called with these registers, and sent this, if it sent something. The
/// registers are read for a Down alone.
fn stop_in(regs: Regs, message: Option<&Message>) -> Stop
    ensures { result ≡ stop_by (is_suspending (request_of regs))
        (option_map (λ message. message.now) message.entry) }
{
    let suspended = match message {
        Some(message) if message.kind == Kind::Down => is_suspending(regs),
        _ => false,
    };
    stop_by(suspended, message)
}
