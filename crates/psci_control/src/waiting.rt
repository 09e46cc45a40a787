//! What waits until its core stands.

ghost use Rattle.std.specs.Prelude.{◌≡◌, ◌<◌, ◌==◌, ◌&&◌, not};
ghost use Rattle.psci_board.specs.Board.{cores};
ghost use Rattle.psci_ctl.specs.Seen.{seen};
ghost use Rattle.psci_ctl_spec.specs.History.{IsOfBoard};
ghost use Rattle.psci_ctl_spec.specs.Values.{begins_stale};
ghost use Rattle.psci_ctl_spec.specs.declared.call.CtlCall.TheVariants as calls;
ghost use Rattle.psci_messages.specs.declared.kind.Kind.TheVariants.{Down};
ghost use Rattle.psci_port.specs.Waiting.{switches, touches, waits};

use psci_board::{Core, law_paths};
use psci_ctl::Controller;
use psci_messages::{Kind, Message, law_parts};

/// Whether the first part of this Down is live.
fn is_live(controller: &Controller, message: &Message) -> bool
    requires kind { message.now.kind ≡ Down }
    requires board { IsOfBoard controller.now.board message.now }
    ensures { result ≡ not (begins_stale controller.now.board (seen controller.now)
        message.now.core.number message.now.parts) }
{
    law_parts();
    law_paths();
    let starts = controller.starts(message.core);
    let _cores = controller.board().cores();
    match message.parts.as_slice().first() {
        Some(part) => part.generation == starts as u64,
        None => true,
    }
}

/// Whether a message of this life switches the power of its core in the core's present start.
fn switches(controller: &Controller, message: &Message) -> bool
    requires { IsOfBoard controller.now.board message.now }
    ensures { result ≡ switches controller.now.board (seen controller.now) message.now
        message.now.kind }
{
    match message.kind {
        Kind::Down => is_live(controller, message),
        Kind::Start => {
            let starts = controller.starts(message.core);
            starts == message.number && starts < controller.board().start_limit()
        }
        Kind::Off => false,
        Kind::Reset => false,
    }
}

/// Whether this message does.
fn touches(controller: &Controller, message: &Message) -> bool
    requires { IsOfBoard controller.now.board message.now }
    ensures { result ≡ touches controller.now.board (seen controller.now) message.now }
{
    match controller.life() {
        Some(life) => life == message.life && switches(controller, message),
        None => false,
    }
}

/// Whether this message waits: a Down or a Start that touches the present start of its core, which
/// by its word does not stand in its stop of that start. A Down goes by the generation of its first
/// part, as the power controller does that applies it, and not by the number of the message.
pub fn has_to_wait(controller: &Controller, message: &Message, word: u32) -> bool
    requires { IsOfBoard controller.now.board message.now }
    ensures { result ≡ waits controller.now.board (seen controller.now) (λ c. word)
        (calls.Deliver message.now) }
{
    touches(controller, message) && !is_heard(controller, message.core, word)
}

/// Whether a wake-up of this core is heard, and a message for it: by its word it stands in its stop
/// of its last start.
pub fn is_heard(controller: &Controller, core: Core, word: u32) -> bool
    requires { core.number < cores controller.now.board }
    ensures { not result ≡ waits controller.now.board (seen controller.now) (λ c. word)
        (calls.Wake core word) }
{
    word == controller.starts(core)
}
