//! What a reply of the firmware orders.

ghost use Rattle.std.specs.Prelude.{◌≡◌, None, option_map};
ghost use Rattle.psci_abi.specs.Calls.{request_of};
ghost use Rattle.psci_enter.specs.Orders.{called, called_next, entered, entered_next, entry};
ghost use Rattle.psci_enter.specs.Orders.{is_suspending, stop_by};
ghost use Rattle.psci_enter.specs.declared.order.Next.TheVariants as nexts;
ghost use Rattle.psci_fw_spec.specs.Answer.{reply_of};

use crate::order::{Entry, Next, Orders, Stop};
use psci_abi::{Regs, Request, read};
use psci_fw_spec::{Act, Cause, FwFault, Outcome};
use psci_messages::{Kind, Message};

/// What the firmware's answer to a call with these registers orders, of a core that was started so.
pub(crate) fn called(cause: Cause, regs: Regs, reply: Result<Outcome, FwFault>) -> Orders
    ensures { result ≡ called cause regs (reply_of reply) }
{
    match reply {
        Ok(Outcome { act, message }) => Orders {
            next: called_next(cause, regs, act, message.as_ref()),
            send: message,
        },
        Err(fault) => refused(fault),
    }
}

/// What its answer to an entry orders.
pub(crate) fn entered(cause: Cause, reply: Result<Outcome, FwFault>) -> Orders
    ensures { result ≡ entered cause (reply_of reply) }
{
    match reply {
        Ok(Outcome { act, message }) => Orders {
            next: entered_next(cause, act, message.as_ref()),
            send: message,
        },
        Err(fault) => refused(fault),
    }
}

/// The firmware refused.
fn refused(fault: FwFault) -> Orders
    ensures { result ≡ record { send = None; next = nexts.Refused fault } }
{
    Orders {
        send: None,
        next: Next::Refused(fault),
    }
}

/// What a caller does next.
fn called_next(cause: Cause, regs: Regs, act: Act, message: Option<&Message>) -> Next
    ensures { result
        ≡ called_next cause regs (option_map (λ message. message.now) message.entry) act }
{
    match act {
        Act::Return(code) => Next::Leave(regs.result(code)),
        Act::Stop => Next::Stand(stop_by(is_suspending(regs), message)),
        Act::Enter { address, context } => entry(cause, address, context),
        Act::Resume => Next::Resume,
    }
}

/// What a core does next that has entered.
pub(crate) fn entered_next(cause: Cause, act: Act, message: Option<&Message>) -> Next
    ensures { result ≡ entered_next cause (option_map (λ message. message.now) message.entry) act }
{
    match act {
        Act::Return(_) => Next::Resume,
        Act::Stop => Next::Stand(stop_by(false, message)),
        Act::Enter { address, context } => entry(cause, address, context),
        Act::Resume => Next::Resume,
    }
}

/// It enters the normal world.
pub(crate) fn entry(cause: Cause, address: u64, context: u64) -> Next
    ensures { result ≡ entry cause address context }
{
    Next::Enter(Entry {
        address,
        context,
        cause,
    })
}

/// How a core stands that stopped in a call of this kind, and sent this, if it sent something.
pub(crate) fn stop_by(suspended: bool, message: Option<&Message>) -> Stop
    ensures { result ≡ stop_by suspended (option_map (λ message. message.now) message.entry) }
{
    let Some(message) = message else {
        return Stop::Off;
    };
    match message.kind {
        Kind::Down if suspended => Stop::Suspended,
        Kind::Down => Stop::Off,
        Kind::Start => Stop::Off,
        Kind::Off => Stop::Ending,
        Kind::Reset => Stop::Ending,
    }
}

/// Whether the function that these registers call suspends its caller.
pub(crate) fn is_suspending(regs: Regs) -> bool
    ensures { result ≡ is_suspending (request_of regs) }
{
    matches!(
        read(regs),
        Request::CpuSuspend { .. } | Request::SystemSuspend { .. }
    )
}
