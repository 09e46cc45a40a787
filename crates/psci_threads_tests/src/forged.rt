//! Traces that were forged.

use crate::boards::{board_of, ran};
use psci_audit::audit;
use psci_bench::{AuditFault, BenchFault, Board, Core, CtlEntry, FwEntry, OpenGate, Trace};
use psci_ctl::{CtlCall, CtlReply, Kick};
use psci_fw::{Act, Cause, Code, FwCall, FwReply, Outcome, Regs, Start};
use psci_messages::Message;
use psci_world::{Event, World};
use std::alloc::Global;
use std::sync::Wait;
use std::thread::Threads;

/// Whether the trace of a run is refused by its tickets once the last entry of the power
/// controller's book stands there twice.
pub(crate) fn is_ticket_twice<R: Threads + Wait + Sync>(
    rt: &R,
    alloc: Global,
    text: &str,
) -> Result<bool, BenchFault> {
    let board = board_of(alloc, text)?;
    let mut run = ran(rt, alloc, text, 1, 200, &OpenGate)?;
    let Some(last) = run.trace.controller.last() else {
        return Ok(false);
    };
    let again = CtlEntry {
        ticket: last.ticket,
        core: (),
        call: last.call.copy(),
        reply: last.reply.copy(),
    };
    run.trace.controller.push(again)?;
    Ok(audit(alloc, &board, &run.trace) == Err(AuditFault::Ticket))
}

/// Whether the trace of a run is refused at the place of the first entry of the firmware's book,
/// once that has another reply.
pub(crate) fn is_illegal_at<R: Threads + Wait + Sync>(
    rt: &R,
    alloc: Global,
    text: &str,
) -> Result<bool, BenchFault> {
    let board = board_of(alloc, text)?;
    let mut run = ran(rt, alloc, text, 1, 200, &OpenGate)?;
    let Some(first) = run.trace.firmware.first_mut() else {
        return Ok(false);
    };
    first.reply = FwReply::Out(Outcome {
        act: Act::Return(Code(1)),
        message: None,
    });
    let ticket = first.ticket;
    let place = before(&run.trace, ticket);
    Ok(audit(alloc, &board, &run.trace) == Err(AuditFault::Illegal(place)))
}

/// What the audit says of a trace with the boot core's first entry under these tickets, each with
/// the answer that goes back to the caller of a call, which no entry gets; and with a reset that
/// does nothing under those of the power controller.
pub(crate) fn judged(
    alloc: Global,
    text: &str,
    tickets: &[u64],
    controllers: &[u64],
) -> Result<Result<u64, AuditFault>, BenchFault> {
    let board = board_of(alloc, text)?;
    let mut firmware = Vec::new(alloc);
    for ticket in tickets {
        firmware.push(entered(*ticket, Act::Return(Code(1))))?;
    }
    let mut controller = Vec::new(alloc);
    for ticket in controllers {
        controller.push(CtlEntry {
            ticket: *ticket,
            core: (),
            call: CtlCall::Reset(Core { number: 0 }),
            reply: CtlReply::Kick(Kick::Ignored),
        })?;
    }
    let trace = Trace {
        firmware,
        controller,
    };
    Ok(audit(alloc, &board, &trace))
}

/// CPU_SUSPEND of a core, its cluster and the system.
const SUSPEND: Regs = Regs {
    x0: 0xc400_0001,
    x1: 0x0201_0333,
    x2: 0x4000_1000,
    x3: 0,
};

/// What the audit says of a trace in which the boot core enters, and then suspends with all that is
/// above it. Its message is another one in the last part alone where core 2 has entered before.
pub(crate) fn judged_by_message(
    alloc: Global,
    text: &str,
    is_other: bool,
) -> Result<Result<u64, AuditFault>, BenchFault> {
    let board = board_of(alloc, text)?;
    let goes_on = Act::Enter {
        address: 0x4000_0000,
        context: 0,
    };
    let suspended = FwEntry {
        ticket: 2,
        core: Core { number: 0 },
        call: FwCall::Smc(SUSPEND),
        reply: FwReply::Out(Outcome {
            act: Act::Stop,
            message: message_of(alloc, &board, is_other)?,
        }),
    };
    let mut firmware = Vec::new(alloc);
    firmware.push(entered(1, goes_on))?;
    firmware.push(suspended)?;
    let trace = Trace {
        firmware,
        controller: Vec::new(alloc),
    };
    Ok(audit(alloc, &board, &trace))
}

/// The boot core's message where it suspends so.
fn message_of(
    alloc: Global,
    board: &Board,
    has_other_entered: bool,
) -> Result<Option<Message>, BenchFault> {
    let mut world = World::new(alloc, board)?;
    if has_other_entered {
        world.step(Event::Wake(2))?;
        world.step(Event::Enter(2))?;
    }
    world.step(Event::Enter(0))?;
    world.step(Event::Call(0, SUSPEND))?;
    match world.messages().last() {
        Some(message) => Ok(Some(message.copy())),
        None => Ok(None),
    }
}

/// The boot core's first entry, with this answer.
fn entered(ticket: u64, act: Act) -> FwEntry {
    let start = Start {
        life: 1,
        number: 1,
        cause: Cause::Boot,
    };
    FwEntry {
        ticket,
        core: Core { number: 0 },
        call: FwCall::Enter(start),
        reply: FwReply::Out(Outcome { act, message: None }),
    }
}

/// How many entries of the power controller's book have a ticket before this one.
fn before(trace: &Trace, ticket: u64) -> u64 {
    trace
        .controller
        .iter()
        .filter(|entry| entry.ticket < ticket)
        .count() as u64
}
