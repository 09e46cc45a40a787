//! Events and their answers, in words.

use crate::call::{kind_name, returned_name, write_call};
use crate::event_json::write_shares;
use crate::run::Run;
use psci_world::Message;
use psci_world_spec::{
    Ack, Act, Code, Event, Kind, Part, Record, Request, Said, Sent, Taken, read,
};
use std::alloc::AllocError;

/// Writes what the message of this number is, if there is one.
fn write_named(out: &mut String, run: &Run, number: u64) -> Result<(), AllocError> {
    write_message(out, number, run.world().message(number))
}

/// Writes what an event of a run asks.
pub fn write_asked(out: &mut String, run: &Run, event: &Event) -> Result<(), AllocError> {
    match event {
        Event::Call(core, regs) => write_call(out, run.world().board(), *core, *regs),
        Event::Enter(core) => write!(out, "core {core} enters"),
        Event::Wake(core) => write!(out, "a wake-up of core {core}"),
        Event::Reset(core) => write!(out, "core {core} is reset"),
        Event::Deliver(number) => {
            write!(out, "the power controller gets ")?;
            write_named(out, run, *number)
        }
        Event::Take(number) => {
            write!(out, "the firmware gets acknowledgement {number}")?;
            write_of(out, run, *number)
        }
    }
}

/// Writes of which message the acknowledgement of this number is, if there is one.
fn write_of(out: &mut String, run: &Run, number: u64) -> Result<(), AllocError> {
    match run.message_of(number) {
        Some(message) => {
            write!(out, ", of ")?;
            write_named(out, run, message)
        }
        None => Ok(()),
    }
}

/// The function that an event calls.
fn request_in(event: &Event) -> Request {
    match event {
        Event::Call(_, regs) => read(*regs),
        Event::Enter(_) | Event::Wake(_) | Event::Reset(_) | Event::Deliver(_) | Event::Take(_) =>
            Request::Unknown,
    }
}

/// Writes what a function returned.
fn write_returned(out: &mut String, request: Request, code: Code) -> Result<(), AllocError> {
    match returned_name(request, code.0) {
        Some(name) => write!(out, "{name}"),
        None => write!(out, "{}", code.0),
    }
}

/// Writes what a core does next, by the function that it called.
fn write_act(out: &mut String, request: Request, act: &Act) -> Result<(), AllocError> {
    match act {
        Act::Return(code) => write_returned(out, request, *code),
        Act::Stop => write!(out, "stops"),
        Act::Enter { address, context } => {
            write!(out, "enters at 0x{address:x} with context 0x{context:x}")
        }
        Act::Resume => write!(out, "resumes with SUCCESS"),
    }
}

/// How many parts the message has that an event delivers.
fn parts_in(run: &Run, event: &Event) -> usize {
    match event {
        Event::Deliver(number) => match run.world().message(*number) {
            Some(message) => message.parts.as_slice().len(),
            None => 0,
        },
        _ => 0,
    }
}

/// Writes how much of a message of so many parts was applied, and whether it is stale.
fn write_applied(out: &mut String, parts: usize, ack: &Ack) -> Result<(), AllocError> {
    if parts > 0 {
        write!(out, "{} of {parts} parts applied", ack.applied)?;
    } else if ack.applied > 0 {
        write!(out, "applied")?;
    } else {
        write!(out, "not applied")?;
    }
    write!(out, "{}", if ack.stale { ", stale" } else { "" })
}

/// What became of an acknowledgement.
fn taken_words(taken: Taken) -> &'static str {
    match taken {
        Taken::Used => "used",
        Taken::Old => "old: nothing waits for it",
    }
}

/// Writes the message that was sent, if one was.
fn write_with(out: &mut String, run: &Run, sent: Option<&Sent>) -> Result<(), AllocError> {
    match sent {
        Some(sent) => {
            write!(out, "; ")?;
            write_sent(out, run.world().board().height(), sent)
        }
        None => Ok(()),
    }
}

/// Writes what an event of a run is answered.
pub fn write_said(out: &mut String, run: &Run, item: &Record) -> Result<(), AllocError> {
    match &item.said {
        Said::Fw { act, sent } => {
            write_act(out, request_in(&item.event), act)?;
            write_with(out, run, sent.as_ref())
        }
        Said::Kick(start) => write!(out, "the core is started, number {}", start.number),
        Said::Acked { index, ack } => {
            write!(out, "acknowledgement {index}: ")?;
            write_applied(out, parts_in(run, &item.event), ack)
        }
        Said::Taken(taken) => write!(out, "{}", taken_words(*taken)),
        Said::Ignored => write!(out, "ignored: it cannot happen now"),
        Said::Absent => write!(out, "absent: no such number"),
    }
}

// Messages, in words.

/// The depth that the parts ask of a level, 0 where they ask none.
pub fn depth_at(parts: &[Part], level: usize) -> u8 {
    parts.get(level).map(|part| part.depth).unwrap_or(0)
}

/// The depths that the parts ask of the levels from 0 to 3.
fn depths_of(parts: &[Part]) -> [u8; 4] {
    [
        depth_at(parts, 0),
        depth_at(parts, 1),
        depth_at(parts, 2),
        depth_at(parts, 3),
    ]
}

/// Writes what the message of a number is, if there is one, and its core.
pub fn write_message(
    out: &mut String,
    number: u64,
    message: Option<&Message>,
) -> Result<(), AllocError> {
    let Some(message) = message else {
        return write!(out, "message {number}");
    };
    write!(out, "{} #{number}", kind_name(message.kind))?;
    match message.kind {
        Kind::Down | Kind::Start => write!(out, " of core {}", message.core.number),
        Kind::Off | Kind::Reset => Ok(()),
    }
}

/// Writes a message that is sent on a board of this height, with what it asks for.
pub fn write_sent(out: &mut String, height: u32, sent: &Sent) -> Result<(), AllocError> {
    let message = &sent.message;
    write!(out, "{} #{}", kind_name(message.kind), sent.index)?;
    match message.kind {
        Kind::Down => {
            write!(out, ": ")?;
            write_shares(out, height, depths_of(message.parts.as_slice()))
        }
        Kind::Start => write!(out, " of core {}", message.core.number),
        Kind::Off | Kind::Reset => Ok(()),
    }
}

// Which cores are suspended, and how deep.

/// A suspended core: what it asked of itself, and in which life.
#[derive(Clone, Copy)]
pub struct Sleep {
    /// 1 standby, 2 retention, 3 power-down.
    pub depth: u8,
    /// The life.
    pub life: u32,
}

/// The sleep of each core after this record, by those before it. Before any record no core has one.
pub fn note(sleeps: &mut [Option<Sleep>], item: &Record) {
    let Said::Fw { act, sent } = &item.said else {
        return;
    };
    match &item.event {
        Event::Call(core, regs) => {
            set(sleeps, *core, sleep_by(read(*regs), act, sent.as_ref()));
        }
        Event::Enter(core) => set(sleeps, *core, None),
        Event::Wake(_) | Event::Reset(_) | Event::Deliver(_) | Event::Take(_) => {}
    }
}

/// Sets the sleep of the core of this number, if there is one.
fn set(sleeps: &mut [Option<Sleep>], core: u64, sleep: Option<Sleep>) {
    let place = core as usize;
    if place < sleeps.len() {
        sleeps[place] = sleep;
    }
}

/// Whether a function suspends its caller.
fn is_suspend(request: Request) -> bool {
    matches!(
        request,
        Request::CpuSuspend { .. } | Request::SystemSuspend { .. }
    )
}

/// The sleep that a call leaves.
fn sleep_by(request: Request, act: &Act, sent: Option<&Sent>) -> Option<Sleep> {
    let Act::Stop = act else {
        return None;
    };
    if !is_suspend(request) {
        return None;
    }
    let message = &sent?.message;
    Some(Sleep {
        depth: depth_at(message.parts.as_slice(), 0),
        life: message.life,
    })
}
