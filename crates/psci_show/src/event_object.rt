//! An event as a JSON object.

ghost use Rattle.std.specs.Prelude.{◌≡◌, ◌++◌, OnOk, string_bytes};
ghost use Rattle.psci_show.specs.Shown.{event_number, event_object, event_word, registers_member};

use psci_world::{Event, Regs};
use std::alloc::AllocError;

/// What an event is, and of which number.
fn kind_of(event: &Event) -> (&'static str, u64)
    ensures word { result.0.now ≡ event_word event.now }
    ensures number { result.1 ≡ event_number event.now }
{
    match event {
        Event::Call(core, _) => ("call", *core),
        Event::Enter(core) => ("enter", *core),
        Event::Wake(core) => ("wake", *core),
        Event::Reset(core) => ("reset", *core),
        Event::Deliver(number) => ("deliver", *number),
        Event::Take(number) => ("take", *number),
    }
}

/// Writes the registers of a call, if the event is one.
fn write_registers(out: &mut String, event: &Event) -> Result<(), AllocError>
    ensures { OnOk result (string_bytes out.new
        ≡ string_bytes out.old ++ registers_member event.now) }
{
    let Event::Call(_, Regs { x0, x1, x2, x3 }) = event else {
        return Ok(());
    };
    write!(
        out,
        ", \"registers\": [\"0x{x0:x}\", \"0x{x1:x}\", \"0x{x2:x}\", \"0x{x3:x}\"]"
    )
}

/// Writes the object of an event.
pub fn write_event_object(out: &mut String, event: &Event) -> Result<(), AllocError>
    ensures { OnOk result (string_bytes out.new ≡ string_bytes out.old ++ event_object event.now) }
{
    let (kind, number) = kind_of(event);
    write!(out, "{{\"kind\": \"{kind}\", \"number\": {number}")?;
    write_registers(out, event)?;
    write!(out, "}}")
}
