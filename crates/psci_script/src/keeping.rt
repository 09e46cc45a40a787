//! A run, kept as a script: its board line, and a line for each event that happened.
//!
//! - A *kept line* is the event line of the script grammar that says an event, with every register
//!   in hexadecimal.

ghost use Rattle.std.specs.Prelude.{OnOk};
ghost use Rattle.std.specs.Io.KnownBytes.{Appends};
ghost use Rattle.psci_script.specs.EventText.{script_text};

use psci_world_spec::{Event, Record, Regs};
use std::fmt;
use std::io::{self, Write};

/// An event, as a script has it.
#[derive(Clone, Copy)]
struct EventText<'a>(&'a Event);

/// Writes the script of these records, the oldest first, on the board of this text: the board line,
/// and the line of each event.
pub fn write_script<W: Write>(to: &mut W, board: &str, records: &[Record]) -> io::Result<()>
    ensures { OnOk result (Appends (W.contents to.old) (W.contents to.new)
        (script_text board.now records.now)) }
{
    writeln!(to, "board {board}")?;
    'records: for record in records {
        writeln!(to, "{}", EventText(&record.event))?;
    }
    Ok(())
}

impl fmt::Display for EventText<'_> {
    ghost use Rattle.std.specs.Prelude.{Some};
    ghost use Rattle.psci_script.specs.EventText.{event_line};

    ghost output = { λ text. Some (event_line text.0.now) };

    fn fmt<W: fmt::Write>(&self, f: &mut fmt::Formatter<W>) -> fmt::Result {
        match self.0 {
            Event::Call(core, Regs { x0, x1, x2, x3 }) => {
                write!(f, "call {core} 0x{x0:x} 0x{x1:x} 0x{x2:x} 0x{x3:x}")
            }
            Event::Enter(core) => write!(f, "enter {core}"),
            Event::Wake(core) => write!(f, "wake {core}"),
            Event::Reset(core) => write!(f, "reset {core}"),
            Event::Deliver(number) => write!(f, "deliver {number}"),
            Event::Take(number) => write!(f, "take {number}"),
        }
    }
}
