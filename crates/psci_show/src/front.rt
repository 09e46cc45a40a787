//! What the row of an event begins with: its number, and in JSON its line, the event and its
//! answer.

ghost use Rattle.std.specs.Prelude.{◌≡◌, ◌++◌, [], OnOk, codes, length, string_bytes};
ghost use Rattle.psci_script.specs.Text.{said_text};
ghost use Rattle.psci_show.specs.Shown.{event_object, front, object_start};

use crate::answer::put_answer;
use crate::event_object::write_event_object;
use crate::lines::{Form, put};
use crate::run::Run;
use psci_world::{Event, Record};
use std::alloc::AllocError;
use std::fmt;

/// A number in four places, or more where it needs them.
#[derive(Clone, Copy)]
struct NumberText(usize);

impl fmt::Display for NumberText {
    ghost use Rattle.std.specs.Prelude.{Some};
    ghost use Rattle.psci_show.specs.Shown.{number_text};

    ghost output = { λ text. Some (number_text text.0) };

    fn fmt<W: fmt::Write>(&self, f: &mut fmt::Formatter<W>) -> fmt::Result {
        let number = self.0;
        let before = if number < 10 {
            "   "
        } else if number < 100 {
            "  "
        } else if number < 1000 {
            " "
        } else {
            ""
        };
        write!(f, "{before}{number}")
    }
}

/// Writes what the row of the newest event begins with, which this line says.
pub fn write_front(
    out: &mut Vec<u8>,
    text: &mut String,
    form: Form,
    run: &Run,
    item: &Record,
    line: &[u8],
) -> Result<(), AllocError>
    requires { string_bytes text.old ≡ [] }
    ensures out { OnOk result (out.new.items
        ≡ out.old.items ++ front form (length run.now.past) line.now item.now.event
        (said_text item.now.said)) }
    ensures text { OnOk result (string_bytes text.new ≡ []) }
{
    match form {
        Form::Lines(_) => {
            write!(text, "{}", NumberText(run.world().records().len()))?;
            put(out, text)
        }
        Form::Json => {
            write_start(out, text, run)?;
            out.extend_from_slice(line)?;
            write_answered(out, text, &item.event)?;
            put_answer(out, &item.said)?;
            out.extend_from_slice(b"\"")
        }
    }
}

/// Writes what stands before the line of the newest event.
fn write_start(out: &mut Vec<u8>, text: &mut String, run: &Run) -> Result<(), AllocError>
    requires { string_bytes text.old ≡ [] }
    ensures out { OnOk result (out.new.items
        ≡ out.old.items ++ object_start (length run.now.past)) }
    ensures text { OnOk result (string_bytes text.new ≡ []) }
{
    let number = run.world().records().len();
    write!(text, "{{\"number\": {number}, \"line\": \"")?;
    put(out, text)
}

/// Writes what stands between the line of an event and its answer.
fn write_answered(out: &mut Vec<u8>, text: &mut String, event: &Event) -> Result<(), AllocError>
    requires { string_bytes text.old ≡ [] }
    ensures out { OnOk result (out.new.items ≡ out.old.items ++ (codes "\", \"event\": "
        ++ (event_object event.now ++ codes ", \"answer\": \""))) }
    ensures text { OnOk result (string_bytes text.new ≡ []) }
{
    write!(text, "\", \"event\": ")?;
    write_event_object(text, event)?;
    write!(text, ", \"answer\": \"")?;
    put(out, text)
}
