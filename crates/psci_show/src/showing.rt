//! Scripts, shown event by event.

ghost use Rattle.std.specs.Prelude.{◌++◌, ◌≡◌, [], false, IfErr, length, List, None, OnOk};
ghost use Rattle.std.specs.Prelude.{string_bytes, ℕ};
ghost use Rattle.psci_script.specs.Progress.{OnlyGivenUp};
ghost use Rattle.psci_script.specs.Text.{said_text};
ghost use Rattle.psci_script.specs.Told.{Tells};
ghost use Rattle.psci_show.specs.Shown.{IsHeading, IsShown, front};

use crate::event_json::{write_board, write_event};
use crate::front::write_front;
use crate::lines::{Form, put, write_lines};
use crate::run::Run;
use crate::state::write_legend;
use psci_script::{Answers, Event, ReplayFault, Replayed, Sink, Source, Teller, literal, tell};
use psci_world::{Board, Memory, Record};
use std::alloc::{AllocError, Global};

/// Room for what is written next.
#[derive(Drop)]
struct Texts {
    /// A row, or what stands before all rows.
    out: Vec<u8>,
    /// What stands in a row behind its front.
    more: Vec<u8>,
    /// A text that becomes part of either.
    text: String,
}

impl Texts {
    /// No texts.
    fn new(alloc: Global) -> Texts {
        Texts {
            out: Vec::new(alloc),
            more: Vec::new(alloc),
            text: String::new(alloc),
        }
    }

    /// What stands before the script is read.
    fn legend(&mut self, form: Form) -> Result<(), AllocError>
        ensures { OnOk result (IsShown form None self.new.out.items) }
    {
        self.clear();
        match form {
            Form::Lines(layout) if layout.legend => {
                write_legend(&mut self.text)?;
                put(&mut self.out, &mut self.text)
            }
            _ => Ok(()),
        }
    }

    /// What stands before all rows, of the board in this line.
    fn heading(&mut self, form: Form, line: &[u8], board: &Board) -> Result<(), AllocError>
        ensures { OnOk result (IsHeading form self.new.out.items) }
    {
        self.clear();
        match form {
            Form::Lines(_) => Ok(()),
            Form::Json => {
                write!(self.text, "{{\"board\": \"")?;
                put(&mut self.out, &mut self.text)?;
                self.out
                    .extend_from_slice(literal(line, b"board ").unwrap_or(&[]))?;
                write_board(&mut self.text, board)?;
                put(&mut self.out, &mut self.text)
            }
        }
    }

    /// The row of the newest event, which this line says.
    fn row(&mut self, form: Form, run: &Run, item: &Record, line: &[u8]) -> Result<(), AllocError>
        ensures { OnOk result ((more : List ℕ) × (self.new.out.items
            ≡ front form (length run.now.past) line.now item.now.event
            (said_text item.now.said) ++ more)) }
    {
        self.clear();
        write_front(&mut self.out, &mut self.text, form, run, item, line)?;
        match form {
            Form::Lines(layout) => write_lines(&mut self.more, &mut self.text, run, item, layout)?,
            Form::Json => {
                write_event(&mut self.text, run, item)?;
                put(&mut self.more, &mut self.text)?;
            }
        }
        self.out.extend_from_slice(&self.more)
    }

    /// Forgets all texts.
    fn clear(&mut self)
        ensures out { self.new.out.items ≡ [] }
        ensures text { string_bytes self.new.text ≡ [] }
    {
        self.out.clear();
        self.more.clear();
        self.text.clear();
    }
}

/// A shown script on its way.
#[derive(Drop)]
struct Showing {
    form: Form,
    run: Run,
    texts: Texts,
}

impl Teller<Form> for Showing {
    ghost use Rattle.psci_show.specs.Shown.{IsShown, IsShownOf};

    ghost is_at = { λ showing form run. IsShownOf showing.form showing.run form run };

    ghost told = { λ form run text. IsShown form run text };

    /// What the letters mean, where that is asked for.
    fn open(alloc: Global, form: Form, answers: &mut Answers) -> Result<(), AllocError> {
        let mut texts = Texts::new(alloc);
        texts.legend(form)?;
        answers.put(&texts.out)
    }

    /// The run of the board; in JSON its object is told.
    fn begin(
        alloc: Global,
        form: Form,
        board: &Board,
        line: &[u8],
        answers: &mut Answers,
    ) -> Result<Showing, Memory> {
        let run = Run::new(alloc, board)?;
        let mut texts = Texts::new(alloc);
        texts.heading(form, line, board)?;
        answers.put(&texts.out)?;
        Ok(Showing { form, run, texts })
    }

    /// Makes the event happen, and adds its row.
    fn tell(&mut self, event: Event, line: &[u8], answers: &mut Answers) -> Result<(), Memory> {
        let item = self.run.happen(event)?;
        self.texts.row(self.form, &self.run, &item, line)?;
        answers.add_text(&self.texts.out)?;
        Ok(())
    }
}

/// Shows the script that comes from the source in this form, into the sink: its events happen one
/// after another in the world of its board, and each is shown by the world after it. Its row begins
/// with its number; in JSON with the line of the event too, the event itself, and its answer, which
/// is that of its answer line.
///
/// It ends as a replay of the script does, at the same line with the same fault. Where it ends well
/// or at a script or board fault, exactly what is shown of the script's run was written: a row for
/// each event, in order. At a read fault it is that of all whole lines that were read, at a memory
/// fault that of some whole lines at the front, and at a write fault a front part. A read or write
/// fault is answered only where that device failed, took none of some bytes, or was interrupted
/// 1,000 times in a row; where it ends well neither device has failed.
pub fn show<S: Source, K: Sink>(
    alloc: Global,
    source: &mut S,
    sink: &mut K,
    form: Form,
) -> Result<Replayed, ReplayFault>
    requires source { S.failed source.old ≡ false }
    requires sink { K.failed sink.old ≡ false }
    ensures sound { OnOk result ((S.failed source.new ≡ false) × (K.failed sink.new ≡ false)) }
    ensures shows { Tells (IsShown form) result (S.left source.old) (S.left source.new)
        (K.taken sink.old) (K.taken sink.new) }
    ensures given_up { IfErr result (OnlyGivenUp S.failed S.interruptions K.failed K.interruptions
        source.new sink.new) }
{
    tell::<Form, Showing, S, K>(alloc, form, source, sink)
}
