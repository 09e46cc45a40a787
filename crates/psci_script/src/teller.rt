//! Who makes the events of a script happen, and tells what came of them.

ghost use Rattle.std.specs.Prelude.{◌++◌, ◌+◌, ◌-◌, ◌<◌, ◌^◌, ◌≡◌, ◌≤◌, [], IfOk, length, List};
ghost use Rattle.std.specs.Prelude.{None, OnErr, OnOk, Option, Some, ℕ};
ghost use Rattle.psci_script.specs.EventText.{line_of};
ghost use Rattle.psci_script.specs.declared.grammar.Line.TheVariants.{Event as Says};
ghost use Rattle.psci_script.specs.Told.{EventTold, ScriptRun, with_record};

use crate::answers::Answers;
use psci_world_spec::{Board, Event, Memory};
use std::alloc::{AllocError, Global};

/// What happens by the lines of a script, and is told of it in some form.
pub trait Teller<F: Copy>: Drop {
    /// It stands after this run, and tells of it in this form.
    ghost is_at: { Self → F → ScriptRun → Type 0 };

    /// What may be told of a run in this form, or before there is one.
    ghost told: { F → Option ScriptRun → List ℕ → Type 0 };

    /// Tells what stands before the script; or is out of memory, and tells nothing.
    fn open(alloc: Global, form: F, answers: &mut Answers) -> Result<(), AllocError>
        requires { answers.old.waiting ≡ [] }
        ensures ok { OnOk result (told form None answers.new.waiting) }
        ensures events { answers.new.events ≡ answers.old.events }
        ensures err { OnErr result (answers.new ≡ answers.old) };

    /// The teller of the board of this first line, before any event; or is out of memory, and tells
    /// nothing.
    fn begin(
        alloc: Global,
        form: F,
        board: &Board,
        line: &[u8],
        answers: &mut Answers,
    ) -> Result<Self, Memory>
        ensures at { IfOk result (λ teller. is_at teller form (record {
          board = board.now;
          past = [];
        })) }
        ensures told { OnOk result ((text : List ℕ) → told form None (text ++ answers.old.waiting)
            → told form (Some (record { board = board.now; past = [] }))
            (text ++ answers.new.waiting)) }
        ensures events { answers.new.events ≡ answers.old.events }
        ensures err { OnErr result (answers.new ≡ answers.old) };

    /// Makes the event happen that this line says, and tells of it; or is out of memory, and tells
    /// nothing.
    fn tell(&mut self, event: Event, line: &[u8], answers: &mut Answers) -> Result<(), Memory>
        requires says { line_of line.now ≡ Some (Says event) }
        requires events { answers.old.events < 2 ^ 64 - 1 }
        ensures ok { OnOk result ((form : F) (run : ScriptRun) → is_at self.old form run
            → answers.old.events ≡ length run.past
            → (is_at self.new form (with_record run event)
            × EventTold (told form) run event answers.old answers.new)) }
        ensures count { OnOk result (answers.new.events ≤ answers.old.events + 1) }
        ensures err { OnErr result (answers.new ≡ answers.old) };
}
