//! Scripts, answered event by event.

ghost use Rattle.std.specs.Prelude.{◌≡◌, false, OnOk, IfErr};
ghost use Rattle.psci_script.specs.Progress.{OnlyGivenUp, Replays};
ghost use Rattle.psci_answers.specs.ScriptRun.{Prints};

use crate::laws::law_safe_scripts;
use psci_machine::{Memory, Present};
use psci_script::{Answers, Board, Event, ReplayFault, Replayed, Sink, Source, Teller, tell};
use std::alloc::{AllocError, Global};

/// The one form that a replay tells in: an answer line for each event.
#[derive(Clone, Copy)]
struct AnswerLines;

/// A replay on its way: the present, and nothing of the past.
#[derive(Drop)]
struct Answering {
    present: Present,
}

impl Teller<AnswerLines> for Answering {
    ghost use Rattle.psci_machine.specs.Seen.{IsPresent};
    ghost use Rattle.psci_answers.specs.ScriptRun.{AnswersRun};

    ghost is_at = { λ answering form run. IsPresent run.board run.past answering.present };

    ghost told = { λ form run text. AnswersRun run text };

    /// Nothing stands before the answers.
    fn open(_alloc: Global, _form: AnswerLines, _answers: &mut Answers) -> Result<(), AllocError> {
        Ok(())
    }

    /// The present of the board; nothing is answered to its line.
    fn begin(
        alloc: Global,
        _form: AnswerLines,
        board: &Board,
        _line: &[u8],
        _answers: &mut Answers,
    ) -> Result<Answering, Memory> {
        Ok(Answering {
            present: Present::new(alloc, board)?,
        })
    }

    /// Makes the event happen, and adds the answer.
    // In place, since a call would save its registers on each event.
    #[inline(always)]
    fn tell(&mut self, event: Event, _line: &[u8], answers: &mut Answers) -> Result<(), Memory> {
        let said = self.present.happen(event)?;
        answers.add(&said)?;
        Ok(())
    }
}

/// Answers the script that comes from the source into the sink, as `replay` does.
#[tactic(auto, using(crate::proofs::Answers::replays))]
fn replay_lines<S: Source, K: Sink>(
    alloc: Global,
    source: &mut S,
    sink: &mut K,
) -> Result<Replayed, ReplayFault>
    requires source { S.failed source.old ≡ false }
    requires sink { K.failed sink.old ≡ false }
    ensures sound { OnOk result ((S.failed source.new ≡ false) × (K.failed sink.new ≡ false)) }
    ensures replays { Replays result (S.left source.old) (S.left source.new)
        (K.taken sink.old) (K.taken sink.new) }
    ensures given_up { IfErr result (OnlyGivenUp S.failed S.interruptions K.failed K.interruptions
        source.new sink.new) }
{
    tell::<AnswerLines, Answering, S, K>(alloc, AnswerLines, source, sink)
}

/// Answers the script that comes from the source into the sink: its events happen one after another
/// in the world of its board, of which no record is kept.
///
/// Where it ends well, or at a script or board fault, exactly the answer text of the script was
/// written. At a read fault it is the answer text of all whole lines that were read, after which
/// stands at most the front of a line. At a memory fault it is that of some whole lines at the
/// front, after which no more was read than one block has room for. None of these lines is at
/// fault. At a write fault it is a front part of the answer text. A read or write fault is answered
/// only where that device failed, took none of some bytes, or was interrupted 1,000 times in a row;
/// where the replay ends well neither device has failed.
///
/// What is written is the answer text of a legal run, or a front part of it, and the world is safe
/// at every moment of that run.
#[tactic(auto, using(crate::proofs::ScriptRuns::prints))]
pub fn replay<S: Source, K: Sink>(
    alloc: Global,
    source: &mut S,
    sink: &mut K,
) -> Result<Replayed, ReplayFault>
    requires source { S.failed source.old ≡ false }
    requires sink { K.failed sink.old ≡ false }
    ensures sound { OnOk result ((S.failed source.new ≡ false) × (K.failed sink.new ≡ false)) }
    ensures replays { Replays result (S.left source.old) (S.left source.new)
        (K.taken sink.old) (K.taken sink.new) }
    ensures given_up { IfErr result (OnlyGivenUp S.failed S.interruptions K.failed K.interruptions
        source.new sink.new) }
    ensures safe { Prints result (S.left source.old) (K.taken sink.old) (K.taken sink.new) }
{
    law_safe_scripts();
    replay_lines(alloc, source, sink)
}
