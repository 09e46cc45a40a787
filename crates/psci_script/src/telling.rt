//! Scripts, told event by event.

ghost use Rattle.std.specs.Prelude.{◌+◌, ◌-◌, ◌<◌, ◌^◌, ◌≡◌, ◌≤◌, [], false, IfErr, IfOk, length};
ghost use Rattle.std.specs.Prelude.{List, None, OnOk, Option, Some, ℕ};
ghost use Rattle.psci_script.specs.EventText.{block_room, line_of, longest_line, most_lines};
ghost use Rattle.psci_script.specs.Progress.{FindsLine, is_write_fault, IsLine, IsNoDevice};
ghost use Rattle.psci_script.specs.Progress.{KeepsDevices, LineRefused, OnlyGivenUp, progress};
ghost use Rattle.psci_script.specs.Progress.{progress_of, ReadsAhead, SameDevices, StaySound};
ghost use Rattle.psci_script.specs.Told.{EndsBy, Goes, IsUnderWay, IsUntold, LineTold, Runs};
ghost use Rattle.psci_script.specs.Told.{ScriptRun, Tells};

use crate::answer_line::read_board;
use crate::answers::Answers;
use crate::block::Block;
use crate::device::{Sink, Source};
use crate::fault::{ReplayFault, Replayed, ScriptFault};
use crate::grammar::{Line, read_line};
use crate::teller::Teller;
use crate::transfer::{Extent, Front, MOST_LINES, cut, last_line};
use std::alloc::Global;

/// Makes the event happen that a line says, if it says one, and tells of it.
// In place, since a call would save its registers on each event.
#[inline(always)]
fn tell_line<F: Copy, T: Teller<F>>(
    teller: &mut T,
    line: &[u8],
    answers: &mut Answers,
    number: u64,
) -> Result<(), ReplayFault>
    requires { answers.old.events < 2 ^ 64 - 1 }
    ensures ok { OnOk result ((form : F) (run : ScriptRun) → T.is_at teller.old form run
        → answers.old.events ≡ length run.past
        → LineTold (T.is_at teller.new form) (T.told form) (line_of line.now) run
        answers.old answers.new) }
    ensures count { OnOk result (answers.new.events ≤ answers.old.events + 1) }
    ensures err { IfErr result (λ fault. LineRefused fault number (line_of line.now)
        × (answers.new ≡ answers.old)) }
{
    match read_line(line) {
        None => Err(ScriptFault::Line.at(number)),
        Some(Line::Blank) => Ok(()),
        Some(Line::Event(event)) => {
            teller.tell(event, line, answers)?;
            Ok(())
        }
    }
}

/// Tells what stands before the script.
fn open<F: Copy, T: Teller<F>, S: Source, K: Sink>(
    progress: &mut Progress<'_, '_, S, K>,
    alloc: Global,
    form: F,
) -> Result<(), ReplayFault>
    requires { IsUntold (T.told form) S.left K.taken progress.old }
    ensures kept { KeepsDevices S.failed K.failed progress.old progress.new }
    ensures ok { OnOk result (Goes (T.told form) None 0 (S.left progress.old.source.now)
        (K.taken progress.old.sink.now) (progress_of S.left K.taken progress.new)) }
    ensures err { IfErr result (λ fault. IsNoDevice fault × EndsBy (T.told form) fault
        (S.left progress.old.source.now) (K.taken progress.old.sink.now)
        (progress_of S.left K.taken progress.new)) }
{
    T::open(alloc, form, progress.answers)?;
    Ok(())
}

/// The teller of the board that the first line has, before any event.
fn begin<F: Copy, T: Teller<F>, S: Source, K: Sink>(
    progress: &mut Progress<'_, '_, S, K>,
    alloc: Global,
    form: F,
) -> Result<T, ReplayFault>
    ensures devices { SameDevices progress.old progress.new }
    ensures sound { OnOk result (StaySound S.failed K.failed progress.old progress.new) }
    ensures ok { IfOk result (λ teller. (first before : Option (List ℕ))
        → Goes (T.told form) None 0 first before (progress_of S.left K.taken progress.old)
        → IsUnderWay (T.is_at teller form) (T.told form) 1 first before
        (progress_of S.left K.taken progress.new)) }
    ensures err { IfErr result (λ fault. (first before : Option (List ℕ))
        → Goes (T.told form) None 0 first before (progress_of S.left K.taken progress.old)
        → EndsBy (T.told form) fault first before (progress_of S.left K.taken progress.new)) }
    ensures given_up { IfErr result (OnlyGivenUp S.failed S.interruptions K.failed
        K.interruptions progress.new.source.now progress.new.sink.now) }
{
    let Some(extent) = progress.next_line(1)? else {
        return Err(ScriptFault::NoBoard.at(1));
    };
    let line = &progress.block.unread()[..extent.line];
    let board = read_board(alloc, line)?;
    let teller = T::begin(alloc, form, &board, line, progress.answers)?;
    progress.block.skip(extent.taken);
    Ok(teller)
}

/// Takes and tells a line, after so many others.
fn take_line<F: Copy, T: Teller<F>, S: Source, K: Sink>(
    progress: &mut Progress<'_, '_, S, K>,
    teller: &mut T,
    extent: Extent,
    count: u64,
) -> Result<(), ReplayFault>
    requires line { IsLine extent progress.old.block.now × (count < most_lines) }
    requires events { progress.old.answers.now.events < 2 ^ 64 - 1 }
    ensures kept { KeepsDevices S.failed K.failed progress.old progress.new }
    ensures ok { OnOk result ((progress.new.answers.now.events
        ≤ progress.old.answers.now.events + 1)
        × ((form : F) (first before : Option (List ℕ))
        → IsUnderWay (T.is_at teller.old form) (T.told form) count first before
        (progress_of S.left K.taken progress.old)
        → IsUnderWay (T.is_at teller.new form) (T.told form) (count + 1) first before
        (progress_of S.left K.taken progress.new))) }
    ensures err { IfErr result (λ fault. IsNoDevice fault
        × ((form : F) (first before : Option (List ℕ))
        → IsUnderWay (T.is_at teller.old form) (T.told form) count first before
        (progress_of S.left K.taken progress.old)
        → EndsBy (T.told form) fault first before (progress_of S.left K.taken progress.new))) }
{
    let line = &progress.block.unread()[..extent.line];
    tell_line(teller, line, progress.answers, count + 1)?;
    progress.block.skip(extent.taken);
    Ok(())
}

/// Tells each line behind the board line; the last texts may still wait to be written.
fn tell_lines<F: Copy, T: Teller<F>, S: Source, K: Sink>(
    progress: &mut Progress<'_, '_, S, K>,
    teller: &mut T,
) -> Result<Replayed, ReplayFault>
    requires { progress.old.answers.now.events ≤ 1 }
    ensures devices { SameDevices progress.old progress.new }
    ensures sound { OnOk result (StaySound S.failed K.failed progress.old progress.new) }
    ensures runs { (form : F) (first before : Option (List ℕ))
        → IsUnderWay (T.is_at teller.old form) (T.told form) 1 first before
        (progress_of S.left K.taken progress.old)
        → Runs (T.told form) result first before (progress_of S.left K.taken progress.new) }
    ensures given_up { IfErr result (OnlyGivenUp S.failed S.interruptions K.failed
        K.interruptions progress.new.source.now progress.new.sink.now) }
{
    let mut lines: u64 = 1;
    'lines: while let Some(extent) = progress.next_line(lines + 1)? {
        take_line(progress, teller, extent, lines)?;
        lines += 1;
    }
    Ok(Replayed {
        lines,
        events: progress.answers.events(),
    })
}

/// Tells the script; the last texts may still wait to be written.
fn run_lines<F: Copy, T: Teller<F>, S: Source, K: Sink>(
    progress: &mut Progress<'_, '_, S, K>,
    alloc: Global,
    form: F,
) -> Result<Replayed, ReplayFault>
    requires { IsUntold (T.told form) S.left K.taken progress.old }
    ensures devices { SameDevices progress.old progress.new }
    ensures sound { OnOk result (StaySound S.failed K.failed progress.old progress.new) }
    ensures runs { Runs (T.told form) result
        (S.left progress.old.source.now) (K.taken progress.old.sink.now)
        (progress_of S.left K.taken progress.new) }
    ensures given_up { IfErr result (OnlyGivenUp S.failed S.interruptions K.failed
        K.interruptions progress.new.source.now progress.new.sink.now) }
{
    open::<F, T, S, K>(progress, alloc, form)?;
    let mut teller: T = begin(progress, alloc, form)?;
    tell_lines(progress, &mut teller)
}

/// Whether a write failed.
fn is_write_fault(ended: &Result<Replayed, ReplayFault>) -> bool
    ensures { result ≡ is_write_fault ended.now }
{
    matches!(ended, Err(ReplayFault::Write))
}

/// Tells the script, and writes the last texts.
fn complete<F: Copy, T: Teller<F>, S: Source, K: Sink>(
    progress: &mut Progress<'_, '_, S, K>,
    alloc: Global,
    form: F,
) -> Result<Replayed, ReplayFault>
    requires { IsUntold (T.told form) S.left K.taken progress.old }
    ensures devices { SameDevices progress.old progress.new }
    ensures sound { OnOk result (StaySound S.failed K.failed progress.old progress.new) }
    ensures tells { Tells (T.told form) result
        (S.left progress.old.source.now) (S.left progress.new.source.now)
        (K.taken progress.old.sink.now) (K.taken progress.new.sink.now) }
    ensures given_up { IfErr result (OnlyGivenUp S.failed S.interruptions K.failed
        K.interruptions progress.new.source.now progress.new.sink.now) }
{
    let ended = run_lines::<F, T, S, K>(progress, alloc, form);
    if is_write_fault(&ended) {
        return ended;
    }
    progress.answers.write_to(progress.sink)?;
    ended
}

/// Tells the script that comes from the source in this form, into the sink.
///
/// Where it ends well, or at a script or board fault, it ends as a replay of the script does, and
/// exactly what is told of the script's run was written. At a read fault it is what is told of the
/// run of all whole lines that were read, after which stands at most the front of a line. At a
/// memory fault it is that of some whole lines at the front, after which no more was read than one
/// block has room for. None of these lines is at fault. At a write fault it is a front part. A read
/// or write fault is answered only where that device failed, took none of some bytes, or was
/// interrupted 1,000 times in a row; where it ends well neither device has failed.
pub fn tell<F: Copy, T: Teller<F>, S: Source, K: Sink>(
    alloc: Global,
    form: F,
    source: &mut S,
    sink: &mut K,
) -> Result<Replayed, ReplayFault>
    requires sound { (S.failed source.old ≡ false) × (K.failed sink.old ≡ false) }
    requires nothing { T.told form None [] }
    ensures sound { OnOk result ((S.failed source.new ≡ false) × (K.failed sink.new ≡ false)) }
    ensures tells { Tells (T.told form) result (S.left source.old) (S.left source.new)
        (K.taken sink.old) (K.taken sink.new) }
    ensures given_up { IfErr result (OnlyGivenUp S.failed S.interruptions K.failed K.interruptions
        source.new sink.new) }
{
    let mut block = Block::new(alloc)?;
    let mut answers = Answers::new(alloc)?;
    let mut progress = Progress::new(source, sink, &mut block, &mut answers);
    complete::<F, T, S, K>(&mut progress, alloc, form)
}

// How far a replay has come.

/// The line of so many bytes with its line feed behind it.
// In place, as is what calls it.
#[inline(always)]
fn whole_line(length: usize) -> Extent
    requires { length ≤ longest_line }
    ensures { result ≡ record { line = length; taken = length + 1 } }
{
    Extent {
        line: length,
        taken: length + 1,
    }
}

/// A replay on its way: its devices, the bytes that were read ahead, and the answers so far.
#[derive(Drop)]
pub struct Progress<'d, 'b, S, K> {
    /// Where the script comes from.
    pub source: &'d mut S,
    /// Where the answers go to.
    pub sink: &'d mut K,
    /// The bytes that were read ahead.
    pub block: &'b mut Block,
    /// The answers to the events so far.
    pub answers: &'b mut Answers,
}

impl<'d, 'b, S: Source, K: Sink> Progress<'d, 'b, S, K> {
    /// The replay between these devices, with these rooms.
    pub fn new(
        source: &'d mut S,
        sink: &'d mut K,
        block: &'b mut Block,
        answers: &'b mut Answers,
    ) -> Progress<'d, 'b, S, K>
        ensures source { result.source.ghost_name ≡ source.entry.ghost_name }
        ensures sink { result.sink.ghost_name ≡ sink.entry.ghost_name }
        ensures progress { progress_of S.left K.taken result
            ≡ progress block.old (S.left source.old) answers.old (K.taken sink.old) }
        ensures sources { result.source.now ≡ source.old }
        ensures sinks { result.sink.now ≡ sink.old }
    {
        Progress {
            source,
            sink,
            block,
            answers,
        }
    }

    /// Writes all answers, and then reads bytes after those that are here; says whether any came.
    fn read_ahead(&mut self) -> Result<bool, ReplayFault>
        requires { length self.old.block.now.unread < block_room }
        ensures devices { SameDevices self.old self.new }
        ensures sound { OnOk result (StaySound S.failed K.failed self.old self.new) }
        ensures ahead { ReadsAhead result (progress_of S.left K.taken self.old)
            (progress_of S.left K.taken self.new) }
        ensures given_up { IfErr result (OnlyGivenUp S.failed S.interruptions K.failed
            K.interruptions self.new.source.now self.new.sink.now) }
    {
        self.answers.write_to(self.sink)?;
        self.block.refill(self.source)
    }

    /// The line of this number, counted from 1, or none where the script has ended.
    ///
    /// Bytes are read until the line is whole, and before that all answers are written.
    // In place, since a call would write what it answers to memory, on each line.
    #[inline(always)]
    pub fn next_line(&mut self, number: u64) -> Result<Option<Extent>, ReplayFault>
        ensures devices { SameDevices self.old self.new }
        ensures sound { OnOk result (StaySound S.failed K.failed self.old self.new) }
        ensures found { FindsLine number result (progress_of S.left K.taken self.old)
            (progress_of S.left K.taken self.new) }
        ensures given_up { IfErr result (OnlyGivenUp S.failed S.interruptions K.failed
            K.interruptions self.new.source.now self.new.sink.now) }
    {
        loop {
            let unread = self.block.unread();
            if !unread.is_empty() && number > MOST_LINES {
                return Err(ScriptFault::TooMany.at(number));
            }
            match cut(unread) {
                Front::Whole(length) => return Ok(Some(whole_line(length))),
                Front::Long => return Err(ScriptFault::Long.at(number)),
                Front::Part => {}
            }
            if !self.read_ahead()? {
                return Ok(last_line(self.block.unread()));
            }
        }
    }
}
