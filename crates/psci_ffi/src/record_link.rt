//! The lines of what the two sides send each other, and of what the power controller does.

ghost use Rattle.std.specs.Prelude.{◌≡◌};
ghost use Rattle.psci_record.specs.Texts.{deliver_text, reset_text, take_text, wake_text};
ghost use Rattle.psci_ffi.specs.Records.{Tells, acknowledged, core_given, kicked, taken_given};

use crate::answer::SomeFrame;
use crate::record_line::{RecordCore, RecordLine, core_given};
use psci_link::FRAME_LEN;
use psci_record::{Reply, Taken, write_deliver, write_reset, write_take, write_wake};

/// From this number on what a call answers is a refusal.
const REFUSALS: u32 = 16;

/// The line of an acknowledgement that the firmware got, and of what `psci_take` answered.
#[unsafe(no_mangle)]
pub extern "C" fn psci_record_take(line: &mut RecordLine, frame: &[u8; FRAME_LEN], what: u32)
    ensures { Tells line.new (take_text frame.now (taken_given what)) }
{
    line.length = write_take(frame, taken_given(what), &mut line.text) as u32;
}

/// The line of a message that the power controller got, and of its answer: the number and the
/// acknowledgement.
#[unsafe(no_mangle)]
pub extern "C" fn psci_record_deliver(
    line: &mut RecordLine,
    frame: &[u8; FRAME_LEN],
    what: u32,
    ack: &SomeFrame,
)
    ensures { Tells line.new (deliver_text frame.now (acknowledged what ack.now)) }
{
    let reply = acknowledged(what, ack);
    line.length = write_deliver(frame, &reply, &mut line.text) as u32;
}

/// The line of a wake-up of a core in its stop of the start of this number, and of the power
/// controller's answer: its number, and that of the start that it made, 0 for none.
#[unsafe(no_mangle)]
pub extern "C" fn psci_record_wake(
    line: &mut RecordLine,
    core: &RecordCore,
    number: u32,
    what: u32,
    started: u32,
)
    ensures { Tells line.new (wake_text (core_given core.now) number (kicked what started)) }
{
    let reply = kicked(what, started);
    line.length = write_wake(core_given(core), number, &reply, &mut line.text) as u32;
}

/// The same of a reset of a core by itself.
#[unsafe(no_mangle)]
pub extern "C" fn psci_record_reset(
    line: &mut RecordLine,
    core: &RecordCore,
    what: u32,
    started: u32,
)
    ensures { Tells line.new (reset_text (core_given core.now) (kicked what started)) }
{
    let reply = kicked(what, started);
    line.length = write_reset(core_given(core), &reply, &mut line.text) as u32;
}

/// What became of an acknowledgement.
fn taken_given(what: u32) -> Taken
    ensures { result ≡ taken_given what }
{
    match what {
        0 => Taken::Used,
        1 => Taken::Old,
        refused => Taken::Refused(refused),
    }
}

/// What the power controller did with a message.
#[inline(never)]
fn acknowledged(what: u32, ack: &SomeFrame) -> Reply
    ensures { result ≡ acknowledged what ack.now }
{
    if what >= REFUSALS {
        return Reply::Refused(what);
    }
    if ack.some {
        Reply::Acknowledged(ack.bytes)
    } else {
        Reply::Ignored
    }
}

/// What the power controller did at a wake-up or a reset.
fn kicked(what: u32, started: u32) -> Reply
    ensures { result ≡ kicked what started }
{
    if what >= REFUSALS {
        return Reply::Refused(what);
    }
    if started == 0 {
        Reply::Ignored
    } else {
        Reply::Started(started)
    }
}
