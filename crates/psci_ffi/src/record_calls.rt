//! The lines of what a core does: its calls and entries, and what it leaves with.

ghost use Rattle.std.specs.Prelude.{◌≡◌};
ghost use Rattle.psci_record.specs.Texts.{begins_text, call_text, enter_text, leaves_text};
ghost use Rattle.psci_record.specs.Texts.{poll_text, stands_text};
ghost use Rattle.psci_ffi.specs.Records.{Tells, answer_of, core_given, frame_given, outcome_given};
ghost use Rattle.psci_ffi.specs.Records.{polled_given, started_given};
ghost use Rattle.psci_ffi.specs.Shown.{regs_given};

use crate::answer::{Answer, SomeFrame, nothing_asked};
use crate::codes::NO_FIRMWARE;
use crate::controller_calls::ControllerStart;
use crate::port_core::PortOrders;
use crate::record_line::{RecordCore, RecordLine, core_given};
use psci_abi::low;
use psci_fw::Regs;
use psci_link::FRAME_LEN;
use psci_record::{
    Begun, Next, Outcome, Polled, Started, write_begins, write_call, write_enter, write_leaves,
    write_poll, write_stands,
};

/// The line of a call with these registers, as the caller had them, and of its answer.
#[unsafe(no_mangle)]
pub extern "C" fn psci_record_call(
    line: &mut RecordLine,
    core: &RecordCore,
    x0: u64,
    x1: u64,
    x2: u64,
    x3: u64,
    answer: &Answer,
)
    ensures { Tells line.new
        (call_text (core_given core.now) (regs_given x0 x1 x2 x3) (outcome_given answer.now)) }
{
    let regs = Regs { x0, x1, x2, x3 };
    let outcome = outcome_given(answer);
    line.length = write_call(core_given(core), &regs, &outcome, &mut line.text) as u32;
}

/// The line of a poll with these registers, and of what `psci_poll` answered.
#[unsafe(no_mangle)]
pub extern "C" fn psci_record_poll(
    line: &mut RecordLine,
    core: &RecordCore,
    x0: u64,
    x1: u64,
    x2: u64,
    code: i32,
)
    ensures { Tells line.new
        (poll_text (core_given core.now) (regs_given x0 x1 x2 0) (polled_given code)) }
{
    let regs = Regs { x0, x1, x2, x3: 0 };
    let polled = polled_given(code);
    line.length = write_poll(core_given(core), &regs, polled, &mut line.text) as u32;
}

/// The line of an entry by a start, and of its answer.
#[unsafe(no_mangle)]
pub extern "C" fn psci_record_enter(
    line: &mut RecordLine,
    core: &RecordCore,
    start: &ControllerStart,
    answer: &Answer,
)
    ensures { Tells line.new
        (enter_text (core_given core.now) (started_given start.now) (outcome_given answer.now)) }
{
    let started = started_given(start);
    let outcome = outcome_given(answer);
    line.length = write_enter(core_given(core), started, &outcome, &mut line.text) as u32;
}

/// The line of a core that goes back to its caller with this register.
#[unsafe(no_mangle)]
pub extern "C" fn psci_record_leaves(line: &mut RecordLine, core: &RecordCore, x0: u64)
    ensures { Tells line.new (leaves_text (core_given core.now) x0) }
{
    line.length = write_leaves(core_given(core), x0, &mut line.text) as u32;
}

/// The line of a core that begins in the normal world at this address, with this register, in the
/// state of SPSR_EL3 and of the SCTLR of its exception level.
#[unsafe(no_mangle)]
pub extern "C" fn psci_record_begins(
    line: &mut RecordLine,
    core: &RecordCore,
    address: u64,
    x0: u64,
    spsr: u64,
    sctlr: u64,
)
    ensures { Tells line.new (begins_text (core_given core.now)
        (record { address = address; x0 = x0; spsr = spsr; sctlr = sctlr })) }
{
    let begun = Begun {
        address,
        x0,
        spsr,
        sctlr,
    };
    line.length = write_begins(core_given(core), &begun, &mut line.text) as u32;
}

/// The line of a core that is in its stop of the start of this number.
#[unsafe(no_mangle)]
pub extern "C" fn psci_record_stands(line: &mut RecordLine, core: &RecordCore, number: u32)
    ensures { Tells line.new (stands_text (core_given core.now) number) }
{
    line.length = write_stands(core_given(core), number, &mut line.text) as u32;
}

/// What the orders of a core's side of a port answer, without what they ask: the code of a call,
/// and not its register.
#[unsafe(no_mangle)]
pub extern "C" fn psci_record_answer(orders: &PortOrders, answer: &mut Answer)
    ensures { answer.new ≡ answer_of orders.now }
{
    let (what, code, address, context) = match orders.next {
        0 => (0, low(orders.x0).cast_signed(), 0, 0),
        1 => (2, 0, orders.address, orders.x0),
        2 => (3, 0, 0, 0),
        3 => (1, 0, 0, 0),
        refused => (refused, 0, 0, 0),
    };
    *answer = Answer {
        what,
        code,
        address,
        context,
        message: orders.message,
        asked: nothing_asked(),
    };
}

/// What came of a call or an entry, as a line says it.
#[inline(never)]
fn outcome_given(answer: &Answer) -> Outcome
    ensures { result ≡ outcome_given answer.now }
{
    let next = match answer.what {
        0 => Next::Return(answer.code),
        1 => Next::Stop,
        2 => Next::Enter {
            address: answer.address,
            context: answer.context,
        },
        3 => Next::Resume,
        refused => Next::Refused(refused),
    };
    Outcome {
        next,
        message: frame_given(&answer.message),
    }
}

/// The bytes of a frame, if there is one.
pub fn frame_given(frame: &SomeFrame) -> Option<[u8; FRAME_LEN]>
    ensures { result ≡ frame_given frame.now }
{
    if frame.some { Some(frame.bytes) } else { None }
}

/// What came of a poll, as a line says it.
fn polled_given(code: i32) -> Polled
    ensures { result ≡ polled_given code }
{
    if code == NO_FIRMWARE as i32 {
        Polled::Refused(NO_FIRMWARE)
    } else {
        Polled::Code(code)
    }
}

/// A start, as a line says it.
fn started_given(start: &ControllerStart) -> Started
    ensures { result ≡ started_given start.now }
{
    Started {
        life: start.life,
        number: start.number,
        cause: start.cause,
    }
}
