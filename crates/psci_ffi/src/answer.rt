//! What C is answered, and what a call asks beside what the firmware is told.

ghost use Rattle.std.specs.Prelude.{◌≡◌, option_map};
ghost use Rattle.psci_fw.specs.Reactions.{reply_in, seen};
ghost use Rattle.psci_fw_spec.specs.declared.reply.FwReply.TheVariants.{Out};
ghost use Rattle.psci_ffi.specs.Shown.{act_shown, asked_shown, frame_shown, no_frame};
ghost use Rattle.psci_ffi.specs.Shown.{nothing_asked, refused, shown, with_asked};

use crate::codes::refusal;
use crate::held::Held;
use psci_fw::{Act, FwFault, Outcome, Reaction};
use psci_link::{FRAME_LEN, write_message};
use psci_messages::Message;
use psci_platform::Asked;
use std::mem::size_of;

/// What a call asks beside what the firmware is told.
#[repr(C)]
#[derive(Clone, Copy)]
pub struct GivenAsked {
    /// 0 nothing, 1 states, 2 a reset of the vendor.
    pub what: u32,
    /// The number of the state of each level, from the core's up; else zeros.
    pub states: [u8; 4],
    /// The reset type; else 0.
    pub reset: u32,
}

// The size that psci.h gives it.
const _: () = prove!(size_of::<GivenAsked>() == 12);

/// What is asked, as C sees it.
#[inline(always)]
pub fn asked_shown(asked: Asked) -> GivenAsked
    ensures { result ≡ asked_shown asked }
{
    match asked {
        Asked::Nothing => nothing_asked(),
        Asked::States(states) => GivenAsked {
            what: 1,
            states,
            reset: 0,
        },
        Asked::Reset(reset) => GivenAsked {
            what: 2,
            states: [0; 4],
            reset,
        },
    }
}

/// Nothing is asked.
#[inline(always)]
pub fn nothing_asked() -> GivenAsked
    ensures { result ≡ nothing_asked }
{
    GivenAsked {
        what: 0,
        states: [0; 4],
        reset: 0,
    }
}

/// A frame, if there is one.
#[repr(C)]
#[derive(Clone, Copy)]
pub struct SomeFrame {
    /// Whether there is one.
    pub some: bool,
    /// Its bytes, else zeros.
    pub bytes: [u8; FRAME_LEN],
}

/// What came of a call.
#[repr(C)]
#[derive(Clone, Copy)]
pub struct Answer {
    /// 0 returns with the code, 1 stops, 2 enters at the address with the context, 3 resumes; from
    /// 16 on the call was refused, and nothing changed.
    pub what: u32,
    /// The return code.
    pub code: i32,
    /// The entry point.
    pub address: u64,
    /// The context id.
    pub context: u64,
    /// The message that is sent to the power controller.
    pub message: SomeFrame,
    /// Which of a machine's states or resets the call names.
    pub asked: GivenAsked,
}

// The sizes that psci.h gives these.
const _: () = prove!(size_of::<SomeFrame>() == 54);

const _: () = prove!(size_of::<Answer>() == 96);

/// No frame.
pub fn no_frame() -> SomeFrame
    ensures { result ≡ no_frame }
{
    SomeFrame {
        some: false,
        bytes: [0; FRAME_LEN],
    }
}

/// A refusal.
pub fn refused(what: u32) -> Answer
    ensures { result ≡ refused what }
{
    Answer {
        what,
        code: 0,
        address: 0,
        context: 0,
        message: no_frame(),
        asked: nothing_asked(),
    }
}

/// Writes a reply, as C sees it, beside what the call asks. The message is read where it stands.
/// Compiled into its callers, so that a reply has no room of its own.
#[inline(always)]
pub fn write_answer(answer: &mut Answer, held: &Held, made: Result<Reaction, FwFault>)
    ensures { answer.new ≡ with_asked answer.old.asked
        (shown (reply_in held.now.polled.firmware.board (seen held.now.polled.firmware) made)) }
{
    match made {
        Ok(reaction) => {
            write_act(answer, reaction.act);
            write_frame(&mut answer.message, held.sent(reaction.slot));
        }
        Err(fault) => {
            write_numbers(answer, refusal(fault), 0, 0, 0);
            answer.message = no_frame();
        }
    }
}

/// Writes an outcome, as C sees it, beside what the call asks.
pub fn write_outcome(answer: &mut Answer, outcome: &Outcome)
    ensures { answer.new ≡ with_asked answer.old.asked (shown (Out outcome.now)) }
{
    write_act(answer, outcome.act);
    write_frame(&mut answer.message, outcome.message.as_ref());
}

/// Writes what the core does next.
fn write_act(answer: &mut Answer, act: Act)
    ensures { answer.new ≡ with_asked answer.old.asked (act_shown act answer.old.message) }
{
    match act {
        Act::Return(code) => write_numbers(answer, 0, code.0, 0, 0),
        Act::Stop => write_numbers(answer, 1, 0, 0, 0),
        Act::Enter { address, context } => write_numbers(answer, 2, 0, address, context),
        Act::Resume => write_numbers(answer, 3, 0, 0, 0),
    }
}

/// Writes all but the message.
fn write_numbers(answer: &mut Answer, what: u32, code: i32, address: u64, context: u64)
    ensures { answer.new ≡ record {
      what = what;
      code = code;
      address = address;
      context = context;
      message = answer.old.message;
      asked = answer.old.asked;
    } }
{
    answer.what = what;
    answer.code = code;
    answer.address = address;
    answer.context = context;
}

/// Writes the frame of a message, if there is one.
pub fn write_frame(frame: &mut SomeFrame, message: Option<&Message>)
    ensures { frame.new ≡ frame_shown (option_map (λ message. message.now) message.entry) }
{
    match message {
        None => *frame = no_frame(),
        Some(message) => {
            frame.some = true;
            write_message(message, &mut frame.bytes);
        }
    }
}
