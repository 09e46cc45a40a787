//! What the firmware answered, before what stands behind it.

ghost use Rattle.std.specs.Prelude.{◌≡◌, ◌+◌, ◌≤◌, ◌++◌, codes, drop, length};
ghost use Rattle.std.specs.Fmt.{signed_decimal};
ghost use Rattle.psci_record.specs.Texts.{message_text, next_text, outcome_text, polled_text};
ghost use Rattle.psci_record.specs.Texts.{refused_text, taken_text};

use crate::core_text::write_register;
use crate::digits::{write_code, write_number, write_word};
use crate::frame_text::write_frame;
use crate::line::{FRAME_BYTES, Next, Outcome, Polled, Taken};

/// Writes the answer to a call or an entry; answers where it begins.
#[inline(never)]
pub fn write_outcome(outcome: &Outcome, room: &mut [u8], end: usize) -> usize
    requires least { 150 ≤ end }
    requires within { end ≤ length room.old }
    ensures most { end ≤ result + 150 }
    ensures within { result ≤ end }
    ensures written { drop result room.new ≡ outcome_text outcome.now ++ drop end room.old }
{
    let start = write_message(&outcome.message, room, end);
    write_next(outcome.next, room, start)
}

/// Writes the answer to a poll; answers where it begins.
pub fn write_polled(polled: Polled, room: &mut [u8], end: usize) -> usize
    requires least { 28 ≤ end }
    requires within { end ≤ length room.old }
    ensures most { end ≤ result + 28 }
    ensures within { result ≤ end }
    ensures written { drop result room.new ≡ polled_text polled ++ drop end room.old }
{
    match polled {
        Polled::Code(code) => write_return(code, room, end),
        Polled::Refused(number) => write_refused(number, room, end),
    }
}

/// Writes what became of an acknowledgement; answers where that begins.
pub fn write_taken(taken: Taken, room: &mut [u8], end: usize) -> usize
    requires least { 28 ≤ end }
    requires within { end ≤ length room.old }
    ensures most { end ≤ result + 28 }
    ensures within { result ≤ end }
    ensures written { drop result room.new ≡ taken_text taken ++ drop end room.old }
{
    match taken {
        Taken::Used => write_word(b"used", room, end),
        Taken::Old => write_word(b"old", room, end),
        Taken::Refused(number) => write_refused(number, room, end),
    }
}

/// Writes a refusal, by its number; answers where it begins.
#[inline(never)]
pub fn write_refused(number: u32, room: &mut [u8], end: usize) -> usize
    requires least { 28 ≤ end }
    requires within { end ≤ length room.old }
    ensures most { end ≤ result + 28 }
    ensures within { result ≤ end }
    ensures written { drop result room.new ≡ refused_text number ++ drop end room.old }
{
    let start = write_number(u64::from(number), room, end);
    write_word(b"refused ", room, start)
}

/// Writes what a core does next.
fn write_next(next: Next, room: &mut [u8], end: usize) -> usize
    requires least { 43 ≤ end }
    requires within { end ≤ length room.old }
    ensures most { end ≤ result + 43 }
    ensures within { result ≤ end }
    ensures written { drop result room.new ≡ next_text next ++ drop end room.old }
{
    match next {
        Next::Return(code) => write_return(code, room, end),
        Next::Stop => write_word(b"stop", room, end),
        Next::Enter { address, context } => {
            let start = write_register(context, room, end);
            let start = write_register(address, room, start);
            write_word(b"enter", room, start)
        }
        Next::Resume => write_word(b"resume", room, end),
        Next::Refused(number) => write_refused(number, room, end),
    }
}

/// Writes a return code.
#[inline(never)]
fn write_return(code: i32, room: &mut [u8], end: usize) -> usize
    requires least { 28 ≤ end }
    requires within { end ≤ length room.old }
    ensures most { end ≤ result + 28 }
    ensures within { result ≤ end }
    ensures written { drop result room.new
        ≡ codes "return " ++ (signed_decimal code ++ drop end room.old) }
{
    let start = write_code(code, room, end);
    write_word(b"return ", room, start)
}

/// Writes the message that is sent, if one is.
fn write_message(message: &Option<[u8; FRAME_BYTES]>, room: &mut [u8], end: usize) -> usize
    requires least { 107 ≤ end }
    requires within { end ≤ length room.old }
    ensures most { end ≤ result + 107 }
    ensures within { result ≤ end }
    ensures written { drop result room.new ≡ message_text message.now ++ drop end room.old }
{
    match message {
        None => end,
        Some(frame) => {
            let start = write_frame(frame, room, end);
            write_word(b" ", room, start)
        }
    }
}
