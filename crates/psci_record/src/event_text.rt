//! The line of each kind of event.

ghost use Rattle.std.specs.Prelude.{◌≡◌, ◌+◌, ◌≤◌, ◌++◌, codes, drop, length, take};
ghost use Rattle.psci_record.specs.Texts.{begins_text, call_text, core_text, deliver_text};
ghost use Rattle.psci_record.specs.Texts.{enter_text, hexadecimal, leaves_text, line_of};
ghost use Rattle.psci_record.specs.Texts.{outcome_text, poll_text, reset_text, stands_text};
ghost use Rattle.psci_record.specs.Texts.{take_text, wake_text};

use crate::core_text::{write_core, write_counted, write_register};
use crate::digits::write_word;
use crate::frame_text::write_frame;
use crate::line::{Begun, FRAME_BYTES, Named, Outcome, Polled, Reply, Started, Taken};
use crate::outcome_text::{write_outcome, write_polled, write_taken};
use crate::reply_text::write_reply;
use crate::room::{LONGEST_LINE, move_line, write_line_feed};
use psci_abi::Regs;

/// Writes a call; answers how many bytes it has.
pub fn write_call(
    core: Named,
    regs: &Regs,
    outcome: &Outcome,
    room: &mut [u8; LONGEST_LINE],
) -> usize
    ensures most { result ≤ LONGEST_LINE }
    ensures line { take result room.new ≡ line_of (call_text core regs.now outcome.now) }
{
    let end = write_line_feed(room);
    let start = write_answer(outcome, room, end);
    let start = write_register(regs.x3, room, start);
    let start = write_registers(regs, room, start);
    finish(b"call ", core, room, start)
}

/// Writes a poll; answers how many bytes it has.
pub fn write_poll(core: Named, regs: &Regs, polled: Polled, room: &mut [u8; LONGEST_LINE]) -> usize
    ensures most { result ≤ LONGEST_LINE }
    ensures line { take result room.new ≡ line_of (poll_text core regs.now polled) }
{
    let end = write_line_feed(room);
    let start = write_polled(polled, room, end);
    let start = write_word(b" -> ", room, start);
    let start = write_registers(regs, room, start);
    finish(b"poll ", core, room, start)
}

/// Writes an entry by a start; answers how many bytes it has.
pub fn write_enter(
    core: Named,
    started: Started,
    outcome: &Outcome,
    room: &mut [u8; LONGEST_LINE],
) -> usize
    ensures most { result ≤ LONGEST_LINE }
    ensures line { take result room.new ≡ line_of (enter_text core started outcome.now) }
{
    let end = write_line_feed(room);
    let start = write_answer(outcome, room, end);
    let start = write_counted(started.cause, room, start);
    let start = write_counted(started.number, room, start);
    let start = write_counted(started.life, room, start);
    finish(b"enter ", core, room, start)
}

/// Writes that a core goes back to its caller; answers how many bytes it has.
pub fn write_leaves(core: Named, x0: u64, room: &mut [u8; LONGEST_LINE]) -> usize
    ensures most { result ≤ LONGEST_LINE }
    ensures line { take result room.new ≡ line_of (leaves_text core x0) }
{
    let end = write_line_feed(room);
    let start = write_register(x0, room, end);
    finish(b"leaves ", core, room, start)
}

/// Writes where and how a core begins; answers how many bytes it has.
pub fn write_begins(core: Named, begun: &Begun, room: &mut [u8; LONGEST_LINE]) -> usize
    ensures most { result ≤ LONGEST_LINE }
    ensures line { take result room.new ≡ line_of (begins_text core begun.now) }
{
    let end = write_line_feed(room);
    let start = write_register(begun.sctlr, room, end);
    let start = write_register(begun.spsr, room, start);
    let start = write_register(begun.x0, room, start);
    let start = write_register(begun.address, room, start);
    finish(b"begins ", core, room, start)
}

/// Writes what became of an acknowledgement, with its frame; answers how many bytes it has.
pub fn write_take(frame: &[u8; FRAME_BYTES], taken: Taken, room: &mut [u8; LONGEST_LINE]) -> usize
    ensures most { result ≤ LONGEST_LINE }
    ensures line { take result room.new ≡ line_of (take_text frame.now taken) }
{
    let end = write_line_feed(room);
    let start = write_taken(taken, room, end);
    let start = write_word(b" -> ", room, start);
    let start = write_frame(frame, room, start);
    let start = write_word(b"take ", room, start);
    move_line(room, start)
}

/// Writes that a core is in its stop; answers how many bytes it has.
pub fn write_stands(core: Named, number: u32, room: &mut [u8; LONGEST_LINE]) -> usize
    ensures most { result ≤ LONGEST_LINE }
    ensures line { take result room.new ≡ line_of (stands_text core number) }
{
    let end = write_line_feed(room);
    let start = write_counted(number, room, end);
    finish(b"stands ", core, room, start)
}

/// Writes what the power controller did with a message; answers how many bytes it has.
pub fn write_deliver(
    frame: &[u8; FRAME_BYTES],
    reply: &Reply,
    room: &mut [u8; LONGEST_LINE],
) -> usize
    ensures most { result ≤ LONGEST_LINE }
    ensures line { take result room.new ≡ line_of (deliver_text frame.now reply.now) }
{
    let end = write_line_feed(room);
    let start = write_reply(reply, room, end);
    let start = write_frame(frame, room, start);
    let start = write_word(b"deliver ", room, start);
    move_line(room, start)
}

/// Writes what the power controller did at a wake-up; answers how many bytes it has.
pub fn write_wake(core: Named, number: u32, reply: &Reply, room: &mut [u8; LONGEST_LINE]) -> usize
    ensures most { result ≤ LONGEST_LINE }
    ensures line { take result room.new ≡ line_of (wake_text core number reply.now) }
{
    let end = write_line_feed(room);
    let start = write_reply(reply, room, end);
    let start = write_counted(number, room, start);
    finish(b"wake ", core, room, start)
}

/// Writes what the power controller did at a reset of a core; answers how many bytes it has.
pub fn write_reset(core: Named, reply: &Reply, room: &mut [u8; LONGEST_LINE]) -> usize
    ensures most { result ≤ LONGEST_LINE }
    ensures line { take result room.new ≡ line_of (reset_text core reply.now) }
{
    let end = write_line_feed(room);
    let start = write_reply(reply, room, end);
    finish(b"reset ", core, room, start)
}

/// Writes the word of an event and its core; answers how many bytes the line has.
#[inline(never)]
fn finish(word: &[u8], core: Named, room: &mut [u8; LONGEST_LINE], end: usize) -> usize
    requires room { length word.now + 20 ≤ end }
    requires within { end ≤ LONGEST_LINE }
    ensures most { result ≤ LONGEST_LINE }
    ensures line { take result room.new
        ≡ word.now ++ (core_text core ++ drop end room.old) }
{
    let start = write_core(core, room, end);
    let start = write_word(word, room, start);
    move_line(room, start)
}

/// Writes the answer to a call or an entry, behind an arrow.
fn write_answer(outcome: &Outcome, room: &mut [u8], end: usize) -> usize
    requires least { 154 ≤ end }
    requires within { end ≤ length room.old }
    ensures most { end ≤ result + 154 }
    ensures within { result ≤ end }
    ensures written { drop result room.new
        ≡ codes " -> " ++ (outcome_text outcome.now ++ drop end room.old) }
{
    let start = write_outcome(outcome, room, end);
    write_word(b" -> ", room, start)
}

/// Writes the first three registers of a call, each after a space.
#[inline(never)]
fn write_registers(regs: &Regs, room: &mut [u8], end: usize) -> usize
    requires least { 57 ≤ end }
    requires within { end ≤ length room.old }
    ensures most { end ≤ result + 57 }
    ensures within { result ≤ end }
    ensures written { drop result room.new
        ≡ codes " " ++ (hexadecimal regs.now.x0 ++ (codes " " ++ (hexadecimal regs.now.x1
        ++ (codes " " ++ (hexadecimal regs.now.x2 ++ drop end room.old))))) }
{
    let start = write_register(regs.x2, room, end);
    let start = write_register(regs.x1, room, start);
    write_register(regs.x0, room, start)
}
