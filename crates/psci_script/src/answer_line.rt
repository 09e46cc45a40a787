//! The answer line of an event, written from its end on.

ghost use Rattle.std.specs.Fmt.{decimal, digit_glyph, digits, signed_decimal};
ghost use Rattle.std.specs.Prelude.{◌++◌, ◌+◌, ◌<◌, ◌∷◌, ◌≡◌, ◌≤◌, [], codes, drop, false};
ghost use Rattle.std.specs.Prelude.{flat_map, length};
ghost use Rattle.psci_script.specs.EventText.{longest_line};
ghost use Rattle.psci_script.specs.Progress.{BoardRead};
ghost use Rattle.psci_script.specs.Text.{ack_text, act_text, answer_line, hexadecimal, kind_text};
ghost use Rattle.psci_script.specs.Text.{message_text, part_text, parts_text, said_text, sent_text};
ghost use Rattle.psci_script.specs.Text.{taken_text};

use crate::fault::{ReplayFault, ScriptFault};
use itoa::write_digits;
use psci_board::{BoardFault, literal};
use psci_world_spec::{Ack, Act, Board, Kind, Part, Said, Sent, Taken};
use std::alloc::Global;

/// How many bytes an answer line has at most, were every number as wide as its type: those of an
/// outcome with a message of four parts.
pub const LONGEST_ANSWER: usize = 448;

/// Writes the answer line of the event of this number, which ends where the room does; answers
/// where it begins.
pub fn write_answer(number: u64, said: &Said, room: &mut [u8; LONGEST_ANSWER]) -> usize
    ensures within { result ≤ LONGEST_ANSWER }
    ensures line { drop result room.new ≡ answer_line number said.now }
{
    let end = LONGEST_ANSWER - 1;
    room[end] = b'\n';
    let start = write_said(said, room, end);
    let start = write_word(b" ", room, start);
    write_number(number, room, start)
}

/// Writes what was said of an event before what begins here; answers where it begins.
fn write_said(said: &Said, room: &mut [u8], end: usize) -> usize
    requires least { 420 ≤ end }
    requires within { end ≤ length room.old }
    ensures most { end ≤ result + 420 }
    ensures within { result ≤ end }
    ensures written { drop result room.new ≡ said_text said.now ++ drop end room.old }
{
    match said {
        Said::Fw { act, sent } => {
            let start = write_sent(sent, room, end);
            write_act(act, room, start)
        }
        Said::Kick(start) => {
            let start = write_number(u64::from(start.number), room, end);
            write_word(b"started ", room, start)
        }
        Said::Acked { index, ack } => write_ack(*index, ack, room, end),
        Said::Taken(Taken::Used) => write_word(b"used", room, end),
        Said::Taken(Taken::Old) => write_word(b"old", room, end),
        Said::Ignored => write_word(b"ignored", room, end),
        Said::Absent => write_word(b"absent", room, end),
    }
}

/// Writes what a core does next.
fn write_act(act: &Act, room: &mut [u8], end: usize) -> usize
    requires least { 45 ≤ end }
    requires within { end ≤ length room.old }
    ensures most { end ≤ result + 45 }
    ensures within { result ≤ end }
    ensures written { drop result room.new ≡ act_text act.now ++ drop end room.old }
{
    match act {
        Act::Return(code) => {
            let start = write_code(code.0, room, end);
            write_word(b"return ", room, start)
        }
        Act::Stop => write_word(b"stop", room, end),
        Act::Enter { address, context } => {
            let start = write_hexadecimal(*context, room, end);
            let start = write_word(b" ", room, start);
            let start = write_hexadecimal(*address, room, start);
            write_word(b"enter ", room, start)
        }
        Act::Resume => write_word(b"resume 0", room, end),
    }
}

/// Writes what an acknowledgement of this number says.
fn write_ack(index: u64, ack: &Ack, room: &mut [u8], end: usize) -> usize
    requires least { 60 ≤ end }
    requires within { end ≤ length room.old }
    ensures most { end ≤ result + 60 }
    ensures within { result ≤ end }
    ensures written { drop result room.new ≡ codes "ack #" ++ (decimal index ++ (codes " "
        ++ ack_text ack.now)) ++ drop end room.old }
{
    let start = if ack.stale {
        write_word(b" stale", room, end)
    } else {
        end
    };
    let start = write_number(u64::from(ack.applied), room, start);
    let start = write_word(b" applied ", room, start);
    let start = write_number(index, room, start);
    write_word(b"ack #", room, start)
}

/// Writes the message that was sent, if one was.
fn write_sent(sent: &Option<Sent>, room: &mut [u8], end: usize) -> usize
    requires least { 375 ≤ end }
    requires within { end ≤ length room.old }
    ensures most { end ≤ result + 375 }
    ensures within { result ≤ end }
    ensures written { drop result room.new ≡ message_text sent.now ++ drop end room.old }
{
    match sent {
        None => end,
        Some(sent) => write_message(sent, room, end),
    }
}

/// Writes a message with its number.
fn write_message(sent: &Sent, room: &mut [u8], end: usize) -> usize
    requires least { 375 ≤ end }
    requires within { end ≤ length room.old }
    ensures most { end ≤ result + 375 }
    ensures within { result ≤ end }
    ensures written { drop result room.new ≡ codes " " ++ sent_text sent.now ++ drop end room.old }
{
    let message = &sent.message;
    let start = write_parts(sent, room, end);
    let start = write_number(u64::from(message.number), room, start);
    let start = write_word(b" number ", room, start);
    let start = write_number(u64::from(message.life), room, start);
    let start = write_word(b" life ", room, start);
    let start = write_number(u64::from(message.core.number), room, start);
    let start = write_word(b" ", room, start);
    let start = write_kind(message.kind, room, start);
    let start = write_word(b" ", room, start);
    let start = write_number(sent.index, room, start);
    write_word(b" #", room, start)
}

/// Writes the word of a kind of message.
fn write_kind(kind: Kind, room: &mut [u8], end: usize) -> usize
    requires least { 5 ≤ end }
    requires within { end ≤ length room.old }
    ensures most { end ≤ result + 5 }
    ensures within { result ≤ end }
    ensures written { drop result room.new ≡ kind_text kind ++ drop end room.old }
{
    match kind {
        Kind::Down => write_word(b"down", room, end),
        Kind::Start => write_word(b"start", room, end),
        Kind::Off => write_word(b"off", room, end),
        Kind::Reset => write_word(b"reset", room, end),
    }
}

/// Writes the parts of a message, where it has some.
fn write_parts(sent: &Sent, room: &mut [u8], end: usize) -> usize
    requires least { 260 ≤ end }
    requires within { end ≤ length room.old }
    ensures most { end ≤ result + 260 }
    ensures within { result ≤ end }
    ensures written { drop result room.new
        ≡ parts_text sent.now.message.parts ++ drop end room.old }
{
    let parts = sent.message.parts.as_slice();
    if parts.is_empty() {
        return end;
    }
    let mut start = end;
    let mut left = parts.len();
    while left > 0 {
        left -= 1;
        start = write_part(&parts[left], room, start);
    }
    write_word(b" parts", room, start)
}

/// Writes a part, after a space: level, depth and generation.
fn write_part(part: &Part, room: &mut [u8], end: usize) -> usize
    requires least { 63 ≤ end }
    requires within { end ≤ length room.old }
    ensures most { end ≤ result + 63 }
    ensures within { result ≤ end }
    ensures written { drop result room.new ≡ part_text part.now ++ drop end room.old }
{
    let start = write_number(part.generation, room, end);
    let start = write_word(b":", room, start);
    let start = write_number(u64::from(part.depth), room, start);
    let start = write_word(b":", room, start);
    let start = write_number(u64::from(part.level), room, start);
    write_word(b" ", room, start)
}

// The first line of a script, which says its board.

/// The board of a first line.
pub fn read_board(alloc: Global, line: &[u8]) -> Result<Board, ReplayFault>
    requires { length line.now ≤ longest_line }
    ensures { BoardRead result line.now }
{
    let Some(text) = literal(line, b"board ") else {
        return Err(ScriptFault::NoBoard.at(1));
    };
    match Board::read_bytes(alloc, text) {
        Ok(board) => Ok(board),
        Err(BoardFault::Memory) => Err(ReplayFault::Memory),
        Err(fault) => Err(ReplayFault::Board(fault)),
    }
}

// Words and numbers, written before what stands behind them.

/// Writes a word before what begins here; answers where it begins.
// In place, so that a word is written as a few numbers.
#[inline(always)]
pub fn write_word(word: &[u8], room: &mut [u8], end: usize) -> usize
    requires least { length word.now ≤ end }
    requires within { end ≤ length room.old }
    ensures start { result + length word.now ≡ end }
    ensures written { drop result room.new ≡ word.now ++ drop end room.old }
{
    let start = end - word.len();
    room[start..end].copy_from_slice(word);
    start
}

/// Writes a number in decimal.
pub fn write_number(number: u64, room: &mut [u8], end: usize) -> usize
    requires least { 20 ≤ end }
    requires within { end ≤ length room.old }
    ensures most { end ≤ result + 20 }
    ensures within { result ≤ end }
    ensures written { drop result room.new ≡ decimal number ++ drop end room.old }
{
    write_digits(number, room, end)
}

/// Writes a signed number in decimal.
pub fn write_code(code: i32, room: &mut [u8], end: usize) -> usize
    requires least { 21 ≤ end }
    requires within { end ≤ length room.old }
    ensures most { end ≤ result + 21 }
    ensures within { result ≤ end }
    ensures written { drop result room.new ≡ signed_decimal code ++ drop end room.old }
{
    let start = write_number(u64::from(code.unsigned_abs()), room, end);
    if code >= 0 {
        return start;
    }
    write_word(b"-", room, start)
}

/// Writes a number in hexadecimal, lower-case and after `0x`.
pub fn write_hexadecimal(number: u64, room: &mut [u8], end: usize) -> usize
    requires least { 18 ≤ end }
    requires within { end ≤ length room.old }
    ensures most { end ≤ result + 18 }
    ensures within { result ≤ end }
    ensures written { drop result room.new ≡ hexadecimal number ++ drop end room.old }
{
    let start = write_hexadecimal_digits(number, room, end);
    write_word(b"0x", room, start)
}

/// Writes the hexadecimal digits of a number.
fn write_hexadecimal_digits(number: u64, room: &mut [u8], end: usize) -> usize
    requires least { 16 ≤ end }
    requires within { end ≤ length room.old }
    ensures most { end ≤ result + 16 }
    ensures within { result ≤ end }
    ensures written { drop result room.new ≡ digits 16 false number ++ drop end room.old }
{
    let mut left = 16;
    let mut rest = number;
    while left > 0 {
        left -= 1;
        let start = end - 16 + left;
        room[start] = digit(rest % 16);
        rest /= 16;
        if rest == 0 {
            return start;
        }
    }
    unreachable!()
}

/// The hexadecimal digit of a number below 16.
fn digit(number: u64) -> u8
    ensures { number < 16 → result ≡ digit_glyph false number }
{
    let low = (number % 16) as u8;
    if low < 10 {
        b'0' + low
    } else {
        b'a' + (low - 10)
    }
}
