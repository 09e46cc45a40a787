//! Reading frames.

ghost use Rattle.std.specs.List.{list_all};
ghost use Rattle.std.specs.Prelude.{◌&&◌, ◌*◌, ◌+◌, ◌<◌, ◌==◌, ◌≡◌, ◌≤◌, IfErr, IfOk, length};
ghost use Rattle.std.specs.Prelude.{MatchResult, None, Ok, slice_index, Some};
ghost use Rattle.psci_board.specs.Board.{BoardValue};
ghost use Rattle.psci_link.specs.Frame.{count_in, fault_of_kind, fault_of_parts, first_fault};
ghost use Rattle.psci_link.specs.Frame.{frame_bytes, frame_in, heading_for, is_unused_after};
ghost use Rattle.psci_link.specs.Frame.{IsFrame, IsHeldIn, IsOf, part_fields_in, parts_in, word_at};
ghost use Rattle.psci_link.specs.Heading.{HasHeading, parts_of};
ghost use Rattle.psci_link.specs.declared.encoding.Frame.TheVariants as frames;
ghost use Rattle.psci_link.specs.declared.decoding.Heading.TheVariants as headings;

use crate::encoding::{
    CORE_AT, COUNT_AT, FRAME_LEN, Frame, HEADER_LEN, KIND_AT, LIFE_AT, MAGIC, NUMBER_AT, PART_LEN,
};
use crate::parts::{FrameFault, check_parts, parts_in};
use psci_board::{Board, Core};
use psci_messages::{Ack, Kind, MOST_PARTS, Message, Parts};

/// The frame that the bytes are on this board, or their first fault.
pub fn decode(bytes: &[u8], board: &Board) -> Result<Frame, FrameFault>
    // What is read is spelled so, and the board's.
    ensures read { IfOk result (λ frame. (frame_bytes frame ≡ bytes.now) × IsOf board.now frame) }
    // A frame of the board that is spelled so is read.
    ensures spelled { (frame : Frame) → IsFrame frame → IsOf board.now frame
        → frame_bytes frame ≡ bytes.now → result ≡ Ok frame }
    ensures fault { MatchResult result (λ _. first_fault board.now bytes.now ≡ None)
        (λ fault. first_fault board.now bytes.now ≡ Some fault) }
{
    let heading = heading_on(bytes, board)?;
    Ok(frame_with(heading, bytes))
}

/// What kind of frame of this board the bytes are, or their first fault. It takes no room for a
/// frame: `message_in` and `ack_in` read what the caller wants of it. Compiled into its callers, so
/// that a kind is never written to memory.
#[inline(always)]
#[tactic(auto, using(crate::proofs::Frames::read_laws))]
pub fn heading_on(bytes: &[u8], board: &Board) -> Result<Heading, FrameFault>
    ensures heading { IfOk result (HasHeading bytes.now) }
    ensures held { IfOk result (λ heading. IsHeldIn heading bytes.now) }
    // The frame that they hold is the board's, and no other is spelled so.
    ensures of { IfOk result (λ heading. IsOf board.now (frame_in heading bytes.now)) }
    ensures one { IfOk result (λ heading. (frame : Frame) → IsFrame frame
        → frame_bytes frame ≡ bytes.now → frame_in heading bytes.now ≡ frame) }
    // A frame of the board that is spelled so is of this kind.
    ensures spelled { (frame : Frame) → IsFrame frame → IsOf board.now frame
        → frame_bytes frame ≡ bytes.now → result ≡ Ok (heading_for frame) }
    ensures fault { MatchResult result (λ _. first_fault board.now bytes.now ≡ None)
        (λ fault. first_fault board.now bytes.now ≡ Some fault) }
{
    let heading = heading_in(bytes)?;
    match check(board, heading, bytes) {
        Err(fault) => Err(fault),
        Ok(()) => Ok(heading),
    }
}

/// What kind of frame bytes are, if they have the length and the beginning of one.
#[tactic(auto, unfolding(crate::specs::Frame::first_fault))]
fn heading_in(bytes: &[u8]) -> Result<Heading, FrameFault>
    ensures kind { IfOk result (HasHeading bytes.now) }
    ensures fault { IfErr result (λ fault. (b : BoardValue)
        → first_fault b bytes.now ≡ Some fault) }
{
    if bytes.len() != FRAME_LEN {
        return Err(FrameFault::Length);
    }
    if bytes[0] != MAGIC[0] || bytes[1] != MAGIC[1] {
        return Err(FrameFault::Magic);
    }
    Heading::of(bytes[KIND_AT]).ok_or(FrameFault::Kind)
}

/// The first fault of bytes of this kind on this board, if they have one.
#[inline(always)]
fn check(board: &Board, heading: Heading, bytes: &[u8]) -> Result<(), FrameFault>
    requires { length bytes.now ≡ 53 }
    ensures { MatchResult result (λ _. fault_of_kind board.now bytes.now heading ≡ None)
        (λ fault. fault_of_kind board.now bytes.now heading ≡ Some fault) }
{
    let used = used_on(board, heading, bytes)?;
    if used == 0 {
        return Ok(());
    }
    check_used(board, used, bytes)
}

/// The first fault of these parts of a frame on this board, if they have one. They have a frame of
/// their own, so that none is held for a frame without parts.
#[inline(never)]
fn check_used(board: &Board, used: u8, bytes: &[u8]) -> Result<(), FrameFault>
    requires whole { length bytes.now ≡ 53 }
    requires few { used ≤ 4 }
    ensures { let found = fault_of_parts board.now (parts_in used (part_fields_in bytes.now)) in
        MatchResult result (λ _. found ≡ None) (λ fault. found ≡ Some fault) }
{
    let (_, places) = bytes.split_at(HEADER_LEN);
    let parts = parts_in(used, places);
    check_parts(board, parts.as_slice())
}

/// How many places of parts a frame of this kind uses, if its count, the bytes that are not used
/// and its core are right on this board.
#[tactic(auto, unfolding(crate::specs::Frame::fault_of_kind))]
fn used_on(board: &Board, heading: Heading, bytes: &[u8]) -> Result<u8, FrameFault>
    requires { length bytes.now ≡ 53 }
    ensures used { IfOk result (λ used. used ≡ parts_of heading (count_in bytes.now)) }
    ensures few { IfOk result (λ used. used ≤ 4) }
    ensures fault { MatchResult result
        (λ used. fault_of_kind board.now bytes.now heading
        ≡ fault_of_parts board.now (parts_in used (part_fields_in bytes.now)))
        (λ fault. fault_of_kind board.now bytes.now heading ≡ Some fault) }
{
    let count = bytes[COUNT_AT];
    if !heading.allows_count(count) {
        return Err(FrameFault::Count);
    }
    let used = heading.parts(count);
    if !is_unused_after(used, bytes) {
        return Err(FrameFault::Unused);
    }
    if u16::from(bytes[CORE_AT]) >= board.cores() {
        return Err(FrameFault::Core);
    }
    Ok(used)
}

/// Whether the places behind so many parts are not used. Where there are no parts it is known when
/// this is compiled how many bytes these are, and no loop goes over them.
#[inline(always)]
fn is_unused_after(used: u8, bytes: &[u8]) -> bool
    requires whole { length bytes.now ≡ 53 }
    requires few { used ≤ 4 }
    ensures { result ≡ is_unused_after used bytes.now }
{
    if used == 0 {
        let (_, unused) = bytes.split_at(HEADER_LEN);
        return is_zero(unused);
    }
    let (_, unused) = bytes.split_at(HEADER_LEN + PART_LEN * used as usize);
    is_zero(unused)
}

/// The frame of this kind that the bytes hold.
fn frame_with(heading: Heading, bytes: &[u8]) -> Frame
    requires heading { HasHeading bytes.now heading }
    requires held { IsHeldIn heading bytes.now }
    ensures { result ≡ frame_in heading bytes.now }
{
    match heading {
        Heading::Message(kind) => Frame::Message(message_in(kind, bytes)),
        Heading::Ack(kind, stale) => Frame::Ack(ack_in(kind, stale, bytes)),
    }
}

/// The message of this kind that the bytes hold, as `heading_on` finds them. Its frame is its own.
#[inline(never)]
#[tactic(auto, unfolding(crate::specs::Frame::frame_in))]
pub fn message_in(kind: Kind, bytes: &[u8]) -> Message
    requires heading { HasHeading bytes.now (headings.Message kind) }
    requires held { IsHeldIn (headings.Message kind) bytes.now }
    ensures { frames.Message result ≡ frame_in (headings.Message kind) bytes.now }
{
    Message {
        kind,
        core: core_in(bytes),
        life: number_at(bytes, LIFE_AT),
        number: number_at(bytes, NUMBER_AT),
        parts: counted_parts(bytes),
    }
}

/// The acknowledgement of a message of this kind that the bytes hold, as `heading_on` finds them.
#[tactic(auto, unfolding(crate::specs::Frame::frame_in))]
pub fn ack_in(kind: Kind, stale: bool, bytes: &[u8]) -> Ack
    requires heading { HasHeading bytes.now (headings.Ack kind stale) }
    requires held { IsHeldIn (headings.Ack kind stale) bytes.now }
    ensures { frames.Ack result ≡ frame_in (headings.Ack kind stale) bytes.now }
{
    Ack {
        kind,
        core: core_in(bytes),
        life: number_at(bytes, LIFE_AT),
        number: number_at(bytes, NUMBER_AT),
        applied: bytes[COUNT_AT],
        stale,
    }
}

/// The parts that these bytes count.
fn counted_parts(bytes: &[u8]) -> Parts
    requires whole { length bytes.now ≡ 53 }
    requires few { count_in bytes.now ≤ 4 }
    ensures { result ≡ parts_in (count_in bytes.now) (part_fields_in bytes.now) }
{
    let (_, places) = bytes.split_at(HEADER_LEN);
    parts_in(bytes[COUNT_AT], places)
}

/// The core whose number these bytes hold.
fn core_in(bytes: &[u8]) -> Core
    requires { length bytes.now ≡ 53 }
    ensures { result ≡ record { number = slice_index bytes.now CORE_AT } }
{
    Core {
        number: u16::from(bytes[CORE_AT]),
    }
}

/// The number of four bytes that begins at this one.
fn number_at(bytes: &[u8], start: usize) -> u32
    requires { start + 4 ≤ length bytes.now }
    ensures { result ≡ word_at bytes.now start }
{
    u32::from_be_bytes([
        bytes[start],
        bytes[start + 1],
        bytes[start + 2],
        bytes[start + 3],
    ])
}

// What the kind byte of a frame says.

/// How many parts a Down has at least: that of its core.
const LEAST_PARTS: u8 = 1;

/// What a message that is no Down counts as applied at most: that it was carried out.
const MOST_CARRIED: u8 = 1;

/// What kind of frame bytes are.
#[derive(Clone, Copy, Debug, PartialEq, Eq)]
pub enum Heading {
    /// A message of this kind.
    Message(Kind),
    /// An acknowledgement of a message of this kind, and whether it is stale.
    Ack(Kind, bool),
}

ghost use Rattle.std.specs.Prelude.{◌≡◌, ◌≤◌, nat_le, true};
ghost use Rattle.psci_link.specs.Heading.{kind_of, heading_of, allows_count, parts_of};

impl Heading {
    /// What a kind byte says, if it is one.
    pub fn of(byte: u8) -> Option<Heading>
        ensures { result ≡ heading_of byte }
    {
        let kind = kind_of(byte % 16)?;
        match byte / 16 {
            0 => Some(Heading::Message(kind)),
            1 => Some(Heading::Ack(kind, false)),
            2 => Some(Heading::Ack(kind, true)),
            _ => None,
        }
    }

    /// Whether a frame of this kind may have this count.
    pub fn allows_count(self, count: u8) -> bool
        ensures { result ≡ allows_count self count }
    {
        match self {
            Heading::Message(Kind::Down) => LEAST_PARTS <= count && is_room(count),
            Heading::Message(_) => count == 0,
            Heading::Ack(Kind::Down, _) => is_room(count),
            Heading::Ack(..) => count <= MOST_CARRIED,
        }
    }

    /// How many parts a frame of this kind and count has.
    pub fn parts(self, count: u8) -> u8
        requires { allows_count self count ≡ true }
        ensures parts { result ≡ parts_of self count }
        ensures few { result ≤ 4 }
    {
        match self {
            Heading::Message(_) => count,
            Heading::Ack(..) => 0,
        }
    }
}

/// Whether a frame has room for so many parts.
fn is_room(count: u8) -> bool
    ensures { result ≡ nat_le count MOST_PARTS }
{
    count as usize <= MOST_PARTS
}

/// The kind that the low half of a kind byte names, if it names one.
fn kind_of(code: u8) -> Option<Kind>
    ensures { result ≡ kind_of code }
{
    match code {
        1 => Some(Kind::Down),
        2 => Some(Kind::Start),
        3 => Some(Kind::Off),
        4 => Some(Kind::Reset),
        _ => None,
    }
}

// Whether bytes are zero.

/// Whether each byte is zero. They are looked at as words of eight bytes, as far as they go.
pub fn is_zero(bytes: &[u8]) -> bool
    ensures { result ≡ list_all (λ byte. byte == 0) bytes.now }
{
    match bytes {
        [a, b, c, d, e, f, g, h, rest @ ..] => {
            u64::from_be_bytes([*a, *b, *c, *d, *e, *f, *g, *h]) == 0 && is_zero(rest)
        }
        _ => is_each_zero(bytes),
    }
}

/// The same, byte by byte.
fn is_each_zero(bytes: &[u8]) -> bool
    ensures { result ≡ list_all (λ byte. byte == 0) bytes.now }
{
    bytes.iter().all(|&byte| byte == 0)
}
