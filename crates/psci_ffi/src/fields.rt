//! A frame as C reads and writes it: a struct of its fields.

ghost use Rattle.std.specs.Prelude.{◌+◌, ◌<◌, ◌^◌, ◌≡◌, ◌≤◌, length, map, option_map, take};
ghost use Rattle.psci_link.specs.declared.encoding.Frame.TheVariants as frames;
ghost use Rattle.psci_link.specs.Frame.{kind_code};
ghost use Rattle.psci_link.specs.declared.decoding.Heading.TheVariants as headings;
ghost use Rattle.psci_messages.specs.Message.{is_climbing, is_falling, most_applied};
ghost use Rattle.psci_ffi.specs.Frames.{IsDecoded, IsDecodedIn, fields_of, frame_given};
ghost use Rattle.psci_ffi.specs.Frames.{frame_spelled, frame_with, has_parts, part_at, part_given};
ghost use Rattle.psci_ffi.specs.Frames.{parts_of};

use crate::answer::{SomeFrame, no_frame};
use crate::codes::{NO_FIRMWARE, frame_code};
use crate::held::Held;
use crate::place::Place;
use psci_board::Core;
use psci_link::{Frame, Heading, decode, encode};
use psci_messages::{Ack, Kind, MOST_PARTS, Message, Part, Parts};
use psci_state::POWER_DOWN;
use std::mem::size_of;

/// A part of a message: what it asks of the power domain of one level.
#[repr(C)]
#[derive(Clone, Copy)]
pub struct PartFields {
    /// The level of the domain on the path of the sender: 0 for the core itself.
    pub level: u32,
    /// 1 standby, 2 retention, 3 power-down.
    pub depth: u8,
    /// The sum of the known starts of the cores below the domain, when the part was made.
    pub generation: u64,
}

/// The fields of a frame.
#[repr(C)]
#[derive(Clone, Copy)]
pub struct Fields {
    /// 1 Down, 2 Start, 3 Off, 4 Reset; 16 more for an acknowledgement, 32 more for a stale one.
    pub kind: u8,
    /// How many parts a message has, or how much of it was applied.
    pub count: u8,
    /// The core that a Start is for; else the core that sent the message.
    pub core: u16,
    /// The life.
    pub life: u32,
    /// The known start of the core.
    pub number: u32,
    /// The parts of a message, then zeros.
    pub parts: [PartFields; MOST_PARTS],
}

// The sizes that psci.h gives these.
const _: () = prove!(size_of::<PartFields>() == 16);

const _: () = prove!(size_of::<Fields>() == 80);

impl PartFields {
    /// The part.
    pub fn part(&self) -> Part
        ensures { result ≡ part_given self.now }
    {
        Part {
            level: self.level,
            depth: self.depth,
            generation: self.generation,
        }
    }
}

impl Fields {
    /// The parts that are counted.
    pub fn counted(&self) -> &[PartFields]
        ensures parts { result.now ≡ take self.now.count self.now.parts }
        ensures few { length result.now ≤ MOST_PARTS }
    {
        let end = (self.count as usize).min(MOST_PARTS);
        &self.parts[..end]
    }
}

/// What stands where there is no part.
const NO_PART: PartFields = PartFields {
    level: 0,
    depth: 0,
    generation: 0,
};

/// The fields of a frame.
pub fn fields_of(frame: &Frame) -> Fields
    ensures { result ≡ fields_of frame.now }
{
    match frame {
        Frame::Message(message) => message_fields(message),
        Frame::Ack(ack) => ack_fields(ack),
    }
}

/// The fields of a message.
fn message_fields(message: &Message) -> Fields
    ensures { result ≡ fields_of (frames.Message message.now) }
{
    let parts = message.parts.as_slice();
    Fields {
        kind: kind_code(message.kind),
        count: parts.len() as u8,
        core: message.core.number,
        life: message.life,
        number: message.number,
        parts: parts_of(parts),
    }
}

/// The fields of an acknowledgement.
fn ack_fields(ack: &Ack) -> Fields
    ensures { result ≡ fields_of (frames.Ack ack.now) }
{
    Fields {
        kind: kind_code(ack.kind) + if ack.stale { 0x20 } else { 0x10 },
        count: ack.applied,
        core: ack.core.number,
        life: ack.life,
        number: ack.number,
        parts: parts_of(&[]),
    }
}

/// The low half of a kind byte.
pub fn kind_code(kind: Kind) -> u8
    ensures { result ≡ kind_code kind }
{
    match kind {
        Kind::Down => 1,
        Kind::Start => 2,
        Kind::Off => 3,
        Kind::Reset => 4,
    }
}

/// The first four parts, and zeros where there are fewer.
fn parts_of(parts: &[Part]) -> [PartFields; MOST_PARTS]
    ensures { result ≡ parts_of parts.now }
{
    [
        part_at(parts, 0),
        part_at(parts, 1),
        part_at(parts, 2),
        part_at(parts, 3),
    ]
}

/// The part at this place, or zeros.
fn part_at(parts: &[Part], place: usize) -> PartFields
    ensures { result ≡ part_at parts.now place }
{
    match parts.get(place) {
        None => NO_PART,
        Some(part) => PartFields {
            level: part.level,
            depth: part.depth,
            generation: part.generation,
        },
    }
}

/// How many cores a frame can name.
const MOST_NAMED: u16 = 256;

/// Writes the frame of these fields, of a message or of an acknowledgement; none where they are
/// those of no frame. Parts that are not counted are not looked at, nor is a part of an
/// acknowledgement.
#[unsafe(no_mangle)]
pub extern "C" fn psci_encode(fields: &Fields, frame: &mut SomeFrame)
    ensures { frame.new ≡ frame_spelled (frame_given fields.now) }
{
    *frame = match frame_given(fields) {
        None => no_frame(),
        Some(frame) => SomeFrame {
            some: true,
            bytes: encode(&frame),
        },
    };
}

/// The frame of these fields, if there is one.
fn frame_given(fields: &Fields) -> Option<Frame>
    ensures { result ≡ frame_given fields.now }
{
    match Heading::of(fields.kind)? {
        Heading::Message(kind) => message_given(kind, fields).map(Frame::Message),
        Heading::Ack(kind, stale) => ack_given(kind, stale, fields).map(Frame::Ack),
    }
}

/// The message of this kind and these fields, if it is one.
#[tactic(auto, using(crate::proofs::GivenBoards::fit))]
fn message_given(kind: Kind, fields: &Fields) -> Option<Message>
    ensures { option_map frames.Message result ≡ frame_with fields.now (headings.Message kind) }
{
    if fields.core >= MOST_NAMED || fields.count as usize > MOST_PARTS {
        return None;
    }
    let parts = parts_given(fields.counted());
    if !has_parts(kind, parts.as_slice()) {
        return None;
    }
    let number = fields.core;
    Some(Message {
        kind,
        core: Core { number },
        life: fields.life,
        number: fields.number,
        parts,
    })
}

/// The acknowledgement of a message of this kind, if it is one.
fn ack_given(kind: Kind, stale: bool, fields: &Fields) -> Option<Ack>
    ensures { option_map frames.Ack result ≡ frame_with fields.now (headings.Ack kind stale) }
{
    if fields.core >= MOST_NAMED || fields.count > most_applied(kind) {
        return None;
    }
    Some(Ack {
        kind,
        core: Core {
            number: fields.core,
        },
        life: fields.life,
        number: fields.number,
        applied: fields.count,
        stale,
    })
}

/// How much of a message of this kind can be applied.
fn most_applied(kind: Kind) -> u8
    ensures { result ≡ most_applied kind }
{
    match kind {
        Kind::Down => MOST_PARTS as u8,
        _ => 1,
    }
}

/// These parts.
fn parts_given(given: &[PartFields]) -> Parts
    requires { length given.now ≤ MOST_PARTS }
    ensures { result ≡ map part_given given.now }
{
    let mut parts = Parts::new();
    for part in given {
        parts.push(part.part());
    }
    parts
}

/// Whether a message of this kind may have these parts.
fn has_parts(kind: Kind, parts: &[Part]) -> bool
    requires { length parts.now ≤ MOST_PARTS }
    ensures { result ≡ has_parts kind parts.now }
{
    match kind {
        Kind::Down => {
            !parts.is_empty() && is_climbing(0, parts) && is_falling(POWER_DOWN, parts)
        }
        _ => parts.is_empty(),
    }
}

/// Whether the levels count up from this one.
fn is_climbing(level: u32, parts: &[Part]) -> bool
    requires { level + length parts.now < 2 ^ 32 }
    ensures { result ≡ is_climbing level parts.now }
{
    match parts {
        [] => true,
        [part, above @ ..] => part.level == level && is_climbing(level + 1, above),
    }
}

/// Whether each depth is at least 1, and none is above the one before it, the first not above the
/// given one.
fn is_falling(most: u8, parts: &[Part]) -> bool
    ensures { result ≡ is_falling most parts.now }
{
    match parts {
        [] => true,
        [part, above @ ..] => {
            0 < part.depth && part.depth <= most && is_falling(part.depth, above)
        }
    }
}

/// Reads the fields of the frame that these bytes are on the board of the firmware, of a message or
/// of an acknowledgement: 0. Else 33 to 40, the number of the frame's first fault, or 16 where
/// there is no firmware, and nothing is written.
#[unsafe(no_mangle)]
pub extern "C" fn psci_decode(place: &mut Place, frame: &[u8], fields: &mut Fields) -> u32
    ensures read { IsDecodedIn place.old.slot.kept frame.now result fields.old fields.new }
    ensures same { place.new.slot.kept ≡ place.old.slot.kept }
{
    let held = lent!(place.held else NO_FIRMWARE);
    read(held, frame, fields)
}

/// The same of a firmware.
fn read(held: &Held, bytes: &[u8], fields: &mut Fields) -> u32
    ensures { IsDecoded held.now.polled bytes.now result fields.old fields.new }
{
    match decode(bytes, held.board()) {
        Err(fault) => frame_code(fault),
        Ok(frame) => {
            *fields = fields_of(&frame);
            0
        }
    }
}
