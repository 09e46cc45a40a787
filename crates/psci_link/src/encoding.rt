//! Writing frames.

ghost use Rattle.std.specs.Int.{to_be_bytes, w64};
ghost use Rattle.std.specs.List.{AllByRecursion};
ghost use Rattle.std.specs.Prelude.{◌++◌, ◌<◌, ◌^◌, ◌∷◌, ◌≡◌, ◌≤◌, [], length, replicate, true};
ghost use Rattle.psci_link.specs.Frame.{frame_bytes, header, IsFrame, kind_code, part_bytes};
ghost use Rattle.psci_link.specs.Frame.{part_fields};
ghost use Rattle.psci_link.specs.declared.encoding.Frame.TheVariants as frames;
ghost use Rattle.psci_messages.specs.Message.{is_climbing};

use psci_board::Core;
use psci_messages::{Ack, Kind, MOST_PARTS, Message, Part};

/// The first two bytes of a frame.
pub const MAGIC: [u8; 2] = [0x50, 0x44];

/// The bytes of a frame.
pub fn encode(frame: &Frame) -> [u8; FRAME_LEN]
    ensures spelled { result ≡ frame_bytes frame.now }
    ensures frame { IsFrame frame.now }
{
    match frame {
        Frame::Message(message) => encode_message(message),
        Frame::Ack(ack) => encode_ack(ack),
    }
}

/// The bytes of the frame of a message.
pub fn encode_message(message: &Message) -> [u8; FRAME_LEN]
    ensures spelled { result ≡ frame_bytes (frames.Message message.now) }
    ensures frame { IsFrame (frames.Message message.now) }
{
    let mut bytes = [0; FRAME_LEN];
    write_message(message, &mut bytes);
    bytes
}

/// Writes the bytes of the frame of a message where they are to stand.
pub fn write_message(message: &Message, bytes: &mut [u8; FRAME_LEN])
    ensures spelled { bytes.new ≡ frame_bytes (frames.Message message.now) }
    ensures frame { IsFrame (frames.Message message.now) }
{
    let parts = message.parts.as_slice();
    let kind = kind_code(message.kind);
    let count = parts.len() as u8;
    let header = Header::of(kind, message.core, message.life, message.number, count);
    join(header, parts, bytes);
}

/// The bytes of the frame of an acknowledgement.
pub fn encode_ack(ack: &Ack) -> [u8; FRAME_LEN]
    ensures spelled { result ≡ frame_bytes (frames.Ack ack.now) }
    ensures frame { IsFrame (frames.Ack ack.now) }
{
    let kind = kind_code(ack.kind) + if ack.stale { 0x20 } else { 0x10 };
    let header = Header::of(kind, ack.core, ack.life, ack.number, ack.applied);
    let mut bytes = [0; FRAME_LEN];
    join(header, &[], &mut bytes);
    bytes
}

/// The low half of a kind byte.
fn kind_code(kind: Kind) -> u8
    ensures { result ≡ kind_code kind }
{
    match kind {
        Kind::Down => 0x01,
        Kind::Start => 0x02,
        Kind::Off => 0x03,
        Kind::Reset => 0x04,
    }
}

/// The bytes before the parts.
#[derive(Clone, Copy)]
struct Header {
    /// The two bytes that each frame begins with, the kind byte and the core.
    names: [u8; 4],
    /// The life.
    life: [u8; 4],
    /// The number.
    number: [u8; 4],
    /// The count.
    count: u8,
}

impl Header {
    /// Those of a frame with these fields.
    fn of(kind: u8, core: Core, life: u32, number: u32, count: u8) -> Header
        requires { core.number < 256 }
        ensures bytes { result.names ++ (result.life ++ (result.number ++ result.count ∷ []))
            ≡ header kind core life number count }
        ensures fits { (life < 2 ^ 32) × (number < 2 ^ 32) }
    {
        Header {
            names: [MAGIC[0], MAGIC[1], kind, core.number as u8],
            life: life.to_be_bytes(),
            number: number.to_be_bytes(),
            count,
        }
    }
}

/// The header and the parts, and zeros in the places that are not used. Compiled into its callers,
/// so that an acknowledgement has no loop over parts.
#[inline(always)]
fn join(header: Header, parts: &[Part], bytes: &mut [u8; FRAME_LEN])
    requires few { length parts.now ≤ MOST_PARTS }
    requires levels { is_climbing 0 parts.now ≡ true }
    ensures bytes { bytes.new ≡ (header.names ++ (header.life ++ (header.number
        ++ header.count ∷ []))) ++ part_fields parts.now }
    ensures fits { AllByRecursion (λ part. part.generation < 2 ^ 64) parts.now }
{
    *bytes = [0; FRAME_LEN];
    put_header(bytes, header);
    let mut end = HEADER_LEN;
    for part in parts {
        put_part(&mut bytes[end..end + PART_LEN], part);
        end += PART_LEN;
    }
}

/// Writes a header into a frame of zeros, four bytes at once. So a compiler finds a number in them,
/// and writes it as one.
#[inline(always)]
fn put_header(bytes: &mut [u8; FRAME_LEN], header: Header)
    requires { bytes.old ≡ replicate FRAME_LEN 0 }
    ensures { bytes.new ≡ (header.names ++ (header.life ++ (header.number ++ header.count ∷ [])))
        ++ replicate 40 0 }
{
    bytes[..LIFE_AT].copy_from_slice(&header.names);
    bytes[LIFE_AT..NUMBER_AT].copy_from_slice(&header.life);
    bytes[NUMBER_AT..COUNT_AT].copy_from_slice(&header.number);
    bytes[COUNT_AT] = header.count;
}

/// Writes a part into its place, its generation at once.
#[inline(always)]
fn put_part(bytes: &mut [u8], part: &Part)
    requires long { length bytes.old ≡ PART_LEN }
    requires level { part.now.level < 256 }
    ensures bytes { bytes.new ≡ part_bytes part.now }
    ensures fits { part.now.generation < 2 ^ 64 }
{
    bytes[0] = part.level as u8;
    bytes[1] = part.depth;
    bytes[GENERATION_AT..].copy_from_slice(&generation_bytes(part));
}

/// The bytes of a part's generation.
fn generation_bytes(part: &Part) -> [u8; 8]
    ensures bytes { result ≡ to_be_bytes w64 part.now.generation }
    ensures fits { part.now.generation < 2 ^ 64 }
{
    part.generation.to_be_bytes()
}

// Frames: what is sent in either direction.

/// How many bytes a frame has.
pub const FRAME_LEN: usize = 53;

/// How many bytes stand before the parts.
pub const HEADER_LEN: usize = 13;

/// How many bytes a part has.
pub const PART_LEN: usize = 10;

/// Where the generation begins in a part, after its level and depth.
pub const GENERATION_AT: usize = 2;

/// Where the kind byte stands, after the first two bytes.
pub const KIND_AT: usize = 2;

/// Where the number of the core stands.
pub const CORE_AT: usize = 3;

/// Where the life begins.
pub const LIFE_AT: usize = 4;

/// Where the number of the message begins.
pub const NUMBER_AT: usize = 8;

/// Where the count stands: how many parts a message has, or how many were applied.
pub const COUNT_AT: usize = 12;

/// A message or an acknowledgement.
#[derive(Debug, PartialEq, Eq, Drop)]
pub enum Frame {
    /// From the firmware to the power controller.
    Message(Message),
    /// From the power controller to the firmware.
    Ack(Ack),
}

impl Frame {
    /// The same frame again.
    pub fn copy(&self) -> Frame
        ensures { result ≡ self.now }
    {
        match self {
            Frame::Message(message) => Frame::Message(message.copy()),
            Frame::Ack(ack) => Frame::Ack(ack.copy()),
        }
    }
}
