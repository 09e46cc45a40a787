//! The parts of a frame: how they are read, and what may be wrong with them.

ghost use Rattle.std.specs.Prelude.{◌&&◌, ◌*◌, ◌+◌, ◌<◌, ◌^◌, ◌≡◌, ◌≤◌, length, MatchResult, None};
ghost use Rattle.std.specs.Prelude.{Some};
ghost use Rattle.psci_link.specs.Frame.{fault_of_parts, is_within, part_in, parts_in};
ghost use Rattle.psci_messages.specs.Message.{is_climbing, is_falling};

use crate::encoding::PART_LEN;
use psci_board::Board;
use psci_messages::{Part, Parts};
use psci_state::POWER_DOWN;
use thiserror::Error;

/// The first fault of the parts of a message on this board, if they have one.
pub fn check_parts(board: &Board, parts: &[Part]) -> Result<(), FrameFault>
    requires { length parts.now ≤ 4 }
    ensures { MatchResult result (λ _. fault_of_parts board.now parts.now ≡ None)
        (λ fault. fault_of_parts board.now parts.now ≡ Some fault) }
{
    if !is_falling(POWER_DOWN, parts) {
        return Err(FrameFault::Depth);
    }
    if !has_levels(board.height(), parts) {
        return Err(FrameFault::Level);
    }
    Ok(())
}

/// The part whose place these bytes begin with.
fn part_in(bytes: &[u8]) -> Part
    requires { 10 ≤ length bytes.now }
    ensures { result ≡ part_in bytes.now }
{
    Part {
        level: u32::from(bytes[0]),
        depth: bytes[1],
        generation: u64::from_be_bytes([
            bytes[2], bytes[3], bytes[4], bytes[5], bytes[6], bytes[7], bytes[8], bytes[9],
        ]),
    }
}

/// The parts of so many places.
pub fn parts_in(count: u8, places: &[u8]) -> Parts
    requires few { count ≤ 4 }
    requires room { 10 * count ≤ length places.now }
    ensures { result ≡ parts_in count places.now }
{
    let mut parts = Parts::new();
    for place in 0..count as usize {
        parts.push(part_in(&places[PART_LEN * place..]));
    }
    parts
}

/// Whether each depth is at least 1, and none is above the one before it, the first not above the
/// given one.
fn is_falling(most: u8, parts: &[Part]) -> bool
    ensures { result ≡ is_falling most parts.now }
{
    match parts {
        [] => true,
        [part, above @ ..] => {
            0 < part.depth && part.depth <= most && is_falling(part.depth, above)
        }
    }
}

/// Whether the levels count up from this one.
fn is_climbing(level: u32, parts: &[Part]) -> bool
    requires { level + length parts.now < 2 ^ 32 }
    ensures { result ≡ is_climbing level parts.now }
{
    match parts {
        [] => true,
        [part, above @ ..] => part.level == level && is_climbing(level + 1, above),
    }
}

/// Whether the levels count up from 0, none above the height.
fn has_levels(height: u32, parts: &[Part]) -> bool
    requires { length parts.now ≤ 4 }
    ensures { result ≡ (is_climbing 0 parts.now && is_within height parts.now) }
{
    is_climbing(0, parts) && is_within(height, parts)
}

/// Whether no part is for a level above the height.
fn is_within(height: u32, parts: &[Part]) -> bool
    ensures { result ≡ is_within height parts.now }
{
    parts.iter().all(|part| part.level <= height)
}

// Why bytes are no frame.

/// The first fault of a frame.
#[derive(Clone, Copy, Debug, PartialEq, Eq, Error)]
pub enum FrameFault {
    #[error("a frame has 53 bytes")]
    Length,
    #[error("the bytes do not begin as a frame does")]
    Magic,
    #[error("there is no such kind of frame")]
    Kind,
    #[error("the kind does not allow this count")]
    Count,
    #[error("a byte that is not used is not zero")]
    Unused,
    #[error("the board has no such core")]
    Core,
    #[error("a depth is not 1 to 3, or above the depth below it")]
    Depth,
    #[error("a level is left out, or above the height of the board")]
    Level,
}
