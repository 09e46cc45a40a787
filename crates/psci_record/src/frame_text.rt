//! The digits of a frame, before what stands behind them.

ghost use Rattle.std.specs.Prelude.{◌≡◌, ◌+◌, ◌≤◌, ◌++◌, drop, length};
ghost use Rattle.psci_record.specs.Texts.{byte_text, frame_text};

use crate::digits::digit;
use crate::line::FRAME_BYTES;

/// Writes a frame without the zero bytes at its end, but for its first byte; answers where it
/// begins.
#[inline(never)]
pub fn write_frame(frame: &[u8; FRAME_BYTES], room: &mut [u8], end: usize) -> usize
    requires least { 106 ≤ end }
    requires within { end ≤ length room.old }
    ensures most { end ≤ result + 106 }
    ensures within { result ≤ end }
    ensures written { drop result room.new ≡ frame_text frame.now ++ drop end room.old }
{
    let mut start = end;
    let mut left = FRAME_BYTES;
    while left > 0 {
        left -= 1;
        let byte = frame[left];
        if byte != 0 || start < end {
            start = write_byte(byte, room, start);
        }
    }
    if start < end {
        return start;
    }
    write_byte(0, room, end)
}

/// Writes the two digits of a byte; answers where they begin.
fn write_byte(byte: u8, room: &mut [u8], end: usize) -> usize
    requires least { 2 ≤ end }
    requires within { end ≤ length room.old }
    ensures start { result + 2 ≡ end }
    ensures written { drop result room.new ≡ byte_text byte ++ drop end room.old }
{
    room[end - 1] = digit(u64::from(byte % 16));
    room[end - 2] = digit(u64::from(byte / 16));
    end - 2
}
