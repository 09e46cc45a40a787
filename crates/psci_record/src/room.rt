//! The room of a line: written from its end on, and then moved to where it begins.

ghost use Rattle.std.specs.Prelude.{◌≡◌, ◌-◌, ◌∷◌, [], ◌≤◌, drop, length, take};

/// How many bytes a line has at most, its line feed among them, were every number as wide as its
/// type: those of a call that enters and sends a message.
pub const LONGEST_LINE: usize = 256;

/// Writes the line feed; answers where it stands.
#[inline(never)]
pub fn write_line_feed(room: &mut [u8; LONGEST_LINE]) -> usize
    ensures end { result ≡ LONGEST_LINE - 1 }
    ensures written { drop (LONGEST_LINE - 1) room.new ≡ 10 ∷ [] }
{
    room[LONGEST_LINE - 1] = b'\n';
    LONGEST_LINE - 1
}

/// Moves what begins here to where the room begins; answers how many bytes it has.
#[inline(never)]
pub fn move_line(room: &mut [u8; LONGEST_LINE], start: usize) -> usize
    requires { start ≤ LONGEST_LINE }
    ensures most { result ≤ LONGEST_LINE }
    ensures moved { take result room.new ≡ drop start room.old }
{
    room.copy_within(start.., 0);
    LONGEST_LINE - start
}
