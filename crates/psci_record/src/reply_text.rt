//! What the power controller did, before what stands behind it.

ghost use Rattle.std.specs.Prelude.{◌≡◌, ◌+◌, ◌≤◌, ◌++◌, codes, drop, length};
ghost use Rattle.psci_record.specs.Texts.{reply_text};

use crate::core_text::write_counted;
use crate::digits::write_word;
use crate::frame_text::write_frame;
use crate::line::Reply;
use crate::outcome_text::write_refused;

/// Writes what the power controller did, behind an arrow; answers where the arrow begins.
#[inline(never)]
pub fn write_reply(reply: &Reply, room: &mut [u8], end: usize) -> usize
    requires least { 110 ≤ end }
    requires within { end ≤ length room.old }
    ensures most { end ≤ result + 110 }
    ensures within { result ≤ end }
    ensures written { drop result room.new
        ≡ codes " -> " ++ (reply_text reply.now ++ drop end room.old) }
{
    let start = match reply {
        Reply::Acknowledged(frame) => write_frame(frame, room, end),
        Reply::Started(number) => {
            let start = write_counted(*number, room, end);
            write_word(b"started", room, start)
        }
        Reply::Ignored => write_word(b"ignored", room, end),
        Reply::Refused(number) => write_refused(*number, room, end),
    };
    write_word(b" -> ", room, start)
}
