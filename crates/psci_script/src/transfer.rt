//! Whole reads and writes, past interruptions and short counts.

ghost use Rattle.std.specs.Io.KnownBytes.{Appends, Keeps};
ghost use Rattle.std.specs.List.{position};
ghost use Rattle.std.specs.Prelude.{◌+◌, ◌<◌, ◌==◌, ◌≡◌, ◌≤◌, ◌⊎◌, IfErr, IfOk, if◌then◌else◌};
ghost use Rattle.std.specs.Prelude.{length, nat_lt, None, OnErr, OnOk, Some, take, true, ℕ};
ghost use Rattle.psci_script.specs.Device.{GaveUp, Gives, Takes};
ghost use Rattle.psci_script.specs.EventText.{IsFrontOf, longest_line};
ghost use Rattle.psci_script.specs.declared.device.Io.TheVariants.{Bytes};
ghost use Rattle.psci_script.specs.declared.fault.ReplayFault.TheVariants.{Read, Write};

use crate::device::{Io, Sink, Source};
use crate::fault::ReplayFault;
use memchr::memchr;

/// Reads bytes into the front of the buffer: how many came, none only at the end.
///
/// It is a read fault where the device failed, or was interrupted 1,000 times in a row.
pub fn read_some<S: Source>(source: &mut S, buffer: &mut [u8]) -> Result<usize, ReplayFault>
    ensures bytes { IfOk result (λ n. Gives (Bytes n) buffer.new
        (S.left source.old) (S.left source.new)) }
    ensures sound { OnOk result (S.failed source.new ≡ S.failed source.old) }
    ensures gave_up { IfErr result (λ fault. (fault ≡ Read)
        × GaveUp (S.failed source.new) (S.interruptions source.new)) }
    ensures kept { OnErr result (Keeps (S.left source.old) (S.left source.new)) }
{
    for _ in 0..MOST_INTERRUPTIONS {
        match source.read(buffer) {
            Io::Bytes(count) => return Ok(count),
            Io::Interrupted => {}
            Io::Failed => return Err(ReplayFault::Read),
        }
    }
    Err(ReplayFault::Read)
}

/// Writes bytes from the front: how many, one at least.
///
/// It is a write fault where the device failed, took none of them, or was interrupted 1,000 times
/// in a row; nothing was written then.
fn write_some<K: Sink>(sink: &mut K, bytes: &[u8]) -> Result<usize, ReplayFault>
    requires { 0 < length bytes.now }
    ensures bytes { IfOk result (λ n. (0 < n) × Takes (Bytes n) bytes.now
        (K.taken sink.old) (K.taken sink.new)) }
    ensures sound { OnOk result (K.failed sink.new ≡ K.failed sink.old) }
    ensures gave_up { IfErr result (λ fault. (fault ≡ Write)
        × GaveUp (K.failed sink.new) (K.interruptions sink.new)) }
    ensures kept { OnErr result (Keeps (K.taken sink.old) (K.taken sink.new)) }
{
    for _ in 0..MOST_INTERRUPTIONS {
        match sink.write(bytes) {
            Io::Bytes(count) if count > 0 => return Ok(count),
            Io::Bytes(_) | Io::Failed => return Err(ReplayFault::Write),
            Io::Interrupted => {}
        }
    }
    Err(ReplayFault::Write)
}

/// Writes all of the bytes.
///
/// It is a write fault where the device failed, took none of some bytes, or was interrupted 1,000
/// times in a row; a front part of the bytes was written then.
pub fn write_all<K: Sink>(sink: &mut K, bytes: &[u8]) -> Result<(), ReplayFault>
    ensures all { OnOk result (Appends (K.taken sink.old) (K.taken sink.new) bytes.now) }
    ensures sound { OnOk result (K.failed sink.new ≡ K.failed sink.old) }
    ensures gave_up { IfErr result (λ fault. (fault ≡ Write)
        × GaveUp (K.failed sink.new) (K.interruptions sink.new)) }
    ensures front { OnErr result ((n : ℕ)
        × Appends (K.taken sink.old) (K.taken sink.new) (take n bytes.now)) }
{
    let mut done = 0;
    while done < bytes.len() {
        done += write_some(sink, &bytes[done..])?;
    }
    Ok(())
}

// The limits of a script, and of the devices that it goes through.

/// How many bytes a line may have before its line feed.
pub const LONGEST_LINE: usize = 256;

/// How many lines a script may have.
pub const MOST_LINES: u64 = 1_000_000;

/// How many interruptions in a row are a fault.
pub const MOST_INTERRUPTIONS: u32 = 1000;

/// How many bytes are read ahead, at most.
pub const BLOCK_ROOM: usize = 65536;

// Lines of a script, cut from the bytes that were read ahead.

/// Where a line ends.
#[derive(Clone, Copy, Debug, PartialEq, Eq)]
pub struct Extent {
    /// How many bytes the line has.
    pub line: usize,
    /// How many bytes are to be taken, its line feed among them.
    pub taken: usize,
}

/// What is at the front of some bytes.
pub enum Front {
    /// A line of so many bytes, and its line feed.
    Whole(usize),
    /// The front of a line that may go on.
    Part,
    /// A line that is too long.
    Long,
}

/// Where the first line feed is, if it is not too far.
fn line_feed(bytes: &[u8]) -> Option<usize>
    ensures { result ≡ position (λ b. b == 10) (take (longest_line + 1) bytes.now) }
{
    memchr(b'\n', &bytes[..(LONGEST_LINE + 1).min(bytes.len())])
}

/// What is at the front of these bytes.
pub fn cut(bytes: &[u8]) -> Front
    ensures { IsFrontOf result bytes.now }
{
    match line_feed(bytes) {
        Some(length) => Front::Whole(length),
        None if bytes.len() > LONGEST_LINE => Front::Long,
        None => Front::Part,
    }
}

/// The line that ends with the script, which may have none.
pub fn last_line(bytes: &[u8]) -> Option<Extent>
    ensures { result ≡ (if nat_lt 0 (length bytes.now)
        then Some (record { line = length bytes.now; taken = length bytes.now }) else None) }
{
    let length = bytes.len();
    (length > 0).then_some(Extent {
        line: length,
        taken: length,
    })
}
