//! The line of an event in a record, as C has it.

ghost use Rattle.std.specs.Prelude.{◌≡◌};
ghost use Rattle.psci_ffi.specs.Records.{core_given};

use psci_record::{LONGEST_LINE, Named};
use std::mem::size_of;

/// A line: what stands in its text behind its length says nothing.
#[repr(C)]
#[derive(Clone, Copy)]
pub struct RecordLine {
    /// How many bytes it has, its line feed among them.
    pub length: u32,
    /// These bytes.
    pub text: [u8; LONGEST_LINE],
}

/// How a line names a core.
#[repr(C)]
#[derive(Clone, Copy)]
pub struct RecordCore {
    /// Whether by the MPIDR that it reads; else by its number.
    pub is_mpidr: bool,
    /// That word.
    pub word: u64,
}

// The sizes that psci_record.h gives these.
const _: () = prove!(size_of::<RecordLine>() == 260);

const _: () = prove!(size_of::<RecordCore>() == 16);

/// The core that C names.
pub fn core_given(core: &RecordCore) -> Named
    ensures { result ≡ core_given core.now }
{
    if core.is_mpidr {
        Named::Mpidr(core.word)
    } else {
        Named::Number(core.word)
    }
}
