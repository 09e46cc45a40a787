//! The numbers that C is answered, and the version of the library.

ghost use Rattle.std.specs.Prelude.{◌<◌, ◌≡◌};
ghost use Rattle.psci_ffi.specs.Codes.{cause_said, frame_code, hw_number, no_firmware, opened_said};
ghost use Rattle.psci_ffi.specs.Codes.{refusal, status_code, taken_code};

use psci_board::BoardFault;
use psci_fw::{Cause, FwFault, Hw, Status, Taken};
use psci_link::FrameFault;

/// The place is empty.
pub const NO_FIRMWARE: u32 = 16;

/// Memory lacks.
pub const NO_MEMORY: u32 = 8;

/// A start has no such cause.
pub const NO_CAUSE: u32 = 21;

/// The bytes are the frame of a message.
pub const NOT_AN_ACK: u32 = 41;

/// The bytes are the frame of an acknowledgement, where a message's are wanted.
pub const NOT_A_MESSAGE: u32 = 42;

/// What came of an opening: 0, or the number of the board text's fault, or 8 for want of memory.
pub fn opened_code(opened: Result<(), BoardFault>) -> u32
    ensures said { opened_said result ≡ opened }
    ensures low { result < no_firmware }
{
    match opened {
        Ok(()) => 0,
        Err(BoardFault::Grammar) => 1,
        Err(BoardFault::Uneven) => 2,
        Err(BoardFault::TooWide) => 3,
        Err(BoardFault::TooManyCores) => 4,
        Err(BoardFault::BadRange) => 5,
        Err(BoardFault::BadBoot) => 6,
        Err(BoardFault::BadLimit) => 7,
        Err(BoardFault::Memory) => 8,
    }
}

/// Why the firmware refused a call.
pub fn refusal(fault: FwFault) -> u32
    ensures { result ≡ refusal fault }
{
    match fault {
        FwFault::NoCore => 17,
        FwFault::NoLife => 18,
        FwFault::NotRunning => 19,
        FwFault::OldStart => 20,
    }
}

/// The cause of a start, by its number: 0 of a boot, 1 of CPU_ON, 2 of a wake-up, 3 of a reset.
pub fn cause_of(number: u32) -> Option<Cause>
    ensures { result ≡ cause_said number }
{
    match number {
        0 => Some(Cause::Boot),
        1 => Some(Cause::On),
        2 => Some(Cause::Wake),
        3 => Some(Cause::Reset),
        _ => None,
    }
}

/// The first fault of a frame: 33 and so on, in their order.
pub fn frame_code(fault: FrameFault) -> u32
    ensures { result ≡ frame_code fault }
{
    match fault {
        FrameFault::Length => 33,
        FrameFault::Magic => 34,
        FrameFault::Kind => 35,
        FrameFault::Count => 36,
        FrameFault::Unused => 37,
        FrameFault::Core => 38,
        FrameFault::Depth => 39,
        FrameFault::Level => 40,
    }
}

/// What became of an acknowledgement.
pub fn taken_code(taken: Taken) -> u32
    ensures { result ≡ taken_code taken }
{
    match taken {
        Taken::Used => 0,
        Taken::Old => 1,
    }
}

/// The code of a status, as AFFINITY_INFO has it.
pub fn status_code(status: Option<Status>) -> u32
    ensures { result ≡ status_code status }
{
    match status {
        Some(Status::On) => 0,
        Some(Status::Off) => 1,
        Some(Status::Pending) => 2,
        None => 18,
    }
}

/// The number of a hardware state, as NODE_HW_STATE has it.
pub fn hw_number(hw: Option<Hw>) -> u32
    ensures { result ≡ hw_number hw }
{
    match hw {
        Some(Hw::On) => 0,
        Some(Hw::Off) => 1,
        Some(Hw::Standby) => 2,
        None => 18,
    }
}

/// 1.0.0: the major number in bits 16 to 31, the minor one in bits 8 to 15, the patch below.
pub const VERSION_OF_LIBRARY: u32 = 0x0001_0000;

/// The version of the library, as `PSCI_VERSION_OF_LIBRARY` of its headers.
#[unsafe(no_mangle)]
pub extern "C" fn psci_version_of_library() -> u32
    ensures { result ≡ 65536 }
{
    VERSION_OF_LIBRARY
}
