//! The registers of a call.

ghost use Rattle.std.specs.Prelude.{◌≡◌, pos};
ghost use Rattle.psci_abi.specs.Calls.{argument, features_of, is_wide, low_half, register_of};
ghost use Rattle.psci_abi.specs.Calls.{result_of};

use crate::request::{Request, function};

/// The registers x0 to x3 of an SMC or HVC instruction, all 64 bits of each (DEN0028).
#[derive(Clone, Copy, Debug, PartialEq, Eq)]
pub struct Regs {
    /// The function word in bits 31:0; bits 63:32 are ignored.
    pub x0: u64,
    /// The first argument.
    pub x1: u64,
    /// The second argument.
    pub x2: u64,
    /// The third argument.
    pub x3: u64,
}

/// The low half of a register: what an SMC32 function, and every argument of 32 bits, reads.
pub fn low(register: u64) -> u32
    ensures { result ≡ low_half register }
{
    (register & 0xffff_ffff) as u32
}

/// The low half of a register, as an argument of the SMC32 convention.
pub(crate) fn narrow(register: u64) -> u64
    ensures { result ≡ low_half register }
{
    u64::from(low(register))
}

impl Regs {
    /// An equal value, without memory.
    pub fn copy(&self) -> Regs
        ensures { result ≡ self.now }
    {
        *self
    }

    /// Whether the call follows the SMC64 convention: bit 30 of the function word.
    pub fn is_wide(&self) -> bool
        ensures { result ≡ is_wide self.now }
    {
        (self.x0 >> 30) % 2 == 1
    }

    /// An argument as the convention passes it: all of its register, or the low half.
    pub fn argument(&self, register: u64) -> u64
        ensures { result ≡ argument self.now register }
    {
        if self.is_wide() {
            register
        } else {
            narrow(register)
        }
    }

    /// The register x0 in which the caller of these registers finds a return code.
    pub fn result(&self, code: Code) -> u64
        ensures { result ≡ result_of self.now code }
    {
        code.register(self.is_wide())
    }
}

// Return codes and the register that carries them.

/// A return code: SUCCESS, an error code, or what a function answers beside them (a version, a
/// status, feature flags).
#[derive(Clone, Copy, Debug, PartialEq, Eq)]
pub struct Code(pub i32);

impl Code {
    /// SUCCESS.
    pub const SUCCESS: Code = Code(0);

    /// NOT_SUPPORTED.
    pub const NOT_SUPPORTED: Code = Code(-1);

    /// INVALID_PARAMETERS.
    pub const INVALID_PARAMETERS: Code = Code(-2);

    /// DENIED.
    pub const DENIED: Code = Code(-3);

    /// ALREADY_ON.
    pub const ALREADY_ON: Code = Code(-4);

    /// ON_PENDING.
    pub const ON_PENDING: Code = Code(-5);

    /// INTERNAL_FAILURE.
    pub const INTERNAL_FAILURE: Code = Code(-6);

    /// NOT_PRESENT.
    pub const NOT_PRESENT: Code = Code(-7);

    /// DISABLED.
    pub const DISABLED: Code = Code(-8);

    /// INVALID_ADDRESS.
    pub const INVALID_ADDRESS: Code = Code(-9);

    /// The result register x0: sign-extended to 64 bits for a wide (SMC64) function, else in the
    /// low half with the upper half zero.
    pub fn register(self, wide: bool) -> u64
        ensures { result ≡ register_of self.0 wide }
    {
        if wide {
            i64::from(self.0).cast_unsigned()
        } else {
            u64::from(self.0.cast_unsigned())
        }
    }
}

// PSCI_FEATURES.

/// The flag of CPU_SUSPEND for OS-initiated mode, bit 0 (DEN0022D, PSCI_FEATURES).
const OS_INITIATED: i32 = 0b01;

/// The flag of CPU_SUSPEND for power state words in the extended format, bit 1.
const EXTENDED: i32 = 0b10;

/// The flags of CPU_SUSPEND: OS-initiated mode is there, and power state words have this format.
fn suspend_flags(format: Format) -> i32
    ensures { result ≡ pos (Rattle.psci_abi.specs.Calls.suspend_flags format) }
{
    match format {
        Format::Original => OS_INITIATED,
        Format::Extended => OS_INITIATED | EXTENDED,
    }
}

/// What PSCI_FEATURES answers for a function word: its feature flags, or NOT_SUPPORTED.
///
/// CPU_SUSPEND alone has flags; one of them says how the board writes its power state words.
pub fn features(word: u32, format: Format) -> i32
    ensures { result ≡ features_of format word }
{
    match function(word, 0, 0, 0) {
        Request::Unknown => Code::NOT_SUPPORTED.0,
        Request::CpuSuspend { .. } => suspend_flags(format),
        _ => 0,
    }
}

// The formats of a power state word.

/// How power state words are written (DEN0022D, CPU_SUSPEND, the parameter power_state).
#[derive(Clone, Copy, Debug, PartialEq, Eq)]
pub enum Format {
    /// The original format, with a power level field.
    Original,
    /// The extended StateID format.
    Extended,
}
