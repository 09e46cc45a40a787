//! What is asked and answered: the functions that storms draw, and all tallies that a legal run may
//! have.

use crate::answer::Answer::{
    Absent, Acked, Enter, Ignored, Old, Resume, Return, Started, Stop, Used,
};
use crate::answer::Asked::{self, Call};
use crate::answer::Tally;
use psci_abi::Function::{
    self, AffinityInfo, CpuOff, CpuOn, CpuSuspend, Features, MigrateInfoType, NodeHwState,
    SetSuspendMode, SystemOff, SystemReset, SystemReset2, SystemSuspend, Version,
};

/// What a core calls where it calls anything, each as often: the functions that do not end the
/// life, and one that is not there.
pub const DRAWN: [Option<Function>; 12] = [
    Some(Version),
    Some(MigrateInfoType),
    None,
    Some(SetSuspendMode),
    Some(Features),
    Some(AffinityInfo),
    Some(CpuOff),
    Some(SystemSuspend),
    Some(CpuSuspend),
    Some(SystemReset2),
    Some(NodeHwState),
    Some(CpuOn),
];

/// The tallies of a table, which has a row for each thing that is asked, with what may be answered.
macro_rules! tallies {
    ($($asked:expr => $($answer:expr),+;)+) => {
        [$($(Tally { asked: $asked, answer: $answer }),+),+]
    };
}

/// All tallies that a legal run may have, in a fixed order. In a halting life a core stops,
/// whatever it calls. On a board of height 1 or 2 no message has the fourth part that the last
/// acknowledgements speak of. PSCI_FEATURES of CPU_SUSPEND returns 1 or 3, by the board's format.
pub const TALLIES: [Tally; 97] = tallies! {
    Call(Version) => Return(65537), Stop, Ignored, Absent;
    Call(CpuSuspend) => Return(0), Return(-2), Return(-3), Return(-9), Stop, Ignored, Absent;
    Call(CpuOff) => Stop, Ignored, Absent;
    Call(CpuOn) => Return(0), Return(-2), Return(-4), Return(-5), Return(-6), Return(-9), Stop,
        Ignored, Absent;
    Call(AffinityInfo) => Return(0), Return(1), Return(2), Return(-2), Stop, Ignored, Absent;
    Call(MigrateInfoType) => Return(2), Stop, Ignored, Absent;
    Call(SystemOff) => Stop, Ignored, Absent;
    Call(SystemReset) => Stop, Ignored, Absent;
    Call(Features) => Return(0), Return(1), Return(3), Return(-1), Stop, Ignored, Absent;
    Call(NodeHwState) => Return(0), Return(1), Return(2), Return(-2), Stop, Ignored, Absent;
    Call(SystemSuspend) => Return(-3), Return(-9), Stop, Ignored, Absent;
    Call(SetSuspendMode) => Return(0), Return(-2), Return(-3), Stop, Ignored, Absent;
    Call(SystemReset2) => Return(-2), Stop, Ignored, Absent;
    Asked::Unknown => Return(-1), Stop, Ignored, Absent;
    Asked::Enter => Enter, Resume, Stop, Ignored, Absent;
    Asked::Wake => Started, Ignored, Absent;
    Asked::Reset => Started, Ignored, Absent;
    Asked::Deliver => Acked { applied: 0, stale: true },
        Acked { applied: 1, stale: false }, Acked { applied: 1, stale: true },
        Acked { applied: 2, stale: false }, Acked { applied: 2, stale: true },
        Acked { applied: 3, stale: false }, Acked { applied: 3, stale: true },
        Acked { applied: 4, stale: false }, Ignored, Absent;
    Asked::Take => Used, Old, Absent;
};
