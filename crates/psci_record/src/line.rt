//! What lines say of cores, starts and answers.

/// How many bytes a frame has.
pub const FRAME_BYTES: usize = 53;

/// How a line names a core.
#[derive(Clone, Copy)]
pub enum Named {
    /// By the MPIDR that it reads, of affinity fields alone.
    Mpidr(u64),
    /// By its number on the board, from 0.
    Number(u64),
}

/// What a core does next, as the firmware answered.
#[derive(Clone, Copy)]
pub enum Next {
    /// It returns with this code.
    Return(i32),
    /// It stops.
    Stop,
    /// It enters.
    Enter {
        /// Where.
        address: u64,
        /// Its context id.
        context: u64,
    },
    /// It goes on behind its call.
    Resume,
    /// The call was refused, by this number of the headers for C.
    Refused(u32),
}

/// The answer to a call or an entry.
#[derive(Clone, Copy)]
pub struct Outcome {
    /// What the core does next.
    pub next: Next,
    /// The frame of the message that the firmware sends, if it sends one.
    pub message: Option<[u8; FRAME_BYTES]>,
}

/// The answer to a poll.
#[derive(Clone, Copy)]
pub enum Polled {
    /// The code of a core's status.
    Code(i32),
    /// The poll was refused, by this number.
    Refused(u32),
}

/// What became of an acknowledgement.
#[derive(Clone, Copy)]
pub enum Taken {
    /// It was used.
    Used,
    /// It was out of date.
    Old,
    /// It was refused, by this number.
    Refused(u32),
}

/// What the power controller did.
#[derive(Clone, Copy)]
pub enum Reply {
    /// It sent this acknowledgement.
    Acknowledged([u8; FRAME_BYTES]),
    /// It started the core, for the time of this number in its life, from 1.
    Started(u32),
    /// Nothing.
    Ignored,
    /// It refused, by this number.
    Refused(u32),
}

/// A start of a core, as a port gives it.
#[derive(Clone, Copy)]
pub struct Started {
    /// Its life.
    pub life: u32,
    /// Its number in that life, from 1.
    pub number: u32,
    /// Its cause: 0 a boot, 1 CPU_ON, 2 a wake-up, 3 a reset of the core.
    pub cause: u32,
}

/// Where and how a core begins in the normal world.
#[derive(Clone, Copy)]
pub struct Begun {
    /// Where.
    pub address: u64,
    /// Its register x0.
    pub x0: u64,
    /// SPSR_EL3: its exception level, and what is masked.
    pub spsr: u64,
    /// SCTLR of that exception level: the MMU and the caches.
    pub sctlr: u64,
}
