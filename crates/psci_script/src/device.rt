//! Devices that the bytes of a script come from and its answers go to.

ghost use Rattle.std.specs.Prelude.{List, ℕ, Bool, Option};
ghost use Rattle.psci_script.specs.Device.{Gives, Takes, FailsRead, FailsWrite, Interrupts};

/// What a device answered to one read or write.
#[derive(Clone, Copy, Debug, PartialEq, Eq)]
pub enum Io {
    /// So many bytes were read or written, at most the length of the slice.
    Bytes(usize),
    /// Nothing was read or written, and the call may be made again.
    Interrupted,
    /// Nothing was read or written, and the device has failed.
    Failed,
}

/// Where bytes come from.
pub trait Source {
    /// The bytes that are left, where they are known.
    ghost left: { Self → Option (List ℕ) };

    /// Whether the device has failed.
    ghost failed: { Self → Bool };

    /// The present row of interruptions; it is counted to 1,000 and no further.
    ghost interruptions: { Self → ℕ };

    /// Reads bytes into the front of the buffer: none, where it has room, only at the end.
    fn read(&mut self, buffer: &mut [u8]) -> Io
        ensures bytes { Gives result buffer.new (left self.old) (left self.new) }
        ensures failed { FailsRead result (failed self.old) (failed self.new) }
        ensures interruptions { Interrupts result (interruptions self.old)
            (interruptions self.new) };
}

/// Where bytes go to.
pub trait Sink {
    /// The bytes that were taken, where they are known.
    ghost taken: { Self → Option (List ℕ) };

    /// Whether the device has failed; taking none of some bytes is a failure.
    ghost failed: { Self → Bool };

    /// The present row of interruptions; it is counted to 1,000 and no further.
    ghost interruptions: { Self → ℕ };

    /// Writes bytes from the front.
    fn write(&mut self, bytes: &[u8]) -> Io
        ensures bytes { Takes result bytes.now (taken self.old) (taken self.new) }
        ensures failed { FailsWrite result bytes.now (failed self.old) (failed self.new) }
        ensures interruptions { Interrupts result (interruptions self.old)
            (interruptions self.new) };
}
