//! Devices made of the standard library's readers and writers.

ghost use Rattle.std.specs.Prelude.{◌≡◌, false};
ghost use Rattle.std.specs.IoError.{error_kind};
ghost use Rattle.psci_script.specs.Device.{Stops};

use crate::device::{Io, Sink, Source};
use crate::transfer::MOST_INTERRUPTIONS;
use std::io::{Error, ErrorKind, Read, Write};

/// A reader or a writer as a device.
#[derive(Drop)]
pub struct Std<T> {
    inner: T,
    failed: bool,
    interruptions: u32,
}

impl<T> Std<T> {
    /// The device of a reader or a writer, which has not failed yet.
    pub fn new(inner: T) -> Std<T>
        ensures { result ≡ record { inner = inner; failed = false; interruptions = 0 } }
    {
        Std {
            inner,
            failed: false,
            interruptions: 0,
        }
    }

    /// Notes that some bytes, or none at the end, went through.
    fn pass(&mut self, count: usize) -> Io
        ensures answer { result ≡ Io.Bytes count }
        ensures noted { self.new ≡ record self.old { interruptions = 0 } }
    {
        self.interruptions = 0;
        Io::Bytes(count)
    }

    /// Notes an interruption or a failure.
    fn stop(&mut self, error: &Error) -> Io
        ensures stops { Stops (error_kind error.now) result self.old.failed self.new.failed
            self.old.interruptions self.new.interruptions }
        ensures inner { self.new.inner ≡ self.old.inner }
    {
        if error.kind() == ErrorKind::Interrupted {
            self.interruptions = self.interruptions.saturating_add(1).min(MOST_INTERRUPTIONS);
            Io::Interrupted
        } else {
            self.failed = true;
            Io::Failed
        }
    }
}

impl<R: Read> Source for Std<R> {
    ghost left = { λ s. R.remaining s.inner };

    ghost failed = { λ s. s.failed };

    ghost interruptions = { λ s. s.interruptions };

    fn read(&mut self, buffer: &mut [u8]) -> Io {
        match self.inner.read(buffer) {
            Ok(count) => self.pass(count),
            Err(error) => self.stop(&error),
        }
    }
}

impl<W: Write> Sink for Std<W> {
    ghost taken = { λ s. W.contents s.inner };

    ghost failed = { λ s. s.failed };

    ghost interruptions = { λ s. s.interruptions };

    fn write(&mut self, bytes: &[u8]) -> Io {
        match self.inner.write(bytes) {
            Ok(0) if !bytes.is_empty() => {
                self.failed = true;
                self.pass(0)
            }
            Ok(count) => self.pass(count),
            Err(error) => self.stop(&error),
        }
    }
}
