//! Devices in memory, which stop and fail as they are told.

ghost use Rattle.std.specs.Prelude.{◌≡◌, None, false};

use psci_answers::{Io, Sink, Source};
use std::alloc::Global;

/// A script in memory. A read after its end fails.
#[derive(Drop)]
pub struct Script<'a> {
    /// The bytes that are left.
    pub rest: &'a [u8],
    /// How many bytes a read gives, at most.
    pub most: usize,
    /// How many interruptions come before each read, at most 1,000.
    pub pauses: u32,
    /// Whether a failure comes after the last byte, and not the end.
    pub breaks: bool,
    /// Whether its end was read.
    pub ended: bool,
    /// Whether it has failed.
    pub failed: bool,
    /// How many interruptions came in a row.
    pub interruptions: u32,
}

impl<'a> Script<'a> {
    /// A script that comes byte by byte, with no interruptions.
    pub fn new(rest: &'a [u8]) -> Script<'a>
        ensures sound { result.failed ≡ false }
        ensures fresh { result.interruptions ≡ 0 }
    {
        Script {
            rest,
            most: 1,
            pauses: 0,
            breaks: false,
            ended: false,
            failed: false,
            interruptions: 0,
        }
    }
}

impl Source for Script<'_> {
    ghost left = { λ s. None };

    ghost failed = { λ s. s.failed };

    ghost interruptions = { λ s. s.interruptions };

    fn read(&mut self, buffer: &mut [u8]) -> Io {
        if self.interruptions < self.pauses {
            self.interruptions = self.interruptions.saturating_add(1).min(1000);
            return Io::Interrupted;
        }
        if self.rest.is_empty() && (self.breaks || self.ended) {
            self.failed = true;
            return Io::Failed;
        }
        self.ended = self.rest.is_empty();
        let count = self.most.min(self.rest.len()).min(buffer.len());
        buffer[..count].copy_from_slice(&self.rest[..count]);
        self.rest = &self.rest[count..];
        self.interruptions = 0;
        Io::Bytes(count)
    }
}

/// A page in memory that answers go to.
#[derive(Drop)]
pub struct Page {
    /// The bytes that were taken.
    pub taken: Vec<u8>,
    /// How many bytes a write takes, at most.
    pub most: usize,
    /// How many interruptions come before each write, at most 1,000.
    pub pauses: u32,
    /// How many bytes are taken before it is full.
    pub room: usize,
    /// Whether the full page fails, and does not just take nothing.
    pub breaks: bool,
    /// Whether it has failed.
    pub failed: bool,
    /// How many interruptions came in a row.
    pub interruptions: u32,
}

impl Page {
    /// A page that takes all bytes, one by one, with no interruptions.
    pub fn new(alloc: Global) -> Page
        ensures sound { result.failed ≡ false }
        ensures fresh { result.interruptions ≡ 0 }
    {
        Page {
            taken: Vec::new(alloc),
            most: 1,
            pauses: 0,
            room: 1000,
            breaks: true,
            failed: false,
            interruptions: 0,
        }
    }
}

impl Sink for Page {
    ghost taken = { λ s. None };

    ghost failed = { λ s. s.failed };

    ghost interruptions = { λ s. s.interruptions };

    fn write(&mut self, bytes: &[u8]) -> Io {
        if self.interruptions < self.pauses {
            self.interruptions = self.interruptions.saturating_add(1).min(1000);
            return Io::Interrupted;
        }
        let count = self.most.min(self.room).min(bytes.len());
        if self.breaks && self.room == 0 || self.taken.extend_from_slice(&bytes[..count]).is_err() {
            self.failed = true;
            return Io::Failed;
        }
        if count == 0 && !bytes.is_empty() {
            self.failed = true;
        }
        self.room -= count;
        self.interruptions = 0;
        Io::Bytes(count)
    }
}
