//! The bytes that were read ahead.

ghost use Rattle.std.specs.Prelude.{◌<◌, ◌≡◌, ◌≤◌, [], drop, false, IfErr, IfOk, length, OnErr};
ghost use Rattle.std.specs.Prelude.{OnOk, true};
ghost use Rattle.std.specs.Io.KnownBytes.{Keeps};
ghost use Rattle.psci_script.specs.declared.fault.ReplayFault.TheVariants.{Read};
ghost use Rattle.psci_script.specs.EventText.{block_room, Refills};
ghost use Rattle.psci_script.specs.Device.{GaveUp};

use crate::device::Source;
use crate::fault::ReplayFault;
use crate::transfer::{BLOCK_ROOM, read_some};
use std::alloc::{AllocError, Global};
use std::marker::Model;

/// Bytes that were read and not yet taken, and whether the end of the script has come.
#[derive(Drop)]
pub struct Block {
    bytes: Vec<u8>,
    from: usize,
    to: usize,
    ended: bool,
}

impl Model for Block {
    ghost use Rattle.std.specs.Prelude.{◌≡◌, ◌≤◌, length, take, drop};
    ghost use Rattle.psci_script.specs.EventText.{block_room, ReadAhead};

    ghost Value = { ReadAhead };

    ghost view = { λ b. record {
      unread = drop b.from
          (take b.to b.bytes.items);
      ended = b.ended;
    } };

    ghost invariant = { λ b. (b.from ≤ b.to) × (b.to ≤ length b.bytes.items)
        × (length b.bytes.items ≡ block_room) };
}

impl Block {
    /// No bytes, and the room for those to come.
    pub fn new(alloc: Global) -> Result<Block, AllocError>
        ensures { IfOk result (λ block. block ≡ record { unread = []; ended = false }) }
    {
        Ok(Block {
            bytes: vec![in alloc; 0; BLOCK_ROOM]?,
            from: 0,
            to: 0,
            ended: false,
        })
    }

    /// The bytes.
    // In place, as `skip` is, since each line of a replay calls both.
    #[inline(always)]
    pub fn unread(&self) -> &[u8]
        ensures bytes { result.now ≡ self.now.unread }
        ensures room { length result.now ≤ block_room }
    {
        &self.bytes[self.from..self.to]
    }

    /// Takes bytes from the front.
    #[inline(always)]
    pub fn skip(&mut self, count: usize)
        requires { count ≤ length self.old.unread }
        ensures { self.new ≡ record self.old { unread = drop count self.old.unread } }
    {
        self.from += count;
    }

    /// Reads bytes after those that are here, and says whether any came. After the end of the
    /// script it reads nothing.
    pub fn refill<S: Source>(&mut self, source: &mut S) -> Result<bool, ReplayFault>
        requires { length self.old.unread < block_room }
        ensures bytes { IfOk result (λ some. Refills some self.old self.new (S.left source.old)
            (S.left source.new)) }
        ensures sound { OnOk result (S.failed source.new ≡ S.failed source.old) }
        ensures gave_up { IfErr result (λ fault. (fault ≡ Read)
            × GaveUp (S.failed source.new) (S.interruptions source.new)) }
        ensures stays { OnErr result (Keeps (S.left source.old) (S.left source.new)
            × (self.new ≡ self.old) × (self.old.ended ≡ false)) }
    {
        if self.ended {
            return Ok(false);
        }
        let waiting = self.to - self.from;
        self.bytes.copy_within(self.from..self.to, 0);
        self.from = 0;
        self.to = waiting;
        let count = read_some(source, &mut self.bytes[waiting..])?;
        self.to += count;
        self.ended = count == 0;
        Ok(count > 0)
    }
}
