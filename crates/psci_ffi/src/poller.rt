//! One who polls: what is in a poller, the poller in the memory of its caller, and AFFINITY_INFO of
//! a core without the lock.

ghost use Rattle.std.specs.Prelude.{◌≡◌, None, Some, is_some, option_map};
ghost use Rattle.std.specs.Arc.{arc_value};
ghost use Rattle.std.specs.Borrow.{sem};
ghost use Rattle.std.specs.Coded.{coded_option};
ghost use Rattle.psci_status.specs.Seats.{seen, table, table_of_reader};
ghost use Rattle.psci_ffi.specs.Namings.{HasPolled, board_of, machine_of};
ghost use Rattle.psci_ffi.specs.contracts.poller.Watch.{the_row as watch_row};
ghost use Rattle.psci_ffi.specs.Slots.{IsFilled, KeptWatch, owns_kept};
ghost use Rattle.psci_ffi.specs.Readers.{HasPolledIn, IsFilledWith, OpensPoller};

use crate::codes::{NO_FIRMWARE, NO_MEMORY};
use crate::naming::Common;
use crate::place::{Parts, Place, crosses, nowhere};
use psci_board::Memory;
use psci_fw::Code;
use psci_status::{Reader, affinity_core};
use std::alloc::Global;
use std::marker::Model;
use std::mem::{self, size_of};
use std::sync::Arc;

/// A reader of status words. Contracts see the board, the machine, if there is one, the table of
/// the words and what was seen of each core.
#[derive(Drop)]
pub struct Watch {
    common: Arc<Common>,
    reader: Reader,
}

impl Model for Watch {
    ghost use Rattle.std.specs.Prelude.{◌≡◌};
    ghost use Rattle.std.specs.Arc.{arc_value};
    ghost use Rattle.psci_status.specs.Seats.{seen, table, table_of_reader};
    ghost use Rattle.psci_ffi.specs.Namings.{board_of, machine_of};
    ghost use Rattle.psci_ffi.specs.Namings.{WatchView};

    ghost Value = { WatchView };

    ghost view = { λ w. record {
      board = board_of (arc_value w.common).naming;
      machine = machine_of (arc_value w.common).naming;
      table = table_of_reader w.reader;
      seen = seen w.reader;
    } };

    ghost invariant = { λ w. table_of_reader w.reader ≡ table (arc_value w.common).words };
}

impl Watch {
    /// Of what a firmware shares, and a reader of its words.
    pub fn of(common: Arc<Common>, reader: Reader) -> Watch
        requires { table_of_reader reader ≡ table (arc_value common).words }
        ensures { result ≡ record {
          board = board_of (arc_value common).naming;
          machine = machine_of (arc_value common).naming;
          table = table_of_reader reader;
          seen = seen reader;
        } }
    {
        Watch { common, reader }
    }

    /// What AFFINITY_INFO answers for a core, by one load of its status word.
    pub fn poll(&mut self, affinity: u64) -> Code
        ensures { HasPolled self.old affinity result self.new }
    {
        let Watch { common, reader } = self;
        let word = common.naming.word(affinity);
        affinity_core(&common.words, common.naming.board(), reader, word)
    }
}

/// A slot of one who polls.
#[repr(C)]
#[derive(Drop)]
pub struct PollerSlot {
    ptr: *mut u8,
    alloc: Global,
    pub ghost kept: { KeptWatch } by { coded_option watch_row.coded },
}

impl Model for PollerSlot {
    ghost also_owns = { λ s. owns_kept watch_row s.alloc s.ptr s.kept };
}

impl PollerSlot {
    ghost use Rattle.psci_ffi.specs.Lending.{LendsWatch};

    /// With nothing in it.
    fn empty(ptr: *mut u8, alloc: Global) -> PollerSlot
        ensures { result.kept ≡ None }
    {
        PollerSlot { ptr, alloc }
    }

    /// With this in it.
    fn of_parts(parts: Parts<Watch, Global>) -> PollerSlot
        ensures { result.kept ≡ Some parts.value }
    {
        let Parts { ptr, alloc } = parts;
        PollerSlot {
            ptr: ptr as *mut u8,
            alloc,
        }
    }

    /// What is in it.
    fn into_parts(self) -> Parts<Watch, Global>
        requires { IsFilled self.kept }
        ensures { self.kept ≡ Some result.value }
    {
        let PollerSlot { ptr, alloc } = self;
        Parts {
            ptr: ptr as *mut Watch,
            alloc,
        }
    }

    /// What is in it, where it stands.
    pub fn watch(&mut self) -> &mut Watch
        requires { IsFilled self.old.kept }
        ensures* writes_back { sem 𝓛 (LendsWatch self.entry result) }
        ensures value { self.old.kept ≡ Some result.now }
    {
        unsafe { &mut *(self.ptr as *mut Watch) }
    }
}

unsafe impl Send for PollerSlot {}

/// A place for one who polls. With all bytes zero it is empty.
#[repr(C)]
#[derive(Drop)]
pub struct Poller {
    /// The one who polls.
    pub slot: PollerSlot,
    /// Whether there is one.
    pub full: bool,
    ghost tied: { full ≡ is_some slot.kept },
}

// The size that psci.h gives it.
const _: () = prove!(size_of::<Poller>() == 16);

impl Poller {
    /// The one who polls, which leaves its place empty.
    pub fn take(&mut self, alloc: Global) -> Option<Box<Watch>>
        ensures watch { self.old.slot.kept ≡ option_map (λ b. b.value) result }
        ensures left { self.new.slot.kept ≡ None }
    {
        let slot = PollerSlot::empty(nowhere(), alloc);
        let Poller { slot, full } = mem::replace(self, Poller { slot, full: false });
        if full {
            Some(slot.into_parts().into_box())
        } else {
            None
        }
    }

    /// Holds this one from now on.
    pub fn put(&mut self, watch: Box<Watch>)
        ensures { self.new.slot.kept ≡ Some watch.value }
    {
        *self = Poller {
            slot: PollerSlot::of_parts(Parts::of(watch)),
            full: true,
        };
    }
}

/// A poller may go from one core to another.
pub fn law_poller_crosses(poller: &Poller) {
    crosses(poller);
}

/// Puts one who polls this firmware into the poller, and frees the one that was there: 0. Else 8
/// where memory lacks or 16 where there is no firmware, and nothing changes. It is called under the
/// lock of the place.
#[unsafe(no_mangle)]
pub extern "C" fn psci_open_poller(alloc: Global, place: &mut Place, poller: &mut Poller) -> u32
    ensures opens { OpensPoller place.old.slot.kept result poller.old.slot.kept
        poller.new.slot.kept }
    ensures same { place.new.slot.kept ≡ place.old.slot.kept }
{
    match lent!(place.held else NO_FIRMWARE).watch() {
        Ok(watch) => fill(alloc, poller, watch),
        Err(Memory) => NO_MEMORY,
    }
}

/// Frees the one who polls, and the poller is empty then.
#[unsafe(no_mangle)]
pub extern "C" fn psci_close_poller(alloc: Global, poller: &mut Poller)
    ensures { poller.new.slot.kept ≡ None }
{
    drop(poller.take(alloc));
}

/// What AFFINITY_INFO answers for the core that the affinity word names, in the words that the
/// place was opened with, by one load of its status word: 0 ON, 1 OFF, 2 ON_PENDING, or -2 exactly
/// where the word names no core; 16 where the poller is empty. No lock is taken.
#[unsafe(no_mangle)]
pub extern "C" fn psci_poll(poller: &mut Poller, affinity: u64) -> i32
    ensures { HasPolledIn poller.old.slot.kept affinity result poller.new.slot.kept }
{
    lent!(poller.watch else NO_FIRMWARE as i32).poll(affinity).0
}

/// Puts one who polls into a poller, where there is memory.
fn fill(alloc: Global, poller: &mut Poller, watch: Watch) -> u32
    ensures { IsFilledWith watch result poller.old.slot.kept poller.new.slot.kept }
{
    let Ok(boxed) = Box::new(alloc, watch) else {
        return NO_MEMORY;
    };
    drop(poller.take(alloc));
    poller.put(boxed);
    0
}
