//! What is in a guest's place: its power, and what its calls name things by; and the place, in the
//! memory of its caller.

ghost use Rattle.std.specs.Prelude.{◌<◌, ◌≡◌, IfOk, None, Some, is_some, length, option_map};
ghost use Rattle.std.specs.Borrow.{sem};
ghost use Rattle.std.specs.Coded.{coded_option};
ghost use Rattle.psci_board.specs.Board.{core_at, cores};
ghost use Rattle.psci_fw.specs.Reactions.{seen};
ghost use Rattle.psci_guest.specs.Pair.{board_of as board_kept};
ghost use Rattle.psci_guest.specs.Saved.{AreSaved, saved};
ghost use Rattle.psci_ffi.specs.Guests.{IsCalled, IsLoadOf, IsNewGuest, IsReset, IsWoken, life_of};
ghost use Rattle.psci_ffi.specs.Namings.{asked_in, board_of, machine_of};
ghost use Rattle.psci_ffi.specs.Shown.{asked_shown};
ghost use Rattle.psci_ffi.specs.contracts.guest.Guest.{the_row as guest_row};
ghost use Rattle.psci_ffi.specs.Slots.{IsFilled, KeptGuest, owns_kept};

use crate::answer::GivenAsked;
use crate::naming::Naming;
use crate::place::{Parts, crosses, nowhere};
use psci_board::{Board, Core, Memory};
use psci_fw::{Firmware, Regs};
use psci_guest::{Arrival, GuestPower, LoadFault, Turned};
use std::alloc::Global;
use std::marker::Model;
use std::mem::{self, size_of};

/// The power of a guest, in the words of its place. Contracts see what firmware and power
/// controller keep, and the machine, if there is one.
#[derive(Drop)]
pub struct Guest {
    naming: Naming,
    power: GuestPower,
}

impl Model for Guest {
    ghost use Rattle.std.specs.Prelude.{◌≡◌};
    ghost use Rattle.psci_guest.specs.Pair.{board_of as board_kept};
    ghost use Rattle.psci_ffi.specs.Namings.{GuestValue};
    ghost use Rattle.psci_ffi.specs.Namings.{board_of, machine_of};

    ghost Value = { GuestValue };

    ghost view = { λ g. record { power = g.power; machine = machine_of g.naming } };

    ghost invariant = { λ g. board_of g.naming ≡ board_kept g.power };
}

impl Guest {
    /// The power of a guest of this board, in these words, as it comes on, and how its boot core
    /// enters.
    #[inline(never)]
    pub fn new(alloc: Global, naming: Naming) -> Result<(Guest, Option<Arrival>), Memory>
        ensures { IfOk result (λ r. IsNewGuest (board_of naming) (machine_of naming) r.1 r.0) }
    {
        let (power, arrival) = GuestPower::open(alloc, naming.board())?;
        Ok((Guest { naming, power }, arrival))
    }

    /// A core that runs in this life calls with these registers, in the words of the place. What is
    /// asked beside is written.
    pub fn call(
        &mut self,
        core: Core,
        life: u32,
        regs: Regs,
        asked: &mut GivenAsked,
    ) -> Option<Turned>
        requires { core.number < cores (board_kept self.old.power) }
        ensures called { IsCalled self.old core.number life regs result self.new }
        ensures asked { asked.new ≡ asked_shown (asked_in self.old.machine
            (seen self.old.power.firmware).mode regs) }
    {
        let regs = self.naming.called(self.firmware().mode(), regs, asked);
        self.power.call(core, life, regs)
    }

    /// A core that stands has a wake-up event.
    pub fn wake(&mut self, core: Core) -> Option<Arrival>
        requires { core.number < cores (board_kept self.old.power) }
        ensures { IsWoken self.old core.number result self.new }
    {
        self.power.wake(core)
    }

    /// A core is reset by itself.
    pub fn reset(&mut self, core: Core) -> Option<Arrival>
        requires { core.number < cores (board_kept self.old.power) }
        ensures { IsReset self.old core.number result self.new }
    {
        self.power.reset(core)
    }

    /// How many words it is saved as.
    pub fn saved_count(&self) -> usize
        ensures { result ≡ length (saved self.now.power) }
    {
        self.power.saved_count()
    }

    /// Writes its power into words, of which there are as many as `saved_count` says.
    pub fn save(&self, words: &mut [u64])
        requires { length words.old ≡ length (saved self.now.power) }
        ensures words { words.new ≡ saved self.now.power }
        ensures kept { AreSaved self.now.power }
    {
        self.power.save(words);
    }

    /// It goes on where one of the same board was saved as these words; other words are refused.
    pub fn load(&mut self, alloc: Global, words: &[u64]) -> Result<(), LoadFault>
        ensures { IsLoadOf result self.old words.now self.new }
    {
        self.power.load(alloc, words)
    }

    /// The core of this number, if the board has it.
    pub fn core(&self, number: u16) -> Option<Core>
        ensures { result ≡ core_at (board_kept self.now.power) number }
    {
        self.board().core(number)
    }

    /// The board.
    pub fn board(&self) -> &Board
        ensures { result.now ≡ board_kept self.now.power }
    {
        self.naming.board()
    }

    /// The firmware.
    pub fn firmware(&self) -> &Firmware
        ensures { result.now ≡ self.now.power.firmware }
    {
        self.power.pair().firmware()
    }

    /// The present life, if there is one.
    pub fn life(&self) -> Option<u32>
        ensures { result ≡ life_of self.now }
    {
        self.power.pair().controller().life()
    }
}

/// A slot of a boxed power of a guest.
#[repr(C)]
#[derive(Drop)]
pub struct GuestSlot {
    ptr: *mut u8,
    alloc: Global,
    pub ghost kept: { KeptGuest } by { coded_option guest_row.coded },
}

impl Model for GuestSlot {
    ghost also_owns = { λ s. owns_kept guest_row s.alloc s.ptr s.kept };
}

impl GuestSlot {
    ghost use Rattle.psci_ffi.specs.Lending.{LendsGuest};

    /// With nothing in it.
    fn empty(ptr: *mut u8, alloc: Global) -> GuestSlot
        ensures { result.kept ≡ None }
    {
        GuestSlot { ptr, alloc }
    }

    /// With this in it.
    fn of_parts(parts: Parts<Guest, Global>) -> GuestSlot
        ensures { result.kept ≡ Some parts.value }
    {
        let Parts { ptr, alloc } = parts;
        GuestSlot {
            ptr: ptr as *mut u8,
            alloc,
        }
    }

    /// What is in it.
    fn into_parts(self) -> Parts<Guest, Global>
        requires { IsFilled self.kept }
        ensures { self.kept ≡ Some result.value }
    {
        let GuestSlot { ptr, alloc } = self;
        Parts {
            ptr: ptr as *mut Guest,
            alloc,
        }
    }

    /// What is in it, where it stands.
    pub fn guest(&mut self) -> &mut Guest
        requires { IsFilled self.old.kept }
        ensures* writes_back { sem 𝓛 (LendsGuest self.entry result) }
        ensures value { self.old.kept ≡ Some result.now }
    {
        unsafe { &mut *(self.ptr as *mut Guest) }
    }
}

unsafe impl Send for GuestSlot {}

/// A place for the power of a guest. With all bytes zero it is empty.
#[repr(C)]
#[derive(Drop)]
pub struct GuestPlace {
    /// The power of a guest.
    pub slot: GuestSlot,
    /// Whether there is one.
    pub full: bool,
    ghost tied: { full ≡ is_some slot.kept },
}

// The size that psci_guest.h gives it.
const _: () = prove!(size_of::<GuestPlace>() == 16);

impl GuestPlace {
    /// The power of a guest, which leaves its place empty.
    pub fn take(&mut self, alloc: Global) -> Option<Box<Guest>>
        ensures guest { self.old.slot.kept ≡ option_map (λ b. b.value) result }
        ensures left { self.new.slot.kept ≡ None }
    {
        let slot = GuestSlot::empty(nowhere(), alloc);
        let GuestPlace { slot, full } = mem::replace(self, GuestPlace { slot, full: false });
        if full {
            Some(slot.into_parts().into_box())
        } else {
            None
        }
    }

    /// Holds this power from now on.
    pub fn put(&mut self, guest: Box<Guest>)
        ensures { self.new.slot.kept ≡ Some guest.value }
    {
        *self = GuestPlace {
            slot: GuestSlot::of_parts(Parts::of(guest)),
            full: true,
        };
    }
}

/// A guest's place may go from one core to another, as behind a lock.
pub fn law_guest_crosses(place: &GuestPlace) {
    crosses(place);
}
