//! A place for a firmware, in the memory of its caller, and how C holds a box. C can hold no type
//! with a parameter, so that each kind of place has a slot of its own.

ghost use Rattle.std.specs.Prelude.{◌≡◌, None, Some, is_some, option_map};
ghost use Rattle.std.specs.Box.Ownership.{box_owns};
ghost use Rattle.std.specs.Borrow.{sem};
ghost use Rattle.std.specs.Coded.{coded_option};
ghost use Rattle.psci_ffi.specs.contracts.held.Held.{the_row as held_row};
ghost use Rattle.psci_ffi.specs.Slots.{IsFilled, Kept, owns_kept};

use crate::held::Held;
use std::alloc::{Allocator, Global};
use std::marker::Model;
use std::mem::{self, size_of};
use std::ptr::null_mut;

/// The parts of a box.
pub struct Parts<T, A: Allocator> {
    pub(crate) ptr: *mut T,
    pub(crate) alloc: A,
    pub ghost value: { T },
}

impl<T, A: Allocator> Model for Parts<T, A> {
    ghost also_owns = { λ p. box_owns (A.dealloc_token p.alloc) T.row p.ptr p.value };
}

impl<T, A: Allocator> Parts<T, A> {
    /// Of a box.
    pub fn of(b: Box<T, A>) -> Parts<T, A>
    where
        T: Drop,
        ensures { result.value ≡ b.value }
    {
        let (ptr, alloc) = Box::into_raw_with_allocator(b);
        Parts { ptr, alloc }
    }

    /// The box again.
    pub fn into_box(self) -> Box<T, A>
        ensures { result.value ≡ self.value }
    {
        let Parts { ptr, alloc } = self;
        unsafe { Box::from_raw(alloc, ptr) }
    }
}

/// A slot of a boxed firmware.
#[repr(C)]
#[derive(Drop)]
pub struct Slot {
    ptr: *mut u8,
    alloc: Global,
    pub ghost kept: { Kept } by { coded_option held_row.coded },
}

impl Model for Slot {
    ghost also_owns = { λ s. owns_kept held_row s.alloc s.ptr s.kept };
}

impl Slot {
    ghost use Rattle.psci_ffi.specs.Lending.{LendsHeld};

    /// With nothing in it.
    fn empty(ptr: *mut u8, alloc: Global) -> Slot
        ensures { result.kept ≡ None }
    {
        Slot { ptr, alloc }
    }

    /// With this in it.
    fn of_parts(parts: Parts<Held, Global>) -> Slot
        ensures { result.kept ≡ Some parts.value }
    {
        let Parts { ptr, alloc } = parts;
        Slot {
            ptr: ptr as *mut u8,
            alloc,
        }
    }

    /// What is in it.
    fn into_parts(self) -> Parts<Held, Global>
        requires { IsFilled self.kept }
        ensures { self.kept ≡ Some result.value }
    {
        let Slot { ptr, alloc } = self;
        Parts {
            ptr: ptr as *mut Held,
            alloc,
        }
    }

    /// What is in it, where it stands.
    pub fn held(&mut self) -> &mut Held
        requires { IsFilled self.old.kept }
        ensures* writes_back { sem 𝓛 (LendsHeld self.entry result) }
        ensures value { self.old.kept ≡ Some result.now }
    {
        unsafe { &mut *(self.ptr as *mut Held) }
    }
}

unsafe impl Send for Slot {}

/// A place for a firmware. With all bytes zero it is empty.
#[repr(C)]
#[derive(Drop)]
pub struct Place {
    /// The firmware.
    pub slot: Slot,
    /// Whether there is one.
    pub full: bool,
    ghost tied: { full ≡ is_some slot.kept },
}

// The size that psci.h gives it.
const _: () = prove!(size_of::<Place>() == 16);

impl Place {
    /// The firmware, which leaves its place empty. It has a frame of its own.
    #[inline(never)]
    pub fn take(&mut self, alloc: Global) -> Option<Box<Held>>
        ensures held { self.old.slot.kept ≡ option_map (λ b. b.value) result }
        ensures left { self.new.slot.kept ≡ None }
    {
        let slot = Slot::empty(nowhere(), alloc);
        let Place { slot, full } = mem::replace(self, Place { slot, full: false });
        if full {
            Some(slot.into_parts().into_box())
        } else {
            None
        }
    }

    /// Holds this firmware from now on.
    pub fn put(&mut self, held: Box<Held>)
        ensures { self.new.slot.kept ≡ Some held.value }
    {
        *self = Place {
            slot: Slot::of_parts(Parts::of(held)),
            full: true,
        };
    }
}

/// A place may go from one core to another, as behind a lock.
pub fn law_crosses(place: &Place) {
    crosses(place);
}

/// A pointer to nothing.
pub fn nowhere() -> *mut u8 {
    null_mut()
}

/// Only a value that may go from one core to another can be handed to it.
pub fn crosses<T: Send>(_value: &T) {}
