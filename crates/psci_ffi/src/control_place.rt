//! A place for the power controller's side of a port, in the memory of its caller: making one, and
//! letting it go.

ghost use Rattle.std.specs.Prelude.{◌≡◌, Err, IfErr, IfOk, IsSomeAnd, None, Ok, Result, Some};
ghost use Rattle.std.specs.Prelude.{is_some, option_map};
ghost use Rattle.std.specs.Borrow.{sem};
ghost use Rattle.std.specs.Coded.{coded_option};
ghost use Rattle.psci_board.specs.Board.{BoardValue};
ghost use Rattle.psci_board.specs.declared.fault.BoardFault.{BoardFault};
ghost use Rattle.psci_board.specs.Verdict.{Answers, board_of};
ghost use Rattle.psci_control.specs.SideOf.{IsNew};
ghost use Rattle.psci_control.specs.contracts.control_side.ControlSide.{the_row as side_row};
ghost use Rattle.psci_ffi.specs.Slots.{IsFilled, KeptControl, owns_kept};
ghost use Rattle.psci_ffi.specs.Codes.{opened_said};
ghost use Rattle.psci_ffi.specs.Controls.{Opens};
ghost use Rattle.psci_ffi.specs.Given.{board_of_given};

use crate::codes::opened_code;
use crate::given::{GivenBoard, kept_given};
use crate::opening::{let_go, read};
use crate::place::{Parts, crosses, nowhere};
use psci_board::{Board, BoardFault, Memory};
use psci_control::ControlSide;
use std::alloc::Global;
use std::marker::Model;
use std::mem::{self, size_of};

/// A slot of a boxed side.
#[repr(C)]
#[derive(Drop)]
pub struct ControlSlot {
    ptr: *mut u8,
    alloc: Global,
    pub ghost kept: { KeptControl } by { coded_option side_row.coded },
}

impl Model for ControlSlot {
    ghost also_owns = { λ s. owns_kept side_row s.alloc s.ptr s.kept };
}

impl ControlSlot {
    ghost use Rattle.psci_ffi.specs.Lending.{LendsSide};

    /// With nothing in it.
    fn empty(ptr: *mut u8, alloc: Global) -> ControlSlot
        ensures { result.kept ≡ None }
    {
        ControlSlot { ptr, alloc }
    }

    /// With this in it.
    fn of_parts(parts: Parts<ControlSide, Global>) -> ControlSlot
        ensures { result.kept ≡ Some parts.value }
    {
        let Parts { ptr, alloc } = parts;
        ControlSlot {
            ptr: ptr as *mut u8,
            alloc,
        }
    }

    /// What is in it.
    fn into_parts(self) -> Parts<ControlSide, Global>
        requires { IsFilled self.kept }
        ensures { self.kept ≡ Some result.value }
    {
        let ControlSlot { ptr, alloc } = self;
        Parts {
            ptr: ptr as *mut ControlSide,
            alloc,
        }
    }

    /// What is in it, where it stands.
    pub fn side(&mut self) -> &mut ControlSide
        requires { IsFilled self.old.kept }
        ensures* writes_back { sem 𝓛 (LendsSide self.entry result) }
        ensures value { self.old.kept ≡ Some result.now }
    {
        unsafe { &mut *(self.ptr as *mut ControlSide) }
    }
}

unsafe impl Send for ControlSlot {}

/// A place for the power controller's side. With all bytes zero it is empty.
#[repr(C)]
#[derive(Drop)]
pub struct ControlPlace {
    /// The side.
    pub slot: ControlSlot,
    /// Whether there is one.
    pub full: bool,
    ghost tied: { full ≡ is_some slot.kept },
}

// The size that psci_port.h gives it.
const _: () = prove!(size_of::<ControlPlace>() == 16);

impl ControlPlace {
    /// The side, which leaves its place empty. It has a frame of its own.
    #[inline(never)]
    pub fn take(&mut self, alloc: Global) -> Option<Box<ControlSide>>
        ensures side { self.old.slot.kept ≡ option_map (λ b. b.value) result }
        ensures left { self.new.slot.kept ≡ None }
    {
        let slot = ControlSlot::empty(nowhere(), alloc);
        let ControlPlace { slot, full } = mem::replace(self, ControlPlace { slot, full: false });
        if full {
            Some(slot.into_parts().into_box())
        } else {
            None
        }
    }

    /// Holds this side from now on.
    pub fn put(&mut self, side: Box<ControlSide>)
        ensures { self.new.slot.kept ≡ Some side.value }
    {
        *self = ControlPlace {
            slot: ControlSlot::of_parts(Parts::of(side)),
            full: true,
        };
    }
}

/// A side's place may go from one core to another, as behind a lock.
pub fn law_control_crosses(place: &ControlPlace) {
    crosses(place);
}

/// Puts the power controller's side of a new port of the board that the text describes into the
/// place, as its power comes on, and frees the one that was there: 0. Else the number of the text's
/// first fault, or 8 where memory lacks, and nothing changes.
#[unsafe(no_mangle)]
pub extern "C" fn psci_control_open(alloc: Global, place: &mut ControlPlace, text: &[u8]) -> u32
    ensures { Opens (opened_said result) (board_of text.now) place.old.slot.kept
        place.new.slot.kept }
{
    opened_code(open(alloc, place, read(alloc, text)))
}

/// The same, of the board that the struct gives: 0. Else the number of the struct's first fault, as
/// `psci_open_board` has it, or 8 where memory lacks, and nothing changes.
#[unsafe(no_mangle)]
pub extern "C" fn psci_control_open_board(
    alloc: Global,
    place: &mut ControlPlace,
    board: &GivenBoard,
) -> u32
    ensures { Opens (opened_said result) (board_of_given board.now) place.old.slot.kept
        place.new.slot.kept }
{
    opened_code(open(alloc, place, kept_given(alloc, board)))
}

/// Frees the side in the place, which is empty then.
#[unsafe(no_mangle)]
pub extern "C" fn psci_control_close(alloc: Global, place: &mut ControlPlace)
    ensures { place.new.slot.kept ≡ None }
{
    empty(alloc, place);
}

/// Puts a new side into the place, if there is a board and memory.
fn open(
    alloc: Global,
    place: &mut ControlPlace,
    board: Result<Box<Board>, BoardFault>,
) -> Result<(), BoardFault>
    ensures { (said : Result BoardValue BoardFault) → IfOk board (λ b. said ≡ Ok b.value)
        → IfErr board (λ fault. Answers (Err fault) said)
        → Opens result said place.old.slot.kept place.new.slot.kept }
{
    let board = board?;
    let renewed = renew(alloc, place, &board);
    let_go(board);
    Ok(renewed?)
}

/// Puts a new side of a port of this board into the place, if there is memory.
fn renew(alloc: Global, place: &mut ControlPlace, board: &Board) -> Result<(), Memory>
    ensures done { IfOk result (λ _. IsSomeAnd place.new.slot.kept (IsNew board.now)) }
    ensures same { IfErr result (λ _. place.new.slot.kept ≡ place.old.slot.kept) }
{
    let side = made(alloc, board)?;
    empty(alloc, place);
    place.put(side);
    Ok(())
}

/// A new side of a port of this board.
#[inline(never)]
fn made(alloc: Global, board: &Board) -> Result<Box<ControlSide>, Memory>
    ensures { IfOk result (λ side. IsNew board.now side.value) }
{
    let side = ControlSide::new(alloc, board)?;
    match Box::new(alloc, side) {
        Ok(side) => Ok(side),
        Err(_) => Err(Memory),
    }
}

/// Frees the side in the place. It has a frame of its own.
#[inline(never)]
fn empty(alloc: Global, place: &mut ControlPlace)
    ensures { place.new.slot.kept ≡ None }
{
    if let Some(side) = place.take(alloc) {
        drop(side);
    }
}
