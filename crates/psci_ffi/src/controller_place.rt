//! A place for a power controller, in the memory of its caller: making one, and letting it go.

ghost use Rattle.std.specs.Prelude.{◌≡◌, Err, IfErr, IfOk, IsSomeAnd, None, Ok, Result, Some};
ghost use Rattle.std.specs.Prelude.{is_some, option_map};
ghost use Rattle.std.specs.Borrow.{sem};
ghost use Rattle.std.specs.Coded.{coded_option};
ghost use Rattle.psci_board.specs.Board.{BoardValue};
ghost use Rattle.psci_board.specs.declared.fault.BoardFault.{BoardFault};
ghost use Rattle.psci_board.specs.Verdict.{Answers, board_of};
ghost use Rattle.psci_ctl.specs.contracts.controller.Controller.{the_row as controller_row};
ghost use Rattle.psci_ffi.specs.Slots.{IsFilled, KeptController, owns_kept};
ghost use Rattle.psci_ffi.specs.Codes.{opened_said};
ghost use Rattle.psci_ffi.specs.Controllers.{IsFirst, Opens};
ghost use Rattle.psci_ffi.specs.Given.{board_of_given};

use crate::codes::opened_code;
use crate::given::{GivenBoard, kept_given};
use crate::opening::{let_go, read};
use crate::place::{Parts, crosses, nowhere};
use psci_board::{Board, BoardFault, Memory};
use psci_ctl::Controller;
use std::alloc::Global;
use std::marker::Model;
use std::mem::{self, size_of};

/// A slot of a boxed power controller.
#[repr(C)]
#[derive(Drop)]
pub struct ControllerSlot {
    ptr: *mut u8,
    alloc: Global,
    pub ghost kept: { KeptController } by { coded_option controller_row.coded },
}

impl Model for ControllerSlot {
    ghost also_owns = { λ s. owns_kept controller_row s.alloc s.ptr s.kept };
}

impl ControllerSlot {
    ghost use Rattle.psci_ffi.specs.Lending.{LendsController};

    /// With nothing in it.
    fn empty(ptr: *mut u8, alloc: Global) -> ControllerSlot
        ensures { result.kept ≡ None }
    {
        ControllerSlot { ptr, alloc }
    }

    /// With this in it.
    fn of_parts(parts: Parts<Controller, Global>) -> ControllerSlot
        ensures { result.kept ≡ Some parts.value }
    {
        let Parts { ptr, alloc } = parts;
        ControllerSlot {
            ptr: ptr as *mut u8,
            alloc,
        }
    }

    /// What is in it.
    fn into_parts(self) -> Parts<Controller, Global>
        requires { IsFilled self.kept }
        ensures { self.kept ≡ Some result.value }
    {
        let ControllerSlot { ptr, alloc } = self;
        Parts {
            ptr: ptr as *mut Controller,
            alloc,
        }
    }

    /// What is in it, where it stands.
    pub fn controller(&mut self) -> &mut Controller
        requires { IsFilled self.old.kept }
        ensures* writes_back { sem 𝓛 (LendsController self.entry result) }
        ensures value { self.old.kept ≡ Some result.now }
    {
        unsafe { &mut *(self.ptr as *mut Controller) }
    }
}

unsafe impl Send for ControllerSlot {}

/// A place for a power controller. With all bytes zero it is empty.
#[repr(C)]
#[derive(Drop)]
pub struct ControllerPlace {
    /// The power controller.
    pub slot: ControllerSlot,
    /// Whether there is one.
    pub full: bool,
    ghost tied: { full ≡ is_some slot.kept },
}

// The size that psci_ctl.h gives it.
const _: () = prove!(size_of::<ControllerPlace>() == 16);

impl ControllerPlace {
    /// The power controller, which leaves its place empty. It has a frame of its own.
    #[inline(never)]
    pub fn take(&mut self, alloc: Global) -> Option<Box<Controller>>
        ensures controller { self.old.slot.kept ≡ option_map (λ b. b.value) result }
        ensures left { self.new.slot.kept ≡ None }
    {
        let slot = ControllerSlot::empty(nowhere(), alloc);
        let ControllerPlace { slot, full } = mem::replace(
            self,
            ControllerPlace { slot, full: false },
        );
        if full {
            Some(slot.into_parts().into_box())
        } else {
            None
        }
    }

    /// Holds this power controller from now on.
    pub fn put(&mut self, controller: Box<Controller>)
        ensures { self.new.slot.kept ≡ Some controller.value }
    {
        *self = ControllerPlace {
            slot: ControllerSlot::of_parts(Parts::of(controller)),
            full: true,
        };
    }
}

/// A power controller's place may go from one core to another, as behind a lock.
pub fn law_controller_crosses(place: &ControllerPlace) {
    crosses(place);
}

/// Puts a new power controller of the board that the text describes into the place, as its first
/// life begins, and frees the one that was there: 0. Else the number of the text's first fault, or
/// 8 where memory lacks, and nothing changes.
#[unsafe(no_mangle)]
pub extern "C" fn psci_ctl_open(alloc: Global, place: &mut ControllerPlace, text: &[u8]) -> u32
    ensures { Opens (opened_said result) (board_of text.now) place.old.slot.kept
        place.new.slot.kept }
{
    opened_code(open(alloc, place, read(alloc, text)))
}

/// The same, of the board that the struct gives: 0. Else the number of the struct's first fault, as
/// `psci_open_board` has it, or 8 where memory lacks, and nothing changes.
#[unsafe(no_mangle)]
pub extern "C" fn psci_ctl_open_board(
    alloc: Global,
    place: &mut ControllerPlace,
    board: &GivenBoard,
) -> u32
    ensures { Opens (opened_said result) (board_of_given board.now) place.old.slot.kept
        place.new.slot.kept }
{
    opened_code(open(alloc, place, kept_given(alloc, board)))
}

/// Frees the power controller in the place, which is empty then.
#[unsafe(no_mangle)]
pub extern "C" fn psci_ctl_close(alloc: Global, place: &mut ControllerPlace)
    ensures { place.new.slot.kept ≡ None }
{
    empty(alloc, place);
}

/// Puts a new power controller into the place, if there is a board and memory.
fn open(
    alloc: Global,
    place: &mut ControllerPlace,
    board: Result<Box<Board>, BoardFault>,
) -> Result<(), BoardFault>
    ensures { (said : Result BoardValue BoardFault) → IfOk board (λ b. said ≡ Ok b.value)
        → IfErr board (λ fault. Answers (Err fault) said)
        → Opens result said place.old.slot.kept place.new.slot.kept }
{
    let board = board?;
    let renewed = renew(alloc, place, &board);
    let_go(board);
    Ok(renewed?)
}

/// Puts a new power controller of this board into the place, if there is memory.
fn renew(alloc: Global, place: &mut ControllerPlace, board: &Board) -> Result<(), Memory>
    ensures done { IfOk result (λ _. IsSomeAnd place.new.slot.kept (IsFirst board.now)) }
    ensures same { IfErr result (λ _. place.new.slot.kept ≡ place.old.slot.kept) }
{
    let controller = made(alloc, board)?;
    empty(alloc, place);
    place.put(controller);
    Ok(())
}

/// A new power controller of this board.
#[inline(never)]
fn made(alloc: Global, board: &Board) -> Result<Box<Controller>, Memory>
    ensures { IfOk result (λ controller. IsFirst board.now controller.value) }
{
    let controller = Controller::new(alloc, board)?;
    match Box::new(alloc, controller) {
        Ok(controller) => Ok(controller),
        Err(_) => Err(Memory),
    }
}

/// Frees the power controller in the place. It has a frame of its own.
#[inline(never)]
fn empty(alloc: Global, place: &mut ControllerPlace)
    ensures { place.new.slot.kept ≡ None }
{
    if let Some(controller) = place.take(alloc) {
        drop(left_board(controller));
    }
}

/// The board of a power controller, as all else is let go. It has a frame of its own, which is gone
/// when the board is let go.
#[inline(never)]
fn left_board(controller: Box<Controller>) -> Board
    ensures { result ≡ controller.value.board }
{
    Box::into_inner(controller).into_board()
}
