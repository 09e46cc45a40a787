//! The faults of a description, in their order.

ghost use Rattle.std.specs.Prelude.{◌≡◌, length};
ghost use Rattle.psci_board.specs.Board.{cores};
ghost use Rattle.psci_platform.specs.Faults.{boot_fault_of, fault_of, is_first, row_fault_of};
ghost use Rattle.psci_platform.specs.Faults.{state_fault_of};

use crate::description::Description;
use crate::fault::PlatformFault;
use crate::mpidrs::{are_mpidrs, first_of, has_boot, has_same};
use crate::rows::{are_row_words, has_same_word};
use crate::swap::is_symmetric;
use psci_board::Board;

/// How many rows there may be.
const MOST_ROWS: usize = 64;

impl Description {
    /// The first fault of the description of a platform with this board and this boot core.
    #[tactic(auto, unfolding(crate::specs::Faults::fault_of))]
    pub fn fault(&self, board: &Board, boot: u64) -> Option<PlatformFault>
        ensures { result ≡ fault_of self.now board.now boot }
    {
        if self.mpidrs.len() != board.cores() as usize {
            return Some(PlatformFault::WrongCount);
        }
        if !are_mpidrs(&self.mpidrs) {
            return Some(PlatformFault::BadMpidr);
        }
        if has_same(&self.mpidrs) {
            return Some(PlatformFault::SameMpidr);
        }
        self.boot_fault(board, boot)
    }

    /// The first fault of the boot core and what follows it.
    #[tactic(auto, unfolding(crate::specs::Faults::boot_fault_of))]
    fn boot_fault(&self, board: &Board, boot: u64) -> Option<PlatformFault>
        requires { length self.now.mpidrs ≡ cores board.now }
        ensures { result ≡ boot_fault_of self.now board.now boot }
    {
        if !has_boot(&self.mpidrs, boot) {
            return Some(PlatformFault::NoBootCore);
        }
        if !self.is_first(board, boot) {
            return Some(PlatformFault::LateBootCore);
        }
        if self.levels > board.height() {
            return Some(PlatformFault::TooManyLevels);
        }
        if !self.rise() {
            return Some(PlatformFault::FallingClass);
        }
        self.row_fault(board)
    }

    /// Whether the boot core is the first one of the tree, or is swapped with it.
    fn is_first(&self, board: &Board, boot: u64) -> bool
        requires { length self.now.mpidrs ≡ cores board.now }
        ensures { result ≡ is_first self.now board.now boot }
    {
        first_of(&self.mpidrs) == boot || is_symmetric(board, self.boot_core(board, boot))
    }

    /// The first fault of the rows and what follows them.
    #[tactic(auto, unfolding(crate::specs::Faults::row_fault_of))]
    fn row_fault(&self, board: &Board) -> Option<PlatformFault>
        ensures { result ≡ row_fault_of self.now board.now }
    {
        let format = board.format();
        if self.rows.len() > MOST_ROWS {
            return Some(PlatformFault::TooManyRows);
        }
        if !are_row_words(&self.rows, format) {
            return Some(PlatformFault::BadWord);
        }
        if has_same_word(&self.rows) {
            return Some(PlatformFault::SameWord);
        }
        self.state_fault(board)
    }

    /// The first fault of the states of the rows and what follows them.
    #[tactic(auto, unfolding(crate::specs::Faults::state_fault_of))]
    fn state_fault(&self, board: &Board) -> Option<PlatformFault>
        ensures { result ≡ state_fault_of self.now board.now }
    {
        if !self.have_types(board.format()) {
            return Some(PlatformFault::WrongType);
        }
        if !self.are_power_states() {
            return Some(PlatformFault::BadStates);
        }
        if self.functions.system_suspend && !self.is_system(board.height()) {
            return Some(PlatformFault::BadSystem);
        }
        (!self.have_needs()).then_some(PlatformFault::BadFunctions)
    }
}
