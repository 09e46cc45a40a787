//! MPIDRs of a platform, and the affinity words of the board for them.

ghost use Rattle.std.specs.Prelude.{◌≡◌, ◌<◌, ◌^◌, ◌/◌, ◌==◌, true, length, IfSome, option_map};
ghost use Rattle.std.specs.List.{position};
ghost use Rattle.psci_board.specs.Board.{address, cores};
ghost use Rattle.psci_platform.specs.Cores.{boot_place, core_named, core_word, field_of};
ghost use Rattle.psci_platform.specs.Cores.{number_named};
ghost use Rattle.psci_platform.specs.Swaps.{is_symmetric};

use crate::description::Description;
use crate::swap::other_core;
use psci_board::{Board, Core, law_parents, law_paths, law_sizes, law_words};

/// An affinity word that names no core and no power domain of any board.
pub const NO_CORE: u64 = 0xFFFF_FFFF;

impl Description {
    /// The affinity word of the board for an MPIDR at this level.
    pub fn core_word(&self, board: &Board, boot: Core, mpidr: u64, level: u32) -> u64
        requires count { length self.now.mpidrs ≡ cores board.now }
        requires boot { boot.number < cores board.now }
        requires symmetric { is_symmetric board.now boot.number ≡ true }
        ensures { result ≡ core_word self.now board.now boot.number mpidr level }
    {
        match self.number_named(board, boot, mpidr, level) {
            Some(core) => affinity_word(board, core),
            None => NO_CORE,
        }
    }

    /// The core that an MPIDR names at this level, by the firmware's number.
    pub fn number_named(&self, board: &Board, boot: Core, mpidr: u64, level: u32) -> Option<Core>
        requires count { length self.now.mpidrs ≡ cores board.now }
        requires boot { boot.number < cores board.now }
        requires symmetric { is_symmetric board.now boot.number ≡ true }
        ensures core { option_map (λ core. core.number) result
            ≡ number_named self.now board.now boot.number mpidr level }
        ensures inside { IfSome result (λ core. core.number < cores board.now) }
    {
        let core = self.core_named(board, mpidr, level)?;
        Some(other_core(board, boot, core))
    }

    /// The boot core, by its place in the order of the tree; core 0 where no core has the MPIDR.
    pub fn boot_core(&self, board: &Board, boot: u64) -> Core
        requires { length self.now.mpidrs ≡ cores board.now }
        ensures place { result.number ≡ boot_place self.now board.now boot }
        ensures inside { result.number < cores board.now }
    {
        law_sizes();
        let _cores = board.cores();
        match self.core_named(board, boot, 0) {
            Some(core) => core,
            None => Core { number: 0 },
        }
    }

    /// The first core, in the order of the tree, whose MPIDR has the fields of a word, at this
    /// level and above. The board has such a level, or there is none.
    pub fn core_named(&self, board: &Board, word: u64, level: u32) -> Option<Core>
        requires { length self.now.mpidrs ≡ cores board.now }
        ensures core { option_map (λ core. core.number) result
            ≡ core_named self.now board.now word level }
        ensures inside { IfSome result (λ core. core.number < cores board.now) }
    {
        law_sizes();
        if level > board.height() {
            return None;
        }
        let number = place_of(&self.mpidrs, word, 8 * level)?;
        Some(Core {
            number: number as u16,
        })
    }
}

/// The place of the first MPIDR that has the bits of a word from `low` up.
fn place_of(mpidrs: &[u64], word: u64, low: u32) -> Option<usize>
    requires { low < 64 }
    ensures place { result
        ≡ position (λ mpidr. mpidr / 2 ^ low == word / 2 ^ low) mpidrs.now }
    ensures inside { IfSome result (λ place. place < length mpidrs.now) }
{
    mpidrs.iter().position(|mpidr| *mpidr >> low == word >> low)
}

/// The affinity word of a core: a field for each domain on its path below the system.
pub fn affinity_word(board: &Board, core: Core) -> u64
    requires { core.number < cores board.now }
    ensures { result ≡ address board.now 0 core.number }
{
    law_paths();
    law_parents();
    law_words();
    let _height = board.height();
    field(board, core, 0) + (field(board, core, 1) << 8) + (field(board, core, 2) << 16)
}

/// The affinity field of a core's domain of a level: its number among its siblings, and 0 of the
/// system and above.
#[tactic(auto, unfolding(crate::specs::Cores::field_of))]
fn field(board: &Board, core: Core, level: u32) -> u64
    requires { core.number < cores board.now }
    ensures field { result ≡ field_of board.now core.number level }
    ensures small { result < 2 ^ 32 }
{
    law_paths();
    let _height = board.height();
    match board.path(core).get(level as usize) {
        Some(node) => u64::from(board.child_number(*node).unwrap_or(0)),
        None => 0,
    }
}
