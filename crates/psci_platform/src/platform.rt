//! A platform: a description that has no fault, and its board.

use crate::class::LEVELS;
use crate::description::Description;
use crate::fault::PlatformFault;
use crate::law::law_boot_core;
use crate::ready::Ready;
use crate::swap::{moved, other_core};
use psci_board::{Board, Core, Memory, Node};
use psci_fw_spec::SuspendMode;
use std::alloc::Global;
use std::marker::Model;

/// A board, and a description of the platform that has no fault.
#[derive(Drop)]
pub struct Platform {
    pub(crate) description: Description,
    pub(crate) board: Board,
    boot: u64,
    /// The boot core, by its place in the order of the tree.
    pub(crate) boot_core: Core,
    /// What is found out once, where there was memory for it.
    ready: Option<Ready>,
}

impl Model for Platform {
    ghost use Rattle.std.specs.Prelude.{IfSome, length, option_map};
    ghost use Rattle.psci_platform.specs.Names.{IsReady};
    ghost use Rattle.psci_platform.specs.Platforms.{IsPlatform, PlatformValue};

    ghost Value = { PlatformValue };

    ghost view = { λ p. record {
      description = p.description;
      board = p.board;
      boot = p.boot;
      place = p.boot_core.number;
      ready = option_map (λ r. length r.tables.items) p.ready;
    } };

    ghost invariant = { λ p. IsPlatform (record {
      description = p.description;
      board = p.board;
      boot = p.boot;
      place = p.boot_core.number;
      ready = option_map (λ r. length r.tables.items) p.ready;
    }) × IfSome p.ready (IsReady p.description p.board p.boot_core.number) };
}

ghost use Rattle.std.specs.Prelude.{◌<◌, ◌≡◌, IfOk, IfSome, is_some, length, MatchResult, None};
ghost use Rattle.std.specs.Prelude.{option_map, slice_get, Some};
ghost use Rattle.psci_board.specs.Board.{cores};
ghost use Rattle.psci_platform.specs.Cores.{boot_place, core_word, number_named};
ghost use Rattle.psci_platform.specs.Names.{IsReady};
ghost use Rattle.psci_platform.specs.States.{states_of, word_for};
ghost use Rattle.psci_platform.specs.Faults.{fault_of};
ghost use Rattle.psci_platform.specs.Platforms.{IsInOrder};
ghost use Rattle.psci_platform.specs.Swaps.{moved, swap_for};

impl Platform {
    /// The platform of this description and this board, whose boot core has this MPIDR; or the
    /// first fault of the description.
    #[tactic(auto, using(crate::proofs::ByWord::some_count))]
    pub fn new(description: Description, board: Board, boot: u64) -> Result<Platform, PlatformFault>
        ensures fault { let fault = fault_of description board boot in
            MatchResult result (λ p. fault ≡ None) (λ e. fault ≡ Some e) }
        ensures platform { IfOk result (λ p. p ≡ record {
          description = description;
          board = board;
          boot = boot;
          place = boot_place description board boot;
          ready = None;
        }) }
    {
        law_boot_core();
        let _cores = board.cores();
        if let Some(fault) = description.fault(&board, boot) {
            return Err(fault);
        }
        let boot_core = description.boot_core(&board, boot);
        let platform = Platform {
            description,
            board,
            boot,
            boot_core,
            ready: None,
        };
        Ok(platform)
    }

    /// The same platform, which finds a core, a power domain or a row at once.
    #[tactic(auto, using(crate::proofs::ByWord::some_count))]
    pub fn in_order(self, alloc: Global) -> Result<Platform, Memory>
        ensures { IfOk result (IsInOrder self) }
    {
        let tables = self.description.tables(alloc, &self.board, self.boot_core)?;
        let readings = self.description.readings(alloc, self.board.format())?;
        Ok(Platform {
            ready: Some(Ready { tables, readings }),
            ..self
        })
    }

    /// What was found out once.
    #[inline(always)]
    pub(crate) fn ready(&self) -> Option<&Ready>
        ensures ready { IfSome result
            (λ r. IsReady self.now.description self.now.board self.now.place r.now) }
        ensures levels { option_map (λ r. length r.now.tables.items) result ≡ self.now.ready }
    {
        self.ready.as_ref()
    }

    /// The board.
    pub fn board(&self) -> &Board
        ensures { result.now ≡ self.now.board }
    {
        &self.board
    }

    /// The core that an MPIDR names, as the firmware numbers it, if there is one.
    #[tactic(auto, using(crate::proofs::ByWord::some_count, crate::proofs::Swaps::by_name))]
    pub fn core(&self, mpidr: u64) -> Option<Core>
        ensures core { option_map (λ core. core.number) result
            ≡ number_named self.now.description self.now.board self.now.place mpidr 0 }
        ensures inside { IfSome result (λ core. core.number < cores self.now.board) }
    {
        let level = 0;
        let table = self
            .description
            .table_kept(&self.board, self.boot_core, self.ready(), level);
        let Some(table) = table else {
            return self
                .description
                .number_named(&self.board, self.boot_core, mpidr, level);
        };
        let name = table.name(mpidr >> (8 * level))?;
        Some(name.core)
    }

    /// The affinity word of the board for the core that an MPIDR names; where there is none, a word
    /// that names no core of any board.
    pub fn word(&self, mpidr: u64) -> u64
        ensures { result ≡ core_word self.now.description self.now.board self.now.place mpidr 0 }
    {
        self.word_at(mpidr, 0)
    }

    /// The same of the domain at this level.
    #[inline(always)]
    #[tactic(auto, using(crate::proofs::ByWord::some_count))]
    pub(crate) fn word_at(&self, mpidr: u64, level: u32) -> u64
        ensures { result
            ≡ core_word self.now.description self.now.board self.now.place mpidr level }
    {
        self.description
            .word_by(&self.board, self.boot_core, self.ready(), mpidr, level)
    }

    /// The power state word of the board for one of the platform, and its states, if it can be
    /// asked for in this mode.
    #[inline(always)]
    pub(crate) fn state(&self, mode: SuspendMode, word: u32) -> (u32, Option<[u8; LEVELS]>)
        ensures word { result.0 ≡ word_for self.now.description self.now.board.format
            (states_of self.now.description mode word) }
        ensures states { result.1 ≡ states_of self.now.description mode word }
    {
        self.description
            .state_by(&self.board, self.boot_core, self.ready(), mode, word)
    }

    /// The MPIDR of a core, if the platform has it: of one that a message names.
    pub fn mpidr(&self, core: Core) -> Option<u64>
        ensures { result ≡ slice_get self.now.description.mpidrs
            (swap_for self.now.board self.now.place 0 core.number) }
    {
        let place = other_core(&self.board, self.boot_core, core).number;
        self.description.mpidrs.get(place as usize).copied()
    }

    /// The place, in the order of the tree, of a core or power domain of the firmware, and the
    /// firmware's of one of the tree: twice is not at all.
    pub fn place(&self, node: Node) -> Node
        ensures { result ≡ moved self.now.board self.now.place node }
    {
        moved(&self.board, self.boot_core, node)
    }
}
