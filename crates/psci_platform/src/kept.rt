//! What a platform's words are by what was found out once.

ghost use Rattle.std.specs.Prelude.{◌≡◌, ◌<◌, true, IfSome, is_some, length, option_map};
ghost use Rattle.psci_board.specs.Board.{cores};
ghost use Rattle.psci_platform.specs.Cores.{core_word};
ghost use Rattle.psci_platform.specs.Names.{HasNames, IsReady, has_level};
ghost use Rattle.psci_platform.specs.States.{states_of, word_for};
ghost use Rattle.psci_platform.specs.Swaps.{is_symmetric};

use crate::class::LEVELS;
use crate::cores::NO_CORE;
use crate::description::Description;
use crate::names::Table;
use crate::readings::reader_in;
use crate::ready::Ready;
use crate::states::NO_STATE;
use psci_board::{Board, Core};
use psci_fw_spec::SuspendMode;

impl Description {
    /// The affinity word of the board for an MPIDR at this level. Where the names of the level are
    /// kept, an MPIDR without a name names no core.
    #[inline(always)]
    #[tactic(auto, using(crate::proofs::Swaps::word_found, crate::proofs::Swaps::word_missed))]
    pub(crate) fn word_by(
        &self,
        board: &Board,
        boot: Core,
        ready: Option<&Ready>,
        mpidr: u64,
        level: u32,
    ) -> u64
        requires count { length self.now.mpidrs ≡ cores board.now }
        requires boot { boot.number < cores board.now }
        requires symmetric { is_symmetric board.now boot.number ≡ true }
        requires ready { IfSome ready (λ r. IsReady self.now board.now boot.number r.now) }
        ensures { result ≡ core_word self.now board.now boot.number mpidr level }
    {
        let Some(table) = self.table_kept(board, boot, ready, level) else {
            return self.core_word(board, boot, mpidr, level);
        };
        match table.name(mpidr >> (8 * level)) {
            Some(name) => name.word,
            None => NO_CORE,
        }
    }

    /// The names of this level, if they are kept.
    #[inline(always)]
    #[tactic(auto, using(crate::proofs::Swaps::table_at))]
    pub(crate) fn table_kept<'r>(
        &self,
        board: &Board,
        boot: Core,
        ready: Option<&'r Ready>,
        level: u32,
    ) -> Option<&'r Table>
        requires { IfSome ready (λ r. IsReady self.now board.now boot.number r.now) }
        ensures low { IfSome result (λ _. level < 4) }
        ensures names { IfSome result
            (λ table. HasNames self.now board.now boot.number level table.now) }
        ensures said { is_some result
            ≡ has_level (option_map (λ r. length r.now.tables.items) ready.entry) level }
    {
        ready?.tables.get(level as usize)
    }

    /// The power state word of the board for one of the platform, and its states, if it can be
    /// asked for in this mode.
    pub(crate) fn state_by(
        &self,
        board: &Board,
        boot: Core,
        ready: Option<&Ready>,
        mode: SuspendMode,
        word: u32,
    ) -> (u32, Option<[u8; LEVELS]>)
        requires ready { IfSome ready (λ r. IsReady self.now board.now boot.number r.now) }
        ensures word { result.0
            ≡ word_for self.now board.now.format (states_of self.now mode word) }
        ensures states { result.1 ≡ states_of self.now mode word }
    {
        let Some(ready) = ready else {
            let states = self.states_of(mode, word);
            return (self.word_for(board.format(), states), states);
        };
        match reader_in(&ready.readings, word) {
            Some(reading) if reading.can_ask(mode) => (reading.word, Some(reading.row.states)),
            Some(_) => (NO_STATE, None),
            None => (NO_STATE, None),
        }
    }
}
