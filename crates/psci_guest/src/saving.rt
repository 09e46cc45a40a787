//! The power of a guest as words, and words as the power of a guest.

ghost use Rattle.std.specs.Prelude.{◌≡◌, IfErr, IfOk, List, OnErr, length};
ghost use Rattle.psci_board.specs.Board.{BoardValue};
ghost use Rattle.psci_guest.specs.Guest.{IsAfter};
ghost use Rattle.psci_guest.specs.Pair.{PairValue, board_of};
ghost use Rattle.psci_guest.specs.Saved.{AreSaved, IsRefused, saved};
ghost use Rattle.psci_guest.specs.Turns.{Turn};
ghost use Rattle.psci_guest.specs.declared.fault.LoadFault.{LoadFault};
ghost use Rattle.psci_guest.specs.declared.fault.LoadFault.TheVariants.{Memory};

use crate::fault::LoadFault;
use crate::guest::GuestPower;
use crate::pair::Pair;
use psci_ctl::law_saved as law_saved_controller;
use psci_fw::{Firmware, law_alike, law_saved};
use std::alloc::Global;

impl GuestPower {
    /// How many words are saved: the firmware's, and the power controller's.
    pub fn saved_count(&self) -> usize
        ensures { result ≡ length (saved self.now) }
    {
        self.pair.firmware().saved_count() + self.pair.controller().saved_count()
    }

    /// Writes what is kept into words, of which there are as many as `saved_count` says.
    pub fn save(&self, words: &mut [u64])
        requires { length words.old ≡ length (saved self.now) }
        ensures words { words.new ≡ saved self.now }
        ensures kept { AreSaved self.now }
    {
        self.pair.save(words);
    }

    /// Keeps from now on what was saved of a guest of the same board: it goes on where that one
    /// was saved, as `law_goes_on` says. Other words are refused, and nothing changes. Memory is
    /// taken for a firmware, and that of the one before is freed.
    pub fn load(&mut self, alloc: Global, words: &[u64]) -> Result<(), LoadFault>
        ensures loaded { IfOk result (λ _. saved self.new ≡ words.now) }
        ensures kept { IfOk result (λ _. AreSaved self.new) }
        ensures board { board_of self.new ≡ board_of self.old }
        ensures refused { IfErr result (IsRefused (board_of self.old) words.now) }
        ensures same { OnErr result (self.new ≡ self.old) }
    {
        self.pair.load(alloc, words)
    }
}

impl Pair {
    /// Writes what both keep, as `GuestPower::save` does.
    fn save(&self, words: &mut [u64])
        requires { length words.old ≡ length (saved self.now) }
        ensures words { words.new ≡ saved self.now }
        ensures kept { AreSaved self.now }
    {
        let (own, others) = words.split_at_mut(self.firmware.saved_count());
        self.firmware.save(own);
        self.controller.save(others);
    }

    /// Keeps what was saved of both, as `GuestPower::load` does.
    fn load(&mut self, alloc: Global, words: &[u64]) -> Result<(), LoadFault>
        ensures loaded { IfOk result (λ _. saved self.new ≡ words.now) }
        ensures kept { IfOk result (λ _. AreSaved self.new) }
        ensures board { board_of self.new ≡ board_of self.old }
        ensures refused { IfErr result (IsRefused (board_of self.old) words.now) }
        ensures same { OnErr result (self.new ≡ self.old) }
    {
        law_saved();
        let count = self.firmware.saved_count().min(words.len());
        let (own, others) = words.split_at(count);
        let firmware = Firmware::open(alloc, self.controller.board(), own)?;
        self.controller.load(others)?;
        self.firmware = firmware;
        Ok(())
    }
}

/// A guest whose power was saved after some turns goes on where it is loaded, on the same board: it
/// is after the same turns. What was saved is refused for want of memory alone.
pub fn law_goes_on()
    ensures goes_on { (b : BoardValue) (ts : List Turn) (p q : PairValue) → AreSaved p → AreSaved q
        → board_of p ≡ board_of q → saved p ≡ saved q → IsAfter b ts p → IsAfter b ts q }
    ensures whole { (p : PairValue) (fault : LoadFault) → AreSaved p
        → IsRefused (board_of p) (saved p) fault → fault ≡ Memory }
{
    law_saved();
    law_alike();
    law_saved_controller();
}
