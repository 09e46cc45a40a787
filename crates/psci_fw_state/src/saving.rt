//! The state of the firmware as words, and words as a state.

ghost use Rattle.std.specs.Prelude.{◌≡◌, ◌≤◌, ◌^◌, None, Some, length, IfOk, MatchResult, OnErr};
ghost use Rattle.psci_fw_state.specs.Saved.{core_part, depth_part, IsSavable, KeepsHeading};
ghost use Rattle.psci_fw_state.specs.Saved.{part_count, part_fault, part_words, row_part, saved};
ghost use Rattle.psci_fw_state.specs.Saved.{saved_fault, slot_part};
ghost use Rattle.psci_fw_state.specs.Seen.{IsState};

use crate::fault::SavedFault;
use crate::savable::{look_at_messages, look_at_starts};
use crate::saved_laws::law_saved_state;
use crate::saved_parts::{
    CORE_WORDS, DOMAIN_WORDS, FORMAT, HEADING, ROW_WORDS, are_rows, flag, load_rows, mode_number,
    mode_of, save_rows,
};
use crate::state::State;
use psci_messages::{SLOT_WORDS, are_slots, law_slots_words, sum_of, write};
use psci_tree::are_cores;

impl State {
    /// How many words are saved.
    pub fn saved_count(&self) -> usize
        ensures count { result ≡ length (saved self.now) }
        ensures few { result ≤ 2 ^ 25 }
        ensures state { IsState self.now }
    {
        law_saved_state();
        HEADING + self.part_count()
    }

    /// How many words the parts have: cores and domains of the tree, rows and slots.
    fn part_count(&self) -> usize
        ensures count { result ≡ part_count self.now.board }
        ensures few { result ≤ 2 ^ 24 }
        ensures state { IsState self.now }
    {
        let cores = self.board.cores() as usize;
        let domains = self.tree.domain_count();
        CORE_WORDS * cores + DOMAIN_WORDS * domains + ROW_WORDS * cores + SLOT_WORDS * (cores + 1)
    }

    /// Writes all that is kept into words, of which there are as many as `saved_count` says.
    pub fn save(&self, words: &mut [u64])
        requires { length words.old ≡ length (saved self.now) }
        ensures words { words.new ≡ saved self.now }
        ensures savable { IsSavable self.now }
        ensures state { IsState self.now }
    {
        law_saved_state();
        law_slots_words();
        let heading = [
            FORMAT,
            0,
            u64::from(self.life),
            flag(self.halting),
            mode_number(self.mode),
        ];
        let cores = self.board.cores() as usize;
        let depths = HEADING + CORE_WORDS * cores;
        let rows = depths + DOMAIN_WORDS * self.tree.domain_count();
        write(&heading, words, 0);
        self.tree.save_cores(words, HEADING);
        self.tree.save_depths(words, depths);
        save_rows(&self.rows, words, rows);
        self.slots.save(words, rows + ROW_WORDS * cores);
        words[1] = sum_of(&words[2..]);
    }

    /// Keeps from now on what was saved of a state of the same board's firmware: it is as that one
    /// was. Other words are refused by their first fault, in the order of `SavedFault`.
    pub fn load(&mut self, words: &[u64]) -> Result<(), SavedFault>
        ensures fault { let fault = saved_fault self.old.board words.now in
            MatchResult result (λ _. fault ≡ None) (λ e. fault ≡ Some e) }
        ensures loaded { IfOk result (λ _. saved self.new ≡ words.now) }
        ensures savable { IfOk result (λ _. IsSavable self.new) }
        ensures state { IfOk result (λ _. IsState self.new) }
        ensures board { self.new.board ≡ self.old.board }
        ensures refused { OnErr result (self.new ≡ self.old) }
    {
        self.check(words)?;
        self.life = words[2] as u32;
        self.halting = words[3] == 1;
        self.mode = mode_of(words[4]);
        self.load_parts(&words[HEADING..]);
        self.look();
        Ok(())
    }

    /// Looks at all that is saved of every state.
    fn look(&self)
        ensures savable { IsSavable self.now }
        ensures state { IsState self.now }
    {
        look_at_starts(&self.tree);
        look_at_messages(&self.slots, self.board.cores());
    }

    /// Keeps the parts of words without a fault. The life, whether it is halting, and the mode
    /// stay.
    fn load_parts(&mut self, words: &[u64])
        requires count { length words.now ≡ part_count self.old.board }
        requires good { part_fault self.old.board words.now ≡ None }
        ensures parts { part_words self.new ≡ words.now }
        ensures rest { KeepsHeading self.old self.new }
    {
        let (cores, depths, rows, slots) = self.parts(words);
        self.tree.load_cores(cores);
        self.tree.load_depths(depths);
        load_rows(
            &mut self.rows,
            &mut self.counts,
            &self.tree,
            &self.board,
            rows,
        );
        self.slots.load(slots);
    }

    /// Whether words are a saved state of this board's firmware, or why they are none.
    #[tactic(auto, unfolding(crate::specs::Saved::saved_fault))]
    fn check(&self, words: &[u64]) -> Result<(), SavedFault>
        ensures { let fault = saved_fault self.now.board words.now in
            MatchResult result (λ _. fault ≡ None) (λ e. fault ≡ Some e) }
    {
        let [format, sum, life, halting, mode, parts @ ..] = words else {
            return Err(SavedFault::Length);
        };
        if parts.len() != self.part_count() {
            return Err(SavedFault::Length);
        }
        if *format != FORMAT {
            return Err(SavedFault::Format);
        }
        if *sum != sum_of(&words[2..]) {
            return Err(SavedFault::Sum);
        }
        if *life > u64::from(self.board.life_limit()) {
            return Err(SavedFault::Life);
        }
        if *halting > 1 || *mode > 1 {
            return Err(SavedFault::Mode);
        }
        self.check_parts(parts)
    }

    /// The same of the parts.
    fn check_parts(&self, words: &[u64]) -> Result<(), SavedFault>
        requires { length words.now ≡ part_count self.now.board }
        ensures { let fault = part_fault self.now.board words.now in
            MatchResult result (λ _. fault ≡ None) (λ e. fault ≡ Some e) }
    {
        let (cores, depths, rows, slots) = self.parts(words);
        if !are_cores(cores) {
            return Err(SavedFault::Core);
        }
        if !self.tree.are_depths(depths) {
            return Err(SavedFault::Depth);
        }
        if !are_rows(rows) {
            return Err(SavedFault::Row);
        }
        if !are_slots(self.board.cores() as usize + 1, slots) {
            return Err(SavedFault::Message);
        }
        Ok(())
    }

    /// The words of the cores, of the domains, of the rows and of the slots.
    fn parts<'a>(&self, words: &'a [u64]) -> (&'a [u64], &'a [u64], &'a [u64], &'a [u64])
        requires { length words.now ≡ part_count self.now.board }
        ensures cores { result.0.now ≡ core_part self.now.board words.now }
        ensures depths { result.1.now ≡ depth_part self.now.board words.now }
        ensures rows { result.2.now ≡ row_part self.now.board words.now }
        ensures slots { result.3.now ≡ slot_part self.now.board words.now }
    {
        let count = self.board.cores() as usize;
        let (cores, rest) = words.split_at(CORE_WORDS * count);
        let (depths, rest) = rest.split_at(DOMAIN_WORDS * self.tree.domain_count());
        let (rows, slots) = rest.split_at(ROW_WORDS * count);
        (cores, depths, rows, slots)
    }
}
