//! What a domain keeps of the cores below it.

ghost use Rattle.std.specs.Prelude.{◌≡◌, ℕ, ◌≤◌, ◌<◌, ◌^◌, List, ◌∷◌, [], replicate};
ghost use Rattle.psci_state.specs.declared.cores.CoreState.{CoreState};
ghost use Rattle.psci_tree.specs.Recount.{never_started};
ghost use Rattle.psci_tree.specs.Kept.{Keeps, MayExchange, kept_exchanged, low_in};

use psci_board::MOST_ON_PATH;
use psci_state::{CoreState, POWER_DOWN};

/// How many depths there are, from running to power-down.
pub const DEPTHS: usize = POWER_DOWN as usize + 1;

/// What a domain keeps of several cores, so that they need not be counted again.
#[derive(Clone, Copy)]
pub struct Kept {
    /// The sum of the known starts. It stands first, so that no byte is left unused before it.
    pub known: u64,
    /// How many ask each depth at the level of the domain.
    pub asking: [u16; DEPTHS],
    /// How many cores there are.
    pub cores: u16,
    /// How many are running or pending.
    pub active: u16,
    /// How many are off or going off.
    pub off: u16,
}

impl Kept {
    /// What is kept of one core, by itself.
    pub fn of_core(core: &CoreState) -> Kept
        ensures { Keeps 0 result (core.now ∷ []) }
    {
        let known = core.known;
        let mut asking = [0; DEPTHS];
        asking[core.ask(0) as usize] = 1;
        Kept {
            known: u64::from(known),
            asking,
            cores: 1,
            active: u16::from(core.is_active()),
            off: u16::from(core.is_away()),
        }
    }

    /// What is kept of so many cores that are off and were never started, at any level.
    #[tactic(auto, using(crate::proofs::Gone::kept_never))]
    pub fn never_started(count: u16) -> Kept
        ensures { (level : ℕ) → Keeps level result (replicate count never_started) }
    {
        Kept {
            known: 0,
            asking: [0, 0, 0, count],
            cores: count,
            active: 0,
            off: count,
        }
    }

    /// One of the cores came from a state into another. Each number is changed where it stands.
    pub fn exchange(&mut self, level: u32, was: &CoreState, is: &CoreState)
        requires { MayExchange level self.old was.now is.now }
        ensures { self.new ≡ kept_exchanged level self.old was.now is.now }
    {
        self.known = self.known - u64::from(was.known) + u64::from(is.known);
        self.active = self.active - u16::from(was.is_active()) + u16::from(is.is_active());
        self.off = self.off - u16::from(was.is_away()) + u16::from(is.is_away());
        self.asking[was.ask(level) as usize] -= 1;
        self.asking[is.ask(level) as usize] += 1;
    }

    /// The least that the cores ask at the level of the domain.
    pub fn low(&self) -> u8
        ensures { (level : ℕ) (cs : List CoreState) → Keeps level self.now cs
            → result ≡ low_in level cs }
    {
        let [none, standby, retention, _] = self.asking;
        if none > 0 {
            0
        } else if standby > 0 {
            1
        } else if retention > 0 {
            2
        } else {
            POWER_DOWN
        }
    }
}
