//! Plain draws: any call, with arguments that are good or bad, and any other event.

use crate::aims::Sight;
use crate::draws::Draws;
use crate::table::DRAWN;
use psci_abi::words::{
    CPU_ON_64, CPU_SUSPEND_32, CPU_SUSPEND_64, MIGRATE, PSCI_FEATURES, SYSTEM_RESET2_32,
};
use psci_abi::{Function, Parameter, Regs, Request, read};
use psci_world_spec::{Board, Event, Place};

/// A function word that is asked about, or called, now and then.
///
/// CPU_OFF has no SMC64 form, and no function number has bit 25.
const WORDS: [u32; 8] = [
    MIGRATE,
    CPU_SUSPEND_32,
    CPU_SUSPEND_64,
    PSCI_FEATURES,
    0xc400_0002,
    SYSTEM_RESET2_32,
    CPU_ON_64,
    0xc600_0003,
];

/// The affinity word of the core of this number, or of none where the board has no such core.
pub fn affinity(board: &Board, number: u16) -> u64 {
    let Some(core) = board.core(number) else {
        return 0xff;
    };
    let mut word: u64 = 0;
    for node in board.path(core) {
        let field = u64::from(board.child_number(node).unwrap_or(0));
        word |= field.wrapping_shl(8u32.wrapping_mul(node.level));
    }
    word
}

impl Draws {
    /// An affinity word that names a core, or nearly.
    pub fn target(&mut self, board: &Board) -> u64 {
        let core = self.core(board.cores());
        let word = affinity(board, core);
        match self.below(8) {
            0 => word ^ (1 << self.below(40)),
            1 => self.word(),
            _ => word,
        }
    }

    /// The affinity word of a core.
    pub fn good_target(&mut self, board: &Board) -> u64 {
        let core = self.core(board.cores());
        affinity(board, core)
    }

    /// An entry point that may be entered.
    pub fn good_entry(&mut self, board: &Board) -> u64 {
        let entry = board.boot().wrapping_add(u64::from(self.below(256)) * 4);
        if board.may_enter(entry) {
            entry
        } else {
            board.boot()
        }
    }

    /// An entry point, good or bad.
    pub fn entry(&mut self, board: &Board) -> u64 {
        let entry = self.good_entry(board);
        match self.below(8) {
            0 => entry | 2,
            1 => 0,
            _ => entry,
        }
    }

    /// Any request that does not end the life.
    pub fn request(&mut self, board: &Board) -> Request {
        let place = self.below(DRAWN.len() as u32) as usize;
        match DRAWN.get(place) {
            Some(Some(function)) => self.request_of(*function, board),
            _ => Request::Unknown,
        }
    }

    /// A request of this function, good or bad.
    fn request_of(&mut self, function: Function, board: &Board) -> Request {
        let [first, second, third] = function.takes();
        let word = function.wide_word().unwrap_or(function.narrow_word());
        let x1 = self.argument(first, board);
        let x2 = self.argument(second, board);
        let x3 = self.argument(third, board);
        read(Regs {
            x0: u64::from(word),
            x1,
            x2,
            x3,
        })
    }

    /// An argument, good or bad; a reset is of a type that there is not, one of a vendor or
    /// reserved.
    fn argument(&mut self, parameter: Parameter, board: &Board) -> u64 {
        match parameter {
            Parameter::PowerState => u64::from(self.state(board)),
            Parameter::Target => self.target(board),
            Parameter::Level => u64::from(self.below(5)),
            Parameter::Entry => self.entry(board),
            Parameter::Context | Parameter::Cookie => self.word(),
            Parameter::Word => u64::from(self.feature()),
            Parameter::Mode => u64::from(self.below(3)),
            Parameter::ResetType => 1 << self.below(32),
            Parameter::Nothing => 0,
        }
    }

    /// SYSTEM_RESET, or a SYSTEM_RESET2 that does the same.
    pub fn reset(&mut self) -> Request {
        if self.one_in(2) {
            Request::SystemReset
        } else {
            Request::SystemReset2 {
                reset_type: 0,
                cookie: self.word(),
            }
        }
    }

    /// A function word to ask about.
    fn feature(&mut self) -> u32 {
        let place = self.below(8) as usize;
        WORDS.get(place).copied().unwrap_or(0)
    }

    /// The registers of any call that does not end the life.
    fn call(&mut self, board: &Board) -> Regs {
        let request = self.request(board);
        let wide = !self.one_in(4);
        let mut regs = request.registers(wide);
        if self.one_in(8) {
            regs.x0 |= self.word() << 32;
        }
        regs
    }

    /// The registers of any call of a core; one that ends the life only where it runs not, or the
    /// life halts already.
    pub fn call_of<S: Sight>(&mut self, sight: &S, number: u16) -> Regs {
        let is_heard = sight.place(number) == Some(Place::Running) && !sight.is_halting();
        if self.one_in(8) && !is_heard {
            let off = self.one_in(2);
            let request = if off {
                Request::SystemOff
            } else {
                self.reset()
            };
            return request.registers(true);
        }
        self.call(sight.board())
    }

    /// The core to wake or reset: half of the time one that sleeps, if there is one; else this.
    fn roused<S: Sight>(&mut self, sight: &S, core: u64) -> u64 {
        if self.one_in(2) {
            return core;
        }
        self.sleeper(sight).map_or(core, u64::from)
    }

    /// Any event, of any core, message or acknowledgement, also of one that is not there.
    pub fn plain<S: Sight>(&mut self, sight: &S) -> Event {
        let number = self.core(sight.board().cores().saturating_add(1));
        let core = u64::from(number);
        match self.below(24) {
            0..=11 => Event::Call(core, self.call_of(sight, number)),
            12..=15 => Event::Deliver(self.index(sight.messages())),
            16..=19 => Event::Take(self.index(sight.acks())),
            20 => Event::Wake(self.roused(sight, core)),
            21 => Event::Reset(self.roused(sight, core)),
            _ => Event::Enter(core),
        }
    }
}
