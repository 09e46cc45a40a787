//! Power state words, good and bad, in the format of a board and in the other one.

ghost use Rattle.std.specs.Prelude.{◌≤◌};

use crate::draws::Draws;
use psci_abi::Format;
use psci_world_spec::Board;

/// The power state word that takes every level of a board down.
pub fn deepest(board: &Board) -> u32 {
    let height = board.height();
    let id = match height {
        1 => 0x33,
        2 => 0x333,
        _ => 0x3333,
    };
    word_of(board.format(), id, height)
}

/// The power state word of this state id, which sleeps up to this level.
fn word_of(format: Format, id: u32, level: u32) -> u32 {
    let kind = u32::from(id % 16 == 3);
    match format {
        Format::Original => id | (kind << 16) | (level << 24),
        Format::Extended => id | (kind << 30),
    }
}

/// The format that this one is not.
fn other(format: Format) -> Format {
    match format {
        Format::Original => Format::Extended,
        Format::Extended => Format::Original,
    }
}

impl Draws {
    /// A power state word of a board: no level is deeper than the one below it.
    pub fn good_state(&mut self, board: &Board) -> u32 {
        self.state_in(board.format(), board.height())
    }

    /// A power state word, good or bad: now and then it has the other format, or a wrong bit.
    pub fn state(&mut self, board: &Board) -> u32 {
        let format = if self.one_in(8) {
            other(board.format())
        } else {
            board.format()
        };
        let state = self.state_in(format, board.height());
        if self.one_in(4) {
            state ^ (1 << self.below(32))
        } else {
            state
        }
    }

    /// A power state word of this format, for a board of this height.
    fn state_in(&mut self, format: Format, height: u32) -> u32 {
        let core = 1 + self.below(3);
        let cluster = self.shallower(core, height >= 1);
        let group = self.shallower(cluster, height >= 2);
        let system = self.shallower(group, height >= 3);
        let id = core | (cluster << 4) | (group << 8) | (system << 12);
        let level = u32::from(cluster > 0) + u32::from(group > 0) + u32::from(system > 0);
        word_of(format, id, level)
    }

    /// A depth no deeper than this one, mostly the same; 0 where the board has no such level.
    fn shallower(&mut self, depth: u32, there: bool) -> u32
        requires { depth ≤ 3 }
        ensures { result ≤ depth }
    {
        if !there {
            return 0;
        }
        if self.one_in(2) {
            depth
        } else {
            self.below(depth + 1)
        }
    }
}
