//! Aimed draws: what is rare, and what several cores have to do together.

use crate::draws::{Draws, Mood};
use crate::plain::affinity;
use crate::states::deepest;
use psci_abi::Request;
use psci_abi::words::CPU_OFF;
use psci_world_spec::{Board, Event, Place};

/// A start limit that a storm may reach.
const NEAR_LIMIT: u32 = 4096;

impl Draws {
    /// A core at this place, if there is one, the first from any on.
    fn some_at<S: Sight>(&mut self, sight: &S, place: Place) -> Option<u16> {
        let cores = sight.board().cores();
        let first = self.core(cores);
        (first..cores)
            .chain(0..first)
            .find(|number| sight.place(*number) == Some(place))
    }

    /// A core that sleeps, if there is one, the first from any on.
    pub fn sleeper<S: Sight>(&mut self, sight: &S) -> Option<u16> {
        let cores = sight.board().cores();
        let first = self.core(cores);
        (first..cores)
            .chain(0..first)
            .find(|number| sight.is_asleep(*number))
    }

    /// A reset of the core that is being worn out: it is started, and has not been started as often
    /// as may be.
    fn wearing<S: Sight>(&mut self, sight: &S) -> Option<Event> {
        let number = self.worn?;
        let limit = sight.board().start_limit();
        let is_wearing = limit <= NEAR_LIMIT
            && sight.place(number) == Some(Place::Started)
            && sight.starts(number) < limit
            && !self.one_in(64);
        is_wearing.then_some(Event::Reset(u64::from(number)))
    }

    /// An event that leads to what is rare.
    pub fn aimed<S: Sight>(&mut self, sight: &S) -> Event {
        if sight.is_halting() && !self.one_in(16) {
            return self.errand(sight);
        }
        match self.below(10) {
            0 | 1 => Event::Deliver((sight.messages() as u64).saturating_sub(1)),
            2 => Event::Take((sight.acks() as u64).saturating_sub(1)),
            3 | 4 => self.arrival(sight),
            5 => self.poll(sight),
            _ => self.errand(sight),
        }
    }

    /// A started core enters, or a stopped one is woken.
    fn arrival<S: Sight>(&mut self, sight: &S) -> Event {
        if let Some(core) = self.some_at(sight, Place::Started) {
            return Event::Enter(u64::from(core));
        }
        self.waking(sight)
    }

    /// A stopped core is woken; where the cores sleep, seldom, as long as one runs.
    fn waking<S: Sight>(&mut self, sight: &S) -> Event {
        let seldom = self.mood == Mood::Sleepy || self.mood == Mood::Leaving;
        if seldom && !self.one_in(4) {
            return Event::Take((sight.acks() as u64).saturating_sub(1));
        }
        let sleeper = self.sleeper(sight);
        match sleeper.or_else(|| self.some_at(sight, Place::Stopped)) {
            Some(core) => Event::Wake(u64::from(core)),
            None => self.plain(sight),
        }
    }

    /// A running core asks about a domain above a core, mostly above one that sleeps.
    fn poll<S: Sight>(&mut self, sight: &S) -> Event {
        let Some(number) = self.some_at(sight, Place::Running) else {
            return self.arrival(sight);
        };
        let target = self.polled(sight);
        let level = self.below(sight.board().height().saturating_add(1));
        let request = if self.one_in(4) {
            Request::AffinityInfo { target, level }
        } else {
            Request::NodeHwState { target, level }
        };
        Event::Call(u64::from(number), request.registers(true))
    }

    /// The affinity word of a core that sleeps, mostly, if there is one; else of any core.
    fn polled<S: Sight>(&mut self, sight: &S) -> u64 {
        if self.one_in(4) {
            return self.good_target(sight.board());
        }
        match self.sleeper(sight) {
            Some(core) => affinity(sight.board(), core),
            None => self.good_target(sight.board()),
        }
    }

    /// A running core calls what its mood says.
    fn errand<S: Sight>(&mut self, sight: &S) -> Event {
        let Some(number) = self.some_at(sight, Place::Running) else {
            return self.arrival(sight);
        };
        let regs = if sight.is_halting() {
            self.call_of(sight, number)
        } else {
            self.errand_of(sight).registers(true)
        };
        Event::Call(u64::from(number), regs)
    }

    /// What a core calls in the present mood.
    fn errand_of<S: Sight>(&mut self, sight: &S) -> Request {
        if self.ends_life(sight) {
            return if self.may_end_storm() && self.one_in(2) {
                Request::SystemOff
            } else {
                self.reset()
            };
        }
        match self.mood {
            Mood::Busy => self.ask_on(sight.board()),
            Mood::Sleepy => self.sleep(sight.board()),
            Mood::Leaving => self.leave(sight),
            Mood::Moody => Request::SetSuspendMode {
                mode: self.below(2),
            },
        }
    }

    /// Whether the life is to end, mostly while other cores run.
    fn ends_life<S: Sight>(&mut self, sight: &S) -> bool {
        let crowded = count_at(sight, Place::Running) > 2 || self.one_in(8);
        let seldom = if self.is_late() { 32 } else { 128 };
        crowded && self.may_lose_life(sight) && self.one_in(seldom)
    }

    /// A core is asked on.
    fn ask_on(&mut self, board: &Board) -> Request {
        Request::CpuOn {
            target: self.good_target(board),
            entry: self.good_entry(board),
            context: self.word(),
        }
    }

    /// The core suspends, half of the time as deep as the board goes.
    fn sleep(&mut self, board: &Board) -> Request {
        let entry = self.good_entry(board);
        let state = if self.one_in(2) {
            deepest(board)
        } else {
            self.good_state(board)
        };
        Request::CpuSuspend {
            state,
            entry,
            context: self.word(),
        }
    }

    /// The core goes off, or suspends the system where it is the last one that runs.
    fn leave<S: Sight>(&mut self, sight: &S) -> Request {
        if count_at(sight, Place::Running) > 1 {
            return Request::CpuOff;
        }
        Request::SystemSuspend {
            entry: self.good_entry(sight.board()),
            context: self.word(),
        }
    }

    /// An event of any sort, which may be a last exit.
    fn any<S: Sight>(&mut self, sight: &S) -> Event {
        if let Some(reset) = self.wearing(sight) {
            return reset;
        }
        if self.one_in(2) {
            self.plain(sight)
        } else {
            self.aimed(sight)
        }
    }

    /// The next event, after what was seen to happen. Where a last exit is drawn, and another one
    /// after it, a core is woken.
    pub fn next<S: Sight>(&mut self, sight: &S) -> Event {
        self.left = self.left.saturating_sub(1);
        if self.one_in(32) {
            self.change_mood();
        }
        let event = self.any(sight);
        if !is_last_exit(sight, event) {
            return event;
        }
        let errand = self.errand(sight);
        if !is_last_exit(sight, errand) {
            return errand;
        }
        Event::Wake(u64::from(self.core(sight.board().cores())))
    }
}

// Events after which no core could call any more.

/// How many cores are at this place.
pub fn count_at<S: Sight>(sight: &S, place: Place) -> usize {
    (0..sight.board().cores())
        .filter(|number| sight.place(*number) == Some(place))
        .count()
}

/// Whether a core other than this one runs, or was asked on and will.
fn goes_on_without<S: Sight>(sight: &S, number: u16) -> bool {
    (0..sight.board().cores()).any(|other| {
        let is_running = sight.place(other) == Some(Place::Running);
        other != number && (is_running || sight.is_pending(other))
    })
}

/// Whether this event may leave no core that runs, is asked on or can be woken.
///
/// A core that calls CPU_OFF goes off. So does a core that is reset, unless it was asked on, and it
/// was not asked on where it runs; one that sleeps lightly does not go on after a reset either. In
/// a life that halts, and before a core has entered, nothing is lost.
pub fn is_last_exit<S: Sight>(sight: &S, event: Event) -> bool {
    if sight.is_halting() || !sight.is_entered() {
        return false;
    }
    let number = match event {
        Event::Call(core, regs) if regs.x0 % (1 << 32) == u64::from(CPU_OFF) => core,
        Event::Reset(core) => core,
        _ => return false,
    };
    let Ok(number) = u16::try_from(number) else {
        return false;
    };
    !sight.is_pending(number) && !goes_on_without(sight, number)
}

impl Draws {
    /// Whether the present life may end: another one follows, or the last one may end now.
    pub fn may_lose_life<S: Sight>(&self, sight: &S) -> bool {
        let is_last = sight.life() == Some(sight.board().life_limit());
        !is_last || self.may_end_storm()
    }
}

// What the draws see of a world.

/// What the draws see of a world.
pub trait Sight {
    /// The board.
    fn board(&self) -> &Board;

    /// Where the core of this number is, if there is such a core.
    fn place(&self, number: u16) -> Option<Place>;

    /// Whether the core of this number was asked on and has not entered since.
    fn is_pending(&self, number: u16) -> bool;

    /// Whether the core of this number is stopped, and ON to the firmware: it sleeps, or goes off.
    fn is_asleep(&self, number: u16) -> bool;

    /// How often the core of this number was started in this life.
    fn starts(&self, number: u16) -> u32;

    /// The present life, counted from 1; None once the system is off.
    fn life(&self) -> Option<u32>;

    /// Whether a core has entered in this life.
    fn is_entered(&self) -> bool;

    /// Whether SYSTEM_OFF, SYSTEM_RESET or SYSTEM_RESET2 was accepted in this life.
    fn is_halting(&self) -> bool;

    /// How many messages were sent.
    fn messages(&self) -> usize;

    /// How many acknowledgements were made.
    fn acks(&self) -> usize;
}
