//! The queues of frames, and who is still at work.

use crossbeam_queue::SegQueue;
use psci_board::Core;
use psci_link::{FRAME_LEN, Frame, encode};
use std::alloc::{AllocError, Global};
use std::sync::Wait;
use std::sync::atomic::{AtomicBool, AtomicU32, AtomicU64, Ordering};
use std::time::Duration;

/// The bytes of a frame.
pub type Bytes = [u8; FRAME_LEN];

/// A thread that has come looks so often at most whether the others have.
const LOOKS: u32 = 250;

/// It sleeps so many milliseconds between two looks, unless a thread comes.
const SLEEP: u64 = 20;

/// So many workers at most step down at one moment.
const AT_ONCE: u32 = 1000;

/// The queues of frames to the link, and what all threads of a run count together.
#[derive(Drop)]
pub struct Wire {
    /// From the firmware to the power controller.
    messages: SegQueue<Bytes>,
    /// From the power controller to the firmware.
    acks: SegQueue<Bytes>,
    /// For each core, whether it is off and has calls to make.
    waiting: Vec<AtomicBool>,
    /// Workers whose core runs, sleeps or was asked on, and has calls to make.
    up: AtomicU32,
    /// Workers that have not ended.
    at_work: AtomicU32,
    /// Threads that have come to the start.
    come: AtomicU64,
    /// Whether the run is to end before all calls are made.
    is_over: AtomicBool,
}

impl Wire {
    /// Queues without frames, and so many workers, of which one is up: that of the boot core. All
    /// others wait.
    pub fn new(alloc: Global, workers: u16) -> Result<Wire, AllocError> {
        let mut waiting = Vec::with_capacity(alloc, usize::from(workers))?;
        for number in 0..workers {
            waiting.push(AtomicBool::new(number > 0))?;
        }
        Ok(Wire {
            messages: SegQueue::new(alloc)?,
            acks: SegQueue::new(alloc)?,
            waiting,
            up: AtomicU32::new(1),
            at_work: AtomicU32::new(u32::from(workers)),
            come: AtomicU64::new(0),
            is_over: AtomicBool::new(false),
        })
    }

    /// Sends a frame; false if memory ran out.
    pub fn send<R: Wait>(&self, rt: &R, frame: &Frame) -> bool {
        let queue = match frame {
            Frame::Message(_) => &self.messages,
            Frame::Ack(_) => &self.acks,
        };
        queue.push(rt, encode(frame)).is_ok()
    }

    /// The next frame of either queue, if there is one.
    pub fn next<R: Wait>(&self, rt: &R) -> Option<Bytes> {
        match self.messages.pop(rt) {
            Some(bytes) => Some(bytes),
            None => self.acks.pop(rt),
        }
    }

    /// Comes to the start, where each thread sleeps until all the others have come; false if one of
    /// them doesn't come in some seconds, as where it can't be made.
    pub fn starts_with_all<R: Wait>(&self, rt: &R) -> bool {
        let _before = self.come.fetch_add(1, Ordering::SeqCst);
        self.come.wake_all();
        let all = self.waiting.len() as u64 + 1;
        for _ in 0..LOOKS {
            // looked at first: a run of few calls may be over before the last one looks
            let come = self.come.load(Ordering::SeqCst);
            if come >= all {
                return true;
            }
            if self.is_over() {
                return false;
            }
            let seen = come.min(u64::from(u32::MAX)) as u32;
            self.come
                .park_timeout(rt, seen, Duration::from_millis(SLEEP));
        }
        self.give_up();
        false
    }

    /// A core waits to be asked on from now on, or no longer.
    pub fn set_waiting(&self, core: Core, is_waiting: bool) {
        if let Some(place) = self.waiting.get(usize::from(core.number)) {
            place.store(is_waiting, Ordering::SeqCst);
        }
    }

    /// Whether a core waits to be asked on.
    pub fn is_waiting(&self, core: Core) -> bool {
        match self.waiting.get(usize::from(core.number)) {
            Some(place) => place.load(Ordering::SeqCst),
            None => false,
        }
    }

    /// One worker more is up.
    pub fn step_up(&self) {
        let _before = self.up.fetch_add(1, Ordering::SeqCst);
    }

    /// A worker is no longer up, whoever is.
    pub fn step_out(&self) {
        let _before = self.up.fetch_sub(1, Ordering::SeqCst);
    }

    /// A worker is no longer up if another one is, which can ask the others on; else it stays up,
    /// and the answer is false.
    pub fn step_down(&self) -> bool {
        let mut up = self.up.load(Ordering::SeqCst);
        for _ in 0..AT_ONCE {
            if up < 2 {
                return false;
            }
            match self
                .up
                .compare_exchange(up, up - 1, Ordering::SeqCst, Ordering::SeqCst)
            {
                Ok(_) => return true,
                Err(now) => up = now,
            }
        }
        false
    }

    /// Whether nobody can ask a core on any more that waits.
    pub fn is_still(&self) -> bool {
        self.up.load(Ordering::SeqCst) == 0
    }

    /// A worker has ended.
    pub fn leave(&self) {
        let _before = self.at_work.fetch_sub(1, Ordering::SeqCst);
    }

    /// Whether all workers have ended.
    pub fn is_left(&self) -> bool {
        self.at_work.load(Ordering::SeqCst) == 0
    }

    /// The run is to end: no worker makes a further call.
    pub fn give_up(&self) {
        self.is_over.store(true, Ordering::SeqCst);
    }

    /// Whether the run is to end.
    pub fn is_over(&self) -> bool {
        self.is_over.load(Ordering::SeqCst)
    }
}
