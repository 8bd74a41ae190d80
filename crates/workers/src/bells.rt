// How host threads that have nothing to do are woken.
use crate::waiting::Rouses;
use std::sync::Wait;
use std::sync::atomic::{AtomicU64, Ordering};
use std::thread;

/// Two bells: that of the host threads of whose threads one lives, and that of the others. Each is a count of how often it was rung.
#[derive(Drop)]
pub(crate) struct Bells {
    living: AtomicU64,
    idle: AtomicU64,
    // How many sleep, or are about to.
    asleep: AtomicU64,
}

/// How often the bells were rung by some moment. Read while the turnstile is passed, and so before or behind each event, it tells one
/// that looked then whether it may sleep: whatever came behind its look rings a bell that differs from this.
#[derive(Clone, Copy, PartialEq, Eq)]
pub(crate) struct Heard {
    living: u64,
    idle: u64,
}

impl Heard {
    /// Whether all were called since.
    pub(crate) fn all_since(self, now: Heard) -> bool {
        self.idle != now.idle
    }
}

impl Bells {
    pub(crate) fn new() -> Bells {
        Bells {
            living: AtomicU64::new(0),
            idle: AtomicU64::new(0),
            asleep: AtomicU64::new(0),
        }
    }

    /// Wakes those that may have something to do.
    pub(crate) fn ring(&self, rouses: Rouses) {
        if rouses == Rouses::Nobody {
            return;
        }
        self.living.fetch_add(1, Ordering::SeqCst);
        if rouses == Rouses::Everybody {
            self.idle.fetch_add(1, Ordering::SeqCst);
        }
        // One that is counted behind this look finds its bell rung, and won't sleep.
        if self.asleep.load(Ordering::SeqCst) != 0 {
            self.living.wake_all();
            if rouses == Rouses::Everybody {
                self.idle.wake_all();
            }
        }
    }

    /// How often they were rung.
    pub(crate) fn heard(&self) -> Heard {
        Heard {
            living: self.living.load(Ordering::SeqCst),
            idle: self.idle.load(Ordering::SeqCst),
        }
    }

    /// Whether they are rung once more within so many looks.
    pub(crate) fn ring_within(&self, heard: Heard, looks: u32) -> bool {
        for _ in 0..looks {
            if self.heard() != heard {
                return true;
            }
            thread::yield_now();
        }
        false
    }

    /// Sleeps until the bell of the idle is rung, or that of the others.
    pub(crate) fn sleep<R: Wait>(&self, rt: &R, heard: Heard, idle: bool) {
        self.asleep.fetch_add(1, Ordering::SeqCst);
        if idle {
            self.idle.park(rt, (heard.idle & 0xffff_ffff) as u32);
        } else {
            self.living.park(rt, (heard.living & 0xffff_ffff) as u32);
        }
        self.asleep.fetch_sub(1, Ordering::SeqCst);
    }
}
