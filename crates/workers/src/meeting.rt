// A gate at which two threads meet.
use ap_base::{Gate, ThreadNo};
use std::sync::atomic::{AtomicU64, Ordering};
use std::thread;

const NOBODY: u64 = 0;

const FIRST: u64 = 1;

const SECOND: u64 = 2;

const MET: u64 = 3;

const GIVEN_UP: u64 = 4;

/// Holds each of two threads at its turn of this number until the other has come there, for at most so many looks.
#[derive(Drop)]
pub struct MeetingGate {
    a: ThreadNo,
    b: ThreadNo,
    turn: u64,
    most: u64,
    state: AtomicU64,
}

impl MeetingGate {
    /// A gate to which neither of the two has come.
    pub fn new(a: ThreadNo, b: ThreadNo, turn: u64, most: u64) -> MeetingGate {
        MeetingGate {
            a,
            b,
            turn,
            most,
            state: AtomicU64::new(NOBODY),
        }
    }

    /// Whether one of the two came while the other was held here.
    pub fn met(&self) -> bool {
        self.state.load(Ordering::SeqCst) == MET
    }

    // One of the two comes, and looks for the other. Where its looks are used up it gives up, for both.
    fn come(&self, mine: u64, other: u64) {
        if self.change(other, MET) {
            return;
        }
        if !self.change(NOBODY, mine) {
            // the other one came between the two looks
            let _met = self.change(other, MET);
            return;
        }
        for _ in 0..self.most {
            if self.state.load(Ordering::SeqCst) != mine {
                return;
            }
            thread::yield_now();
        }
        let _met = !self.change(mine, GIVEN_UP);
    }

    fn change(&self, from: u64, to: u64) -> bool {
        self.state
            .compare_exchange(from, to, Ordering::SeqCst, Ordering::SeqCst)
            .is_ok()
    }
}

impl Gate for MeetingGate {
    fn before(&self, thread: ThreadNo, turn: u64) {
        if turn != self.turn {
            return;
        }
        if thread == self.a {
            self.come(FIRST, SECOND);
        } else if thread == self.b {
            self.come(SECOND, FIRST);
        }
    }
}
