// Which threads a thread of the host runs.
use ap_base::ThreadNo;

/// Of which workers' threads a host thread sees to the turns: worker w has each thread whose number leaves w when
/// divided by the number of workers.
#[derive(Clone, Copy)]
pub(crate) struct Crew {
    workers: u8,
    mine: [bool; 64],
}

impl Crew {
    /// None of them.
    pub(crate) fn none(workers: u8) -> Crew {
        Crew {
            workers,
            mine: [false; 64],
        }
    }

    /// A worker's threads too.
    pub(crate) fn with(mut self, worker: u8) -> Crew {
        if worker < 64 {
            self.mine[worker as usize] = true;
        }
        self
    }

    /// Whether a thread is one of them.
    pub(crate) fn has(&self, thread: ThreadNo) -> bool {
        if self.workers == 0 {
            return false;
        }
        self.mine[(thread.number() % self.workers) as usize]
    }

    /// The thread of the least of these workers.
    pub(crate) fn first(&self) -> ThreadNo {
        for n in 0..64 {
            if self.mine[n as usize] {
                if let Some(t) = ThreadNo::new(n) {
                    return t;
                }
            }
        }
        ThreadNo::main()
    }
}
