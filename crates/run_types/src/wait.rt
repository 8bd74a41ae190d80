// What a thread waits for.
ghost use Rattle.std.specs.Prelude.{◌≡◌, None, Some, slice_set, replicate, slice_get};
ghost use Rattle.run_types.specs.Waits.{on_of};

use ap_base::ThreadNo;
use std::marker::Model;

/// A thread waits for a monitor's owner, for a thread's end, for the initialisation of a class, or for a
/// conversion's member.
#[derive(Clone, Copy, Debug, PartialEq, Eq)]
pub enum On {
    Monitor(ThreadNo),
    Join(ThreadNo),
    Init(ThreadNo),
    Conversion(ThreadNo),
}

// The wait of one thread: what it waits for, or `Nothing`. It takes two bytes, where an `Option<On>` takes three.
#[derive(Clone, Copy, Debug, PartialEq, Eq)]
enum Wait {
    Nothing,
    Monitor(ThreadNo),
    Join(ThreadNo),
    Init(ThreadNo),
    Conversion(ThreadNo),
}

/// What each of the 64 threads waits for, if it does, in 128 bytes.
#[derive(Clone, Copy, Debug, PartialEq, Eq)]
pub struct Waits {
    threads: [Wait; 64],
}

impl Model for Waits {
    ghost use Rattle.std.specs.Prelude.{List, Option, map};
    ghost use Rattle.run_types.specs.declared.wait.On.{On};
    ghost use Rattle.run_types.specs.Waits.{on_of, waits_of, waits_of-threads};

    ghost Value = { List (Option On) };

    ghost view = { λ waits. map on_of waits.threads };

    ghost inverse = { waits_of };

    ghost inverse_ok = { waits_of-threads };
}

// The wait for something.
fn wait_for(on: On) -> Wait
    ensures { on_of result ≡ Some on }
{
    match on {
        On::Monitor(other) => Wait::Monitor(other),
        On::Join(other) => Wait::Join(other),
        On::Init(other) => Wait::Init(other),
        On::Conversion(other) => Wait::Conversion(other),
    }
}

// What a wait is for, if for anything.
fn on_of(wait: Wait) -> Option<On>
    ensures { result ≡ on_of wait }
{
    match wait {
        Wait::Nothing => None,
        Wait::Monitor(other) => Some(On::Monitor(other)),
        Wait::Join(other) => Some(On::Join(other)),
        Wait::Init(other) => Some(On::Init(other)),
        Wait::Conversion(other) => Some(On::Conversion(other)),
    }
}

impl Waits {
    /// No thread waits.
    pub fn none() -> Waits
        ensures none { result ≡ replicate 64 None }
    {
        Waits {
            threads: [Wait::Nothing; 64],
        }
    }

    /// Notes what a thread waits for.
    pub fn set(&mut self, thread: ThreadNo, on: On)
        ensures set { self.new ≡ slice_set self.old thread (Some on) }
    {
        self.threads[thread.number() as usize] = wait_for(on);
    }

    /// What a thread waits for, if it does.
    pub fn get(&self, thread: ThreadNo) -> Option<On>
        ensures found { slice_get self.now thread ≡ Some result }
    {
        on_of(self.threads[thread.number() as usize])
    }
}
