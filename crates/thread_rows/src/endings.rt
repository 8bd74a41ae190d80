// How runs end.
use crate::playing::Playing;
use ap_base::ThreadNo;
use class_set::ClassSet;
use durable_launch::Halt;
use put_bytes::{put_decimal, put_text};
use run_types::{On, RunFault, Waits};
use statuses::{NameRoom, Status, status_of_fault, status_text};
use std::alloc::{AllocError, Global};

/// How a run is over.
#[derive(Drop)]
pub(crate) enum Ended {
    /// By a fault: the number of its status, and the status's line.
    Over(Vec<u8>),
    /// There was no memory for them.
    OutOfMemory,
}

// Notes what a thread waits for, if it does.
fn note(waits: &mut Waits, t: ThreadNo, on: Option<On>) {
    if let Some(on) = on {
        waits.set(t, on);
    }
}

// What each thread waits for.
fn waits_of(run: &Playing) -> Waits {
    let mut waits = Waits::none();
    for n in 0..64 {
        let t = ThreadNo::new(n).unwrap();
        note(&mut waits, t, run.heap.waiting(t));
    }
    waits
}

// The fault of a run that is over so.
fn fault_of(run: &Playing, halt: Halt) -> RunFault {
    match halt {
        Halt::Met(fault) => fault.of_run(),
        Halt::Stuck => RunFault::Stuck(waits_of(run)),
    }
}

fn put_over(out: &mut Vec<u8>, status: &Status) -> Result<(), AllocError> {
    put_text(out, b"over ")?;
    put_decimal(out, u64::from(status.number()))?;
    put_text(out, b" ")
}

// A status's number and its line.
fn status_line(alloc: Global, status: &Status) -> Result<Vec<u8>, AllocError> {
    let line = status_text(alloc, status)?;
    let mut out = Vec::new(alloc);
    put_over(&mut out, status)?;
    put_text(&mut out, line.as_slice().trim_ascii())?;
    Ok(out)
}

fn fault_line(alloc: Global, set: &ClassSet, fault: &RunFault) -> Result<Vec<u8>, AllocError> {
    let status = status_of_fault(set, fault, NameRoom::reserve(alloc)?);
    status_line(alloc, &status)
}

/// A run of a class set is over so.
pub(crate) fn ended_by(set: &ClassSet, run: &Playing, halt: Halt) -> Ended {
    let fault = fault_of(run, halt);
    match fault_line(*run.frames.allocator(), set, &fault) {
        Ok(line) => Ended::Over(line),
        Err(_) => Ended::OutOfMemory,
    }
}
