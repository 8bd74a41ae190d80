// Printed bytes on standard output.
ghost use Rattle.std.specs.Prelude.{◌≡◌, ◌≤◌, ◌<◌, ◌^◌, None, IfOk, OnErr};

use ap_base::{Sink, SinkFailed};
use std::io;
use std::io::Write;

/// Standard output. It tells nothing.
#[derive(Drop)]
pub struct OutSink<R> {
    rt: R,
    faults: u64,
    ghost fits: { faults < 2 ^ 64 },
}

impl<R: Print + Send + Drop> OutSink<R> {
    pub fn new(rt: R) -> OutSink<R>
        ensures faultless { result.faults ≡ 0 }
    {
        OutSink { rt, faults: 0 }
    }
}

impl<R: Print + Send + Drop> Sink for OutSink<R> {
    ghost use Rattle.std.specs.Prelude.{None};

    ghost faults = { λ o. o.faults };

    ghost taken = { λ _. None };

    ghost takes = { λ _ _ _. None };

    fn put(&mut self, piece: &[u8]) -> Result<usize, SinkFailed> {
        match io::writer(&self.rt).write(piece) {
            Ok(count) if count > 0 => Ok(count),
            _ => {
                self.faults = self.faults.saturating_add(1);
                Err(SinkFailed)
            }
        }
    }
}
