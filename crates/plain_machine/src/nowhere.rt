// A sink that keeps nothing.
ghost use Rattle.std.specs.Prelude.{◌≡◌, ◌<◌, ◌≤◌, length, take, IfOk, IfSome, OnErr, OnOk};
ghost use Rattle.ap_base.specs.Causes.{next_count};
ghost use Rattle.ap_base.specs.Sinks.{with_bytes};

use ap_base::{Sink, SinkFailed};

/// Takes each piece whole, and never fails. No step of a plain machine puts anything there.
#[derive(Drop)]
pub(crate) struct Nowhere {}

impl Sink for Nowhere {
    ghost use Rattle.std.specs.Prelude.{None, Some};

    ghost faults = { λ sink. 0 };

    ghost taken = { λ sink. None };

    ghost takes = { λ sink further n. Some n };

    fn put(&mut self, piece: &[u8]) -> Result<usize, SinkFailed> {
        Ok(piece.len())
    }
}
