// A text is put into a sink.
ghost use Rattle.std.specs.Prelude.{◌≡◌, ◌<◌, ◌≤◌, ℕ, length, take, OnOk, OnErr};
ghost use Rattle.ap_base.specs.Causes.{next_count};
ghost use Rattle.ap_base.specs.Sinks.{with_bytes};

use ap_base::{Sink, SinkFailed};

/// Puts all bytes into the sink, which takes some of them with each call. Where the sink fails, it took a front of them, and not all.
pub fn put_all<S: Sink>(sink: &mut S, bytes: &[u8]) -> Result<(), SinkFailed>
    ensures all { OnOk result (S.taken sink.new ≡ with_bytes (S.taken sink.old) bytes.now) }
    ensures some { OnErr result ((k : ℕ) × (k < length bytes.now)
        × (S.taken sink.new ≡ with_bytes (S.taken sink.old) (take k bytes.now))) }
    ensures unfailed { OnOk result (S.faults sink.new ≡ S.faults sink.old) }
    ensures failed { OnErr result (S.faults sink.new ≡ next_count (S.faults sink.old)) }
    ensures later { S.faults sink.old ≤ S.faults sink.new }
{
    let mut taken = 0;
    while taken < bytes.len() {
        taken += sink.put(&bytes[taken..])?;
    }
    Ok(())
}
