// Where printed bytes go.
ghost use Rattle.std.specs.Prelude.{◌≡◌, ◌<◌, ◌≤◌, ℕ, List, Option, length, take, IfOk, IfSome, OnErr, OnOk, Ok};
ghost use Rattle.ap_base.specs.Causes.{next_count};
ghost use Rattle.ap_base.specs.Sinks.{TakesBehind, with_bytes};

use thiserror::Error;

/// The sink failed.
#[derive(Clone, Copy, Debug, PartialEq, Eq, Error)]
#[error("the sink failed")]
pub struct SinkFailed;

/// Takes printed bytes.
pub trait Sink: Drop {
    /// How often it has failed.
    ghost faults: { Self → ℕ };

    /// The bytes that it took, where it tells them.
    ghost taken: { Self → Option (List ℕ) };

    /// How many bytes of a piece of this length it takes, once it took so many more, where it tells that.
    ghost takes: { Self → (further length : ℕ) → Option ℕ };

    /// Takes the first bytes of a piece, at least one, and answers how many. A call that fails takes none, and is counted.
    fn put(&mut self, piece: &[u8]) -> Result<usize, SinkFailed>
        requires { 0 < length piece.now }
        ensures some { IfOk result (λ n. (0 < n) × (n ≤ length piece.now)) }
        ensures told { IfOk result (λ n. IfSome (takes self.old 0 (length piece.now)) (λ m. n ≡ m)) }
        ensures behind { IfOk result (λ n. TakesBehind (takes self.old) (takes self.new) n) }
        ensures stays { OnErr result (TakesBehind (takes self.old) (takes self.new) 0) }
        ensures taken { IfOk result (λ n. taken self.new ≡ with_bytes (taken self.old) (take n piece.now)) }
        ensures none { OnErr result (taken self.new ≡ taken self.old) }
        ensures unfailed { OnOk result (faults self.new ≡ faults self.old) }
        ensures failed { OnErr result (faults self.new ≡ next_count (faults self.old)) }
        ensures later { faults self.old ≤ faults self.new };
}
