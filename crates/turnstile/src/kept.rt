// What a turnstile may keep.

/// A value with entries, to which workers add, and with a part for each worker.
pub trait Kept: Send + Drop {
    ghost use Rattle.std.specs.Prelude.{◌≡◌, ℕ, List, length};

    type Entry;

    type Part;

    /// All entries, in the order in which they were added.
    ghost entries: { Self → List Self.Entry };

    /// Whose entry it is.
    ghost worker: { Self.Entry → ℕ };

    /// The part of each worker, by its number.
    ghost parts: { Self → List Self.Part };

    /// How many entries there are.
    fn made(&self) -> u64
        ensures { result ≡ length (entries self.now) };
}
