// Sets of threads, a bit each.
ghost use Rattle.std.specs.Prelude.{◌≡◌, ◌≢◌, ◌<◌, ◌≤◌, ℕ};
ghost use Rattle.std.specs.Int.{bit_at};
ghost use Rattle.std.specs.Prelude.{true, false, ◌⊎◌, ◌||◌};
ghost use Rattle.convert_queue.specs.Threads.{has};

/// Whether the set has the thread.
pub fn member(set: u64, t: u8) -> bool
    requires { t < 64 }
    ensures { result ≡ has set t }
{
    (set >> t) & 1 == 1
}

/// The set with the thread.
pub fn with_member(set: u64, t: u8) -> u64
    requires { t < 64 }
    ensures here { bit_at result t ≡ 1 }
    ensures others { (u : ℕ) → u ≢ t → bit_at result u ≡ bit_at set u }
{
    set | (1u64 << t)
}

/// The set with the members of another.
pub fn union(a: u64, b: u64) -> u64
    ensures left { (u : ℕ) → has a u ≡ true → has result u ≡ true }
    ensures right { (u : ℕ) → has b u ≡ true → has result u ≡ true }
    ensures only { (u : ℕ) → has result u ≡ true → (has a u ≡ true) ⊎ (has b u ≡ true) }
    ensures both { (u : ℕ) → has result u ≡ (has a u || has b u) }
    ensures more { a ≤ result }
{
    a | b
}

/// The set without the members of another.
pub fn without(a: u64, b: u64) -> u64
    ensures gone { (u : ℕ) → u < 64 → has b u ≡ true → has result u ≡ false }
    ensures others { (u : ℕ) → has b u ≡ false → has result u ≡ has a u }
{
    a & !b
}
