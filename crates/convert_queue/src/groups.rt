// The group of a thread.
ghost use Rattle.std.specs.Prelude.{◌≡◌, ◌⊎◌, ◌<◌, ◌≤◌, ◌-◌, ◌^◌, ℕ, Bool, true, false, length, List, slice_index};
ghost use Rattle.convert_queue.specs.Threads.{has, needs_of, InGroup, IsGroupOf, Adds};

use crate::thread_set::{member, union, with_member, without};

/// What one thread needs, if it is a member.
fn needs_from(needs: &[u64], set: u64, of: u8) -> u64
    requires { (length needs.now ≡ 64) × (of < 64) }
    ensures there { has set of ≡ true → result ≡ slice_index needs.now of }
    ensures none { has set of ≡ false → result ≡ 0 }
{
    if member(set, of) {
        needs[of as usize]
    } else {
        0
    }
}

/// The set with what its members need.
fn add_needs(needs: &[u64], set: u64) -> u64
    requires { length needs.now ≡ 64 }
    ensures adds { Adds needs.now set result }
    ensures all { (a u : ℕ) → a < 64 → has set a ≡ true → needs_of needs.now a u ≡ true
        → has result u ≡ true }
{
    let mut all = set;
    for of in 0..64u8 {
        let more = needs_from(needs, set, of);
        all = union(all, more);
    }
    all
}

/// The group of a thread.
pub fn group(needs: &[u64], t: u8) -> u64
    requires { (length needs.now ≡ 64) × (t < 64) }
    ensures { IsGroupOf needs.now t result }
{
    let mut set = with_member(0, t);
    let mut more = add_needs(needs, set);
    while more != set {
        set = more;
        more = add_needs(needs, set);
    }
    set
}

/// No member of the set needs anybody, and nobody needs one.
pub fn clear_needs(needs: &mut [u64], set: u64)
    requires { length needs.old ≡ 64 }
    ensures long { length needs.new ≡ 64 }
    ensures others { (a b : ℕ) → has set a ≡ false → has set b ≡ false
        → needs_of needs.new a b ≡ needs_of needs.old a b }
    ensures no_more { (a b : ℕ) → a < 64 → b < 64 → (has set a ≡ true) ⊎ (has set b ≡ true)
        → needs_of needs.new a b ≡ false }
{
    for u in 0..64u8 {
        needs[u as usize] = if member(set, u) {
            0
        } else {
            without(needs[u as usize], set)
        };
    }
}
