// Which slots a line of a copy holds: word 0 of its first line is the head, and slot k is word k +
// 1.
ghost use Rattle.std.specs.Prelude.{◌≡◌, ◌+◌, ◌-◌, ◌*◌, ◌/◌, min};

/// The first slot of line c, of an object with so many slots.
pub fn first_slot(c: u32, slots: u32) -> u32
    ensures first { result ≡ min (8 * c - 1) slots }
{
    (8 * u64::from(c)).saturating_sub(1).min(u64::from(slots)) as u32
}

/// The slot behind those of line c, of an object with so many slots.
pub fn end_slot(c: u32, slots: u32) -> u32
    ensures end { result ≡ min (8 * c + 7) slots }
{
    (8 * u64::from(c) + 7).min(u64::from(slots)) as u32
}

/// How many lines an object with so many slots has.
pub fn count_of(slots: u32) -> u32
    ensures count { result ≡ slots / 8 + 1 }
{
    slots / 8 + 1
}
