//! Rows of the JVMS, by computation. Each function states some in its contract, and does nothing.

ghost use Rattle.frame_cells.specs.Rows.{AreRows, arithmetic, shifted, forms, branching, kinds};

/// Ints and longs wrap, a division rounds to 0, distances of shifts are masked, and conversions keep the
/// lowest bits.
pub fn numbers_are_those_of_the_standard()
    ensures arithmetic { AreRows arithmetic }
    ensures shifted { AreRows shifted }
{}

/// Each form of `pop` to `swap` moves longs whole, and what would cut one is refused.
pub fn longs_are_moved_whole()
    ensures { AreRows forms }
{}

/// Branches and switches go where the standard says, and locals become what it says.
pub fn branches_and_locals_follow()
    ensures { AreRows branching }
{}

/// A cell of another kind in any operand's place is refused, and so are no cell there and no room.
pub fn kinds_are_checked()
    ensures { AreRows kinds }
{}
