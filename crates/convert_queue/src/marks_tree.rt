// A tree over the notes of lines: each inner node has the threads that have to write a line below it.
ghost use Rattle.std.specs.Prelude.{◌≡◌, ◌≢◌, ◌⊎◌, ◌<◌, ◌≤◌, ◌+◌, ◌*◌, ◌/◌, ◌^◌, ℕ, length, true, false, IfSome, IsNone};
ghost use Rattle.convert_queue.specs.Notes.{has_stored, note_at, node_has, IsTree, IsTreeBut, IsLeastStored};
ghost use Rattle.convert_queue.specs.Threads.{has};

use crate::line_marks::Note;
use crate::thread_set::{member, union, with_member};

// The note of a line, also of those past the last one.
fn note(notes: &[Note], line: usize) -> Note
    ensures note { result ≡ note_at notes.now line }
{
    if line < notes.len() {
        notes[line]
    } else {
        Note::Clean
    }
}

// The thread that has to write a line.
fn threads_of(note: Note) -> u64
    ensures threads { (t : ℕ) → has result t ≡ has_stored t note }
{
    match note {
        Note::Stored(t) => with_member(0, t.number()),
        _ => 0,
    }
}

/// The threads that have to write a line below a node.
pub fn threads_at(notes: &[Note], tree: &[u64], n: usize) -> u64
    ensures threads { (t : ℕ) → has result t ≡ node_has notes.now tree.now t n }
{
    if n < tree.len() {
        tree[n]
    } else {
        threads_of(note(notes, n - tree.len()))
    }
}

/// Brings the nodes above a line up to date with its note.
pub fn mend(notes: &[Note], tree: &mut [u64], line: usize)
    requires few { length tree.old ≤ 2 ^ 32 }
    requires below { line < length tree.old }
    requires others { IsTreeBut notes.now tree.old ((length tree.old + line) / 2) }
    ensures tree { IsTree notes.now tree.new }
{
    let mut n = (tree.len() + line) / 2;
    while n > 0 {
        let left = threads_at(notes, tree, 2 * n);
        let right = threads_at(notes, tree, 2 * n + 1);
        tree[n] = union(left, right);
        n /= 2;
    }
}

// The left child of a node where the thread has a line to write below it, and else the right one.
fn child(notes: &[Note], tree: &[u64], t: u8, n: usize) -> usize
    requires thread { t < 64 }
    requires few { n < 2 ^ 33 }
    ensures child { ((result ≡ 2 * n) × (node_has notes.now tree.now t (2 * n) ≡ true))
        ⊎ ((result ≡ 2 * n + 1) × (node_has notes.now tree.now t (2 * n) ≡ false)) }
{
    if member(threads_at(notes, tree, 2 * n), t) {
        2 * n
    } else {
        2 * n + 1
    }
}

/// The least line that a thread has to write.
pub fn least(notes: &[Note], tree: &[u64], levels: u32, t: u8) -> Option<usize>
    requires thread { t < 64 }
    requires size { length tree.now ≡ 2 ^ levels }
    requires few { levels ≤ 32 }
    requires fit { length notes.now ≤ length tree.now }
    requires tree { IsTree notes.now tree.now }
    ensures some { IfSome result (λ l. IsLeastStored notes.now t l) }
    ensures none { IsNone result → (l : ℕ) → has_stored t (note_at notes.now l) ≡ true → ⊥ }
{
    if !member(threads_at(notes, tree, 1), t) {
        return None;
    }
    let mut n = 1;
    for level in 0..levels {
        n = child(notes, tree, t, n);
    }
    Some(n - tree.len())
}
