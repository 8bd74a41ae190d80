// How the lines of copies stand to their image.
ghost use Rattle.std.specs.Prelude.{◌≡◌, ◌≢◌, ◌<◌, ◌≤◌, ◌+◌, ◌*◌, ◌^◌, ◌↔◌, ℕ, replicate, length, map, slice_set, true, false};
ghost use Rattle.std.specs.Prelude.{IfOk, IfSome, IsNone, IsTrue};
ghost use Rattle.convert_queue.specs.Marks.{clean, IsClean, IsStored, MayNote, mark_at, with_fence, with_store, with_write};
ghost use Rattle.convert_queue.specs.Notes.{note_at, without_write, IsTree};

use crate::marks_tree::{least, mend};
use crate::thread_set::{member, with_member};
use ap_base::ThreadNo;
use std::alloc::{AllocError, Global};
use std::marker::Model;

/// What is kept of a line. A write has the number of fences that were made before it.
#[derive(Clone, Copy)]
pub enum Note {
    Clean,
    Stored(ThreadNo),
    Written(ThreadNo, u32),
}

/// A note of each line, and over them a tree of sets of threads, whose height is `levels`. The set
/// `unfenced` has the threads that wrote a line since the last fence.
#[derive(Drop)]
pub struct LineMarks {
    notes: Vec<Note>,
    tree: Vec<u64>,
    levels: u32,
    fences: u32,
    unfenced: u64,
}

impl Model for LineMarks {
    ghost use Rattle.std.specs.Prelude.{List};
    ghost use Rattle.convert_queue.specs.Marks.{Mark};

    ghost Value = { List Mark };

    ghost use Rattle.convert_queue.specs.Notes.{marks_of, AreNotes};

    ghost view = { λ m. marks_of m.fences m.notes.items };

    ghost invariant = { λ m. AreNotes m.notes.items m.tree.items m.levels m.fences m.unfenced };
}

// The least number of levels of a tree that has room for so many lines.
fn levels_for(lines: u32) -> u32
    ensures room { lines ≤ 2 ^ result }
    ensures few { result ≤ 32 }
{
    let mut levels = 0;
    while levels < 32 && (1u64 << levels) < lines as u64 {
        levels += 1;
    }
    levels
}

impl LineMarks {
    /// All lines are clean.
    pub fn reserve(alloc: Global, lines: u32) -> Result<LineMarks, AllocError>
        ensures all_clean { IfOk result (λ marks. marks ≡ replicate lines clean) }
    {
        let levels = levels_for(lines);
        let size = 1usize << levels;
        Ok(LineMarks {
            notes: vec![in alloc; Note::Clean; lines as usize]?,
            tree: vec![in alloc; 0; size]?,
            levels,
            fences: 0,
            unfenced: 0,
        })
    }

    /// Notes a store.
    pub fn store(&mut self, t: ThreadNo, line: usize)
        requires below { line < length self.old }
        requires alone { MayNote t (mark_at self.old line) }
        ensures noted { self.new ≡ with_store self.old t line }
    {
        replace(&mut self.notes, &mut self.tree, line, Note::Stored(t));
    }

    /// Notes a write-back.
    pub fn write(&mut self, t: ThreadNo, line: usize)
        requires below { line < length self.old }
        requires alone { MayNote t (mark_at self.old line) }
        ensures noted { self.new ≡ with_write self.old line }
    {
        if let Note::Stored(_) = self.notes[line] {
            replace(
                &mut self.notes,
                &mut self.tree,
                line,
                Note::Written(t, self.fences),
            );
            self.unfenced = with_member(self.unfenced, t.number());
        }
    }

    /// Notes a fence. Takes constant time, but for one fence in 2^32.
    pub fn fence(&mut self)
        ensures noted { self.new ≡ with_fence self.old }
    {
        self.unfenced = 0;
        if self.fences == u32::MAX {
            forget_writes(&mut self.notes);
            self.fences = 0;
            return;
        }
        self.fences += 1;
    }

    /// The least line that the thread has to write.
    pub fn unwritten(&self, t: ThreadNo) -> Option<usize>
        ensures some { IfSome result (λ l. IsStored self.now t l × (l < length self.now)
            × ((k : ℕ) → k < l → IsStored self.now t k → ⊥)) }
        ensures none { IsNone result → (l : ℕ) → IsStored self.now t l → ⊥ }
    {
        match least(&self.notes, &self.tree, self.levels, t.number()) {
            Some(line) => Some(line),
            None => None,
        }
    }

    /// Whether each line that the thread has stored to was written since, and then fenced.
    pub fn is_clean(&self, t: ThreadNo) -> bool
        ensures clean { IsTrue result ↔ IsClean self.now t }
    {
        self.unwritten(t).is_none() && !member(self.unfenced, t.number())
    }
}

// Replaces the note of a line, and brings the tree up to date.
fn replace(notes: &mut Vec<Note>, tree: &mut Vec<u64>, line: usize, note: Note)
    requires below { line < length notes.old.items }
    requires fit { length notes.old.items ≤ length tree.old.items }
    requires few { length tree.old.items ≤ 2 ^ 32 }
    requires tree { IsTree notes.old.items tree.old.items }
    ensures notes { notes.new.items ≡ slice_set notes.old.items line note }
    ensures tree { IsTree notes.new.items tree.new.items }
    ensures size { length tree.new.items ≡ length tree.old.items }
{
    notes[line] = note;
    mend(notes, tree, line);
}

// Lines that were written are clean from now on.
fn forget_writes(notes: &mut Vec<Note>)
    ensures forgotten { notes.new.items ≡ map without_write notes.old.items }
{
    for i in 0..notes.len() {
        notes[i] = forgotten(notes[i]);
    }
}

// The note of a line once its write is over.
fn forgotten(note: Note) -> Note
    ensures forgotten { result ≡ without_write note }
{
    match note {
        Note::Written(_, _) => Note::Clean,
        _ => note,
    }
}
