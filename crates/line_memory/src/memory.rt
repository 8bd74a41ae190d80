// The lines of an image, kept in memory.
ghost use Rattle.std.specs.Prelude.{◌≡◌, ◌≢◌, ◌⊎◌, ◌<◌, ℕ, ◌↔◌, IsTrue, OnOk, OnErr, IfOk, IfErr, Ok};
ghost use Rattle.ap_base.specs.Causes.{HasCause};
ghost use Rattle.line_image.specs.Trace.{LeavesNow};
ghost use Rattle.line_memory.specs.Attached.{Attaches, GivesBack};
ghost use Rattle.line_memory.specs.Memory.{Memory, shown, IsResident, IsAwaited, CanLeave, IsWritten, IsDurable, SameResident};
ghost use Rattle.line_memory.specs.Memory.{LeavesNoMore, SameReads, OneCall, SameImage, WroteLine, MadeFence, DidNothing};
ghost use Rattle.line_memory.specs.Moments.{Goes, KeepsShown};

use crate::attach::{AttachFault, read_lines};
use ap_base::Spot;
use line_image::{Image, ImageFailed};
use std::alloc::Global;
use std::marker::Model;

/// What a touch did: the line is resident, or room was made for it and the touch has to be made again.
#[derive(Clone, Copy, Debug, PartialEq, Eq)]
pub enum Touch {
    Ready,
    Again,
}

/// The lines of an image, kept in memory as a cache keeps them. Stores change what is shown here; a
/// write-back writes a line to the image, and a fence makes the written lines durable.
#[derive(Drop)]
pub struct LineMemory<I: Image> {
    image: I,
    lines: Vec<[u64; 8]>,
    calls: u64,
}

impl<I: Image> Model for LineMemory<I> {
    ghost use Rattle.std.specs.Prelude.{◌≡◌, ◌<◌, length};
    ghost use Rattle.line_memory.specs.Memory.{Memory};

    ghost Value = { Memory };

    ghost view = { λ m. record {
      lines = m.lines.items;
      size = (I.told m.image).size;
      calls = m.calls;
      faults = I.faults m.image;
      image = I.told m.image;
    } };

    ghost invariant = { λ m. length m.lines.items ≡ (I.told m.image).size };
}

/// The fewest lines of an image that can be attached.
pub const MIN_LINES: u64 = 32_768;

/// The most lines of an image that can be attached.
pub const MAX_LINES: u64 = 4_194_304;

#[tactic(auto, unfolding(crate::specs::Memory::IsResident, crate::specs::Memory::IsAwaited, crate::specs::Memory::line_shown))]
impl<I: Image> LineMemory<I> {
    /// Reads every line of an image. Gives the image back with the fault: `Size` exactly where it has fewer
    /// than 32,768 or more than 4,194,304 lines.
    pub fn attach(alloc: Global, mut image: I) -> Result<LineMemory<I>, (AttachFault, I)>
        ensures attached { IfOk result (Attaches (I.told image) (I.faults image)) }
        ensures given_back { IfErr result (λ e.
            GivesBack (I.told image) (I.faults image) e.0 (I.told e.1) (I.faults e.1)) }
    {
        let count = image.lines();
        if count < MIN_LINES || MAX_LINES < count {
            return Err((AttachFault::Size, image));
        }
        match read_lines(alloc, &mut image, count) {
            Ok(lines) => Ok(LineMemory {
                image,
                lines,
                calls: count,
            }),
            Err(fault) => Err((fault, image)),
        }
    }

    /// Gives the image back. What is shown and not written is lost.
    pub fn into_image(self) -> I
        ensures size { (I.told result).size ≡ self.size }
        ensures faults { I.faults result ≡ self.faults }
        ensures told { I.told result ≡ self.image }
    {
        self.image
    }

    /// Makes a line resident, with at most one image call. `Again` asks for the same touch once more, which
    /// then is `Ready`. The touch of a resident line changes nothing that is seen here.
    pub fn touch(&mut self, line: u32) -> Result<Touch, ImageFailed>
        requires { line < self.old.size }
        ensures ready { IfOk result (λ touch. touch ≡ Touch.Ready → IsResident self.new line) }
        ensures again { IfOk result (λ touch. touch ≡ Touch.Again
            → OneCall self.old self.new × ¬ IsResident self.new line × IsAwaited self.new line) }
        ensures not_twice { IsAwaited self.old line → IfOk result (λ touch. touch ≡ Touch.Ready) }
        ensures at_once { IsResident self.old line → result ≡ Ok Touch.Ready }
        ensures quiet { IsResident self.old line → SameImage self.old self.new }
        ensures resident { IsResident self.old line → SameResident self.old self.new }
        ensures failed { OnErr result (SameResident self.old self.new) }
        ensures made { ¬ IsResident self.old line → OneCall self.old self.new }

        ensures keeps { KeepsShown self.old self.new }
        ensures count { SameImage self.old self.new ⊎ OneCall self.old self.new }
        ensures cause { HasCause self.old.faults self.new.faults result }
    {
        Ok(Touch::Ready)
    }

    /// Whether a line is resident.
    pub fn resident(&self, line: u32) -> bool
        requires { line < self.now.size }
        ensures { IsTrue result ↔ IsResident self.now line }
    {
        true
    }

    /// What a word shows.
    pub fn load(&self, spot: Spot) -> u64
        requires { IsResident self.now spot.line }
        ensures { result ≡ shown self.now spot.line spot.word }
    {
        self.lines[spot.line as usize][spot.word as usize]
    }

    /// Changes what a word shows.
    pub fn store(&mut self, spot: Spot, word: u64)
        requires { IsResident self.old spot.line }
        ensures here { shown self.new spot.line spot.word ≡ word }
        ensures others { (l w : ℕ) → (l ≡ spot.line → w ≢ spot.word) → shown self.new l w ≡ shown self.old l w }
        ensures size { self.new.size ≡ self.old.size }
        ensures resident { SameResident self.old self.new }
        ensures same { SameImage self.old self.new }
        ensures leaves { (l w v : ℕ) → CanLeave self.new l w v
            → CanLeave self.old l w v ⊎ ((l ≡ spot.line) × (w ≡ spot.word) × (v ≡ word)) }
    {
        self.lines[spot.line as usize][spot.word as usize] = word;
    }

    /// Writes a line to the image as it is shown. A write that failed may count as made.
    pub fn write_back(&mut self, line: u32) -> Result<(), ImageFailed>
        requires in_range { line < self.old.size }
        requires resident { IsResident self.old line }
        ensures wrote { OnOk result (WroteLine line self.old self.new) }
        ensures failed { OnErr result (WroteLine line self.old self.new ⊎ DidNothing self.old self.new) }
        ensures written { OnOk result ((w : ℕ) → IsWritten self.new line w) }

        ensures resident { SameResident self.old self.new }
        ensures keeps { KeepsShown self.old self.new }
        ensures count { OneCall self.old self.new }
        ensures cause { HasCause self.old.faults self.new.faults result }
    {
        self.calls = self.calls.saturating_add(1);
        self.image
            .write_line(line as u64, &self.lines[line as usize])
    }

    /// Makes every earlier write of a line durable. A fence that failed counts as not made.
    pub fn fence(&mut self) -> Result<(), ImageFailed>
        ensures fenced { OnOk result (MadeFence self.old self.new) }
        ensures failed { OnErr result (DidNothing self.old self.new) }
        ensures durable { OnOk result ((l w : ℕ) → IsWritten self.old l w → IsDurable self.new l w) }
        ensures unwritten { LeavesNoMore self.old self.new }
        ensures same_reads { SameReads self.old self.new }
        ensures within { Goes self.old.image self.new.image (LeavesNow self.old.image.trace) }

        ensures resident { SameResident self.old self.new }
        ensures keeps { KeepsShown self.old self.new }
        ensures count { OneCall self.old self.new }
        ensures cause { HasCause self.old.faults self.new.faults result }
    {
        self.calls = self.calls.saturating_add(1);
        self.image.fence()
    }

    /// Writes a line back. The line stays resident.
    pub fn evict(&mut self, line: u32) -> Result<(), ImageFailed>
        requires in_range { line < self.old.size }
        requires resident { IsResident self.old line }
        ensures wrote { OnOk result (WroteLine line self.old self.new) }
        ensures failed { OnErr result (WroteLine line self.old self.new ⊎ DidNothing self.old self.new) }
        ensures written { OnOk result ((w : ℕ) → IsWritten self.new line w) }

        ensures resident { SameResident self.old self.new }
        ensures keeps { KeepsShown self.old self.new }
        ensures count { OneCall self.old self.new }
        ensures cause { HasCause self.old.faults self.new.faults result }
    {
        self.write_back(line)
    }

    /// How many lines the image has. Makes no image call.
    pub fn lines(&self) -> u64
        ensures { result ≡ self.now.size }
    {
        self.image.lines()
    }

    /// How many image calls were made, those of the attach among them. The count stays at 2^64 - 1.
    pub fn calls(&self) -> u64
        ensures { result ≡ self.now.calls }
    {
        self.calls
    }
}
