// A device of lines of eight words.
ghost use Rattle.std.specs.Prelude.{◌≡◌, ◌<◌, ◌⊎◌, ℕ, OnOk, OnErr};
ghost use Rattle.ap_base.specs.Causes.{HasCause, next_count};
ghost use Rattle.line_image.specs.Trace.{Reads, did};
ghost use Rattle.line_image.specs.Told.{Told, IsCounted};
ghost use Rattle.line_image.specs.declared.effect.Done.TheVariants.{Wrote, Fenced};

use thiserror::Error;

/// The image failed.
#[derive(Clone, Copy, Debug, PartialEq, Eq, Error)]
#[error("the image failed")]
pub struct ImageFailed;

/// A device that keeps lines of eight words. A line write may still be lost at a stop until a fence has
/// followed it; what a stop leaves is read from the trace.
pub trait Image: Drop {
    /// What it tells of itself: how many lines it has, how many calls were made, and its writes and fences,
    /// where it tells them.
    ghost told: { Self → Told };

    /// How often it has failed.
    ghost faults: { Self → ℕ };

    /// How many lines it has, which never changes. Is no call that counts.
    fn lines(&self) -> u64
        ensures size { result ≡ (told self.now).size };

    /// Reads a line. A read that failed changes nothing but the counts.
    fn read_line(&mut self, line: u64, into: &mut [u64; 8]) -> Result<(), ImageFailed>
        requires { line < (told self.old).size }
        ensures size { (told self.new).size ≡ (told self.old).size }
        ensures counted { (told self.new).calls ≡ next_count (told self.old).calls }
        ensures same { (told self.new).trace ≡ (told self.old).trace }
        ensures words { OnOk result (Reads (told self.old).trace line into.new) }
        ensures untouched { OnErr result (into.new ≡ into.old) }
        ensures cause { HasCause (faults self.old) (faults self.new) result };

    /// Writes a line. A write that failed may count as made.
    fn write_line(&mut self, line: u64, words: &[u64; 8]) -> Result<(), ImageFailed>
        requires { line < (told self.old).size }
        ensures size { (told self.new).size ≡ (told self.old).size }
        ensures counted { (told self.new).calls ≡ next_count (told self.old).calls }
        ensures written { OnOk result ((told self.new).trace
            ≡ did (Wrote line words.now) (told self.new).calls (told self.old).trace) }
        ensures failed { OnErr result (((told self.new).trace
            ≡ did (Wrote line words.now) (told self.new).calls (told self.old).trace)
            ⊎ ((told self.new).trace ≡ (told self.old).trace)) }
        ensures cause { HasCause (faults self.old) (faults self.new) result };

    /// Makes every earlier line write durable. A fence that failed counts as not made.
    fn fence(&mut self) -> Result<(), ImageFailed>
        ensures size { (told self.new).size ≡ (told self.old).size }
        ensures counted { (told self.new).calls ≡ next_count (told self.old).calls }
        ensures fenced { OnOk result ((told self.new).trace
            ≡ did Fenced (told self.new).calls (told self.old).trace) }
        ensures failed { OnErr result ((told self.new).trace ≡ (told self.old).trace) }
        ensures cause { HasCause (faults self.old) (faults self.new) result };

    /// What is told was done in its calls so far, and began as so many lines of eight words.
    ghost in_order: { (image : Self) → IsCounted (told image) };
}
