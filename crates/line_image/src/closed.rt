// An image that couldn't be opened.
ghost use Rattle.std.specs.Prelude.{◌≡◌, ◌<◌, ◌^◌, ◌⊎◌, OnOk, OnErr, IsErr};

use crate::{Image, ImageFailed};

/// An image that couldn't be opened: it shows 32,768 lines, and each call fails. It tells nothing.
#[derive(Drop)]
pub struct ClosedImage {
    failures: u64,
    ghost fits: { failures < 2 ^ 64 },
}

impl ClosedImage {
    ghost use Rattle.ap_base.specs.Causes.{next_count};
    ghost use Rattle.line_image.specs.Closed.{failures_of};

    /// A closed image that had no call yet.
    pub fn new() -> ClosedImage
        ensures fresh { failures_of result ≡ 0 }
    {
        ClosedImage { failures: 0 }
    }

    fn fail(&mut self) -> Result<(), ImageFailed>
        ensures fails { IsErr result }
        ensures counted { failures_of self.new ≡ next_count (failures_of self.old) }
    {
        self.failures = self.failures.saturating_add(1);
        Err(ImageFailed)
    }
}

impl Image for ClosedImage {
    ghost use Rattle.ap_base.specs.Causes.{HasCause, next_count};
    ghost use Rattle.line_image.specs.Trace.{Reads, did};
    ghost use Rattle.line_image.specs.Closed.{failures_of, closed_told, closed_in_order};
    ghost use Rattle.line_image.specs.declared.effect.Done.TheVariants.{Wrote, Fenced};

    ghost told = { closed_told };

    ghost faults = { failures_of };

    fn lines(&self) -> u64 {
        32_768
    }

    fn read_line(&mut self, _line: u64, _into: &mut [u64; 8]) -> Result<(), ImageFailed>
        requires { _line < (closed_told self.old).size }
        ensures size { (closed_told self.new).size ≡ (closed_told self.old).size }
        ensures counted { (closed_told self.new).calls ≡ next_count (closed_told self.old).calls }
        ensures same { (closed_told self.new).trace ≡ (closed_told self.old).trace }
        ensures words { OnOk result (Reads (closed_told self.old).trace _line _into.new) }
        ensures untouched { OnErr result (_into.new ≡ _into.old) }
        ensures cause { HasCause (failures_of self.old) (failures_of self.new) result }
        ensures fails { IsErr result }
    {
        self.fail()
    }

    fn write_line(&mut self, _line: u64, _words: &[u64; 8]) -> Result<(), ImageFailed>
        requires { _line < (closed_told self.old).size }
        ensures size { (closed_told self.new).size ≡ (closed_told self.old).size }
        ensures counted { (closed_told self.new).calls ≡ next_count (closed_told self.old).calls }
        ensures written { OnOk result ((closed_told self.new).trace
            ≡ did (Wrote _line _words.now)
            (closed_told self.new).calls (closed_told self.old).trace) }
        ensures failed { OnErr result (((closed_told self.new).trace
            ≡ did (Wrote _line _words.now)
            (closed_told self.new).calls (closed_told self.old).trace)
            ⊎ ((closed_told self.new).trace ≡ (closed_told self.old).trace)) }
        ensures cause { HasCause (failures_of self.old) (failures_of self.new) result }
        ensures fails { IsErr result }
    {
        self.fail()
    }

    fn fence(&mut self) -> Result<(), ImageFailed>
        ensures size { (closed_told self.new).size ≡ (closed_told self.old).size }
        ensures counted { (closed_told self.new).calls ≡ next_count (closed_told self.old).calls }
        ensures fenced { OnOk result ((closed_told self.new).trace
            ≡ did Fenced (closed_told self.new).calls (closed_told self.old).trace) }
        ensures failed { OnErr result ((closed_told self.new).trace
            ≡ (closed_told self.old).trace) }
        ensures cause { HasCause (failures_of self.old) (failures_of self.new) result }
        ensures fails { IsErr result }
    {
        self.fail()
    }

    ghost in_order = { closed_in_order };
}
