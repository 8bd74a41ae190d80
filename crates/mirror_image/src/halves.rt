// Two halves, and which of them are used.
ghost use Rattle.std.specs.Prelude.{◌≡◌, ◌<◌, ◌-◌, true, OnOk, OnErr};
ghost use Rattle.ap_base.specs.Causes.{HasCause};
ghost use Rattle.line_image.specs.Trace.{Reads};
ghost use Rattle.line_image.specs.declared.effect.Done.TheVariants.{Wrote, Fenced};
ghost use Rattle.mirror_image.specs.Calls.{Called, IsSame, Did, MayHave};
ghost use Rattle.mirror_image.specs.Sound.{IsSound};
ghost use Rattle.mirror_image.specs.Leaving.{UsedLeave};
ghost use Rattle.mirror_image.specs.Using.{UsesHalves, AsksFirst, CallsBoth};
ghost use Rattle.mirror_image.specs.Joint.{told_by};
ghost use Rattle.mirror_image.specs.Safe.{IsSafe};
ghost use Rattle.mirror_image.specs.Stops.{PairingShows};
ghost use Rattle.mirror_image.specs.declared.halves.Left.TheVariants.{Both as Two};

use crate::labels::mark;
use line_image::{Image, ImageFailed};

/// Which halves are used, or were when the last of them failed.
#[derive(Clone, Copy, Debug, PartialEq, Eq)]
pub(crate) enum Left {
    Both,
    First,
    Second,
}

/// Two halves as one image. `less` and `extra` lead from the count of the first half's calls to that of its own: `less` calls
/// marked the first half, and `extra` were made since it was last used.
#[derive(Drop)]
pub(crate) struct Halves<A: Image, B: Image> {
    pub(crate) a: A,
    pub(crate) b: B,
    pub(crate) left: Left,
    pub(crate) alive: bool,
    pub(crate) less: u64,
    pub(crate) extra: u64,
    pub(crate) faults: u64,
    // what the half that is left is marked with, when the other one fails
    pub(crate) generation: u64,
    ghost sound: { IsSound (A.told a) (B.told b) left alive less extra },
    ghost safe: { IsSafe ((A.told a).size - 1) generation left alive (A.told a).trace (B.told b).trace (told_by (A.told a) (B.told b) left less extra).trace },
}

impl<A: Image, B: Image> Halves<A, B> {
    /// What a stop between two calls leaves of a half that is used, it leaves of the mirror. Does nothing.
    pub(crate) fn law_of_stops(&self)
        ensures paired { PairingShows ((A.told self.now.a).size - 1) (A.told self.now.a).trace (B.told self.now.b).trace
            (told_by (A.told self.now.a) (B.told self.now.b) self.now.left self.now.less self.now.extra).trace }
        ensures used { UsedLeave (A.told self.now.a) (B.told self.now.b) self.now.left self.now.alive self.now.less self.now.extra }
    {}

    /// Gives the halves back.
    pub(crate) fn both(self) -> (A, B)
        ensures { result ≡ (self.a, self.b) }
    {
        (self.a, self.b)
    }

    /// How many lines are shown.
    pub(crate) fn lines(&self) -> u64
        ensures { result ≡ (A.told self.now.a).size - 1 }
    {
        self.a.lines() - 1
    }

    /// Reads a line of the first half, or of the one that is left.
    pub(crate) fn read_line(&mut self, line: u64, into: &mut [u64; 8]) -> Result<(), ImageFailed>
        requires { line < (A.told self.old.a).size - 1 }
        ensures call { Called IsSame (A.told self.old.a) (B.told self.old.b) self.old.left self.old.less self.old.extra
            (A.told self.new.a) (B.told self.new.b) self.new.left self.new.less self.new.extra }
        ensures words { OnOk result (Reads (told_by (A.told self.old.a) (B.told self.old.b) self.old.left self.old.less self.old.extra).trace line into.new) }
        ensures untouched { OnErr result (into.new ≡ into.old) }
        ensures cause { HasCause self.old.faults self.new.faults result }
        ensures uses { UsesHalves self.old.left self.new.left self.old.alive self.new.alive
            (A.told self.old.a) (B.told self.old.b) (A.told self.new.a) (B.told self.new.b)
            (A.faults self.old.a) (B.faults self.old.b) (A.faults self.new.a) (B.faults self.new.b) result }
        ensures asks { AsksFirst self.new.left self.new.alive (B.told self.old.b) (B.told self.new.b) (B.faults self.old.b) (B.faults self.new.b) }
    {
        if !self.alive {
            self.extra = self.extra.saturating_add(1);
            self.faults = self.faults.saturating_add(1);
            return Err(ImageFailed);
        }
        match self.left {
            Left::Both => self.read_both(line, into),
            Left::First => {
                if self.a.read_line(line, into).is_ok() {
                    return Ok(());
                }
                self.alive = false;
                self.faults = self.faults.saturating_add(1);
                Err(ImageFailed)
            }
            Left::Second => {
                self.extra = self.extra.saturating_add(1);
                if self.b.read_line(line, into).is_ok() {
                    return Ok(());
                }
                self.alive = false;
                self.faults = self.faults.saturating_add(1);
                Err(ImageFailed)
            }
        }
    }

    /// Writes a line of both halves, or of the one that is left.
    pub(crate) fn write_line(&mut self, line: u64, words: &[u64; 8]) -> Result<(), ImageFailed>
        requires { line < (A.told self.old.a).size - 1 }
        ensures wrote { OnOk result (Called (Did (Wrote line words.now)) (A.told self.old.a) (B.told self.old.b) self.old.left self.old.less self.old.extra
            (A.told self.new.a) (B.told self.new.b) self.new.left self.new.less self.new.extra) }
        ensures failed { OnErr result (Called (MayHave (Wrote line words.now)) (A.told self.old.a) (B.told self.old.b) self.old.left self.old.less self.old.extra
            (A.told self.new.a) (B.told self.new.b) self.new.left self.new.less self.new.extra) }
        ensures cause { HasCause self.old.faults self.new.faults result }
        ensures uses { UsesHalves self.old.left self.new.left self.old.alive self.new.alive
            (A.told self.old.a) (B.told self.old.b) (A.told self.new.a) (B.told self.new.b)
            (A.faults self.old.a) (B.faults self.old.b) (A.faults self.new.a) (B.faults self.new.b) result }
        ensures both { CallsBoth self.new.left self.new.alive (A.told self.old.a) (B.told self.old.b) (A.told self.new.a) (B.told self.new.b) }
    {
        if !self.alive {
            self.extra = self.extra.saturating_add(1);
            self.faults = self.faults.saturating_add(1);
            return Err(ImageFailed);
        }
        match self.left {
            Left::Both => self.write_both(line, words),
            Left::First => {
                if self.a.write_line(line, words).is_ok() {
                    return Ok(());
                }
                self.alive = false;
                self.faults = self.faults.saturating_add(1);
                Err(ImageFailed)
            }
            Left::Second => {
                self.extra = self.extra.saturating_add(1);
                if self.b.write_line(line, words).is_ok() {
                    return Ok(());
                }
                self.alive = false;
                self.faults = self.faults.saturating_add(1);
                Err(ImageFailed)
            }
        }
    }

    /// Fences both halves, or the one that is left.
    pub(crate) fn fence(&mut self) -> Result<(), ImageFailed>
        ensures fenced { OnOk result (Called (Did Fenced) (A.told self.old.a) (B.told self.old.b) self.old.left self.old.less self.old.extra
            (A.told self.new.a) (B.told self.new.b) self.new.left self.new.less self.new.extra) }
        ensures failed { OnErr result (Called IsSame (A.told self.old.a) (B.told self.old.b) self.old.left self.old.less self.old.extra
            (A.told self.new.a) (B.told self.new.b) self.new.left self.new.less self.new.extra) }
        ensures cause { HasCause self.old.faults self.new.faults result }
        ensures uses { UsesHalves self.old.left self.new.left self.old.alive self.new.alive
            (A.told self.old.a) (B.told self.old.b) (A.told self.new.a) (B.told self.new.b)
            (A.faults self.old.a) (B.faults self.old.b) (A.faults self.new.a) (B.faults self.new.b) result }
        ensures both { CallsBoth self.new.left self.new.alive (A.told self.old.a) (B.told self.old.b) (A.told self.new.a) (B.told self.new.b) }
    {
        if !self.alive {
            self.extra = self.extra.saturating_add(1);
            self.faults = self.faults.saturating_add(1);
            return Err(ImageFailed);
        }
        match self.left {
            Left::Both => self.fence_both(),
            Left::First => {
                // what the second half holds is ruled out by the first one's label
                if self.a.fence().is_ok() {
                    return Ok(());
                }
                self.alive = false;
                self.faults = self.faults.saturating_add(1);
                Err(ImageFailed)
            }
            Left::Second => {
                self.extra = self.extra.saturating_add(1);
                if self.b.fence().is_ok() {
                    return Ok(());
                }
                self.alive = false;
                self.faults = self.faults.saturating_add(1);
                Err(ImageFailed)
            }
        }
    }

    // Where the first half fails, the other is marked as left alone before it is asked.
    fn read_both(&mut self, line: u64, into: &mut [u64; 8]) -> Result<(), ImageFailed>
        requires line { line < (A.told self.old.a).size - 1 }
        requires both { self.old.left ≡ Two }
        requires alive { self.old.alive ≡ true }
        ensures call { Called IsSame (A.told self.old.a) (B.told self.old.b) self.old.left self.old.less self.old.extra
            (A.told self.new.a) (B.told self.new.b) self.new.left self.new.less self.new.extra }
        ensures words { OnOk result (Reads (told_by (A.told self.old.a) (B.told self.old.b) self.old.left self.old.less self.old.extra).trace line into.new) }
        ensures untouched { OnErr result (into.new ≡ into.old) }
        ensures cause { HasCause self.old.faults self.new.faults result }
        ensures uses { UsesHalves self.old.left self.new.left self.old.alive self.new.alive
            (A.told self.old.a) (B.told self.old.b) (A.told self.new.a) (B.told self.new.b)
            (A.faults self.old.a) (B.faults self.old.b) (A.faults self.new.a) (B.faults self.new.b) result }
        ensures asks { AsksFirst self.new.left self.new.alive (B.told self.old.b) (B.told self.new.b) (B.faults self.old.b) (B.faults self.new.b) }
    {
        if self.a.read_line(line, into).is_ok() {
            return Ok(());
        }
        if mark(&mut self.b, self.a.lines() - 1, self.generation).is_err() {
            self.alive = false;
            self.faults = self.faults.saturating_add(1);
            return Err(ImageFailed);
        }
        self.left = Left::Second; // for good
        if self.b.read_line(line, into).is_ok() {
            return Ok(());
        }
        self.alive = false;
        self.faults = self.faults.saturating_add(1);
        Err(ImageFailed)
    }

    // The first half goes first. Where it fails, the other is marked and makes the write again.
    fn write_both(&mut self, line: u64, words: &[u64; 8]) -> Result<(), ImageFailed>
        requires line { line < (A.told self.old.a).size - 1 }
        requires both { self.old.left ≡ Two }
        requires alive { self.old.alive ≡ true }
        ensures wrote { OnOk result (Called (Did (Wrote line words.now)) (A.told self.old.a) (B.told self.old.b) self.old.left self.old.less self.old.extra
            (A.told self.new.a) (B.told self.new.b) self.new.left self.new.less self.new.extra) }
        ensures failed { OnErr result (Called (MayHave (Wrote line words.now)) (A.told self.old.a) (B.told self.old.b) self.old.left self.old.less self.old.extra
            (A.told self.new.a) (B.told self.new.b) self.new.left self.new.less self.new.extra) }
        ensures cause { HasCause self.old.faults self.new.faults result }
        ensures uses { UsesHalves self.old.left self.new.left self.old.alive self.new.alive
            (A.told self.old.a) (B.told self.old.b) (A.told self.new.a) (B.told self.new.b)
            (A.faults self.old.a) (B.faults self.old.b) (A.faults self.new.a) (B.faults self.new.b) result }
        ensures both { CallsBoth self.new.left self.new.alive (A.told self.old.a) (B.told self.old.b) (A.told self.new.a) (B.told self.new.b) }
    {
        if self.a.write_line(line, words).is_err() {
            if mark(&mut self.b, self.a.lines() - 1, self.generation).is_err() {
                self.alive = false;
                self.faults = self.faults.saturating_add(1);
                return Err(ImageFailed);
            }
            self.left = Left::Second;
            if self.b.write_line(line, words).is_ok() {
                return Ok(());
            }
            self.alive = false;
            self.faults = self.faults.saturating_add(1);
            return Err(ImageFailed);
        }
        if self.b.write_line(line, words).is_ok() {
            return Ok(());
        }
        if let Err(made) = mark(&mut self.a, self.b.lines() - 1, self.generation) {
            self.less = made;
            self.alive = false;
            self.faults = self.faults.saturating_add(1);
            return Err(ImageFailed);
        }
        self.less = 2;
        self.left = Left::First;
        Ok(())
    }

    // The second half goes first: where the first then fails, nothing is told that a failed call made.
    fn fence_both(&mut self) -> Result<(), ImageFailed>
        requires both { self.old.left ≡ Two }
        requires alive { self.old.alive ≡ true }
        ensures fenced { OnOk result (Called (Did Fenced) (A.told self.old.a) (B.told self.old.b) self.old.left self.old.less self.old.extra
            (A.told self.new.a) (B.told self.new.b) self.new.left self.new.less self.new.extra) }
        ensures failed { OnErr result (Called IsSame (A.told self.old.a) (B.told self.old.b) self.old.left self.old.less self.old.extra
            (A.told self.new.a) (B.told self.new.b) self.new.left self.new.less self.new.extra) }
        ensures cause { HasCause self.old.faults self.new.faults result }
        ensures uses { UsesHalves self.old.left self.new.left self.old.alive self.new.alive
            (A.told self.old.a) (B.told self.old.b) (A.told self.new.a) (B.told self.new.b)
            (A.faults self.old.a) (B.faults self.old.b) (A.faults self.new.a) (B.faults self.new.b) result }
        ensures both { CallsBoth self.new.left self.new.alive (A.told self.old.a) (B.told self.old.b) (A.told self.new.a) (B.told self.new.b) }
    {
        if self.b.fence().is_err() {
            if let Err(made) = mark(&mut self.a, self.b.lines() - 1, self.generation) {
                self.less = made;
                self.extra = 1;
                self.alive = false;
                self.faults = self.faults.saturating_add(1);
                return Err(ImageFailed);
            }
            self.less = 2;
            self.left = Left::First;
            if self.a.fence().is_ok() {
                return Ok(());
            }
            self.alive = false;
            self.faults = self.faults.saturating_add(1);
            return Err(ImageFailed);
        }
        if self.a.fence().is_ok() {
            return Ok(());
        }
        if mark(&mut self.b, self.a.lines() - 1, self.generation).is_err() {
            self.alive = false;
            self.faults = self.faults.saturating_add(1);
            return Err(ImageFailed);
        }
        self.left = Left::Second;
        if self.b.fence().is_ok() {
            return Ok(());
        }
        self.alive = false;
        self.faults = self.faults.saturating_add(1);
        Err(ImageFailed)
    }
}
