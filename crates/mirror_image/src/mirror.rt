// One image over two halves.
ghost use Rattle.std.specs.Prelude.{◌≡◌, ◌≢◌, ◌<◌, ◌≤◌, ◌+◌, ◌-◌, ◌^◌, ◌↔◌, ℕ, IfOk, IfErr};
ghost use Rattle.line_image.specs.Trace.{Trace, Outcome, IsAllFenced};
ghost use Rattle.mirror_image.specs.Pairing.{OneHalfFailed, NoneFailed};
ghost use Rattle.mirror_image.specs.Paired.{LeaderFits, LeaderTooHigh, ShowsLeader};
ghost use Rattle.mirror_image.specs.Stops.{KeepsLeader, Holds, led};
ghost use Rattle.mirror_image.specs.Labels.{leader};
ghost use Rattle.mirror_image.specs.Mirror.{HalvesDiffer};
ghost use Rattle.mirror_image.specs.Seen.{mirror_halves, IsClosed, KeepsWhatLed, MirrorShows, UsedHalvesShow, UsesItsHalves};
ghost use Rattle.mirror_image.specs.declared.pairing.MirrorFault.TheVariants.{Size as Sizes, ImageFailed as Failed, Generation as TooHigh};

use crate::halves::{Halves, Left};
use crate::pairing::{MirrorFault, pair_halves};
use crate::state::{Mirror, State};
use line_image::{Image, ImageFailed};

impl<A: Image, B: Image> Mirror<A, B> {
    /// Makes two halves one image. The half of greater generation leads, the first at a tie: the other becomes what it is.
    ///
    /// A half that can't be read is replaced by an image of zeros first. Where it fails, the halves are given back, and can be
    /// paired again.
    pub fn pair(mut a: A, mut b: B) -> Result<Mirror<A, B>, (MirrorFault, A, B)>
        ensures size { IfOk result (λ m. (⟦<Mirror<A, B> as Image>⟧.told m).size + 1 ≡ (A.told a).size) }
        ensures shows { IfOk result (λ m. ShowsLeader ((A.told a).size - 1) (A.told a).trace (B.told b).trace
            (⟦<Mirror<A, B> as Image>⟧.told m).trace) }
        ensures fenced { IfOk result (λ m. IsAllFenced (⟦<Mirror<A, B> as Image>⟧.told m).trace) }
        ensures faultless { IfOk result (λ m. ⟦<Mirror<A, B> as Image>⟧.faults m ≡ 0) }
        ensures uses { IfOk result (λ m. UsesItsHalves m) }
        ensures fits { IfOk result (λ _. LeaderFits ((A.told a).size - 1) (A.told a).trace (B.told b).trace) }
        ensures alike { IfOk result (λ _. ((A.told a).size ≡ (B.told b).size) × (2 ≤ (A.told a).size)) }
        ensures differ { IfErr result (λ e. (e.0 ≡ Sizes) ↔ HalvesDiffer (A.told a).size (B.told b).size) }
        ensures too_high { IfErr result (λ e. e.0 ≡ TooHigh
            → LeaderTooHigh ((A.told a).size - 1) (A.told a).trace (B.told b).trace) }
        ensures spared { IfOk result (λ m. NoneFailed (A.faults a) (A.faults (mirror_halves m).0) (B.faults b) (B.faults (mirror_halves m).1)) }
        ensures cause { IfErr result (λ e. e.0 ≡ Failed → OneHalfFailed (A.faults a) (A.faults e.1) (B.faults b) (B.faults e.2)) }
        ensures refused { IfErr result (λ e. e.0 ≢ Failed → NoneFailed (A.faults a) (A.faults e.1) (B.faults b) (B.faults e.2)) }
        ensures same { IfErr result (λ e. e.0 ≢ Failed → ((A.told e.1).trace ≡ (A.told a).trace) × ((B.told e.2).trace ≡ (B.told b).trace)) }
        // A stop at any moment.
        ensures stops { IfOk result (λ m. KeepsWhatLed a b m) }
        ensures stops_failed { IfErr result (λ e. KeepsLeader ((A.told a).size - 1) (A.told a).trace (B.told b).trace
            (A.told e.1).trace (B.told e.2).trace) }
    {
        let lines = a.lines();
        if lines != b.lines() || lines < 2 {
            return Err((MirrorFault::Size, a, b));
        }
        match pair_halves(&mut a, &mut b, lines - 1) {
            Ok(generation) => Ok(Mirror {
                state: State::Paired(Halves {
                    a,
                    b,
                    left: Left::Both,
                    alive: true,
                    less: 0,
                    extra: 0,
                    faults: 0,
                    generation: generation + 1,
                }),
                failures: 0,
            }),
            Err(fault) => Err((fault, a, b)),
        }
    }

    /// A mirror over halves that can't be paired: it shows 32,768 lines, and each call fails.
    pub fn closed(a: A, b: B) -> Mirror<A, B>
        ensures size { (⟦<Mirror<A, B> as Image>⟧.told result).size ≡ 32768 }
        ensures faultless { ⟦<Mirror<A, B> as Image>⟧.faults result ≡ 0 }
        ensures halves { mirror_halves result ≡ (a, b) }
        ensures closed { IsClosed result }
    {
        Mirror {
            state: State::Closed((a, b)),
            failures: 0,
        }
    }

    /// What a stop between two calls leaves of the halves, paired again, shows what it leaves of the mirror. Does nothing: its
    /// contract says so.
    pub fn law_of_stops(&self)
        ensures paired { MirrorShows self.now }
        // Of a half that is used, nothing is left that isn't left of the mirror.
        ensures used { UsedHalvesShow self.now }
    {
        match &self.state {
            State::Paired(halves) => halves.law_of_stops(),
            State::Closed(_) => {}
        }
    }

    /// Gives the halves back.
    pub fn halves(self) -> (A, B)
        ensures { result ≡ mirror_halves self }
    {
        let state = self.state;
        match state {
            State::Paired(halves) => halves.both(),
            State::Closed(halves) => halves,
        }
    }
}

/// Of halves that are opened again with these words, the one that leads has the words that pairing shows. Does nothing: its
/// contract says so.
pub fn law_of_leading()
    ensures { (z : ℕ) (h k : Trace) (c d : Outcome) → Holds h c → Holds k d → Holds (leader z h k) (led z c d) }
{}

impl<A: Image, B: Image> Image for Mirror<A, B> {
    ghost use Rattle.std.specs.Prelude.{◌⊎◌, OnOk, OnErr, IsErr};
    ghost use Rattle.ap_base.specs.Causes.{HasCause, next_count};
    ghost use Rattle.line_image.specs.Trace.{Reads, did};
    ghost use Rattle.line_image.specs.declared.effect.Done.TheVariants.{Wrote, Fenced};
    ghost use Rattle.mirror_image.specs.Joint.{told_by};
    ghost use Rattle.mirror_image.specs.Mirror.{in_order_of};
    ghost use Rattle.mirror_image.specs.Seen.{mirror_told, mirror_faults, AsksFirstAlone, CallsUsed, IsClosed, MirrorStops, MirrorUses};
    ghost use Rattle.mirror_image.specs.Order.{in_order_by};

    ghost told = { λ m. mirror_told m };

    ghost faults = { λ m. mirror_faults m };

    fn lines(&self) -> u64 {
        match &self.state {
            State::Paired(halves) => halves.lines(),
            State::Closed(_) => 32_768,
        }
    }

    fn read_line(&mut self, line: u64, into: &mut [u64; 8]) -> Result<(), ImageFailed>
        requires { line < (mirror_told self.old).size }
        ensures size { (mirror_told self.new).size ≡ (mirror_told self.old).size }
        ensures counted { (mirror_told self.new).calls ≡ next_count (mirror_told self.old).calls }
        ensures same { (mirror_told self.new).trace ≡ (mirror_told self.old).trace }
        ensures words { OnOk result (Reads (mirror_told self.old).trace line into.new) }
        ensures untouched { OnErr result (into.new ≡ into.old) }
        ensures cause { HasCause (mirror_faults self.old) (mirror_faults self.new) result }
        ensures closed { IsClosed self.old → IsErr result }
        ensures uses { MirrorUses result self.old self.new }
        ensures asks { AsksFirstAlone self.old self.new }
        ensures stops { MirrorStops self.old self.new }
    {
        match &mut self.state {
            State::Paired(halves) => halves.read_line(line, into),
            State::Closed(_) => {
                self.failures = self.failures.saturating_add(1);
                Err(ImageFailed)
            }
        }
    }

    fn write_line(&mut self, line: u64, words: &[u64; 8]) -> Result<(), ImageFailed>
        requires { line < (mirror_told self.old).size }
        ensures size { (mirror_told self.new).size ≡ (mirror_told self.old).size }
        ensures counted { (mirror_told self.new).calls ≡ next_count (mirror_told self.old).calls }
        ensures written { OnOk result ((mirror_told self.new).trace
            ≡ did (Wrote line words.now) (mirror_told self.new).calls (mirror_told self.old).trace) }
        ensures failed { OnErr result (((mirror_told self.new).trace
            ≡ did (Wrote line words.now) (mirror_told self.new).calls (mirror_told self.old).trace)
            ⊎ ((mirror_told self.new).trace ≡ (mirror_told self.old).trace)) }
        ensures cause { HasCause (mirror_faults self.old) (mirror_faults self.new) result }
        ensures closed { IsClosed self.old → IsErr result }
        ensures uses { MirrorUses result self.old self.new }
        ensures both { CallsUsed self.old self.new }
        ensures stops { MirrorStops self.old self.new }
    {
        match &mut self.state {
            State::Paired(halves) => halves.write_line(line, words),
            State::Closed(_) => {
                self.failures = self.failures.saturating_add(1);
                Err(ImageFailed)
            }
        }
    }

    fn fence(&mut self) -> Result<(), ImageFailed>
        ensures size { (mirror_told self.new).size ≡ (mirror_told self.old).size }
        ensures counted { (mirror_told self.new).calls ≡ next_count (mirror_told self.old).calls }
        ensures fenced { OnOk result ((mirror_told self.new).trace
            ≡ did Fenced (mirror_told self.new).calls (mirror_told self.old).trace) }
        ensures failed { OnErr result ((mirror_told self.new).trace ≡ (mirror_told self.old).trace) }
        ensures cause { HasCause (mirror_faults self.old) (mirror_faults self.new) result }
        ensures closed { IsClosed self.old → IsErr result }
        ensures uses { MirrorUses result self.old self.new }
        ensures both { CallsUsed self.old self.new }
        ensures stops { MirrorStops self.old self.new }
    {
        match &mut self.state {
            State::Paired(halves) => halves.fence(),
            State::Closed(_) => {
                self.failures = self.failures.saturating_add(1);
                Err(ImageFailed)
            }
        }
    }

    ghost in_order = { λ m. in_order_of (λ h. told_by (A.told h.a) (B.told h.b) h.left h.less h.extra)
        (λ h. in_order_by (A.told h.a) (B.told h.b) h.left h.less h.extra (A.in_order h.a) h.sound.so_far) m.failures m.fits m.state };
}
