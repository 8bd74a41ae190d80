// Readers.
ghost use Rattle.std.specs.Prelude.{◌≡◌, ◌≤◌, ◌⊎◌, IfOk, length};
ghost use mathlib.Core.List.{IsPrefix};
ghost use Rattle.left_right.specs.Sides.{view as knows};
ghost use Rattle.live_heap.specs.Seen.{seen_from};
ghost use Rattle.live_heap.specs.Views.{followed, view_of};
ghost use Rattle.live_view.specs.Holding.{HoldsAfter};
ghost use Rattle.live_view.specs.Ties.{StandsBy};
ghost use Rattle.live_view.specs.Watching.{IsBegun, first_in};

use crate::shown::Shown;
use crate::tie::{Sees, Tie};
use act_book::Front;
use core::mem::replace_with;
use left_right::reader::{Reader, Reading};
use live_heap::{Followed, Look};
use std::alloc::{AllocError, Global};
use std::marker::Model;
use std::sync::Wait;

pub(crate) type Inside = Reader<Shown, Option<Shown>, Tie>;

/// What a writer tells readers: how many acts are published. Contracts see which, and of which history.
#[derive(Drop)]
pub struct Told {
    acts: u64,
    front: Front,
}

impl Model for Told {
    ghost use Rattle.std.specs.Prelude.{◌≡◌, length};
    ghost use Rattle.act_book.specs.Known.{Known};

    ghost Value = { Known };

    ghost view = { λ t. t.front };

    ghost invariant = { λ t. t.acts ≡ length t.front.acts };
}

/// A reader of what is published. It takes no lock and waits for nobody.
#[derive(Drop)]
pub struct LiveReader {
    reader: Inside,
    front: Front,
}

impl Model for LiveReader {
    ghost use Rattle.left_right.specs.Sides.{view as knows};
    ghost use Rattle.live_view.specs.Watching.{Learned, IsBegun, first_in};

    ghost Value = { Learned };

    ghost view = { λ r. record { first = first_in (knows r.reader.place); of = r.front.of; acts = r.front.acts } };

    ghost invariant = { λ r. IsBegun (knows r.reader.place) r.front.of };
}

impl Told {
    /// That these acts of a history are published.
    pub(crate) fn new(front: Front) -> Told
        ensures { result ≡ front }
    {
        Told {
            acts: front.acts(),
            front,
        }
    }

    /// How many acts are published.
    pub fn acts(&self) -> u64
        ensures { result ≡ length self.now.acts }
    {
        self.acts
    }
}

/// Takes what is published, once it has so many acts.
fn enter<R: Wait>(rt: &R, reader: Inside, acts: u64) -> Reading<Shown, Option<Shown>, Tie>
    ensures view { knows result.place ≡ knows reader.place }
    ensures stands { StandsBy (knows reader.place) result.part.value }
    ensures long { acts ≤ length result.part.value.front.acts }
{
    let mut reader = reader;
    for _ in rt.forever() {
        match reader.enter_as::<Sees>() {
            Ok(reading) => {
                if reading.get().front.acts() >= acts {
                    return reading;
                }
                reader = reading.leave();
            }
            Err(back) => reader = back,
        }
    }
    unreachable!()
}

/// A look once there are so many acts, and the acts after which it is.
#[tactic(auto, using(crate::proofs::Known::holds_after))]
fn look_at<R: Wait>(
    rt: &R,
    reader: Inside,
    acts: u64,
    alloc: Global,
) -> (Inside, (Front, Result<Look, AllocError>))
    ensures view { knows result.0.place ≡ knows reader.place }
    ensures look { HoldsAfter (knows reader.place) result.1.0
        (λ seen. IfOk result.1.1 (λ look. look ≡ view_of seen)) }
    ensures long { acts ≤ length result.1.0.acts }
{
    let reading = enter(rt, reader, acts);
    let front = reading.get().front.again();
    let look = reading.get().live.look(alloc);
    (reading.leave(), (front, look))
}

/// A path once there are so many acts, and the acts after which it is.
#[tactic(auto, using(crate::proofs::Known::holds_after))]
fn path_at<R: Wait>(
    rt: &R,
    reader: Inside,
    acts: u64,
    root: u32,
    slots: &[u32],
) -> (Inside, (Front, Followed))
    ensures view { knows result.0.place ≡ knows reader.place }
    ensures path { HoldsAfter (knows reader.place) result.1.0
        (λ seen. result.1.1 ≡ followed seen.heap root slots.now) }
    ensures long { acts ≤ length result.1.0.acts }
{
    let reading = enter(rt, reader, acts);
    let front = reading.get().front.again();
    let followed = reading.get().live.path(root, slots);
    (reading.leave(), (front, followed))
}

/// The acts that are published, once there are so many.
#[tactic(auto, using(crate::proofs::Known::holds_after))]
fn front_at<R: Wait>(rt: &R, reader: Inside, acts: u64) -> (Inside, Front)
    ensures view { knows result.0.place ≡ knows reader.place }
    ensures front { HoldsAfter (knows reader.place) result.1 (λ seen. Unit {0}) }
    ensures long { acts ≤ length result.1.acts }
{
    let reading = enter(rt, reader, acts);
    let front = reading.get().front.again();
    (reading.leave(), front)
}

impl LiveReader {
    /// A reader that knows the beginning of this history.
    pub(crate) fn new(reader: Inside, front: Front) -> LiveReader
        requires { IsBegun (knows reader.place) front.of }
        ensures { result ≡ record { first = first_in (knows reader.place); of = front.of; acts = front.acts } }
    {
        LiveReader { reader, front }
    }

    /// Learns what a writer told. Each later answer is that of a list which begins with these acts. Takes no memory.
    pub fn learn(&mut self, told: &Told)
        requires of { told.now.of ≡ self.old.of }
        ensures first { (self.new.first ≡ self.old.first) × (self.new.of ≡ self.old.of) }
        ensures before { IsPrefix self.old.acts self.new.acts }
        ensures told { IsPrefix told.now.acts self.new.acts }
        ensures either { (self.new.acts ≡ self.old.acts) ⊎ (self.new.acts ≡ told.now.acts) }
    {
        self.front = self.front.longer(&told.front);
    }

    /// How many acts are seen now. Takes no memory.
    #[tactic(auto, using(crate::proofs::Known::begun_after))]
    pub fn count<R: Wait>(&mut self, rt: &R) -> u64
        ensures count { result ≡ length self.new.acts }
        ensures first { (self.new.first ≡ self.old.first) × (self.new.of ≡ self.old.of) }
        ensures before { IsPrefix self.old.acts self.new.acts }
    {
        let acts = self.front.acts();
        let front = replace_with(&mut self.reader, rt, |reader, rt| {
            front_at(rt, reader, acts)
        });
        self.front.begins(&front);
        self.front = front;
        self.front.acts()
    }

    /// What is seen at a glance. It walks over all that the roots reach, and takes memory for a mark of each object.
    #[tactic(auto, using(crate::proofs::Known::begun_after))]
    pub fn look<R: Wait>(&mut self, rt: &R, alloc: Global) -> Result<Look, AllocError>
        ensures look { IfOk result (λ look. look ≡ view_of (seen_from self.new.first self.new.acts)) }
        ensures first { (self.new.first ≡ self.old.first) × (self.new.of ≡ self.old.of) }
        ensures before { IsPrefix self.old.acts self.new.acts }
    {
        let acts = self.front.acts();
        let (front, look) = replace_with(&mut self.reader, rt, |reader, rt| {
            look_at(rt, reader, acts, alloc)
        });
        self.front.begins(&front);
        self.front = front;
        look
    }

    /// Where a path of slots leads from a root. Takes no memory.
    #[tactic(auto, using(crate::proofs::Known::begun_after))]
    pub fn path<R: Wait>(&mut self, rt: &R, root: u32, slots: &[u32]) -> Followed
        ensures path { result ≡ followed (seen_from self.new.first self.new.acts).heap root slots.now }
        ensures first { (self.new.first ≡ self.old.first) × (self.new.of ≡ self.old.of) }
        ensures before { IsPrefix self.old.acts self.new.acts }
    {
        let acts = self.front.acts();
        let (front, followed) = replace_with(&mut self.reader, rt, |reader, rt| {
            path_at(rt, reader, acts, root, slots)
        });
        self.front.begins(&front);
        self.front = front;
        followed
    }
}
