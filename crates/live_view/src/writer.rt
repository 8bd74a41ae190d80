// The writer.
ghost use Rattle.std.specs.Prelude.{◌≡◌, ◌<◌, ◌∷◌, ◌++◌, [], All, None, Some, true, false, drop, fold, length, IfOk, IfSome, MatchBool};
ghost use Rattle.std.specs.Prelude.{MatchResult};
ghost use mathlib.Core.List.{IsPrefix};
ghost use Rattle.left_right.specs.Sides.{view as knows};
ghost use Rattle.run_history.specs.Recorded.{with_seen};
ghost use Rattle.live_view.specs.Entries.{AreBehind, with_entry};
ghost use Rattle.live_view.specs.Publishing.{is_published};
ghost use Rattle.live_view.specs.Watching.{IsAppendedOrNot, IsRefused, started, with_act};

use crate::reader::{LiveReader, Told};
use crate::shown::{Entry, Shown};
use crate::tie::{Begins, Sees, Tells, Tie};
use act_book::{Front, Head, open};
use core::mem::replace_with;
use left_right::writer::Writer;
use live_heap::{Heard, Live};
use run_history::{Act, Op, Watcher};
use std::alloc::{AllocError, Global};
use std::marker::Model;
use std::sync::Wait;

pub(crate) type Outside = Writer<Shown, Entry, Option<Shown>, Tie>;

/// Is told the acts of a run, and publishes what was seen. Contracts see what was seen first, the acts that are published,
/// and all that were appended.
pub struct LiveWriter<R: Wait + Drop> {
    writer: Outside,
    head: Head,
    front: Front,
    rt: R,
    alloc: Global,
    frozen: bool,
}

impl<R: Wait + Drop> Model for LiveWriter<R> {
    ghost use Rattle.std.specs.Prelude.{◌≡◌, drop};
    ghost use Rattle.left_right.specs.Sides.{view as knows};
    ghost use Rattle.live_view.specs.Watching.{Watching, IsWatched, first_in};

    ghost Value = { Watching };

    ghost view = { λ w. record {
      first = first_in (knows w.writer.desk.place);
      of = w.front.of;
      published = w.writer.desk.shown.value.front.acts;
      appended = w.front.acts;
      frozen = w.frozen;
    } };

    ghost invariant = { λ w. (w.head ≡ w.front.of)
        × IsWatched (knows w.writer.desk.place) w.writer.desk.shown.value (drop w.writer.behind w.writer.log.items) w.front };
}

/// Whether what was seen is published after this.
fn is_published(op: &Op) -> bool
    ensures { result ≡ is_published op.now }
{
    matches!(*op, Op::Joined | Op::Fenced | Op::End | Op::Ended { .. })
}

/// An act behind those of a history. `None` for want of memory or numbers.
fn entry_behind(
    alloc: Global,
    head: &Head,
    front: &Front,
    act: &Act,
    objects: &[u32],
) -> Option<Entry>
    requires of { head.now ≡ front.now.of }
    ensures heard { IfSome result (λ e. e.heard ≡ record { act = act.now; named = objects.now }) }
    ensures front { IfSome result (λ e. e.front
        ≡ record front.now { acts = front.now.acts ++ record { act = act.now; named = objects.now } ∷ [] }) }
{
    if front.acts() == u64::MAX {
        return None;
    }
    let heard = Heard::new(alloc, act, objects).ok()?;
    let front = front.with(head, &heard)?;
    Some(Entry { heard, front })
}

/// Publishes all that was appended.
fn publish<R: Wait>(rt: &R, writer: Outside) -> (Outside, Result<(), AllocError>)
    requires { AreBehind writer.desk.shown.value.front (drop writer.behind writer.log.items) }
    ensures view { knows result.0.desk.place ≡ knows writer.desk.place }
    ensures values { MatchResult result.1
        (λ _. (result.0.desk.shown.value
        ≡ fold with_entry writer.desk.shown.value (drop writer.behind writer.log.items))
        × (drop result.0.behind result.0.log.items ≡ []))
        (λ _. (result.0.desk.shown.value ≡ writer.desk.shown.value)
        × (drop result.0.behind result.0.log.items ≡ drop writer.behind writer.log.items)) }
{
    writer.publish_as::<Sees, R>(rt)
}

/// Publishes all that was appended, in place.
fn publish_in<R: Wait>(rt: &R, writer: &mut Outside) -> Result<(), AllocError>
    requires { AreBehind writer.old.desk.shown.value.front (drop writer.old.behind writer.old.log.items) }
    ensures view { knows writer.new.desk.place ≡ knows writer.old.desk.place }
    ensures values { MatchResult result
        (λ _. (writer.new.desk.shown.value
        ≡ fold with_entry writer.old.desk.shown.value (drop writer.old.behind writer.old.log.items))
        × (drop writer.new.behind writer.new.log.items ≡ []))
        (λ _. (writer.new.desk.shown.value ≡ writer.old.desk.shown.value)
        × (drop writer.new.behind writer.new.log.items ≡ drop writer.old.behind writer.old.log.items)) }
{
    replace_with(
        writer,
        rt,
        |writer, rt| -> (Outside, Result<(), AllocError>)
            requires { AreBehind writer.desk.shown.value.front (drop writer.behind writer.log.items) }
            ensures view { knows result.0.desk.place ≡ knows writer.desk.place }
            ensures values { MatchResult result.1
                (λ _. (result.0.desk.shown.value
                ≡ fold with_entry writer.desk.shown.value (drop writer.behind writer.log.items))
                × (drop result.0.behind result.0.log.items ≡ []))
                (λ _. (result.0.desk.shown.value ≡ writer.desk.shown.value)
                × (drop result.0.behind result.0.log.items ≡ drop writer.behind writer.log.items)) }
        { publish(rt, writer) },
    )
}

/// Makes what is shown the beginning, before the first act.
fn begin<R: Wait>(rt: &R, writer: Outside) -> Result<Outside, AllocError>
    requires empty { writer.desk.shown.value.front.acts ≡ [] }
    requires pending { drop writer.behind writer.log.items ≡ [] }
    ensures view { IfOk result (λ w. knows w.desk.place ≡ Some writer.desk.shown.value) }
    ensures shown { IfOk result (λ w. w.desk.shown.value ≡ writer.desk.shown.value) }
    ensures pending { IfOk result (λ w. drop w.behind w.log.items ≡ []) }
{
    let (writer, begun) = writer.publish_as::<Begins, R>(rt);
    match begun {
        Ok(()) => Ok(writer),
        Err(_) => {
            drop(writer.take(rt));
            Err(AllocError)
        }
    }
}

impl<R: Wait + Drop> LiveWriter<R> {
    /// Whether an append or a publish was refused, which is for want of memory. From then on nothing is appended.
    pub fn frozen(&self) -> bool
        ensures { result ≡ self.now.frozen }
    {
        self.frozen
    }

    /// Appends an act, and tells whether it did.
    fn append(&mut self, act: &Act, objects: &[u32]) -> bool
        ensures { MatchBool result
            (self.new ≡ record self.old {
              appended = self.old.appended ++ record { act = act.now; named = objects.now } ∷ [];
            })
            (self.new ≡ self.old) }
    {
        let entry = entry_behind(self.alloc, &self.head, &self.front, act, objects);
        let Some(entry) = entry else {
            return false;
        };
        let front = entry.front.again();
        match self.writer.append(entry) {
            Ok(()) => {
                self.front = front;
                true
            }
            Err(_) => false,
        }
    }

    /// Publishes all that was appended, and tells whether it did.
    fn publish(&mut self) -> bool
        ensures { MatchBool result
            (self.new ≡ record self.old { published = self.old.appended })
            (self.new ≡ self.old) }
    {
        publish_in(&self.rt, &mut self.writer).is_ok()
    }

    /// Appends an act, and publishes after acts that change what a stop may leave. It tells whether it did.
    fn take_in(&mut self, act: &Act, objects: &[u32]) -> bool
        ensures { MatchBool result
            (self.new ≡ with_act self.old (record { act = act.now; named = objects.now }))
            (IsAppendedOrNot self.old (record { act = act.now; named = objects.now }) self.new) }
    {
        if !self.append(act, objects) {
            return false;
        }
        if is_published(&act.op) {
            return self.publish();
        }
        true
    }

    /// Publishes the rest, unless something was refused.
    fn publish_rest(&mut self)
        ensures frozen { self.old.frozen ≡ true → self.new ≡ self.old }
        ensures published { self.new.frozen ≡ false → self.new ≡ record self.old { published = self.old.appended } }
        ensures refused { self.new.frozen ≡ true → self.new ≡ record self.old { frozen = true } }
    {
        if self.frozen {
            return;
        }
        if !self.publish() {
            self.frozen = true;
        }
    }

    /// Tells how many acts are published, of those that were appended the first.
    #[tactic(auto, using(crate::proofs::Watched::watched_prefix))]
    fn published(&self) -> Told
        ensures told { result ≡ record { acts = self.now.published; of = self.now.of } }
        ensures prefix { IsPrefix self.now.published self.now.appended }
    {
        Told::new(self.writer.published().front.again())
    }

    /// Publishes the rest, and tells how many acts are published: all that were seen, unless something was refused.
    pub fn tell(&mut self) -> Told
        ensures told { result ≡ record { acts = self.new.published; of = self.new.of } }
        ensures prefix { IsPrefix self.new.published self.new.appended }
        ensures frozen { self.old.frozen ≡ true → self.new ≡ self.old }
        ensures published { self.new.frozen ≡ false → self.new ≡ record self.old { published = self.old.appended } }
        ensures refused { self.new.frozen ≡ true → self.new ≡ record self.old { frozen = true } }
    {
        self.publish_rest();
        self.published()
    }

    /// A reader that knows the beginning. `Err` where there are as many readers as there may be, or for want of memory.
    fn reader(&mut self) -> Result<LiveReader, AllocError>
        ensures reader { IfOk result (λ r.
            r ≡ record { first = self.new.first; of = self.new.of; acts = self.new.published }) }
        ensures same { self.new ≡ self.old }
    {
        let mut reader = self.writer.factory().reader()?;
        reader.learn::<Tells>(self.writer.tell::<Tells>());
        Ok(LiveReader::new(reader, self.writer.published().front.again()))
    }

    /// So many readers.
    fn readers(&mut self, count: u32) -> Result<Vec<LiveReader>, AllocError>
        ensures count { IfOk result (λ readers. length readers.items ≡ count) }
        ensures readers { IfOk result (λ readers.
            All (λ r. r ≡ record { first = self.new.first; of = self.new.of; acts = self.new.published }) readers.items) }
        ensures same { self.new ≡ self.old }
    {
        let mut readers = Vec::new(self.alloc);
        for _number in 0..count {
            readers.push(self.reader()?)?;
        }
        Ok(readers)
    }

    /// A writer and so many readers of what is seen from this beginning, of which each copy takes one.
    #[tactic(auto, using(crate::proofs::Watched::watched_first))]
    pub fn over(
        rt: R,
        alloc: Global,
        first: Live,
        second: Live,
        readers: u32,
    ) -> Result<(LiveWriter<R>, Vec<LiveReader>), AllocError>
        requires none { first.acts ≡ 0 }
        requires alike { second ≡ first }
        requires readers { 0 < readers }
        ensures writer { IfOk result (λ r. r.0 ≡ started first r.0.of) }
        ensures count { IfOk result (λ r. length r.1.items ≡ readers) }
        ensures readers { IfOk result (λ r.
            All (λ x. x ≡ record { first = first; of = r.0.of; acts = [] }) r.1.items) }
    {
        let (head, front) = open();
        let spare = Shown {
            live: second,
            front: front.again(),
        };
        let shown = Shown {
            live: first,
            front: front.again(),
        };
        let writer = begin(&rt, Writer::new(alloc, shown, spare, readers as usize)?)?;
        let mut writer = LiveWriter {
            writer,
            head,
            front,
            rt,
            alloc,
            frozen: false,
        };
        let readers = writer.readers(readers)?;
        Ok((writer, readers))
    }
}

impl<R: Wait + Drop> Watcher for LiveWriter<R> {
    ghost use Rattle.std.specs.Prelude.{None};

    ghost seen = { λ _. None };

    /// Appends the act, and publishes after acts that change what a stop may leave, unless something was refused.
    fn saw(&mut self, act: &Act, objects: &[u32])
        ensures seen { None ≡ with_seen None (record { act = act.now; named = objects.now }) }
        ensures frozen { self.old.frozen ≡ true → self.new ≡ self.old }
        ensures taken { self.new.frozen ≡ false
            → self.new ≡ with_act self.old (record { act = act.now; named = objects.now }) }
        ensures refused { self.new.frozen ≡ true
            → IsRefused self.old (record { act = act.now; named = objects.now }) self.new }
    {
        if self.frozen {
            return;
        }
        if !self.take_in(act, objects) {
            self.frozen = true;
        }
    }
}

impl<R: Wait + Drop> Drop for LiveWriter<R> {
    fn drop(self) {
        let Self {
            writer,
            head: _head,
            front: _front,
            rt,
            alloc: _,
            frozen: _,
        } = self;
        drop(writer.take(&rt));
    }
}
