// What threads want while values are pending.
ghost use Rattle.std.specs.Prelude.{◌≡◌, ◌<◌, All, Bool, List, OnOk, length};
ghost use Rattle.graph_model.specs.declared.types.Value.TheVariants.{Obj as Object};
ghost use Rattle.graph_model.specs.Heaps.{IsSound};
ghost use Rattle.audit_keeping.specs.Goes.{Goes, MayGo};
ghost use Rattle.audit_keeping.specs.Keeping.{IsOther, lists_of, with_asked};
ghost use Rattle.audit_keeping.specs.Walking.{AreClosedMarks, HaveGrown};
ghost use Rattle.audit_keeping.specs.Wishing.{AreSpread, IsSpread, MaySpread};

use crate::keeping::{Asked, Keeping, is_marked};
use crate::walking::{both_marks, grow};
use ap_base::{ListOf, Place, ThreadNo};
use graph_model::{Heap, Value};
use run_history::Op;
use std::alloc::{AllocError, Global};

/// One pending value, once a slot of the holder refers to the object.
fn spread_one(
    alloc: Global,
    heap: &Heap,
    durable: &[bool],
    pending: &mut Asked,
    holder: u32,
    object: u32,
) -> Result<(), AllocError>
    requires sound { IsSound heap.now }
    requires there { object < length heap.now.objects }
    requires long { length durable.now ≡ length heap.now.objects }
    requires may { MaySpread heap.now durable.now holder object pending.old }
    ensures spread { OnOk result (IsSpread heap.now durable.now holder object pending.old pending.new) }
{
    if !is_marked(pending.marks.as_slice(), holder) {
        return Ok(());
    }
    let mut marks = both_marks(alloc, durable, pending.marks.as_slice())?;
    grow(alloc, heap, &mut marks, object)?;
    pending.marks = ListOf::from_vec(marks);
    Ok(())
}

/// Each pending value.
fn spread_each(
    alloc: Global,
    heap: &Heap,
    durable: &[bool],
    asked: &mut Vec<Asked>,
    holder: u32,
    object: u32,
) -> Result<(), AllocError>
    requires sound { IsSound heap.now }
    requires there { object < length heap.now.objects }
    requires long { length durable.now ≡ length heap.now.objects }
    requires may { All (MaySpread heap.now durable.now holder object) asked.old.items }
    ensures spread { OnOk result (AreSpread heap.now durable.now holder object asked.old.items asked.new.items) }
{
    let mut at = 0;
    'asked: while at < asked.len() {
        spread_one(alloc, heap, durable, &mut asked[at], holder, object)?;
        at += 1;
    }
    Ok(())
}

impl Keeping {
    /// The thread asks this object for its store at the place: it wants what the object reaches. Takes a byte for each object
    /// of the heap, and time for these bytes and for what isn't durable of what the object reaches.
    pub fn ask(
        &mut self,
        alloc: Global,
        heap: &Heap,
        t: ThreadNo,
        place: Place,
        object: u32,
    ) -> Result<(), AllocError>
        requires sound { IsSound heap.now }
        requires there { object < length heap.now.objects }
        requires long { length self.old.durable.items ≡ length heap.now.objects }
        requires closed { AreClosedMarks heap.now self.old.durable.items }
        ensures asked { OnOk result ((marks : List Bool) × HaveGrown heap.now self.old.durable.items object marks
            × (lists_of self.new ≡ with_asked (lists_of self.old)
            (record { thread = t; place = place; value = Object object; marks = marks }))) }
    {
        let mut marks = Vec::from_slice(alloc, &self.durable)?;
        grow(alloc, heap, &mut marks, object)?;
        self.asked.push(Asked {
            thread: t,
            place,
            value: Value::Obj(object),
            marks: ListOf::from_vec(marks),
        })?;
        Ok(())
    }

    /// A slot of the holder refers to this object now: who wants the holder wants what the object reaches.
    pub fn spread(
        &mut self,
        alloc: Global,
        heap: &Heap,
        holder: u32,
        object: u32,
    ) -> Result<(), AllocError>
        requires sound { IsSound heap.now }
        requires there { object < length heap.now.objects }
        requires long { length self.old.durable.items ≡ length heap.now.objects }
        requires may { All (MaySpread heap.now self.old.durable.items holder object) self.old.asked.items }
        ensures kept { OnOk result (lists_of self.new ≡ record (lists_of self.old) { asked = self.new.asked.items }) }
        ensures spread { OnOk result (AreSpread heap.now self.old.durable.items holder object
            self.old.asked.items self.new.asked.items) }
    {
        if is_marked(&self.durable, object) {
            return Ok(());
        }
        spread_each(alloc, heap, &self.durable, &mut self.asked, holder, object)
    }

    /// Is told an act that isn't Joined, of a thread whose region was so deep; this is the heap after it.
    pub fn go_on(
        &mut self,
        alloc: Global,
        heap: &Heap,
        t: ThreadNo,
        depth: u64,
        op: Op,
    ) -> Result<(), AllocError>
        requires other { IsOther op }
        requires may { MayGo heap.now self.old t op }
        ensures goes { OnOk result (Goes heap.now self.old t depth op self.new) }
    {
        match op {
            Op::Asked {
                place,
                value: Value::Obj(object),
            } => self.ask(alloc, heap, t, place, object),
            Op::Asked { .. } => Ok(()),
            Op::Stored {
                place: Place::Slot { object: holder, .. },
                value: Value::Obj(object),
            } => {
                self.tell(t, depth, op)?;
                self.spread(alloc, heap, holder, object)
            }
            _ => self.tell(t, depth, op),
        }
    }
}
