// How marks grow by what an object reaches.
ghost use Rattle.std.specs.Prelude.{◌≡◌, ◌<◌, All, IfOk, OnOk, length};
ghost use Rattle.graph_model.specs.Heaps.{IsBelow, IsSound};
ghost use Rattle.audit_keeping.specs.Walking.{AreClosedBut, HaveGrown, marks_met, queue_met};
ghost use Rattle.audit_keeping.specs.Wishing.{both_marks};

use graph_model::{Heap, Value};
use std::alloc::{AllocError, Global};

/// Marks the objects among the values that aren't marked yet, and lines them up.
fn meet(values: &[Value], marks: &mut [bool], queue: &mut Vec<u32>) -> Result<(), AllocError>
    requires there { All (IsBelow (length marks.old)) values.now }
    ensures marks { OnOk result (marks.new ≡ marks_met values.now marks.old) }
    ensures queue { OnOk result (queue.new.items ≡ queue_met values.now marks.old queue.old.items) }
    ensures long { length marks.new ≡ length marks.old }
{
    let mut rest = values;
    'values: loop {
        match rest {
            [] => return Ok(()),
            [value, behind @ ..] => {
                if let Value::Obj(n) = *value {
                    if !marks[n as usize] {
                        marks[n as usize] = true;
                        queue.push(n)?;
                    }
                }
                rest = behind;
            }
        }
    }
}

/// Adds an object and all that it reaches to marks that have what their objects refer to, but for this object. Takes time for
/// what is newly marked and its slots, and never for the whole heap.
pub(crate) fn grow(
    alloc: Global,
    heap: &Heap,
    marks: &mut [bool],
    start: u32,
) -> Result<(), AllocError>
    requires sound { IsSound heap.now }
    requires long { length marks.old ≡ length heap.now.objects }
    requires start { start < length heap.now.objects }
    requires closed { AreClosedBut heap.now marks.old start }
    ensures grown { OnOk result (HaveGrown heap.now marks.old start marks.new) }
{
    let mut queue = Vec::new(alloc);
    let first = [Value::Obj(start)];
    meet(&first, marks, &mut queue)?;
    let mut at = 0;
    'walk: while at < queue.len() {
        let n = queue[at];
        meet(heap.values(n), marks, &mut queue)?;
        at += 1;
    }
    Ok(())
}

/// The marks of either list, as many as the first has.
pub(crate) fn both_marks(
    alloc: Global,
    durable: &[bool],
    marks: &[bool],
) -> Result<Vec<bool>, AllocError>
    ensures { IfOk result (λ both. both.items ≡ both_marks durable.now marks.now) }
{
    let mut both = Vec::new(alloc);
    let mut rest = durable;
    let mut others = marks;
    'marks: loop {
        match rest {
            [] => return Ok(both),
            [first, behind @ ..] => {
                match others {
                    [] => both.push(*first)?,
                    [other, further @ ..] => {
                        both.push(*first || *other)?;
                        others = further;
                    }
                }
                rest = behind;
            }
        }
    }
}
