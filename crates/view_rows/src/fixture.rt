//! The heap before the rows, and a writer with one reader.

ghost use Rattle.std.specs.Prelude.{◌≡◌, IfOk, IfSome};

use ap_base::{Bytes, Kind, ListOf, ThreadNo};
use graph_model::{Field, Heap, Obj, Root, Shape, Value};
use live_heap::Live;
use live_view::{LiveReader, LiveWriter};
use run_history::{Act, Op, Watcher};
use std::alloc::{AllocError, Global};
use std::sync::Wait;
use std::test::Fail;

fn field(alloc: Global, name: &[u8], kind: Kind) -> Result<Field, AllocError> {
    Ok(Field {
        name: Bytes::copy(alloc, name)?,
        kind,
        kept: true,
    })
}

/// Shape 0: `class Node { int v; Node next; }`. Shape 1: an array of Strings.
fn shapes(alloc: Global) -> Result<Vec<Shape>, AllocError> {
    let mut fields = Vec::new(alloc);
    fields.push(field(alloc, b"v", Kind::I)?)?;
    fields.push(field(alloc, b"next", Kind::L)?)?;
    let mut shapes = Vec::new(alloc);
    shapes.push(Shape {
        name: Bytes::copy(alloc, b"Node")?,
        fields: ListOf::from_vec(fields),
        element: None,
    })?;
    shapes.push(Shape {
        name: Bytes::copy(alloc, b"[Ljava/lang/String;")?,
        fields: ListOf::new(alloc),
        element: Some(Kind::L),
    })?;
    Ok(shapes)
}

/// Object 0 is an empty array. Static field 1 is the durable root `Main.head`, which is null.
fn heap(alloc: Global) -> Result<Heap, AllocError> {
    let mut objects = Vec::new(alloc);
    objects.push(Obj {
        shape: 1,
        values: ListOf::new(alloc),
    })?;
    let mut statics = Vec::new(alloc);
    statics.push(Value::Obj(0))?;
    statics.push(Value::Null)?;
    let mut roots = Vec::new(alloc);
    roots.push(Root {
        name: Bytes::copy(alloc, b"Main.head")?,
        at: 1,
    })?;
    Ok(Heap {
        shapes: ListOf::from_vec(shapes(alloc)?),
        objects: ListOf::from_vec(objects),
        statics: ListOf::from_vec(statics),
        roots: ListOf::from_vec(roots),
    })
}

/// What is seen before the first act.
pub fn first(alloc: Global) -> Result<Live, Fail>
    ensures { IfOk result (λ live. live.acts ≡ 0) }
{
    let heap = heap(alloc)?;
    let mut durable = Vec::new(alloc);
    durable.push(false)?;
    if !heap.is_sound() || heap.objects.len() != durable.len() || heap.roots.len() > 256 {
        return Err("a sound heap".into());
    }
    Ok(Live::new(alloc, heap, durable))
}

/// A writer, and a reader of what it publishes.
pub fn watch<R: Wait + Drop>(
    rt: R,
    alloc: Global,
    first: Live,
) -> Result<Option<(LiveWriter<R>, LiveReader)>, AllocError>
    requires { first.acts ≡ 0 }
    ensures { IfOk result (λ both. IfSome both (λ b. b.1.of ≡ b.0.of)) }
{
    let second = first.copy(alloc)?;
    let (writer, mut readers) = LiveWriter::over(rt, alloc, first, second, 1)?;
    match readers.pop() {
        Some(reader) => Ok(Some((writer, reader))),
        None => Ok(None),
    }
}

/// The types say that it is a watcher which may go to another thread, as a run asks.
pub fn is_watcher<W: Watcher + Send>(_watcher: &W) {}

/// Tells the writer these acts of thread 0. A Joined act names these objects.
pub fn see_all<R: Wait + Drop>(writer: &mut LiveWriter<R>, ops: &[Op], named: &[u32])
    ensures { writer.new.of ≡ writer.old.of }
{
    for op in ops {
        let act = Act {
            thread: ThreadNo::main(),
            at: 0,
            op: *op,
        };
        if matches!(act.op, Op::Joined) {
            writer.saw(&act, named);
        } else {
            writer.saw(&act, &[]);
        }
    }
}
