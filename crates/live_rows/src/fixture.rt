//! The heap before the rows, and acts.

use ap_base::{Bytes, Kind, ListOf, ThreadNo};
use graph_model::{Field, Heap, Obj, Root, Shape, Value};
use live_heap::{Heard, Live};
use run_history::{Act, Op};
use std::alloc::{AllocError, Global};
use std::test::Fail;

fn field(alloc: Global, name: &[u8], kind: Kind) -> Result<Field, AllocError> {
    Ok(Field {
        name: Bytes::copy(alloc, name)?,
        kind,
        kept: true,
    })
}

/// Shape 0: `class Node { int v; Node next; }`. Shape 1: an array of Strings.
fn shapes(alloc: Global) -> Result<Vec<Shape>, AllocError> {
    let mut fields = Vec::new(alloc);
    fields.push(field(alloc, b"v", Kind::I)?)?;
    fields.push(field(alloc, b"next", Kind::L)?)?;
    let mut shapes = Vec::new(alloc);
    shapes.push(Shape {
        name: Bytes::copy(alloc, b"Node")?,
        fields: ListOf::from_vec(fields),
        element: None,
    })?;
    shapes.push(Shape {
        name: Bytes::copy(alloc, b"[Ljava/lang/String;")?,
        fields: ListOf::new(alloc),
        element: Some(Kind::L),
    })?;
    Ok(shapes)
}

/// Object 0 is an empty array. Static field 1 is the durable root `Main.head`, which is null.
fn heap(alloc: Global) -> Result<Heap, AllocError> {
    let mut objects = Vec::new(alloc);
    objects.push(Obj {
        shape: 1,
        values: ListOf::new(alloc),
    })?;
    let mut statics = Vec::new(alloc);
    statics.push(Value::Obj(0))?;
    statics.push(Value::Null)?;
    let mut roots = Vec::new(alloc);
    roots.push(Root {
        name: Bytes::copy(alloc, b"Main.head")?,
        at: 1,
    })?;
    Ok(Heap {
        shapes: ListOf::from_vec(shapes(alloc)?),
        objects: ListOf::from_vec(objects),
        statics: ListOf::from_vec(statics),
        roots: ListOf::from_vec(roots),
    })
}

/// What is seen before the first act.
pub fn first(alloc: Global) -> Result<Live, Fail> {
    let heap = heap(alloc)?;
    let mut durable = Vec::new(alloc);
    durable.push(false)?;
    if !heap.is_sound() || heap.objects.len() != durable.len() || heap.roots.len() > 256 {
        return Err("a sound heap".into());
    }
    Ok(Live::new(alloc, heap, durable))
}

/// An act of thread 0 that names these objects.
pub fn heard(alloc: Global, op: &Op, named: &[u32]) -> Result<Heard, AllocError> {
    let act = Act {
        thread: ThreadNo::main(),
        at: 0,
        op: *op,
    };
    Heard::new(alloc, &act, named)
}

/// Tells these acts. A Joined act names these objects.
pub fn hear_all(
    alloc: Global,
    live: &mut Live,
    ops: &[Op],
    named: &[u32],
) -> Result<(), AllocError> {
    for op in ops {
        let of = if matches!(*op, Op::Joined) {
            named
        } else {
            &[]
        };
        live.hear(&heard(alloc, op, of)?)?;
    }
    Ok(())
}
