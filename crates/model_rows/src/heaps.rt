//! Heaps numbered by hand.

ghost use Rattle.std.specs.Prelude.{IfOk};
ghost use Rattle.graph_model.specs.Heaps.{IsSound};

use ap_base::{Bytes, Kind, ListOf, Place};
use graph_model::{Field, Graph, Heap, NamedValue, Node, Obj, Root, Shape, Value, canon, reach};
use std::alloc::{AllocError, Global};
use std::test::Fail;

/// The shape of a class Node with the fields v and next.
const NODE: u32 = 0;

/// The shape of int[].
const INTS: u32 = 1;

fn field(alloc: Global, name: &[u8], kind: Kind) -> Result<Field, AllocError> {
    Ok(Field {
        name: Bytes::copy(alloc, name)?,
        kind,
        kept: true,
    })
}

fn shapes(alloc: Global) -> Result<ListOf<Shape>, AllocError> {
    let mut fields = ListOf::new(alloc);
    fields.push(field(alloc, b"v", Kind::I)?)?;
    fields.push(field(alloc, b"next", Kind::L)?)?;
    let mut shapes = ListOf::new(alloc);
    shapes.push(Shape {
        name: Bytes::copy(alloc, b"Node")?,
        fields,
        element: None,
    })?;
    shapes.push(Shape {
        name: Bytes::copy(alloc, b"[I")?,
        fields: ListOf::new(alloc),
        element: Some(Kind::I),
    })?;
    Ok(shapes)
}

fn values(alloc: Global, items: &[Value]) -> Result<ListOf<Value>, AllocError> {
    Ok(ListOf::from_vec(items.to_vec(alloc)?))
}

/// The heap of these objects and statics, whose roots Main.a and Main.b are the first two statics.
fn heap(alloc: Global, objects: &[(u32, &[Value])], statics: &[Value]) -> Result<Heap, AllocError> {
    let mut list = ListOf::new(alloc);
    for (shape, slots) in objects {
        list.push(Obj {
            shape: *shape,
            values: values(alloc, slots)?,
        })?;
    }
    let mut roots = ListOf::new(alloc);
    for (name, at) in [(b"Main.a", 0), (b"Main.b", 1)] {
        roots.push(Root {
            name: Bytes::copy(alloc, name)?,
            at,
        })?;
    }
    Ok(Heap {
        shapes: shapes(alloc)?,
        objects: list,
        statics: values(alloc, statics)?,
        roots,
    })
}

/// The heap, if it is sound.
fn sound(heap: Heap) -> Result<Heap, Fail>
    ensures { IfOk result (λ heap. IsSound heap) }
{
    if !heap.is_sound() {
        return Err("a sound heap")?;
    }
    Ok(heap)
}

fn root_is(root: &NamedValue, name: &[u8], value: Value) -> bool {
    root.name.as_slice() == name && root.value == value
}

fn node_is(node: &Node, shape: u32, slots: &[Value]) -> bool {
    let (name, fields, element) = if shape == NODE {
        (&b"Node"[..], 2, None)
    } else {
        (&b"[I"[..], 0, Some(Kind::I))
    };
    node.shape.name.as_slice() == name
        && node.shape.fields.len() == fields
        && node.shape.element == element
        && node.values.as_slice() == slots
}

/// Whether these are the graph's nodes, and its roots Main.a and Main.b have these values.
fn graph_is(graph: &Graph, roots: [Value; 2], nodes: &[(u32, &[Value])]) -> bool {
    for (node, (shape, slots)) in graph.nodes.as_slice().iter().zip(nodes) {
        if !node_is(node, *shape, slots) {
            return false;
        }
    }
    let [first, second] = roots;
    match graph.roots.as_slice() {
        [a, b] => {
            graph.nodes.len() == nodes.len()
                && root_is(a, b"Main.a", first)
                && root_is(b, b"Main.b", second)
        }
        _ => false,
    }
}

/// An object or a node: its shape, and its values.
type Item = (u32, &'static [Value]);

/// Objects of a heap, its statics, and its graph: the roots' values, and the nodes.
static GRAPHS: [(&[Item], [Value; 3], [Value; 2], &[Item]); 3] = [
    // object 0 is not reached; root b holds node 2, whose ring goes on over 3 and 1
    (
        &[
            (NODE, &[Value::Int(9), Value::Obj(1)]),
            (NODE, &[Value::Int(3), Value::Obj(2)]),
            (NODE, &[Value::Int(1), Value::Obj(3)]),
            (NODE, &[Value::Int(2), Value::Obj(1)]),
        ],
        [Value::Null, Value::Obj(2), Value::Obj(0)],
        [Value::Null, Value::Obj(0)],
        &[
            (NODE, &[Value::Int(1), Value::Obj(1)]),
            (NODE, &[Value::Int(2), Value::Obj(2)]),
            (NODE, &[Value::Int(3), Value::Obj(0)]),
        ],
    ),
    // roots that hold null reach nothing
    (
        &[(NODE, &[Value::Int(9), Value::Null])],
        [Value::Null, Value::Null, Value::Obj(0)],
        [Value::Null, Value::Null],
        &[],
    ),
    // both roots hold the array, which is one node
    (
        &[(INTS, &[Value::Int(5), Value::Int(0), Value::Int(-7)])],
        [Value::Obj(0), Value::Obj(0), Value::Null],
        [Value::Obj(0), Value::Obj(0)],
        &[(INTS, &[Value::Int(5), Value::Int(0), Value::Int(-7)])],
    ),
];

/// The graph of a heap of these objects and statics.
fn graph_of(alloc: Global, objects: &[Item], statics: &[Value]) -> Result<Graph, Fail> {
    let heap = sound(heap(alloc, objects, statics)?)?;
    Ok(canon(alloc, &heap)?)
}

#[test]
fn graphs_of_heaps(rt: HostRuntime) -> Result<(), Fail> {
    for (objects, statics, roots, nodes) in &GRAPHS {
        let graph = graph_of(rt.alloc(), objects, statics)?;
        assert!(rt;
            graph_is(&graph, *roots, nodes),
            "{} objects",
            objects.len()
        );
    }
    Ok(())
}

/// What these values reach.
fn reached(alloc: Global, heap: &Heap, start: &[Value]) -> Result<Vec<u32>, Fail>
    requires { IsSound heap.now }
{
    if !heap.has_referents(start) {
        return Err("values of the heap")?;
    }
    Ok(reach(alloc, heap, start)?)
}

/// Objects of which 0 and 2 are not reached: from 4 a path leads to 1, from 3 none leads on.
static LISTS: [Item; 5] = [
    (NODE, &[Value::Int(0), Value::Obj(4)]),
    (NODE, &[Value::Int(1), Value::Obj(4)]),
    (NODE, &[Value::Int(2), Value::Obj(3)]),
    (NODE, &[Value::Int(3), Value::Null]),
    (NODE, &[Value::Int(4), Value::Obj(1)]),
];

/// Two values, and the objects that they reach.
static REACHED: [([Value; 2], &[u32]); 4] = [
    ([Value::Obj(4), Value::Obj(3)], &[1, 3, 4]),
    ([Value::Obj(3), Value::Obj(3)], &[3]),
    ([Value::Long(4), Value::Int(2)], &[]),
    ([Value::Null, Value::Obj(0)], &[0, 1, 4]),
];

#[test]
fn reached_from_two_starts(rt: HostRuntime) -> Result<(), Fail> {
    let heap = sound(heap(rt.alloc(), &LISTS, &[Value::Null, Value::Null])?)?;
    for (start, want) in &REACHED {
        let found = reached(rt.alloc(), &heap, start)?;
        assert!(rt; found.as_slice() == *want, "{start:?}");
    }
    Ok(())
}

/// Adds an object, and says its number.
fn added(alloc: Global, heap: &mut Heap, shape: u32, count: u32) -> Result<u32, Fail> {
    if shape as usize >= heap.shapes.len() || heap.objects.len() >= 100 {
        return Err("room for an object of the shape")?;
    }
    Ok(heap.add(alloc, shape, count)?)
}

/// Stores a value, if the heap has the place, and says what the place then has.
fn stored(heap: &mut Heap, place: Place, value: Value) -> Option<Value> {
    let there = match place {
        Place::Static(n) => (n as usize) < heap.statics.len(),
        Place::Slot { object, index } => {
            (object as usize) < heap.objects.len() && (index as usize) < heap.values(object).len()
        }
    };
    if !there {
        return None;
    }
    heap.store(place, value);
    Some(heap.read(place))
}

/// Whether these are the statics, and these the values of two objects, which are all.
fn heap_is(heap: &Heap, statics: &[Value], first: &[Value], second: &[Value]) -> bool {
    match heap.objects.as_slice() {
        [a, b] => {
            heap.statics.as_slice() == statics
                && a.values.as_slice() == first
                && b.values.as_slice() == second
        }
        _ => false,
    }
}

#[test]
fn objects_are_added_and_stored_to(rt: HostRuntime) -> Result<(), Fail> {
    let alloc = rt.alloc();
    let mut heap = heap(alloc, &[], &[Value::Null, Value::Null])?;
    let node = added(alloc, &mut heap, NODE, 0)?;
    let ints = added(alloc, &mut heap, INTS, 3)?;
    let slot = Place::Slot {
        object: 1,
        index: 1,
    };
    for (place, value, statics, middle) in [
        (Place::Static(0), Value::Null, [Value::Null, Value::Null], 0),
        (slot, Value::Int(6), [Value::Null, Value::Null], 6),
        (
            Place::Static(1),
            Value::Obj(1),
            [Value::Null, Value::Obj(1)],
            6,
        ),
    ] {
        let read = stored(&mut heap, place, value);
        let first = [Value::Int(0), Value::Null];
        let second = [Value::Int(0), Value::Int(middle), Value::Int(0)];
        let is = heap_is(&heap, &statics, &first, &second);
        assert_eq!(rt; (read, is, node, ints), (Some(value), true, 0, 1));
    }
    Ok(())
}

#[test]
fn kinds_have_defaults(rt: HostRuntime) {
    for (kind, value) in [
        (Kind::Z, Value::Int(0)),
        (Kind::I, Value::Int(0)),
        (Kind::J, Value::Long(0)),
        (Kind::L, Value::Null),
    ] {
        assert!(rt; Value::default_of(kind) == value, "{kind:?}");
    }
}

/// A list of so many nodes behind one, of which each refers to the one before it, and Main.b to the last.
fn long_list(alloc: Global, more: u32) -> Result<Heap, AllocError> {
    let mut heap = heap(
        alloc,
        &[(NODE, &[Value::Int(0), Value::Null])],
        &[Value::Null, Value::Obj(more)],
    )?;
    for last in 0..more {
        heap.objects.push(Obj {
            shape: NODE,
            values: values(alloc, &[Value::Int(0), Value::Obj(last)])?,
        })?;
    }
    Ok(heap)
}

// Searching through the nodes found so far would take minutes here.
#[test]
fn nodes_of_a_long_list(rt: HostRuntime) -> Result<(), Fail> {
    let alloc = rt.alloc();
    let heap = sound(long_list(alloc, 99_999)?)?;
    let nodes = canon(alloc, &heap)?.nodes.len();
    let objects = reached(alloc, &heap, &[Value::Obj(99_999)])?.len();
    assert!(rt; nodes == 100_000 && objects == 100_000, "all of the list");
    Ok(())
}
