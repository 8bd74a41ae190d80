// The types of plain heaps and graphs.
use ap_base::{Bytes, Kind, ListOf};

/// A value of a plain heap: an int, a long, null, or the object of a number (JVMS 2.2, 2.4).
#[derive(Clone, Copy, Debug, PartialEq, Eq)]
pub enum Value {
    Int(i32),
    Long(i64),
    Null,
    Obj(u32),
}

/// An instance field (JVMS 4.5): its name, its kind, and whether its value is kept in the image.
#[derive(Drop, Debug)]
pub struct Field {
    pub name: Bytes,
    pub kind: Kind,
    pub kept: bool,
}

/// What all objects of a class have in common: the class's name, its fields, a superclass's first, and for an array
/// type or String the kind of the elements. An array type is named by its descriptor (JVMS 4.3.2) and has no fields;
/// nor has String, whose elements are of kind `C`.
#[derive(Drop, Debug)]
pub struct Shape {
    pub name: Bytes,
    pub fields: ListOf<Field>,
    pub element: Option<Kind>,
}

/// An object: the number of its shape, and the values of its fields or elements.
#[derive(Drop)]
pub struct Obj {
    pub shape: u32,
    pub values: ListOf<Value>,
}

/// A durable root: its name, class and field joined by a dot, and the number of its static field.
#[derive(Drop)]
pub struct Root {
    pub name: Bytes,
    pub at: u32,
}

/// A heap of objects that never move: an object's number is its place in the list. The durable roots stand in the
/// order of the image's directory.
#[derive(Drop)]
pub struct Heap {
    pub shapes: ListOf<Shape>,
    pub objects: ListOf<Obj>,
    pub statics: ListOf<Value>,
    pub roots: ListOf<Root>,
}

/// A root of a graph: its name, and its value.
#[derive(Drop, Debug)]
pub struct NamedValue {
    pub name: Bytes,
    pub value: Value,
}

/// A node of a graph: its shape, and the values of its fields or elements.
#[derive(Drop, Debug)]
pub struct Node {
    pub shape: Shape,
    pub values: ListOf<Value>,
}

/// What an image holds: the durable roots, and the objects that they reach. `Obj` values number the nodes.
#[derive(Drop, Debug)]
pub struct Graph {
    pub roots: ListOf<NamedValue>,
    pub nodes: ListOf<Node>,
}
