// What the first heap of a class set is made of.
use ap_base::{Kind, ListOf};
use graph_model::Shape;

/// What the first heap of a class set is made of. Class numbers are those of the shapes' list.
#[derive(Drop)]
pub struct FirstParts {
    /// The shapes of all classes and array types, by number.
    pub shapes: ListOf<Shape>,
    /// The class of the object in `System.out`.
    pub stream: u32,
    /// The array type of the arguments of `main`.
    pub arguments: u32,
    /// The class of strings.
    pub string: u32,
    /// The chars (UTF-16 code units) of the string literals, in their order.
    pub literals: ListOf<ListOf<u16>>,
    /// The static fields by number from 1 on. Number 0 is `java/lang/System.out`.
    pub statics: ListOf<FirstStatic>,
}

/// A static field: its kind, and the constant with which it begins (JVMS 4.7.2).
#[derive(Drop)]
pub struct FirstStatic {
    pub kind: Kind,
    pub constant: Option<FirstConstant>,
}

/// The constant of a static field: a number, or a literal by its place.
#[derive(Clone, Copy)]
pub enum FirstConstant {
    Int(i32),
    Long(i64),
    Literal(u32),
}
