// What a first heap over an image is made of.
use ap_base::ListOf;
use graph_model::Shape;
use one_space::FirstStatic;

/// What the first heap of a class set over an image is made of.
#[derive(Drop)]
pub struct SpacesParts {
    pub tables: SpacesTables,
    pub objects: FirstObjects,
    /// The static fields by number from 1 on: those of the set, and then one for each durable root of the image
    /// that the set lacks. Number 0 is `java/lang/System.out`.
    pub statics: ListOf<FirstField>,
}

/// The shapes of a class set and of an image's directory.
#[derive(Drop)]
pub struct SpacesTables {
    /// The shapes of all classes and array types, by the number of the class.
    pub shapes: ListOf<Shape>,
    /// The shapes of the heap, by their numbers in it: those of the directory, and then those of the classes that
    /// the directory lacks.
    pub heap_shapes: ListOf<Shape>,
    /// By the number of a shape in the heap: that of its class.
    pub classes: Vec<u32>,
    /// By the number of a class: that of its shape in the heap.
    pub numbers: Vec<u32>,
}

/// The objects that a run begins with in volatile memory, by their classes' numbers.
#[derive(Drop)]
pub struct FirstObjects {
    /// The class of the object in `System.out`.
    pub stream: u32,
    /// The array type of the arguments of `main`.
    pub arguments: u32,
    /// The class of strings.
    pub string: u32,
    /// The chars (UTF-16 code units) of the string literals, in their order.
    pub literals: ListOf<ListOf<u16>>,
}

/// Where a static field lies: beside the heap, with its kind and constant; or, of a durable root, in a root slot.
#[derive(Drop)]
pub enum FirstField {
    Beside(FirstStatic),
    Root(u32),
}
