// The heap.
use ap_base::{Item, ListOf};
use graph_model::Shape;
use line_image::Image;
use twin_heap::TwinHeap;

/// Where a static field lies: beside the heap, with what it holds; or, of a durable root, in a root slot of the image.
#[derive(Clone, Copy)]
pub enum Static {
    Beside(Item),
    Root(u32),
}

/// The objects of a twin heap, called by the classes of a class set, with its static fields.
///
/// That it is whole is a condition of its calls, not a fact of its type: conversions, logs and directories are given
/// `&mut spaces.heap`.
#[derive(Drop)]
pub struct TwoSpaces<I: Image> {
    pub heap: TwinHeap<I>,
    /// The shape of each class, by the class's number.
    pub shapes: ListOf<Shape>,
    /// By the number that the heap has for a shape: the class's number.
    pub classes: Vec<u32>,
    /// By the number of a class: that of its shape in the heap.
    pub numbers: Vec<u32>,
    pub statics: Vec<Static>,
}
