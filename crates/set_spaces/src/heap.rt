// The shapes of a heap, and which of them each class has.
ghost use Rattle.std.specs.Prelude.{◌≡◌, ◌≤◌, ◌<◌, ◌^◌, length, IfOk};
ghost use Rattle.set_spaces.specs.Numbering.{AreNumbers, ArePlaces, AreShapes, IsNumbered};

use graph_model::Shape;
use std::alloc::{AllocError, Global};

/// The shapes of the heap, and the class of each.
#[derive(Drop)]
pub(crate) struct HeapShapes {
    pub shapes: Vec<Shape>,
    pub classes: Vec<u32>,
}

pub(crate) fn copied(alloc: Global, shapes: &[Shape]) -> Result<Vec<Shape>, AllocError>
    ensures { IfOk result (λ copies. copies.items ≡ shapes.now) }
{
    let mut copies = Vec::new(alloc);
    for shape in shapes {
        copies.push(shape.copy(alloc)?)?;
    }
    Ok(copies)
}

/// Of each class, the place of one of these that are it.
pub(crate) fn places_of(
    alloc: Global,
    count: u32,
    classes: &[u32],
) -> Result<Vec<Option<u32>>, AllocError>
    requires few { length classes.now ≤ 2 ^ 32 }
    ensures { IfOk result (λ places.
        ArePlaces classes.now (length classes.now) count places.items) }
{
    let mut places = Vec::new(alloc);
    places.resize(count as usize, None)?;
    for place in 0..classes.len() {
        let class = classes[place];
        if class < count {
            places[class as usize] = Some(place as u32);
        }
    }
    Ok(places)
}

impl HeapShapes {
    /// The number of the shape that a class has in the heap: its place, or that of a further one.
    /// Want of numbers is want of memory.
    fn number(
        &mut self,
        alloc: Global,
        place: Option<u32>,
        shape: &Shape,
        class: u32,
    ) -> Result<u32, AllocError>
        ensures { IfOk result (λ number.
            IsNumbered place shape.now class self.old self.new number) }
    {
        if let Some(number) = place {
            return Ok(number);
        }
        let number = self.shapes.len();
        if number >= u32::MAX as usize {
            return Err(AllocError);
        }
        self.shapes.push(shape.copy(alloc)?)?;
        self.classes.push(class)?;
        Ok(number as u32)
    }

    /// The numbers of the shapes that all classes have in the heap.
    pub(crate) fn numbers(
        &mut self,
        alloc: Global,
        shapes: &[Shape],
        places: &[Option<u32>],
    ) -> Result<Vec<u32>, AllocError>
        requires few { length shapes.now < 2 ^ 32 }
        requires are { AreShapes shapes.now self.old }
        requires places { ArePlaces self.old.classes.items (length self.old.classes.items)
            (length shapes.now) places.now }
        ensures long { IfOk result (λ numbers. length numbers.items ≡ length shapes.now) }
        ensures numbers { IfOk result (λ numbers.
            AreNumbers shapes.now places.now self.old self.new numbers.items) }
    {
        let mut numbers = Vec::new(alloc);
        for class in 0..shapes.len() {
            let number = self.number(alloc, places[class], &shapes[class], class as u32)?;
            numbers.push(number)?;
        }
        Ok(numbers)
    }
}
