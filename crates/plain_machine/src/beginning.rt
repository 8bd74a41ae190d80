// Where a plain run begins.
ghost use Rattle.std.specs.Prelude.{◌<◌, ◌^◌, [], All, IfOk, length};
ghost use Rattle.graph_model.specs.declared.types.Obj.{Obj};
ghost use Rattle.plain_heap.specs.Heaps.{shown_of};
ghost use Rattle.run_forms.specs.Standing.{Launch, setting_of};
ghost use Rattle.plain_machine.specs.Beginnings.{BeginsWith};
ghost use Rattle.plain_machine.specs.Standing.{Stands};

use crate::lanes::Lane;
use crate::laws::machines_begin;
use crate::plain::Plain;
use crate::world::PlainWorld;
use ap_base::{ListOf, Ref};
use graph_model::{Shape, Value};
use monitors::Monitors;
use plain_heap::{PlainHeap, PlainObject};
use plain_model::the_first_heap_is_sound;
use private_steps::Frames;
use run_history::Progress;
use shared_objects::{Rest, Threads};
use std::alloc::{AllocError, Global};

/// What a plain run begins with: the shapes of all classes, the first objects and what the static
/// fields hold at first, how far
/// each class is initialised, the main class with the number of its `main`, and the number of the
/// array of arguments.
#[derive(Drop)]
pub struct Beginning {
    pub shapes: ListOf<Shape>,
    pub objects: Vec<PlainObject>,
    pub statics: Vec<Value>,
    pub classes: Vec<Progress>,
    pub class: u32,
    pub method: u32,
    pub arguments: u32,
}

impl Plain {
    /// Begins the plain run of a class set, an opening graph and a main class: the machine stands
    /// for the empty run of each
    /// launch that begins so.
    pub fn begin(alloc: Global, beginning: Beginning) -> Result<Plain, AllocError>
        requires begins { (launch : Launch) × BeginsWith launch beginning }
        requires short { All (λ (o : Obj). length o.values < 2 ^ 31) beginning.objects.items }
        ensures { (launch : Launch) → BeginsWith launch beginning
            → IfOk result (λ plain. Stands launch []
            launch.set (setting_of launch) (shown_of plain.world.heap) plain.world.rest
            plain.world.steps plain.lanes.items) }
    {
        machines_begin();
        the_first_heap_is_sound();
        let Beginning {
            shapes,
            objects,
            statics,
            classes,
            class,
            method,
            arguments,
        } = beginning;
        let rest = Rest {
            monitors: Monitors::reserve(alloc)?,
            classes,
            threads: Threads::reserve(alloc)?,
        };
        let mut frames = Frames::new(alloc)?;
        frames.begin_main(class, method, Ref::Volatile(arguments));
        let mut lanes = Vec::new(alloc);
        lanes.push(Lane {
            frames,
            asked: None,
        })?;
        Ok(Plain {
            world: PlainWorld {
                heap: PlainHeap::new(alloc, shapes, objects, statics),
                rest,
                steps: 0,
            },
            lanes,
        })
    }
}
