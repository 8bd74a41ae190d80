//! Worlds as they begin.

ghost use Rattle.std.specs.Prelude.{◌≡◌, ◌<◌, ◌≤◌, All, IfOk, IfSome, IsTrue};
ghost use Rattle.class_set.specs.Facts.{facts_of};
ghost use Rattle.plain_model.specs.Facts.{shapes_of};
ghost use Rattle.shared_objects.specs.declared.threads.ThreadState.{ThreadState as StateOf};
ghost use Rattle.two_spaces.specs.Starts.{AreSame};
ghost use Rattle.space_rows.specs.Beginnings.{HasArray, HasInts, HasStatics, IsRested, first_statics};
ghost use Rattle.space_rows.specs.Worlds.{Holds};

use crate::classes::Classes;
use crate::world::World;
use ap_base::{Item, Kind, ListOf, MemorySink, Ref, Spot};
use class_set::{ClassSet, linked_sets_are_consistent};
use graph_model::Shape;
use image_layout::{FIRST_OBJECT_LINE, head_word};
use line_image::{Fails, MemoryImage};
use line_memory::{LineMemory, every_line_is_resident};
use monitors::Monitors;
use run_history::Progress;
use shared_objects::{Rest, Threads};
use std::alloc::{AllocError, Global};
use std::test::Fail;
use twin_heap::TwinHeap;
use two_spaces::{Static, TwoSpaces};
use volatile_space::VolatileSpace;

/// The root slot of the root.
const SLOT: u32 = 5;

/// How many words the space has.
const WORDS: u32 = 400;

/// How many elements the array has that is in the image from the start: 10, 11, 12 and so on.
const BORN: u32 = 9;

// Threads 0 and 1.
fn threads(alloc: Global) -> Result<Threads, AllocError>
    ensures { IfOk result (λ threads. All (λ (t : StateOf). t.depth ≤ 0) threads) }
{
    let mut threads = Threads::reserve(alloc)?;
    let _second = threads.start(0);
    Ok(threads)
}

// All classes are initialised, and no monitor is held.
fn rest(alloc: Global, set: &ClassSet) -> Result<Rest, AllocError>
    ensures { IfOk result (IsRested (facts_of set.now)) }
{
    let mut classes = Vec::new(alloc);
    classes.resize(set.shapes().len(), Progress::Finished)?;
    Ok(Rest {
        monitors: Monitors::reserve(alloc)?,
        classes,
        threads: threads(alloc)?,
    })
}

fn copied(alloc: Global, shapes: &[Shape]) -> Result<ListOf<Shape>, AllocError>
    ensures { IfOk result (λ copies. copies ≡ shapes.now) }
{
    let mut copies = Vec::new(alloc);
    for shape in shapes {
        copies.push(shape.copy(alloc)?)?;
    }
    Ok(ListOf::from_vec(copies))
}

// By each number the number itself.
fn same(alloc: Global, count: usize) -> Result<Vec<u32>, AllocError>
    requires { count ≤ 4294967296 }
    ensures { IfOk result (λ numbers. AreSame count numbers.items) }
{
    let mut numbers = Vec::new(alloc);
    for number in 0..count {
        numbers.push(number as u32)?;
    }
    Ok(numbers)
}

// The type of arrays of ints.
fn ints(set: &ClassSet) -> Option<u32>
    ensures { IfSome result (HasInts (shapes_of (facts_of set.now))) }
{
    let shape = set.class_named(b"[I")?;
    if set.shapes().len() > 1000 {
        return None;
    }
    let Kind::I = set.shape(shape)?.element? else {
        return None;
    };
    Some(shape)
}

fn has_statics(set: &ClassSet) -> bool
    ensures { IsTrue result → HasStatics (facts_of set.now) }
{
    match set.statics() {
        [first, second] => matches!((first.kind, second.kind), (Kind::L, Kind::I)),
        _ => false,
    }
}

fn put(memory: &mut LineMemory<MemoryImage>, line: u32, word: u8, value: u64)
    requires line { line < memory.old.size }
    requires word { word < 8 }
    ensures { memory.new.size ≡ memory.old.size }
{
    every_line_is_resident();
    memory.store(Spot { line, word }, value);
}

// The array that is in the image from the start.
fn put_born(memory: &mut LineMemory<MemoryImage>, shape: u32)
    requires { 32768 ≤ memory.old.size }
    ensures { memory.new.size ≡ memory.old.size }
{
    put(memory, FIRST_OBJECT_LINE, 0, head_word(shape, BORN));
    put(memory, FIRST_OBJECT_LINE, 1, 10);
    put(memory, FIRST_OBJECT_LINE, 2, 11);
    put(memory, FIRST_OBJECT_LINE, 3, 12);
    put(memory, FIRST_OBJECT_LINE, 4, 13);
    put(memory, FIRST_OBJECT_LINE, 5, 14);
    put(memory, FIRST_OBJECT_LINE, 6, 15);
    put(memory, FIRST_OBJECT_LINE, 7, 16);
    put(memory, FIRST_OBJECT_LINE + 1, 0, 17);
    put(memory, FIRST_OBJECT_LINE + 1, 1, 18);
}

fn has_array(memory: &LineMemory<MemoryImage>, shape: u32) -> bool
    requires long { 32768 ≤ memory.now.size }
    requires few { memory.now.size ≤ 4194304 }
    ensures { IsTrue result → HasArray memory.now shape }
{
    every_line_is_resident();
    let head = memory.load(Spot {
        line: FIRST_OBJECT_LINE,
        word: 0,
    });
    let root = memory.load(Spot { line: 1, word: 5 });
    head == head_word(shape, BORN) && root == 0
}

fn memory(alloc: Global, shape: u32) -> Result<LineMemory<MemoryImage>, Fail>
    ensures { IfOk result (λ memory. HasArray memory shape) }
{
    let fails = Fails {
        calls: Vec::new(alloc),
        since: u64::MAX,
        room: 1000,
    };
    let image = MemoryImage::new(alloc, 32_768, fails)?;
    let Ok(mut memory) = LineMemory::attach(alloc, image) else {
        return Err("an image of 32768 lines".into());
    };
    put_born(&mut memory, shape);
    if !has_array(&memory, shape) {
        return Err("an array in the image".into());
    }
    Ok(memory)
}

fn statics(alloc: Global) -> Result<Vec<Static>, AllocError>
    ensures { IfOk result (λ statics. statics.items ≡ first_statics) }
{
    let mut statics = Vec::new(alloc);
    statics.push(Static::Beside(Item::Ref(Ref::Null)))?;
    statics.push(Static::Root(SLOT))?;
    statics.push(Static::Beside(Item::Int(0)))?;
    Ok(statics)
}

/// A world whose heap has one object, which was in the image from the start.
pub fn begin(alloc: Global, classes: &Classes) -> Result<World, Fail>
    ensures { IfOk result (λ w.
        Holds (facts_of classes.now.set) w.spaces w.rest w.refs.items w.next w.acts w.entered) }
{
    linked_sets_are_consistent();
    let set = &classes.set;
    let Some(shape) = ints(set) else {
        return Err("arrays of ints".into());
    };
    if !has_statics(set) {
        return Err("two static fields".into());
    }
    let memory = memory(alloc, shape)?;
    let space = VolatileSpace::reserve(alloc, WORDS)?;
    let shapes = set.shapes();
    let Ok(heap) = TwinHeap::new(alloc, shapes, &[FIRST_OBJECT_LINE], space, memory) else {
        return Err("memory".into());
    };
    let spaces = TwoSpaces {
        heap,
        shapes: copied(alloc, shapes)?,
        classes: same(alloc, shapes.len())?,
        numbers: same(alloc, shapes.len())?,
        statics: statics(alloc)?,
    };
    let mut refs = Vec::new(alloc);
    refs.push(Ref::Persistent(FIRST_OBJECT_LINE))?;
    Ok(World {
        spaces,
        rest: rest(alloc, set)?,
        sink: MemorySink::new(alloc, 0, 1, Vec::new(alloc))?,
        refs,
        next: FIRST_OBJECT_LINE + 2,
        acts: 0,
        entered: 0,
    })
}
