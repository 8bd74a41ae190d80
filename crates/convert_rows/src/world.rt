// A heap of ints in arrays and of linked nodes over an image in memory, and what threads do with it.
ghost use Rattle.std.specs.Prelude.{◌≡◌, ◌<◌, ◌^◌, [], IfOk, IsTrue, true, length, slice_index};
ghost use Rattle.twin_forms.specs.Table.{Lies, IsRef, entry, refers};
ghost use Rattle.twin_forms.specs.Sights.{sight};
ghost use Rattle.convert_rows.specs.Worlds.{IsWorld};

use ap_base::{Bytes, Kind, ListOf, Ref, ThreadNo};
use convert_queue::Conversions;
use convert_words::ConvertStep;
use converter::{Begun, begin_conversion, convert_next};
use graph_model::{Field, Shape};
use line_image::{Fails, ImageFailed, MemoryImage};
use line_memory::{LineMemory, Touch};
use monitors::Monitors;
use persist_space::PersistSpace;
use std::alloc::{AllocError, Global};
use std::test::Fail;
use twin_heap::TwinHeap;
use volatile_space::VolatileSpace;

/// How many lines each image has.
pub(crate) const LINES: u32 = 32_768;

/// The shape of int[].
pub(crate) const INTS: u32 = 0;

/// The shape of a class Node with the fields v, an int, and next, a reference.
pub(crate) const NODE: u32 = 1;

/// A heap, its queues, the lines that are left, its monitors, and where in the space its objects began.
#[derive(Drop)]
pub(crate) struct World {
    heap: TwinHeap<MemoryImage>,
    queue: Conversions,
    space: PersistSpace,
    monitors: Monitors,
    objects: Vec<u32>,
}

/// What a heap is made of.
#[derive(Clone, Copy)]
pub(crate) struct Size {
    /// how many words the space has
    pub words: u32,
    /// the first line that no object of the image has taken
    pub free: u32,
}

fn field(alloc: Global, name: &[u8], kind: Kind) -> Result<Field, AllocError> {
    Ok(Field {
        name: Bytes::copy(alloc, name)?,
        kind,
        kept: true,
    })
}

/// The shapes of int[] and Node.
fn shapes(alloc: Global) -> Result<[Shape; 2], AllocError> {
    let mut fields = ListOf::new(alloc);
    fields.push(field(alloc, b"v", Kind::I)?)?;
    fields.push(field(alloc, b"next", Kind::L)?)?;
    let ints = Shape {
        name: Bytes::copy(alloc, b"[I")?,
        fields: ListOf::new(alloc),
        element: Some(Kind::I),
    };
    let node = Shape {
        name: Bytes::copy(alloc, b"Node")?,
        fields,
        element: None,
    };
    Ok([ints, node])
}

/// Fails from a call on, with room for so many writes and fences.
pub(crate) fn fails(alloc: Global, since: u64, room: u32) -> Fails {
    Fails {
        calls: Vec::new(alloc),
        since,
        room,
    }
}

/// A heap without objects over a memory.
fn heap(
    alloc: Global,
    memory: LineMemory<MemoryImage>,
    words: u32,
) -> Result<TwinHeap<MemoryImage>, Fail>
    requires few { words < 2 ^ 31 }
    requires lines { memory.size < 2 ^ 32 }
    ensures lies { IfOk result (λ heap. Lies (sight heap.space heap.memory heap.marks) []) }
    ensures memory { IfOk result (λ heap. heap.memory ≡ memory) }
    ensures shapes { IfOk result (λ heap. length heap.marks.kinds ≡ 2) }
{
    let space = VolatileSpace::reserve(alloc, words)?;
    match TwinHeap::new(alloc, &shapes(alloc)?, &[], space, memory) {
        Ok(heap) => Ok(heap),
        Err(_) => Err(Fail::from("memory for a heap")),
    }
}

impl World {
    /// A heap without objects over an image, whose lines from `free` on are left.
    pub(crate) fn open(alloc: Global, image: MemoryImage, size: Size) -> Result<World, Fail>
        ensures whole { IfOk result (λ w. IsWorld w.heap.space w.heap.memory w.heap.marks
            w.queue w.space w.monitors w.objects.items) }
    {
        let Ok(memory) = LineMemory::attach(alloc, image) else {
            return Err(Fail::from("attached"));
        };
        if memory.lines() != u64::from(LINES)
            || size.free == 0
            || size.free > LINES
            || size.words > 1_000_000
        {
            return Err(Fail::from("lines"));
        }
        Ok(World {
            heap: heap(alloc, memory, size.words)?,
            queue: Conversions::reserve(alloc, LINES)?,
            space: PersistSpace::new(size.free, LINES),
            monitors: Monitors::reserve(alloc)?,
            objects: Vec::new(alloc),
        })
    }

    /// Makes an object, all of whose slots are 0.
    pub(crate) fn make(&mut self, shape: u32, slots: u32) -> Result<(), Fail>
        requires whole { IsWorld self.old.heap.space self.old.heap.memory self.old.heap.marks
            self.old.queue self.old.space self.old.monitors self.old.objects.items }
        ensures whole { IfOk result (λ _. IsWorld self.new.heap.space self.new.heap.memory self.new.heap.marks
            self.new.queue self.new.space self.new.monitors self.new.objects.items) }
    {
        if shape > NODE || slots >= 1_000_000 {
            return Err(Fail::from("a shape"));
        }
        self.objects.reserve(1)?;
        let Some(Ref::Volatile(at)) = self.heap.alloc(shape, slots) else {
            return Err(Fail::from("words of the space"));
        };
        self.objects.push_reserved(at);
        Ok(())
    }

    /// The reference with which an object began.
    fn object(&self, number: u32) -> Result<u32, Fail>
        requires whole { IsWorld self.now.heap.space self.now.heap.memory self.now.heap.marks
            self.now.queue self.now.space self.now.monitors self.now.objects.items }
        ensures object { IfOk result (λ at. (number < length self.now.objects.items)
            × (at ≡ slice_index self.now.objects.items number)) }
    {
        if number as usize >= self.objects.len() {
            return Err(Fail::from("an object"));
        }
        Ok(self.objects[number as usize])
    }
    /// Stores to an object that no thread has claimed and that isn't durable.
    fn store_ordinary(&mut self, number: u32, object: u32, slot: u32, word: u64) -> bool
        requires whole { IsWorld self.old.heap.space self.old.heap.memory self.old.heap.marks
            self.old.queue self.old.space self.old.monitors self.old.objects.items }
        requires object { (number < length self.old.objects.items)
            × (object ≡ slice_index self.old.objects.items number) }
        requires reference { (w : IsWorld self.old.heap.space self.old.heap.memory self.old.heap.marks
            self.old.queue self.old.space self.old.monitors self.old.objects.items)
            → refers (sight self.old.heap.space self.old.heap.memory self.old.heap.marks)
            (entry w.table number) slot ≡ true → IsRef w.table word }
        ensures whole { IsTrue result → IsWorld self.new.heap.space self.new.heap.memory self.new.heap.marks
            self.new.queue self.new.space self.new.monitors self.new.objects.items }
    {
        let r = Ref::Volatile(object);
        let None = self.heap.claimed_by(r) else {
            return false;
        };
        if self.heap.in_p(r) || slot >= self.heap.slots_at(object) {
            return false;
        }
        self.heap.plain_store(r, slot, word);
        true
    }

    /// Lets a slot of one object refer to another one.
    pub(crate) fn link(&mut self, number: u32, slot: u32, to: u32) -> Result<(), Fail>
        requires whole { IsWorld self.old.heap.space self.old.heap.memory self.old.heap.marks
            self.old.queue self.old.space self.old.monitors self.old.objects.items }
        ensures whole { IfOk result (λ _. IsWorld self.new.heap.space self.new.heap.memory self.new.heap.marks
            self.new.queue self.new.space self.new.monitors self.new.objects.items) }
    {
        let object = self.object(number)?;
        let word = 2 * u64::from(self.object(to)?) + 1;
        if !self.store_ordinary(number, object, slot, word) {
            return Err(Fail::from("an ordinary object"));
        }
        Ok(())
    }

    /// Stores a word that is no reference to a slot of an ordinary object.
    pub(crate) fn set(&mut self, number: u32, slot: u32, word: u64) -> Result<(), Fail>
        requires whole { IsWorld self.old.heap.space self.old.heap.memory self.old.heap.marks
            self.old.queue self.old.space self.old.monitors self.old.objects.items }
        ensures whole { IfOk result (λ _. IsWorld self.new.heap.space self.new.heap.memory self.new.heap.marks
            self.new.queue self.new.space self.new.monitors self.new.objects.items) }
    {
        let object = self.object(number)?;
        if self.heap.refers_at(object, slot) {
            return Err(Fail::from("a slot for an int"));
        }
        if !self.store_ordinary(number, object, slot, word) {
            return Err(Fail::from("an ordinary object"));
        }
        Ok(())
    }

    /// Stores a word that is no reference to a slot of a claimed object, and tells the queue where the slot's line has been
    /// copied.
    pub(crate) fn store(&mut self, number: u32, slot: u32, word: u64) -> Result<(), Fail>
        requires whole { IsWorld self.old.heap.space self.old.heap.memory self.old.heap.marks
            self.old.queue self.old.space self.old.monitors self.old.objects.items }
        ensures whole { IfOk result (λ _. IsWorld self.new.heap.space self.new.heap.memory self.new.heap.marks
            self.new.queue self.new.space self.new.monitors self.new.objects.items) }
    {
        let object = self.object(number)?;
        let r = Ref::Volatile(object);
        let Some(claimer) = self.heap.claimed_by(r) else {
            return Err(Fail::from("a claimed object"));
        };
        if slot >= self.heap.slots_at(object) || self.heap.refers_at(object, slot) {
            return Err(Fail::from("a slot for an int"));
        }
        let Ok(Touch::Ready) = self.heap.resident(r, slot) else {
            return Err(Fail::from("resident lines"));
        };
        let copied = self.heap.copied_line(r, slot);
        self.heap.plain_store(r, slot, word);
        match copied {
            Some(line) => self.queue.dirty(claimer, line),
            None => {}
        }
        Ok(())
    }

    /// The word of a slot.
    pub(crate) fn read(&mut self, number: u32, slot: u32) -> Result<u64, Fail>
        requires whole { IsWorld self.old.heap.space self.old.heap.memory self.old.heap.marks
            self.old.queue self.old.space self.old.monitors self.old.objects.items }
        ensures whole { IfOk result (λ _. IsWorld self.new.heap.space self.new.heap.memory self.new.heap.marks
            self.new.queue self.new.space self.new.monitors self.new.objects.items) }
    {
        let object = self.object(number)?;
        let r = Ref::Volatile(object);
        if slot >= self.heap.slots_at(object) {
            return Err(Fail::from("a slot"));
        }
        let Ok(Touch::Ready) = self.heap.resident(r, slot) else {
            return Err(Fail::from("resident lines"));
        };
        Ok(self.heap.read_slot(r, slot))
    }

    /// Begins to convert an object, by a thread with nothing queued.
    pub(crate) fn begin(&mut self, t: ThreadNo, number: u32) -> Result<Begun, Fail>
        requires whole { IsWorld self.old.heap.space self.old.heap.memory self.old.heap.marks
            self.old.queue self.old.space self.old.monitors self.old.objects.items }
        ensures whole { IfOk result (λ _. IsWorld self.new.heap.space self.new.heap.memory self.new.heap.marks
            self.new.queue self.new.space self.new.monitors self.new.objects.items) }
    {
        let value = Ref::Volatile(self.object(number)?);
        let None = self.queue.queued(t, 0) else {
            return Err(Fail::from("nothing queued"));
        };
        if self.heap.in_p(value) {
            return Err(Fail::from("no durable object"));
        }
        Ok(begin_conversion(t, &mut self.heap, &mut self.queue, &mut self.space, value))
    }

    /// One event of a thread's conversion.
    pub(crate) fn step(&mut self, t: ThreadNo) -> Result<ConvertStep, ImageFailed>
        requires whole { IsWorld self.old.heap.space self.old.heap.memory self.old.heap.marks
            self.old.queue self.old.space self.old.monitors self.old.objects.items }
        ensures whole { IsWorld self.new.heap.space self.new.heap.memory self.new.heap.marks
            self.new.queue self.new.space self.new.monitors self.new.objects.items }
    {
        convert_next(
            t,
            &mut self.heap,
            &mut self.queue,
            &mut self.space,
            &mut self.monitors,
        )
    }

    /// How many lines are left.
    pub(crate) fn left(&self) -> u32 {
        self.space.left()
    }

    /// How many objects are claimed, and how many are durable.
    pub(crate) fn counts(&self) -> (u32, u32)
        requires whole { IsWorld self.now.heap.space self.now.heap.memory self.now.heap.marks
            self.now.queue self.now.space self.now.monitors self.now.objects.items }
    {
        let mut counts = (0_u32, 0_u32);
        for at in 0..self.objects.len() {
            let r = Ref::Volatile(self.objects[at]);
            if self.heap.claimed_by(r).is_some() {
                counts.0 = counts.0.wrapping_add(1);
            }
            if self.heap.in_p(r) {
                counts.1 = counts.1.wrapping_add(1);
            }
        }
        counts
    }

    /// The image.
    pub(crate) fn into_image(self) -> MemoryImage {
        let World {
            heap: TwinHeap { memory, .. },
            ..
        } = self;
        memory.into_image()
    }
}
