// What the places of a heap hold, stores, and new objects.
ghost use Rattle.std.specs.Prelude.{◌≡◌, ◌<◌, ◌-◌, ◌^◌, ◌↔◌, length, map, All, IsTrue, IfOk, OnOk, OnErr};
ghost use Rattle.graph_model.specs.declared.types.Field.{Field as InstanceField};
ghost use Rattle.graph_model.specs.Heaps.{IsBelow, IsSound, HasPlace, value_at, stored, with_fresh, values_of, fresh_values};
ghost use Rattle.graph_model.specs.Heaps.{default_of};

use crate::{Field, Heap, Obj, Shape, Value};
use ap_base::{Kind, ListOf, Place};
use std::alloc::{AllocError, Global};

impl Value {
    /// What a place of this kind holds at first (JVMS 2.3, 2.4).
    pub fn default_of(kind: Kind) -> Value
        ensures { result ≡ default_of kind }
    {
        match kind {
            Kind::J => Value::Long(0),
            Kind::L => Value::Null,
            Kind::Z | Kind::B | Kind::C | Kind::S | Kind::I | Kind::Text => Value::Int(0),
        }
    }

    // Whether the value is no object, or one of the first so many.
    fn is_below(self, objects: usize) -> bool
        ensures { IsTrue result ↔ IsBelow objects self }
    {
        match self {
            Value::Obj(object) => (object as usize) < objects,
            Value::Int(_) | Value::Long(_) | Value::Null => true,
        }
    }
}

impl Heap {
    /// Whether each reference names an object, each object's shape is there, each root's static is there, and
    /// there are fewer than 2^32 objects.
    pub fn is_sound(&self) -> bool
        ensures { IsTrue result ↔ IsSound self.now }
    {
        self.objects.len() < 1 << 32
            && self
                .objects
                .as_slice()
                .iter()
                .all(|object| (object.shape as usize) < self.shapes.len())
            && self
                .objects
                .as_slice()
                .iter()
                .all(|object| self.has_referents(object.values.as_slice()))
            && self.has_referents(self.statics.as_slice())
            && self
                .roots
                .as_slice()
                .iter()
                .all(|root| (root.at as usize) < self.statics.len())
    }

    /// Whether each reference among the values names an object of the heap.
    pub fn has_referents(&self, values: &[Value]) -> bool
        ensures { IsTrue result ↔ All (IsBelow (length self.now.objects)) values.now }
    {
        values
            .iter()
            .all(|value| value.is_below(self.objects.len()))
    }

    /// The values of an object's fields or elements.
    pub fn values(&self, object: u32) -> &[Value]
        requires { object < length self.now.objects }
        ensures { result.now ≡ values_of self.now object }
    {
        self.objects.as_slice()[object as usize].values.as_slice()
    }

    /// What a place holds.
    pub fn read(&self, place: Place) -> Value
        requires { HasPlace self.now place }
        ensures { result ≡ value_at self.now place }
    {
        match place {
            Place::Static(n) => self.statics.as_slice()[n as usize],
            Place::Slot { object, index } => self.values(object)[index as usize],
        }
    }

    /// Stores a value in a place. Nothing else changes.
    pub fn store(&mut self, place: Place, value: Value)
        requires { HasPlace self.old place }
        ensures { self.new ≡ stored self.old place value }
    {
        match place {
            Place::Static(n) => self.statics.set(n as usize, value),
            Place::Slot { object, index } => {
                let object = self.objects.get_mut(object as usize);
                object.values.set(index as usize, value);
            }
        }
    }

    /// Adds an object of a shape, with the default values of its fields or of `count` elements (JVMS 2.3, 2.4).
    /// Answers its number, which is the next one. Without memory the heap is as before.
    pub fn add(&mut self, alloc: Global, shape: u32, count: u32) -> Result<u32, AllocError>
        requires shape { shape < length self.old.shapes }
        requires room { length self.old.objects < 2 ^ 32 - 1 }
        ensures added { OnOk result (self.new ≡ with_fresh self.old shape count) }
        ensures number { IfOk result (λ n. n ≡ length self.old.objects) }
        ensures same { OnErr result (self.new ≡ self.old) }
    {
        let values = fresh_values(alloc, &self.shapes.as_slice()[shape as usize], count)?;
        let number = self.objects.len() as u32;
        self.objects.push(Obj { shape, values })?;
        Ok(number)
    }
}

// The values of a new object: its fields' defaults, or so many elements.
fn fresh_values(alloc: Global, shape: &Shape, count: u32) -> Result<ListOf<Value>, AllocError>
    ensures { IfOk result (λ values. values ≡ fresh_values shape.now count) }
{
    let values = match shape.element {
        None => field_defaults(alloc, shape.fields.as_slice())?,
        Some(kind) => vec![in alloc; Value::default_of(kind); count as usize]?,
    };
    Ok(ListOf::from_vec(values))
}

fn field_defaults(alloc: Global, fields: &[Field]) -> Result<Vec<Value>, AllocError>
    ensures { IfOk result (λ values. values.items ≡ map (λ (f : InstanceField). default_of f.kind) fields.now) }
{
    fields
        .iter()
        .map(|field| Value::default_of(field.kind))
        .collect(alloc)
}
