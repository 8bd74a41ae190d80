//! Requests of rows.

ghost use Rattle.std.specs.Prelude.{◌≡◌, ◌≢◌, ℕ, true, IsSome, IsTrue, List, Some};
ghost use Rattle.ap_base.specs.declared.reference.Item.TheVariants.{Ref as RefItem};
ghost use Rattle.ap_base.specs.declared.reference.Ref.TheVariants.{Null};
ghost use Rattle.plain_model.specs.Classes.{is_made};
ghost use Rattle.plain_model.specs.Duties.{IsClass, IsInstanceField, IsStaticField};
ghost use Rattle.plain_model.specs.Facts.{SetFacts, class_at, element_of, string_number};
ghost use Rattle.shared_objects.specs.Shown.{IsKnown};
ghost use Rattle.twin_forms.specs.Table.{Entry, HasCopied, entry, line_of};
ghost use Rattle.two_spaces.specs.Whole.{HasLine, Stands};
ghost use Rattle.two_spaces.specs.Seen.{shown_of};
ghost use Rattle.space_rows.specs.Worlds.{Holds, MayRefer, spaces_of};

use crate::world::World;
use ap_base::{Item, Kind, Ref, ThreadNo};
use natives::Request;
use run_types::{At, FieldAt, Key};
use shared_objects::Types;
use std::alloc::AllocError;
use step_forms::Stepped;

/// Where requests of rows come from.
const FROM: At = At {
    class: 0,
    method: 0,
    pc: 0,
};

type Answer = Result<Option<Stepped>, AllocError>;

impl World {
    /// A new object of a class.
    pub fn new_object<C: Types>(&mut self, types: &C, class: u32) -> Answer
        requires holds { Holds (C.facts types.now) self.old.spaces self.old.rest
            self.old.refs.items self.old.next self.old.acts self.old.entered }
        requires class { IsClass (C.facts types.now) class }
        requires made { is_made (class_at (C.facts types.now) class) ≡ true }
        ensures holds { Holds (C.facts types.now) self.new.spaces self.new.rest
            self.new.refs.items self.new.next self.new.acts self.new.entered }
    {
        self.step(types, ThreadNo::main(), &Request::New { from: FROM, class })
    }

    /// A new array of an array type.
    pub fn new_array<C: Types>(&mut self, types: &C, shape: u32, length: i32) -> Answer
        requires holds { Holds (C.facts types.now) self.old.spaces self.old.rest
            self.old.refs.items self.old.next self.old.acts self.old.entered }
        requires class { IsClass (C.facts types.now) shape }
        requires elements { IsSome (element_of (C.facts types.now) shape) }
        requires other { shape ≢ string_number (C.facts types.now) }
        ensures holds { Holds (C.facts types.now) self.new.spaces self.new.rest
            self.new.refs.items self.new.next self.new.acts self.new.entered }
    {
        let request = Request::NewArray {
            from: FROM,
            shape,
            length,
        };
        self.step(types, ThreadNo::main(), &request)
    }

    /// What a field of an object holds.
    pub fn get<C: Types>(&mut self, types: &C, place: u8, field: FieldAt) -> Answer
        requires holds { Holds (C.facts types.now) self.old.spaces self.old.rest
            self.old.refs.items self.old.next self.old.acts self.old.entered }
        requires field { IsInstanceField (C.facts types.now) field }
        ensures holds { Holds (C.facts types.now) self.new.spaces self.new.rest
            self.new.refs.items self.new.next self.new.acts self.new.entered }
    {
        let request = Request::GetField {
            from: FROM,
            holder: self.named(place),
            field,
        };
        self.step(types, ThreadNo::main(), &request)
    }

    /// Stores an int to a field of an object.
    pub fn put_int<C: Types>(&mut self, types: &C, place: u8, field: FieldAt, value: i32) -> Answer
        requires holds { Holds (C.facts types.now) self.old.spaces self.old.rest
            self.old.refs.items self.old.next self.old.acts self.old.entered }
        requires field { IsInstanceField (C.facts types.now) field }
        requires kind { field.kind ≡ Kind.I }
        ensures holds { Holds (C.facts types.now) self.new.spaces self.new.rest
            self.new.refs.items self.new.next self.new.acts self.new.entered }
    {
        let request = Request::PutField {
            from: FROM,
            holder: self.named(place),
            field,
            value: Item::Int(value),
        };
        self.step(types, ThreadNo::main(), &request)
    }

    /// Stores a long to a field of an object.
    pub fn put_long<C: Types>(&mut self, types: &C, place: u8, field: FieldAt, value: i64) -> Answer
        requires holds { Holds (C.facts types.now) self.old.spaces self.old.rest
            self.old.refs.items self.old.next self.old.acts self.old.entered }
        requires field { IsInstanceField (C.facts types.now) field }
        requires kind { field.kind ≡ Kind.J }
        ensures holds { Holds (C.facts types.now) self.new.spaces self.new.rest
            self.new.refs.items self.new.next self.new.acts self.new.entered }
    {
        let request = Request::PutField {
            from: FROM,
            holder: self.named(place),
            field,
            value: Item::Long(value),
        };
        self.step(types, ThreadNo::main(), &request)
    }

    // Whether the object has a current copy in lines, or is none.
    fn has_line(&self, r: Ref) -> bool
        requires holds { (set : SetFacts) × Holds set self.now.spaces self.now.rest
            self.now.refs.items self.now.next self.now.acts self.now.entered }
        requires known { IsKnown (shown_of (spaces_of self.now.spaces)).number r }
        ensures line { IsTrue result → (es : List Entry) → Stands (spaces_of self.now.spaces) es
            → HasLine es (RefItem r) }
    {
        match r {
            Ref::Null => true,
            _ => matches!(self.spaces.heap.resolved(r), Ref::Persistent(_)),
        }
    }

    // Whether an object has a slot that isn't in a copied line.
    fn is_old(&self, holder: Ref, index: u32) -> bool
        requires holds { (set : SetFacts) × Holds set self.now.spaces self.now.rest
            self.now.refs.items self.now.next self.now.acts self.now.entered }
        requires known { IsKnown (shown_of (spaces_of self.now.spaces)).number holder }
        requires some { holder ≢ Null }
        ensures none { IsTrue result → (es : List Entry) → Stands (spaces_of self.now.spaces) es
            → (n : ℕ) → (shown_of (spaces_of self.now.spaces)).number holder ≡ Some n
            → HasCopied (entry es n) (line_of index) → ⊥ }
    {
        if self.spaces.heap.length_of(holder) <= index {
            return false;
        }
        match self.spaces.heap.copied_line(holder, index) {
            None => true,
            Some(_) => false,
        }
    }

    // Whether the slot of an object has no copied line, or the value may be stored to lines.
    fn may_refer(&self, holder: Ref, index: u32, value: Ref) -> bool
        requires holds { (set : SetFacts) × Holds set self.now.spaces self.now.rest
            self.now.refs.items self.now.next self.now.acts self.now.entered }
        requires known { IsKnown (shown_of (spaces_of self.now.spaces)).number holder }
        requires value { IsKnown (shown_of (spaces_of self.now.spaces)).number value }
        ensures may { IsTrue result → (es : List Entry) → Stands (spaces_of self.now.spaces) es
            → MayRefer (spaces_of self.now.spaces) es holder index value }
    {
        if self.has_line(value) {
            return true;
        }
        match holder {
            Ref::Null => true,
            _ => self.is_old(holder, index),
        }
    }

    /// Stores a reference to a field of an object.
    pub fn refer<C: Types>(&mut self, types: &C, place: u8, field: FieldAt, value: u8) -> Answer
        requires holds { Holds (C.facts types.now) self.old.spaces self.old.rest
            self.old.refs.items self.old.next self.old.acts self.old.entered }
        requires field { IsInstanceField (C.facts types.now) field }
        requires kind { field.kind ≡ Kind.L }
        ensures holds { Holds (C.facts types.now) self.new.spaces self.new.rest
            self.new.refs.items self.new.next self.new.acts self.new.entered }
    {
        let (holder, value) = (self.named(place), self.named(value));
        if !self.may_refer(holder, field.at, value) {
            return Ok(None);
        }
        let request = Request::PutField {
            from: FROM,
            holder,
            field,
            value: Item::Ref(value),
        };
        self.step(types, ThreadNo::main(), &request)
    }

    /// What an element of an array of this kind holds.
    pub fn element<C: Types>(&mut self, types: &C, place: u8, index: i32, kind: Kind) -> Answer
        requires holds { Holds (C.facts types.now) self.old.spaces self.old.rest
            self.old.refs.items self.old.next self.old.acts self.old.entered }
        ensures holds { Holds (C.facts types.now) self.new.spaces self.new.rest
            self.new.refs.items self.new.next self.new.acts self.new.entered }
    {
        let request = Request::GetElement {
            from: FROM,
            array: self.named(place),
            index,
            kind,
        };
        self.step(types, ThreadNo::main(), &request)
    }

    /// Stores an int to an element of an array.
    pub fn put_element<C: Types>(&mut self, types: &C, place: u8, index: i32, value: i32) -> Answer
        requires holds { Holds (C.facts types.now) self.old.spaces self.old.rest
            self.old.refs.items self.old.next self.old.acts self.old.entered }
        ensures holds { Holds (C.facts types.now) self.new.spaces self.new.rest
            self.new.refs.items self.new.next self.new.acts self.new.entered }
    {
        let request = Request::PutElement {
            from: FROM,
            array: self.named(place),
            index,
            kind: Kind::I,
            value: Item::Int(value),
        };
        self.step(types, ThreadNo::main(), &request)
    }

    /// Stores a reference with a current copy in lines to an element of an array.
    pub fn refer_element<C: Types>(&mut self, types: &C, place: u8, index: i32, value: u8) -> Answer
        requires holds { Holds (C.facts types.now) self.old.spaces self.old.rest
            self.old.refs.items self.old.next self.old.acts self.old.entered }
        ensures holds { Holds (C.facts types.now) self.new.spaces self.new.rest
            self.new.refs.items self.new.next self.new.acts self.new.entered }
    {
        let value = self.named(value);
        if !self.has_line(value) {
            return Ok(None);
        }
        let request = Request::PutElement {
            from: FROM,
            array: self.named(place),
            index,
            kind: Kind::L,
            value: Item::Ref(value),
        };
        self.step(types, ThreadNo::main(), &request)
    }

    pub fn length<C: Types>(&mut self, types: &C, place: u8) -> Answer
        requires holds { Holds (C.facts types.now) self.old.spaces self.old.rest
            self.old.refs.items self.old.next self.old.acts self.old.entered }
        ensures holds { Holds (C.facts types.now) self.new.spaces self.new.rest
            self.new.refs.items self.new.next self.new.acts self.new.entered }
    {
        let request = Request::Length {
            from: FROM,
            array: self.named(place),
        };
        self.step(types, ThreadNo::main(), &request)
    }

    pub fn same<C: Types>(&mut self, types: &C, left: u8, right: u8) -> Answer
        requires holds { Holds (C.facts types.now) self.old.spaces self.old.rest
            self.old.refs.items self.old.next self.old.acts self.old.entered }
        ensures holds { Holds (C.facts types.now) self.new.spaces self.new.rest
            self.new.refs.items self.new.next self.new.acts self.new.entered }
    {
        let request = Request::Same {
            from: FROM,
            left: self.named(left),
            right: self.named(right),
        };
        self.step(types, ThreadNo::main(), &request)
    }

    /// The class of an object of a subtype of a class.
    pub fn class_of<C: Types>(&mut self, types: &C, place: u8, within: u32) -> Answer
        requires holds { Holds (C.facts types.now) self.old.spaces self.old.rest
            self.old.refs.items self.old.next self.old.acts self.old.entered }
        requires class { IsClass (C.facts types.now) within }
        ensures holds { Holds (C.facts types.now) self.new.spaces self.new.rest
            self.new.refs.items self.new.next self.new.acts self.new.entered }
    {
        let request = Request::ClassOf {
            from: FROM,
            object: self.named(place),
            within,
        };
        self.step(types, ThreadNo::main(), &request)
    }

    pub fn enter<C: Types>(&mut self, types: &C, t: ThreadNo, place: u8) -> Answer
        requires holds { Holds (C.facts types.now) self.old.spaces self.old.rest
            self.old.refs.items self.old.next self.old.acts self.old.entered }
        ensures holds { Holds (C.facts types.now) self.new.spaces self.new.rest
            self.new.refs.items self.new.next self.new.acts self.new.entered }
    {
        let key = Key::Object(self.named(place));
        self.step(types, t, &Request::Enter { from: FROM, key })
    }

    pub fn exit<C: Types>(&mut self, types: &C, t: ThreadNo, place: u8) -> Answer
        requires holds { Holds (C.facts types.now) self.old.spaces self.old.rest
            self.old.refs.items self.old.next self.old.acts self.old.entered }
        ensures holds { Holds (C.facts types.now) self.new.spaces self.new.rest
            self.new.refs.items self.new.next self.new.acts self.new.entered }
    {
        let key = Key::Object(self.named(place));
        self.step(types, t, &Request::Exit { from: FROM, key })
    }

    /// What a static field holds.
    pub fn get_static<C: Types>(&mut self, types: &C, field: FieldAt) -> Answer
        requires holds { Holds (C.facts types.now) self.old.spaces self.old.rest
            self.old.refs.items self.old.next self.old.acts self.old.entered }
        requires field { IsStaticField (C.facts types.now) field }
        ensures holds { Holds (C.facts types.now) self.new.spaces self.new.rest
            self.new.refs.items self.new.next self.new.acts self.new.entered }
    {
        let request = Request::GetStatic { from: FROM, field };
        self.step(types, ThreadNo::main(), &request)
    }

    /// Stores an int to a static field.
    pub fn put_static<C: Types>(&mut self, types: &C, field: FieldAt, value: i32) -> Answer
        requires holds { Holds (C.facts types.now) self.old.spaces self.old.rest
            self.old.refs.items self.old.next self.old.acts self.old.entered }
        requires field { IsStaticField (C.facts types.now) field }
        requires kind { field.kind ≡ Kind.I }
        ensures holds { Holds (C.facts types.now) self.new.spaces self.new.rest
            self.new.refs.items self.new.next self.new.acts self.new.entered }
    {
        let request = Request::PutStatic {
            from: FROM,
            field,
            value: Item::Int(value),
        };
        self.step(types, ThreadNo::main(), &request)
    }

    /// Stores a reference with a current copy in lines to a static field.
    pub fn refer_static<C: Types>(&mut self, types: &C, field: FieldAt, value: u8) -> Answer
        requires holds { Holds (C.facts types.now) self.old.spaces self.old.rest
            self.old.refs.items self.old.next self.old.acts self.old.entered }
        requires field { IsStaticField (C.facts types.now) field }
        requires kind { field.kind ≡ Kind.L }
        ensures holds { Holds (C.facts types.now) self.new.spaces self.new.rest
            self.new.refs.items self.new.next self.new.acts self.new.entered }
    {
        let value = self.named(value);
        if !self.has_line(value) {
            return Ok(None);
        }
        let request = Request::PutStatic {
            from: FROM,
            field,
            value: Item::Ref(value),
        };
        self.step(types, ThreadNo::main(), &request)
    }
}
