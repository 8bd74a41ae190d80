// Acts that are the steps of requests which aren't made, and the tests of such stores.
ghost use Rattle.std.specs.Prelude.{◌≡◌, ◌<◌, ◌≤◌, length, None, Some, IfSome, true, false};
ghost use Rattle.monitors.specs.Indexed.{AreSound};
ghost use Rattle.natives.specs.declared.requests.Request.TheVariants as ask;
ghost use Rattle.natives.specs.declared.requests.Reply.TheVariants.{Done, Shape};
ghost use Rattle.run_types.specs.declared.resolved.At.{At as From};
ghost use Rattle.step_forms.specs.Follows.{Agrees};
ghost use Rattle.two_spaces.specs.Whole.{IsWhole};
ghost use Rattle.store_barrier.specs.Passed.{memory_of, shown_in};
ghost use Rattle.shared_heap.specs.Requests.{IsPlannedFor, MayRequest};
ghost use Rattle.shared_heap.specs.Quick.{AnswersTo, ReadsTo};

use crate::SharedHeap;
use crate::at_once::{
    is_finished, planned_element, planned_field, read_class, read_element, read_field, read_length,
    read_static,
};
use crate::telling::tell_op;
use ap_base::{Item, Kind, Place, Ref, ThreadNo};
use line_image::Image;
use object_steps::Store;
use run_history::{Op, Stage};
use run_types::FieldAt;
use shared_objects::Types;

impl<I: Image> SharedHeap<I> {
    /// What a field of an object holds, where the step of a request for it reads it: that step is taken. None where
    /// that step throws, or finds a wrong operand; then nothing is changed.
    #[inline(always)]
    pub fn read_field<C: Types>(
        &mut self,
        set: &C,
        t: ThreadNo,
        holder: Ref,
        field: FieldAt,
    ) -> Option<Item>
        requires whole { IsWhole self.old.machine.spaces }
        requires long { 33 ≤ (memory_of self.old.machine).size }
        requires sound { AreSound self.old.machine.rest.monitors }
        requires agrees { Agrees (C.facts set.now) (shown_in self.old.machine)
            self.old.machine.rest }
        requires may { (from : From)
            × MayRequest (C.facts set.now) self.old.machine t (ask.GetField from holder field) }
        requires room { length self.old.history.acts < self.old.history.limit }
        ensures reads { IfSome result (λ item. (from : From)
            → ReadsTo (C.facts set.now) t (ask.GetField from holder field) item self.old self.new) }
        ensures none { result ≡ None → self.new ≡ self.old }
    {
        let at = self.spaces.heap.memory.calls();
        let Some(got) = read_field(set, &self.spaces, holder, field) else {
            return None;
        };
        let place = Place::Slot {
            object: got.object,
            index: got.index,
        };
        let value = got.value;
        tell_op(&mut self.acts, t, at, Op::Read { place, value });
        Some(got.item)
    }

    /// What an element of an array holds, or a char of a String, where the step of a request for it reads it: that step is
    /// taken. None where that step throws, or finds a wrong operand; then nothing is changed.
    #[inline(always)]
    pub fn read_element<C: Types>(
        &mut self,
        set: &C,
        t: ThreadNo,
        array: Ref,
        index: i32,
        kind: Kind,
    ) -> Option<Item>
        requires whole { IsWhole self.old.machine.spaces }
        requires long { 33 ≤ (memory_of self.old.machine).size }
        requires sound { AreSound self.old.machine.rest.monitors }
        requires agrees { Agrees (C.facts set.now) (shown_in self.old.machine)
            self.old.machine.rest }
        requires may { (from : From)
            × MayRequest (C.facts set.now) self.old.machine t (ask.GetElement from array index kind) }
        requires room { length self.old.history.acts < self.old.history.limit }
        ensures reads { IfSome result (λ item. (from : From)
            → ReadsTo (C.facts set.now) t (ask.GetElement from array index kind) item self.old self.new) }
        ensures none { result ≡ None → self.new ≡ self.old }
    {
        let at = self.spaces.heap.memory.calls();
        let Some(got) = read_element(set, &self.spaces, array, index, kind) else {
            return None;
        };
        let place = Place::Slot {
            object: got.object,
            index: got.index,
        };
        let value = got.value;
        tell_op(&mut self.acts, t, at, Op::Read { place, value });
        Some(got.item)
    }

    /// What a static field holds, where its class is initialised, and so the step of a request for it reads it: that step is
    /// taken. None where the class isn't; then nothing is changed.
    #[inline(always)]
    pub fn read_static<C: Types>(&mut self, set: &C, t: ThreadNo, field: FieldAt) -> Option<Item>
        requires whole { IsWhole self.old.machine.spaces }
        requires long { 33 ≤ (memory_of self.old.machine).size }
        requires sound { AreSound self.old.machine.rest.monitors }
        requires agrees { Agrees (C.facts set.now) (shown_in self.old.machine)
            self.old.machine.rest }
        requires may { (from : From)
            × MayRequest (C.facts set.now) self.old.machine t (ask.GetStatic from field) }
        requires room { length self.old.history.acts < self.old.history.limit }
        ensures reads { IfSome result (λ item. (from : From)
            → ReadsTo (C.facts set.now) t (ask.GetStatic from field) item self.old self.new) }
        ensures none { result ≡ None → self.new ≡ self.old }
    {
        let at = self.spaces.heap.memory.calls();
        let Some(got) = read_static(&self.spaces, &self.rest, field) else {
            return None;
        };
        let place = Place::Static(field.at);
        let value = got.value;
        tell_op(&mut self.acts, t, at, Op::Read { place, value });
        Some(got.item)
    }

    /// The length of an array or a String, where the step of a request for it tells it: that step is taken. None where that step
    /// throws, or finds a wrong operand; then nothing is changed.
    #[inline(always)]
    pub fn read_length<C: Types>(&mut self, set: &C, t: ThreadNo, array: Ref) -> Option<Item>
        requires whole { IsWhole self.old.machine.spaces }
        requires long { 33 ≤ (memory_of self.old.machine).size }
        requires sound { AreSound self.old.machine.rest.monitors }
        requires agrees { Agrees (C.facts set.now) (shown_in self.old.machine)
            self.old.machine.rest }
        requires may { (from : From)
            × MayRequest (C.facts set.now) self.old.machine t (ask.Length from array) }
        requires room { length self.old.history.acts < self.old.history.limit }
        ensures reads { IfSome result (λ item. (from : From)
            → ReadsTo (C.facts set.now) t (ask.Length from array) item self.old self.new) }
        ensures none { result ≡ None → self.new ≡ self.old }
    {
        let at = self.spaces.heap.memory.calls();
        let Some(got) = read_length(set, &self.spaces, array) else {
            return None;
        };
        let object = got.object;
        let length = got.length;
        tell_op(&mut self.acts, t, at, Op::Length { object, length });
        Some(got.item)
    }

    /// A turn ends without a request of the heap: that step is taken.
    #[inline(always)]
    pub fn pause<C: Types>(&mut self, set: &C, t: ThreadNo)
        requires sound { AreSound self.old.machine.rest.monitors }
        requires agrees { Agrees (C.facts set.now) (shown_in self.old.machine)
            self.old.machine.rest }
        requires room { length self.old.history.acts < self.old.history.limit }
        ensures answers { AnswersTo (C.facts set.now) t ask.Pause Done self.old self.new }
    {
        let at = self.spaces.heap.memory.calls();
        tell_op(&mut self.acts, t, at, Op::Pause);
    }

    /// The class of an object that is a subtype of `within`, where the step of a request for it tells that: that step is
    /// taken. None where that step throws, or finds a wrong operand; then nothing is changed.
    #[inline(always)]
    pub fn class_of<C: Types>(
        &mut self,
        set: &C,
        t: ThreadNo,
        object: Ref,
        within: u32,
    ) -> Option<u32>
        requires whole { IsWhole self.old.machine.spaces }
        requires long { 33 ≤ (memory_of self.old.machine).size }
        requires sound { AreSound self.old.machine.rest.monitors }
        requires agrees { Agrees (C.facts set.now) (shown_in self.old.machine)
            self.old.machine.rest }
        requires may { (from : From)
            × MayRequest (C.facts set.now) self.old.machine t (ask.ClassOf from object within) }
        requires room { length self.old.history.acts < self.old.history.limit }
        ensures answers { IfSome result (λ class. (from : From)
            → AnswersTo (C.facts set.now) t (ask.ClassOf from object within) (Shape class) self.old self.new) }
        ensures none { result ≡ None → self.new ≡ self.old }
    {
        let at = self.spaces.heap.memory.calls();
        let Some(got) = read_class(set, &self.spaces, object, within) else {
            return None;
        };
        let object = Some(got.object);
        let shape = Some(got.class);
        tell_op(&mut self.acts, t, at, Op::Class { object, shape });
        Some(got.class)
    }

    /// Whether a class is initialised, so that the step of a request for that does nothing: that step is taken. Where the
    /// class isn't, nothing is changed.
    #[inline(always)]
    pub fn is_initialised<C: Types>(&mut self, set: &C, t: ThreadNo, class: u32) -> bool
        requires sound { AreSound self.old.machine.rest.monitors }
        requires agrees { Agrees (C.facts set.now) (shown_in self.old.machine)
            self.old.machine.rest }
        requires room { length self.old.history.acts < self.old.history.limit }
        ensures answers { result ≡ true → (from : From)
            → AnswersTo (C.facts set.now) t (ask.Init from class) Done self.old self.new }
        ensures none { result ≡ false → self.new ≡ self.old }
    {
        if !is_finished(&self.rest, class) {
            return false;
        }
        let at = self.spaces.heap.memory.calls();
        let is = Stage::Ready;
        tell_op(&mut self.acts, t, at, Op::Init { class, is });
        true
    }

    /// What a request to store to a field of an object stores, where its tests are passed. None where its step throws, or
    /// finds a wrong operand.
    #[inline(always)]
    pub fn plan_field<C: Types>(
        &self,
        set: &C,
        t: ThreadNo,
        holder: Ref,
        field: FieldAt,
        value: Item,
    ) -> Option<Store>
        requires whole { IsWhole self.now.machine.spaces }
        requires long { 33 ≤ (memory_of self.now.machine).size }
        requires agrees { Agrees (C.facts set.now) (shown_in self.now.machine)
            self.now.machine.rest }
        requires may { (from : From)
            × MayRequest (C.facts set.now) self.now.machine t (ask.PutField from holder field value) }
        ensures planned { IfSome result (λ store. (from : From)
            → IsPlannedFor (C.facts set.now) t (ask.PutField from holder field value) store self.now) }
    {
        let Some(store) = planned_field(set, &self.spaces, holder, field, value) else {
            return None;
        };
        Some(store)
    }

    /// What a request to store to an element of an array stores, where its tests are passed. None where its step throws, or
    /// finds a wrong operand.
    #[inline(always)]
    pub fn plan_element<C: Types>(
        &self,
        set: &C,
        t: ThreadNo,
        array: Ref,
        index: i32,
        kind: Kind,
        value: Item,
    ) -> Option<Store>
        requires whole { IsWhole self.now.machine.spaces }
        requires long { 33 ≤ (memory_of self.now.machine).size }
        requires agrees { Agrees (C.facts set.now) (shown_in self.now.machine)
            self.now.machine.rest }
        requires may { (from : From)
            × MayRequest (C.facts set.now) self.now.machine t (ask.PutElement from array index kind value) }
        ensures planned { IfSome result (λ store. (from : From)
            → IsPlannedFor (C.facts set.now) t (ask.PutElement from array index kind value) store self.now) }
    {
        let Some(store) = planned_element(set, &self.spaces, array, index, kind, value) else {
            return None;
        };
        Some(store)
    }
}
