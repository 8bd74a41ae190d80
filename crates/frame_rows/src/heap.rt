//! What a heap replies.

use ap_base::{Item, Kind, Ref};
use natives::{Reply, Request};
use std::alloc::Global;
use std::test::Fail;

/// The classes whose initialisation has begun. An object is of the class whose number its reference has.
#[derive(Drop)]
pub struct Heap {
    begun: Vec<u32>,
}

// What a field or an element of a kind holds.
fn held(kind: Kind) -> Reply {
    match kind {
        Kind::J => Reply::Item(Item::Long(70)),
        Kind::L => Reply::Item(Item::Ref(Ref::Volatile(1))),
        _ => Reply::Item(Item::Int(60)),
    }
}

fn class_of(object: Ref) -> u32 {
    match object {
        Ref::Volatile(number) => number,
        _ => 0,
    }
}

// The reply to a request of objects.
fn of_objects(request: &Request) -> Reply {
    match request {
        Request::New { from: _, class } => Reply::Made(Ref::Volatile(*class)),
        Request::NewArray {
            from: _,
            shape,
            length: _,
        } => Reply::Made(Ref::Volatile(*shape)),
        Request::GetStatic { from: _, field } => held(field.kind),
        Request::GetField {
            from: _,
            holder: _,
            field,
        } => held(field.kind),
        Request::GetElement {
            from: _,
            array: _,
            index: _,
            kind,
        } => held(*kind),
        Request::Length { from: _, array: _ } => Reply::Item(Item::Int(3)),
        Request::ClassOf {
            from: _,
            object,
            within: _,
        } => Reply::Shape(class_of(*object)),
        Request::IsA {
            from: _,
            object: _,
            target: _,
        } => Reply::Item(Item::Int(1)),
        Request::Same {
            from: _,
            left,
            right,
        } => Reply::Item(Item::Int(i32::from(left == right))),
        _ => Reply::Done,
    }
}

impl Heap {
    /// No class is begun.
    pub fn new(alloc: Global) -> Heap {
        Heap {
            begun: Vec::new(alloc),
        }
    }

    /// The reply to a request; to one after which the thread goes no further it says nothing.
    pub fn reply(&mut self, request: &Request) -> Result<Reply, Fail> {
        match request {
            Request::Init { from: _, class } => {
                if self.begun.contains(class) {
                    return Ok(Reply::Done);
                }
                self.begun.push(*class)?;
                Ok(Reply::Init(*class))
            }
            Request::Raise { from: _, class } => Ok(Reply::Thrown {
                object: Ref::Volatile(*class),
                class: *class,
            }),
            _ => Ok(of_objects(request)),
        }
    }
}
