//! What turns ask, as rows name it.

use ap_base::{Item, Ref};
use natives::Request;
use run_types::{Full, LinkKind, StepFault, Which};

/// What a turn asks.
#[derive(Clone, Copy, PartialEq)]
pub enum Asked {
    Pause,
    /// A method by number, and the instruction's offset.
    BadCode(u32, u32),
    /// The slots that are needed, and those that are left.
    Slots(u64, u64),
    InitFailed(u32),
    Init(u32),
    InitDone(u32),
    /// A value into a static field.
    Put(Item),
    /// A value into a field or an element of this object.
    PutIn(Ref, Item),
    /// A field or an element of this object, or its length.
    Get(Ref),
    ClassOf(Ref),
    Same(Ref, Ref),
    /// A new object of a class, or array of an array type.
    New(u32),
    Raise(u32),
    Enter,
    Exit,
    Leave(Option<u32>),
    Other,
}

fn of_fault(fault: &StepFault) -> Asked {
    match fault {
        StepFault::BadCode(from) => Asked::BadCode(from.method, from.pc),
        StepFault::Full(
            Full {
                which: Which::FrameSlots,
                need,
                left,
            },
        ) => Asked::Slots(*need, *left),
        StepFault::LinkFault {
            kind: LinkKind::InitFailed,
            class,
            index: _,
        } => Asked::InitFailed(*class),
        _ => Asked::Other,
    }
}

// What is asked of objects.
fn of_object(request: &Request) -> Asked {
    match request {
        Request::New { from: _, class } => Asked::New(*class),
        Request::NewArray {
            from: _,
            shape,
            length: _,
        } => Asked::New(*shape),
        Request::GetField {
            from: _,
            holder,
            field: _,
        } => Asked::Get(*holder),
        Request::GetElement {
            from: _,
            array,
            index: _,
            kind: _,
        } => Asked::Get(*array),
        Request::Length { from: _, array } => Asked::Get(*array),
        Request::PutField {
            from: _,
            holder,
            field: _,
            value,
        } => Asked::PutIn(*holder, *value),
        Request::PutElement {
            from: _,
            array,
            index: _,
            kind: _,
            value,
        } => Asked::PutIn(*array, *value),
        _ => Asked::Other,
    }
}

// What is asked of the run.
fn of_run(request: &Request) -> Asked {
    match request {
        Request::Broken(fault) => of_fault(fault),
        Request::Init { from: _, class } => Asked::Init(*class),
        Request::InitDone { from: _, class } => Asked::InitDone(*class),
        Request::Raise { from: _, class } => Asked::Raise(*class),
        Request::Enter { from: _, key: _ } => Asked::Enter,
        Request::Exit { from: _, key: _ } => Asked::Exit,
        Request::Leave { uncaught } => Asked::Leave(*uncaught),
        _ => of_object(request),
    }
}

/// How rows name a request.
pub fn name_of(request: &Request) -> Asked {
    match request {
        Request::Pause => Asked::Pause,
        Request::PutStatic {
            from: _,
            field: _,
            value,
        } => Asked::Put(*value),
        Request::ClassOf {
            from: _,
            object,
            within: _,
        } => Asked::ClassOf(*object),
        Request::Same {
            from: _,
            left,
            right,
        } => Asked::Same(*left, *right),
        _ => of_run(request),
    }
}
