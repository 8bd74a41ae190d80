// Short texts of acts, of how events went, and of graphs.
use crate::playing::Went;
use ap_base::{Place, ThreadNo};
use graph_model::{NamedValue, Value};
use put_bytes::{put_decimal, put_signed, put_text};
use run_history::{Acts, Op, PlainKey};
use run_types::On;
use shared_graph::{SharedGraph, SharedNode};
use std::alloc::{AllocError, Global};

/// The name of an act; none of those that only look or initialise.
pub(crate) fn op_name(op: &Op) -> &'static str {
    match op {
        Op::Pause
        | Op::Read { .. }
        | Op::Length { .. }
        | Op::Class { .. }
        | Op::Same { .. }
        | Op::Init { .. } => "",
        Op::Alloc { .. } => "Alloc",
        Op::Stored { .. } => "Stored",
        Op::Enter { .. } => "Enter",
        Op::Exit { .. } => "Exit",
        Op::Start { .. } => "Start",
        Op::Join { .. } => "Join",
        Op::Print { .. } => "Print",
        Op::Throw { .. } => "Throw",
        Op::Begin => "Begin",
        Op::End => "End",
        Op::Ended { .. } => "Ended",
        Op::Asked { .. } => "Asked",
        Op::Joined => "Joined",
        Op::Guarded { .. } => "Guarded",
        Op::Closing => "Closing",
        Op::Fenced => "Fenced",
    }
}

fn put_number(out: &mut Vec<u8>, before: &[u8], number: u32) -> Result<(), AllocError> {
    put_count(out, before, u64::from(number))
}

fn put_count(out: &mut Vec<u8>, before: &[u8], count: u64) -> Result<(), AllocError> {
    put_text(out, before)?;
    put_decimal(out, count)
}

fn put_value(out: &mut Vec<u8>, value: Value) -> Result<(), AllocError> {
    match value {
        Value::Int(number) => put_signed(out, i64::from(number)),
        Value::Long(number) => put_signed(out, number),
        Value::Null => put_text(out, b"null"),
        Value::Obj(number) => put_number(out, b"#", number),
    }
}

fn put_place(out: &mut Vec<u8>, place: Place) -> Result<(), AllocError> {
    match place {
        Place::Static(number) => put_number(out, b" static ", number),
        Place::Slot { object, index } => {
            put_number(out, b" #", object)?;
            put_number(out, b".", index)
        }
    }
}

fn put_placed(out: &mut Vec<u8>, place: Place, value: Value) -> Result<(), AllocError> {
    put_place(out, place)?;
    put_text(out, b" = ")?;
    put_value(out, value)
}

fn put_key(out: &mut Vec<u8>, key: PlainKey) -> Result<(), AllocError> {
    match key {
        PlainKey::Object(number) => put_number(out, b" #", number),
        PlainKey::Class(number) => put_number(out, b" class ", number),
    }
}

// What an act says beside its name.
fn put_rest(out: &mut Vec<u8>, op: &Op) -> Result<(), AllocError> {
    match *op {
        Op::Alloc { object, .. } | Op::Join { object } => put_number(out, b" #", object),
        Op::Stored { place, value } | Op::Asked { place, value } => put_placed(out, place, value),
        Op::Guarded { place } => put_place(out, place),
        Op::Enter { key } | Op::Exit { key } => put_key(out, key),
        Op::Start { object, child } => {
            put_number(out, b" #", object)?;
            put_number(out, b" ", u32::from(child.number()))
        }
        Op::Print { bytes } => {
            put_text(out, b" ")?;
            put_text(out, bytes.as_slice().trim_ascii())
        }
        _ => Ok(()),
    }
}

/// The acts of a history from this one on, a line each, with the objects that they name. Those that only look or
/// initialise are left out.
pub(crate) fn put_acts(out: &mut Vec<u8>, acts: &Acts, from: u32) -> Result<(), AllocError> {
    for i in from..acts.len() {
        put_act(out, acts, i)?;
    }
    Ok(())
}

// Objects, in the order of their numbers.
fn put_named(out: &mut Vec<u8>, objects: &[u32]) -> Result<(), AllocError> {
    let alloc = *out.allocator();
    let mut named = objects.to_vec(alloc)?;
    named.sort()?;
    for object in &named {
        put_number(out, b" #", *object)?;
    }
    Ok(())
}

// Who did an act of this name.
fn put_done(out: &mut Vec<u8>, thread: ThreadNo, name: &str) -> Result<(), AllocError> {
    put_number(out, b"", u32::from(thread.number()))?;
    put_text(out, b" ")?;
    put_text(out, name.as_bytes())
}

fn put_act(out: &mut Vec<u8>, acts: &Acts, i: u32) -> Result<(), AllocError> {
    let Some(act) = acts.get(i) else {
        return Ok(());
    };
    let name = op_name(&act.op);
    if name.is_empty() {
        return Ok(());
    }
    put_done(out, act.thread, name)?;
    put_rest(out, &act.op)?;
    put_named(out, acts.named(i))?;
    put_text(out, b"\n")
}

// What a thread waits for.
fn put_wait(out: &mut Vec<u8>, on: On) -> Result<(), AllocError> {
    match on {
        On::Monitor(thread) => put_number(out, b"waits monitor ", u32::from(thread.number())),
        On::Join(thread) => put_number(out, b"waits join ", u32::from(thread.number())),
        On::Init(thread) => put_number(out, b"waits init ", u32::from(thread.number())),
        On::Conversion(thread) => put_number(out, b"waits conversion ", u32::from(thread.number())),
    }
}

fn waited(alloc: Global, on: On) -> Result<Vec<u8>, AllocError> {
    let mut out = Vec::new(alloc);
    put_wait(&mut out, on)?;
    Ok(out)
}

/// How an event went by which the run isn't over.
pub(crate) fn went_text(alloc: Global, went: Went) -> Result<Vec<u8>, AllocError> {
    match went {
        Went::Acted => b"acted".to_vec(alloc),
        Went::Micro => b"micro".to_vec(alloc),
        Went::Waits(on) => waited(alloc, on),
        Went::NotLive => b"not live".to_vec(alloc),
        Went::Lost => b"lost".to_vec(alloc),
    }
}

// A value that so many places have, one behind another.
fn put_many(out: &mut Vec<u8>, value: Option<Value>, many: u64) -> Result<(), AllocError> {
    let Some(value) = value else {
        return Ok(());
    };
    put_text(out, b" ")?;
    put_value(out, value)?;
    if many > 1 {
        put_count(out, b"*", many)?;
    }
    Ok(())
}

// Values, those that follow one another and are equal as one and how many there are.
fn put_values(out: &mut Vec<u8>, values: &[Value]) -> Result<(), AllocError> {
    let mut last = None;
    let mut many: u64 = 0;
    for value in values {
        if last != Some(*value) {
            put_many(out, last, many)?;
            last = Some(*value);
            many = 0;
        }
        many = many.saturating_add(1);
    }
    put_many(out, last, many)
}

fn put_root(out: &mut Vec<u8>, root: &NamedValue) -> Result<(), AllocError> {
    put_text(out, b" ")?;
    put_text(out, root.name.as_slice())?;
    put_text(out, b"=")?;
    put_value(out, root.value)
}

fn put_node(out: &mut Vec<u8>, number: usize, node: &SharedNode) -> Result<(), AllocError> {
    put_count(out, b"; #", number as u64)?;
    put_text(out, b" ")?;
    put_text(out, node.shape().name.as_slice())?;
    put_values(out, node.values())
}

/// A graph, as its roots and its nodes follow one another.
pub(crate) fn graph_text(alloc: Global, graph: &SharedGraph) -> Result<Vec<u8>, AllocError> {
    let mut out = Vec::new(alloc);
    for root in graph.roots() {
        put_root(&mut out, root)?;
    }
    for (number, node) in graph.nodes().iter().enumerate() {
        put_node(&mut out, number, node)?;
    }
    Ok(out)
}
