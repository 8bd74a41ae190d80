//! What rows ask, and what comes of it.

ghost use Rattle.class_set.specs.Facts.{facts_of};
ghost use Rattle.plain_model.specs.Facts.{SetFacts};
ghost use Rattle.space_rows.specs.Worlds.{Holds};

use crate::begin::begin;
use crate::classes::{
    Classes, Name, array_type, first_class, instance_field, linked, static_field,
};
use crate::world::World;
use ap_base::{Item, Kind, Spot, ThreadNo};
use forwarding::Claimed;
use graph_model::Value;
use line_memory::every_line_is_resident;
use natives::Reply;
use run_history::{Op, PlainKey};
use run_types::{Full, On, StepFault, Which};
use std::alloc::{AllocError, Global};
use std::test::Fail;
use step_forms::Stepped;

pub const V: Name = (b"v", b"I");

pub const W: Name = (b"w", b"J");

pub const NEXT: Name = (b"next", b"LN;");

pub const LAST: Name = (b"last", b"LN;");

pub const ROOT: Name = (b"r", b"LN;");

pub const S: Name = (b"s", b"I");

type Answer = Result<Option<Stepped>, AllocError>;

/// What a row asks. References are named by their order: that of the array which is in the image from the start comes
/// first, and each one that a step gives gets the next number.
#[derive(Clone, Copy)]
pub enum Ask {
    New,
    Ints(i32),
    Nodes(i32),
    Get(u8, Name),
    Int(u8, Name, i32),
    Long(u8, Name, i64),
    Refer(u8, Name, u8),
    Element(u8, i32),
    Node(u8, i32),
    PutElement(u8, i32, i32),
    PutNode(u8, i32, u8),
    Length(u8),
    Same(u8, u8),
    Class(u8),
    /// By the thread of this number.
    Enter(u8, u8),
    Exit(u8, u8),
    Static(Name),
    PutInt(Name, i32),
    PutRef(Name, u8),
    /// By the thread of this number.
    Claim(u8, u8),
    Place(u8),
    Copy(u8),
    Forward(u8),
    Seal(u8),
    /// A word of the image.
    Word(u32, u8),
}

/// What comes of it. Objects are numbers, in the order in which they were made.
#[derive(Clone, Copy, PartialEq, Debug)]
pub enum Got {
    Made(u32),
    Read(Value),
    Stored(Value),
    Same(bool),
    Length(u32),
    Class(u32),
    Entered(u32),
    Exited(u32),
    Thrown(u32),
    Waits(u8),
    Wrong,
    /// So many words are needed, and so many are left.
    Full(u64, u64),
    /// A move was made; of a line, on this one.
    Moved,
    Line(u32),
    Claimed,
    ClaimedBy(u8),
    Already,
    Word(u64),
    /// The condition of a call isn't met, so that it isn't made.
    No,
    /// The reply isn't what the act says.
    Odd,
}

// Whether an item is the value of a number.
fn is_value(item: &Item, value: Value) -> bool {
    match item {
        Item::Int(i) => value == Value::Int(*i),
        Item::Long(i) => value == Value::Long(*i),
        Item::Ref(_) => matches!(value, Value::Null | Value::Obj(_)),
    }
}

fn of_read(value: Value, reply: &Reply) -> Got {
    match reply {
        Reply::Item(item) if is_value(item, value) => Got::Read(value),
        _ => Got::Odd,
    }
}

fn of_same(yes: bool, reply: &Reply) -> Got {
    match reply {
        Reply::Item(Item::Int(i)) if *i == i32::from(yes) => Got::Same(yes),
        _ => Got::Odd,
    }
}

fn of_op(op: &Op, reply: &Reply) -> Got {
    match op {
        Op::Alloc { object, .. } => Got::Made(*object),
        Op::Read { value, .. } => of_read(*value, reply),
        Op::Stored { value, .. } => Got::Stored(*value),
        Op::Same { yes } => of_same(*yes, reply),
        Op::Length { length, .. } => Got::Length(*length),
        Op::Class {
            shape: Some(shape),
            ..
        } => Got::Class(*shape),
        Op::Enter {
            key: PlainKey::Object(object),
        } => Got::Entered(*object),
        Op::Exit {
            key: PlainKey::Object(object),
        } => Got::Exited(*object),
        Op::Throw { class, .. } => Got::Thrown(*class),
        _ => Got::Odd,
    }
}

fn of_fault(fault: &StepFault) -> Got {
    match fault {
        StepFault::Full(
            Full {
                which: Which::VolatileWords,
                need,
                left,
            },
        ) => Got::Full(*need, *left),
        _ => Got::Odd,
    }
}

fn of_step(stepped: &Stepped) -> Got {
    match stepped {
        Stepped::Did { op, reply } => of_op(op, reply),
        Stepped::Waits(On::Monitor(t)) => Got::Waits(t.number()),
        Stepped::Waits(_) => Got::Odd,
        Stepped::Wrong => Got::Wrong,
        Stepped::Over(fault) => of_fault(fault),
    }
}

fn of_answer(answer: Answer) -> Result<Got, AllocError> {
    match answer {
        Ok(Some(stepped)) => Ok(of_step(&stepped)),
        Ok(None) => Ok(Got::No),
        Err(error) => Err(error),
    }
}

fn of_move(was_made: bool) -> Got {
    if was_made { Got::Moved } else { Got::No }
}

fn of_line(line: Option<u32>) -> Got {
    match line {
        Some(line) => Got::Line(line),
        None => Got::No,
    }
}

fn of_claim(claimed: Option<Claimed>) -> Got {
    if claimed.is_none() {
        return Got::No;
    }
    if claimed == Some(Claimed::Now) {
        return Got::Claimed;
    }
    if claimed == Some(Claimed::Already) {
        return Got::Already;
    }
    let first = claimed == Some(Claimed::By(ThreadNo::main()));
    Got::ClaimedBy(u8::from(!first))
}

fn thread(number: u8) -> ThreadNo {
    ThreadNo::new(number).unwrap_or(ThreadNo::main())
}

fn word_at(world: &World, line: u32, word: u8) -> Got {
    every_line_is_resident();
    if u64::from(line) >= world.spaces.heap.memory.lines() || word > 7 {
        return Got::No;
    }
    Got::Word(world.spaces.heap.memory.load(Spot { line, word }))
}

fn new_object(world: &mut World, classes: &Classes) -> Answer
    requires holds { Holds (facts_of classes.now.set) world.old.spaces world.old.rest
        world.old.refs.items world.old.next world.old.acts world.old.entered }
    ensures holds { Holds (facts_of classes.now.set) world.new.spaces world.new.rest
        world.new.refs.items world.new.next world.new.acts world.new.entered }
{
    match first_class(&classes.set) {
        Some(class) => world.new_object(classes, class),
        None => Ok(None),
    }
}

fn new_array(world: &mut World, classes: &Classes, descriptor: &[u8], length: i32) -> Answer
    requires holds { Holds (facts_of classes.now.set) world.old.spaces world.old.rest
        world.old.refs.items world.old.next world.old.acts world.old.entered }
    ensures holds { Holds (facts_of classes.now.set) world.new.spaces world.new.rest
        world.new.refs.items world.new.next world.new.acts world.new.entered }
{
    match array_type(&classes.set, descriptor) {
        Some(shape) => world.new_array(classes, shape, length),
        None => Ok(None),
    }
}

fn get(world: &mut World, classes: &Classes, at: u8, name: Name) -> Answer
    requires holds { Holds (facts_of classes.now.set) world.old.spaces world.old.rest
        world.old.refs.items world.old.next world.old.acts world.old.entered }
    ensures holds { Holds (facts_of classes.now.set) world.new.spaces world.new.rest
        world.new.refs.items world.new.next world.new.acts world.new.entered }
{
    match instance_field(&classes.set, name) {
        Some(field) => world.get(classes, at, field),
        None => Ok(None),
    }
}

fn put_int(world: &mut World, classes: &Classes, at: u8, name: Name, value: i32) -> Answer
    requires holds { Holds (facts_of classes.now.set) world.old.spaces world.old.rest
        world.old.refs.items world.old.next world.old.acts world.old.entered }
    ensures holds { Holds (facts_of classes.now.set) world.new.spaces world.new.rest
        world.new.refs.items world.new.next world.new.acts world.new.entered }
{
    let Some(field) = instance_field(&classes.set, name) else {
        return Ok(None);
    };
    match field.kind {
        Kind::I => world.put_int(classes, at, field, value),
        _ => Ok(None),
    }
}

fn put_long(world: &mut World, classes: &Classes, at: u8, name: Name, value: i64) -> Answer
    requires holds { Holds (facts_of classes.now.set) world.old.spaces world.old.rest
        world.old.refs.items world.old.next world.old.acts world.old.entered }
    ensures holds { Holds (facts_of classes.now.set) world.new.spaces world.new.rest
        world.new.refs.items world.new.next world.new.acts world.new.entered }
{
    let Some(field) = instance_field(&classes.set, name) else {
        return Ok(None);
    };
    match field.kind {
        Kind::J => world.put_long(classes, at, field, value),
        _ => Ok(None),
    }
}

fn refer(world: &mut World, classes: &Classes, at: u8, name: Name, value: u8) -> Answer
    requires holds { Holds (facts_of classes.now.set) world.old.spaces world.old.rest
        world.old.refs.items world.old.next world.old.acts world.old.entered }
    ensures holds { Holds (facts_of classes.now.set) world.new.spaces world.new.rest
        world.new.refs.items world.new.next world.new.acts world.new.entered }
{
    let Some(field) = instance_field(&classes.set, name) else {
        return Ok(None);
    };
    match field.kind {
        Kind::L => world.refer(classes, at, field, value),
        _ => Ok(None),
    }
}

// The class of an object of class 0.
fn class_of(world: &mut World, classes: &Classes, at: u8) -> Answer
    requires holds { Holds (facts_of classes.now.set) world.old.spaces world.old.rest
        world.old.refs.items world.old.next world.old.acts world.old.entered }
    ensures holds { Holds (facts_of classes.now.set) world.new.spaces world.new.rest
        world.new.refs.items world.new.next world.new.acts world.new.entered }
{
    match first_class(&classes.set) {
        Some(class) => world.class_of(classes, at, class),
        None => Ok(None),
    }
}

fn get_static(world: &mut World, classes: &Classes, name: Name) -> Answer
    requires holds { Holds (facts_of classes.now.set) world.old.spaces world.old.rest
        world.old.refs.items world.old.next world.old.acts world.old.entered }
    ensures holds { Holds (facts_of classes.now.set) world.new.spaces world.new.rest
        world.new.refs.items world.new.next world.new.acts world.new.entered }
{
    match static_field(&classes.set, name) {
        Some(field) => world.get_static(classes, field),
        None => Ok(None),
    }
}

fn put_static(world: &mut World, classes: &Classes, name: Name, value: i32) -> Answer
    requires holds { Holds (facts_of classes.now.set) world.old.spaces world.old.rest
        world.old.refs.items world.old.next world.old.acts world.old.entered }
    ensures holds { Holds (facts_of classes.now.set) world.new.spaces world.new.rest
        world.new.refs.items world.new.next world.new.acts world.new.entered }
{
    let Some(field) = static_field(&classes.set, name) else {
        return Ok(None);
    };
    match field.kind {
        Kind::I => world.put_static(classes, field, value),
        _ => Ok(None),
    }
}

fn refer_static(world: &mut World, classes: &Classes, name: Name, value: u8) -> Answer
    requires holds { Holds (facts_of classes.now.set) world.old.spaces world.old.rest
        world.old.refs.items world.old.next world.old.acts world.old.entered }
    ensures holds { Holds (facts_of classes.now.set) world.new.spaces world.new.rest
        world.new.refs.items world.new.next world.new.acts world.new.entered }
{
    let Some(field) = static_field(&classes.set, name) else {
        return Ok(None);
    };
    match field.kind {
        Kind::L => world.refer_static(classes, field, value),
        _ => Ok(None),
    }
}

// Requests on objects of class 0, and on static fields.
fn step(world: &mut World, classes: &Classes, ask: &Ask) -> Answer
    requires holds { Holds (facts_of classes.now.set) world.old.spaces world.old.rest
        world.old.refs.items world.old.next world.old.acts world.old.entered }
    ensures holds { Holds (facts_of classes.now.set) world.new.spaces world.new.rest
        world.new.refs.items world.new.next world.new.acts world.new.entered }
{
    match *ask {
        Ask::New => new_object(world, classes),
        Ask::Get(at, name) => get(world, classes, at, name),
        Ask::Int(at, name, value) => put_int(world, classes, at, name, value),
        Ask::Long(at, name, value) => put_long(world, classes, at, name, value),
        Ask::Refer(at, name, value) => refer(world, classes, at, name, value),
        Ask::Same(left, right) => world.same(classes, left, right),
        Ask::Class(at) => class_of(world, classes, at),
        Ask::Static(name) => get_static(world, classes, name),
        Ask::PutInt(name, value) => put_static(world, classes, name, value),
        Ask::PutRef(name, value) => refer_static(world, classes, name, value),
        _ => array_step(world, classes, ask),
    }
}

// Requests on arrays and monitors.
fn array_step(world: &mut World, classes: &Classes, ask: &Ask) -> Answer
    requires holds { Holds (facts_of classes.now.set) world.old.spaces world.old.rest
        world.old.refs.items world.old.next world.old.acts world.old.entered }
    ensures holds { Holds (facts_of classes.now.set) world.new.spaces world.new.rest
        world.new.refs.items world.new.next world.new.acts world.new.entered }
{
    match *ask {
        Ask::Ints(length) => new_array(world, classes, b"[I", length),
        Ask::Nodes(length) => new_array(world, classes, b"[LN;", length),
        Ask::Element(at, index) => world.element(classes, at, index, Kind::I),
        Ask::Node(at, index) => world.element(classes, at, index, Kind::L),
        Ask::PutElement(at, index, value) => world.put_element(classes, at, index, value),
        Ask::PutNode(at, index, value) => world.refer_element(classes, at, index, value),
        Ask::Length(at) => world.length(classes, at),
        Ask::Enter(t, at) => world.enter(classes, thread(t), at),
        Ask::Exit(t, at) => world.exit(classes, thread(t), at),
        _ => Ok(None),
    }
}

// A move, if the row asks one.
fn moved(world: &mut World, ask: &Ask) -> Option<Got>
    requires holds { (set : SetFacts) × Holds set world.old.spaces world.old.rest
        world.old.refs.items world.old.next world.old.acts world.old.entered }
    ensures holds { (set : SetFacts) → Holds set world.old.spaces world.old.rest
        world.old.refs.items world.old.next world.old.acts world.old.entered
        → Holds set world.new.spaces world.new.rest
        world.new.refs.items world.new.next world.new.acts world.new.entered }
{
    match *ask {
        Ask::Claim(t, at) => Some(of_claim(world.claim(at, thread(t)))),
        Ask::Place(at) => Some(of_move(world.place(at))),
        Ask::Copy(at) => Some(of_line(world.copy(at))),
        Ask::Forward(at) => Some(of_move(world.forward(at))),
        Ask::Seal(at) => Some(of_move(world.seal(at))),
        Ask::Word(line, word) => Some(word_at(world, line, word)),
        _ => None,
    }
}

// What comes of a row.
fn play(world: &mut World, classes: &Classes, ask: &Ask) -> Result<Got, AllocError>
    requires holds { Holds (facts_of classes.now.set) world.old.spaces world.old.rest
        world.old.refs.items world.old.next world.old.acts world.old.entered }
    ensures holds { Holds (facts_of classes.now.set) world.new.spaces world.new.rest
        world.new.refs.items world.new.next world.new.acts world.new.entered }
{
    if let Some(got) = moved(world, ask) {
        return Ok(got);
    }
    of_answer(step(world, classes, ask))
}

/// The first row that comes out otherwise, by its number, and what came of it.
pub fn odd_row(alloc: Global, rows: &[(Ask, Got)]) -> Result<Option<(usize, Got)>, Fail> {
    let classes = linked(alloc)?;
    let mut world = begin(alloc, &classes)?;
    for (number, (ask, want)) in rows.iter().enumerate() {
        let got = play(&mut world, &classes, ask)?;
        if got != *want {
            return Ok(Some((number, got)));
        }
    }
    Ok(None)
}
