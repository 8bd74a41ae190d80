//! Rows. An object of class 0 takes 11 words of the space, and two lines: its head and the fields v, w, next, a, b, c, d
//! lie in the first one, last in the second one. The class of int arrays has number 30.

use crate::play::{Ask, Got, LAST, NEXT, ROOT, S, V, W, odd_row};
use graph_model::Value;
use std::test::Fail;

// Numbers of throwables.
const INDEX: u32 = 5;

const MONITOR: u32 = 12;

const SIZE: u32 = 17;

const NULL: u32 = 18;

/// Ordinary objects: reference 1 is to object 1, 2 is null, 3 and 4 are to object 2.
static ORDINARY: [(Ask, Got); 44] = [
    (Ask::New, Got::Made(1)),
    (Ask::Get(1, V), Got::Read(Value::Int(0))),
    (Ask::Int(1, V, 7), Got::Stored(Value::Int(7))),
    (Ask::Get(1, V), Got::Read(Value::Int(7))),
    (Ask::Get(1, W), Got::Read(Value::Long(0))),
    (Ask::Long(1, W, -5), Got::Stored(Value::Long(-5))),
    (Ask::Get(1, W), Got::Read(Value::Long(-5))),
    (Ask::Int(1, W, 5), Got::No),
    (Ask::Get(1, NEXT), Got::Read(Value::Null)),
    (Ask::New, Got::Made(2)),
    (Ask::Refer(1, NEXT, 3), Got::Stored(Value::Obj(2))),
    (Ask::Get(1, NEXT), Got::Read(Value::Obj(2))),
    (Ask::Same(3, 4), Got::Same(true)),
    (Ask::Same(1, 3), Got::Same(false)),
    (Ask::Same(1, 2), Got::Same(false)),
    (Ask::Same(2, 2), Got::Same(true)),
    (Ask::Class(1), Got::Class(0)),
    // null
    (Ask::Class(2), Got::Thrown(NULL)),
    (Ask::Get(2, V), Got::Thrown(NULL)),
    (Ask::Int(2, V, 1), Got::Thrown(NULL)),
    (Ask::Length(2), Got::Thrown(NULL)),
    (Ask::Enter(0, 2), Got::Thrown(NULL)),
    // arrays: reference 10 is to object 8, and 14 to object 12
    (Ask::Ints(3), Got::Made(8)),
    (Ask::Length(10), Got::Length(3)),
    (Ask::PutElement(10, 2, 9), Got::Stored(Value::Int(9))),
    (Ask::Element(10, 2), Got::Read(Value::Int(9))),
    (Ask::Element(10, 3), Got::Thrown(INDEX)),
    (Ask::PutElement(10, -1, 3), Got::Thrown(INDEX)),
    (Ask::Ints(-1), Got::Thrown(SIZE)),
    (Ask::Nodes(2), Got::Made(12)),
    (Ask::PutNode(14, 0, 2), Got::Stored(Value::Null)),
    // what isn't in lines may not be stored there
    (Ask::PutNode(14, 0, 1), Got::No),
    (Ask::Get(10, V), Got::Wrong),
    (Ask::Length(1), Got::Wrong),
    (Ask::Node(10, 0), Got::Wrong),
    (Ask::Class(10), Got::Wrong),
    // static fields
    (Ask::Static(S), Got::Read(Value::Int(0))),
    (Ask::PutInt(S, -4), Got::Stored(Value::Int(-4))),
    (Ask::Static(S), Got::Read(Value::Int(-4))),
    (Ask::Static(ROOT), Got::Read(Value::Null)),
    (Ask::PutRef(ROOT, 1), Got::No),
    (Ask::PutRef(ROOT, 2), Got::Stored(Value::Null)),
    (Ask::Word(1, 5), Got::Word(0)),
    // of 400 words objects 1 and 2 took 11 each, eight throwables 4 each, and the two arrays 6 and 5
    (Ask::Ints(400), Got::Full(403, 335)),
];

#[test]
fn ordinary_objects(rt: HostRuntime) -> Result<(), Fail> {
    let odd = odd_row(rt.alloc(), &ORDINARY)?;
    assert!(rt; odd.is_none(), "{odd:?}");
    Ok(())
}

/// Objects 1 and 2 go through all stages. Their copies begin at lines 20,579 and 20,581.
static STAGES: [(Ask, Got); 85] = [
    (Ask::New, Got::Made(1)),
    (Ask::New, Got::Made(2)),
    (Ask::Int(1, V, 1), Got::Stored(Value::Int(1))),
    // claimed
    (Ask::Copy(1), Got::No),
    (Ask::Place(1), Got::No),
    (Ask::Claim(0, 1), Got::Claimed),
    (Ask::Claim(1, 1), Got::ClaimedBy(0)),
    (Ask::Claim(0, 1), Got::ClaimedBy(0)),
    (Ask::Get(1, V), Got::Read(Value::Int(1))),
    (Ask::Int(1, V, 2), Got::Stored(Value::Int(2))),
    (Ask::Get(1, V), Got::Read(Value::Int(2))),
    // no line is copied
    (Ask::Forward(1), Got::No),
    (Ask::Place(1), Got::Moved),
    (Ask::Place(1), Got::No),
    (Ask::Int(1, V, 3), Got::Stored(Value::Int(3))),
    (Ask::Word(20_579, 1), Got::Word(0)),
    // the first line is copied, and stores to it are made twice
    (Ask::Copy(1), Got::Line(20_579)),
    (Ask::Word(20_579, 0), Got::Word(8 << 32)),
    (Ask::Word(20_579, 1), Got::Word(3)),
    (Ask::Int(1, V, 4), Got::Stored(Value::Int(4))),
    (Ask::Word(20_579, 1), Got::Word(4)),
    (Ask::Get(1, V), Got::Read(Value::Int(4))),
    (Ask::Long(1, W, -1), Got::Stored(Value::Long(-1))),
    (Ask::Word(20_579, 2), Got::Word(u64::MAX)),
    // the second line isn't: it may be given what isn't in lines
    (Ask::Refer(1, NEXT, 2), Got::No),
    (Ask::Refer(1, LAST, 2), Got::Stored(Value::Obj(2))),
    (Ask::Word(20_580, 0), Got::Word(0)),
    (Ask::Forward(1), Got::No),
    (Ask::Seal(1), Got::No),
    (Ask::Copy(1), Got::Line(20_580)),
    (Ask::Copy(1), Got::No),
    // object 2 begins at word 11 of the space
    (Ask::Word(20_580, 0), Got::Word(23)),
    (Ask::Get(1, LAST), Got::Read(Value::Obj(2))),
    // forwarded: stores go to the copy
    (Ask::Forward(1), Got::Moved),
    (Ask::Claim(1, 1), Got::ClaimedBy(0)),
    (Ask::Get(1, V), Got::Read(Value::Int(4))),
    (Ask::Int(1, V, 5), Got::Stored(Value::Int(5))),
    (Ask::Word(20_579, 1), Got::Word(5)),
    (Ask::Get(1, V), Got::Read(Value::Int(5))),
    (Ask::Get(1, LAST), Got::Read(Value::Obj(2))),
    (Ask::Claim(1, 2), Got::Claimed),
    (Ask::Place(2), Got::Moved),
    (Ask::Copy(2), Got::Line(20_581)),
    // a copied line is given the line's word of object 1
    (Ask::Refer(2, NEXT, 1), Got::Stored(Value::Obj(1))),
    (Ask::Word(20_581, 3), Got::Word(2 * 20_579)),
    (Ask::Copy(2), Got::Line(20_582)),
    (Ask::Forward(2), Got::Moved),
    // what refers to its place in the space leads to it still, as references 3 to 5
    (Ask::Word(20_580, 0), Got::Word(23)),
    (Ask::Get(1, LAST), Got::Read(Value::Obj(2))),
    (Ask::Same(5, 2), Got::Same(true)),
    (Ask::Refer(1, LAST, 2), Got::Stored(Value::Obj(2))),
    (Ask::Word(20_580, 0), Got::Word(2 * 20_581)),
    // reference 6 is to the copy of object 2
    (Ask::Get(1, LAST), Got::Read(Value::Obj(2))),
    (Ask::Same(6, 2), Got::Same(true)),
    (Ask::Same(3, 6), Got::Same(true)),
    (Ask::Same(1, 6), Got::Same(false)),
    (Ask::Int(6, V, 8), Got::Stored(Value::Int(8))),
    (Ask::Get(2, V), Got::Read(Value::Int(8))),
    (Ask::Int(2, V, 9), Got::Stored(Value::Int(9))),
    (Ask::Get(6, V), Got::Read(Value::Int(9))),
    (Ask::Word(20_581, 1), Got::Word(9)),
    (Ask::Class(6), Got::Class(0)),
    // sealed
    (Ask::Seal(1), Got::Moved),
    (Ask::Seal(1), Got::No),
    (Ask::Claim(1, 1), Got::Already),
    (Ask::Seal(2), Got::Moved),
    (Ask::Int(1, V, -3), Got::Stored(Value::Int(-3))),
    (Ask::Word(20_579, 1), Got::Word(0xffff_fffd)),
    (Ask::Get(1, V), Got::Read(Value::Int(-3))),
    (Ask::Refer(2, LAST, 1), Got::Stored(Value::Obj(1))),
    (Ask::Word(20_582, 0), Got::Word(2 * 20_579)),
    (Ask::Word(20_582, 1), Got::Word(0)),
    (Ask::Word(20_581, 0), Got::Word(8 << 32)),
    // the root, in root slot 5; reference 7 is what it gives
    (Ask::PutRef(ROOT, 1), Got::Stored(Value::Obj(1))),
    (Ask::Word(1, 5), Got::Word(2 * 20_579)),
    (Ask::Static(ROOT), Got::Read(Value::Obj(1))),
    (Ask::Same(7, 1), Got::Same(true)),
    (Ask::Get(7, V), Got::Read(Value::Int(-3))),
    (Ask::Int(7, V, 6), Got::Stored(Value::Int(6))),
    (Ask::Get(1, V), Got::Read(Value::Int(6))),
    // object 3 is ordinary, and refers to durable ones
    (Ask::New, Got::Made(3)),
    (Ask::Refer(8, NEXT, 1), Got::Stored(Value::Obj(1))),
    (Ask::Get(8, NEXT), Got::Read(Value::Obj(1))),
    (Ask::Same(9, 1), Got::Same(true)),
    (Ask::Refer(1, NEXT, 8), Got::No),
];

#[test]
fn objects_in_every_stage(rt: HostRuntime) -> Result<(), Fail> {
    let odd = odd_row(rt.alloc(), &STAGES)?;
    assert!(rt; odd.is_none(), "{odd:?}");
    Ok(())
}

/// Thread 0 holds the monitor of object 1 while that is forwarded.
static MONITORS: [(Ask, Got); 27] = [
    (Ask::New, Got::Made(1)),
    (Ask::Enter(0, 1), Got::Entered(1)),
    (Ask::Claim(1, 1), Got::Claimed),
    (Ask::Place(1), Got::Moved),
    (Ask::Copy(1), Got::Line(20_579)),
    (Ask::Copy(1), Got::Line(20_580)),
    (Ask::Enter(1, 1), Got::Waits(0)),
    (Ask::Forward(1), Got::Moved),
    (Ask::Enter(1, 1), Got::Waits(0)),
    (Ask::Exit(1, 1), Got::Thrown(MONITOR)),
    // reference 4 is to the copy
    (Ask::New, Got::Made(3)),
    (Ask::Refer(3, NEXT, 1), Got::Stored(Value::Obj(1))),
    (Ask::Get(3, NEXT), Got::Read(Value::Obj(1))),
    (Ask::Enter(1, 4), Got::Waits(0)),
    (Ask::Enter(0, 4), Got::Entered(1)),
    (Ask::Exit(0, 1), Got::Exited(1)),
    (Ask::Enter(1, 4), Got::Waits(0)),
    (Ask::Exit(0, 4), Got::Exited(1)),
    (Ask::Exit(0, 4), Got::Thrown(MONITOR)),
    (Ask::Enter(1, 1), Got::Entered(1)),
    (Ask::Enter(0, 4), Got::Waits(1)),
    // that of another object, and of the array in the image
    (Ask::Enter(0, 3), Got::Entered(3)),
    (Ask::Enter(0, 0), Got::Entered(0)),
    (Ask::Enter(1, 0), Got::Waits(0)),
    (Ask::Exit(0, 0), Got::Exited(0)),
    (Ask::Exit(1, 4), Got::Exited(1)),
    (Ask::Exit(0, 3), Got::Exited(3)),
];

#[test]
fn monitors_stay_held(rt: HostRuntime) -> Result<(), Fail> {
    let odd = odd_row(rt.alloc(), &MONITORS)?;
    assert!(rt; odd.is_none(), "{odd:?}");
    Ok(())
}

/// Arrays: object 0 is in the image from the start; reference 2 is to object 2.
static ARRAYS: [(Ask, Got); 42] = [
    (Ask::Length(0), Got::Length(9)),
    (Ask::Element(0, 0), Got::Read(Value::Int(10))),
    (Ask::Element(0, 8), Got::Read(Value::Int(18))),
    (Ask::PutElement(0, 7, -2), Got::Stored(Value::Int(-2))),
    (Ask::Word(20_578, 0), Got::Word(0xffff_fffe)),
    (Ask::Element(0, 7), Got::Read(Value::Int(-2))),
    (Ask::Element(0, 9), Got::Thrown(INDEX)),
    (Ask::Word(20_577, 0), Got::Word((9 << 32) + 30)),
    (Ask::Claim(0, 0), Got::No),
    (Ask::Seal(0), Got::No),
    // seven elements fill a line
    (Ask::Ints(7), Got::Made(2)),
    (Ask::PutElement(2, 6, 66), Got::Stored(Value::Int(66))),
    (Ask::Claim(0, 2), Got::Claimed),
    (Ask::Place(2), Got::Moved),
    (Ask::Copy(2), Got::Line(20_579)),
    (Ask::Word(20_579, 7), Got::Word(66)),
    (Ask::PutElement(2, 6, 67), Got::Stored(Value::Int(67))),
    (Ask::Word(20_579, 7), Got::Word(67)),
    (Ask::Copy(2), Got::No),
    (Ask::Forward(2), Got::Moved),
    (Ask::PutElement(2, 0, 60), Got::Stored(Value::Int(60))),
    (Ask::Word(20_579, 1), Got::Word(60)),
    (Ask::Length(2), Got::Length(7)),
    (Ask::Seal(2), Got::Moved),
    (Ask::Element(2, 6), Got::Read(Value::Int(67))),
    (Ask::Word(20_579, 0), Got::Word((7 << 32) + 30)),
    // an array of references to a durable object: references 3 and 4 are to objects 3 and 4
    (Ask::New, Got::Made(3)),
    (Ask::Nodes(2), Got::Made(4)),
    (Ask::Claim(0, 3), Got::Claimed),
    (Ask::Place(3), Got::Moved),
    (Ask::Copy(3), Got::Line(20_580)),
    (Ask::Copy(3), Got::Line(20_581)),
    (Ask::Forward(3), Got::Moved),
    (Ask::PutNode(4, 1, 3), Got::Stored(Value::Obj(3))),
    (Ask::Node(4, 1), Got::Read(Value::Obj(3))),
    (Ask::Same(5, 3), Got::Same(true)),
    (Ask::Claim(0, 4), Got::Claimed),
    (Ask::Place(4), Got::Moved),
    (Ask::Copy(4), Got::Line(20_582)),
    // the element was given the reference to the copy
    (Ask::Word(20_582, 2), Got::Word(2 * 20_580)),
    (Ask::PutNode(4, 0, 5), Got::Stored(Value::Obj(3))),
    (Ask::Word(20_582, 1), Got::Word(2 * 20_580)),
];

#[test]
fn arrays_in_every_stage(rt: HostRuntime) -> Result<(), Fail> {
    let odd = odd_row(rt.alloc(), &ARRAYS)?;
    assert!(rt; odd.is_none(), "{odd:?}");
    Ok(())
}
