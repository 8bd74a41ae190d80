//! Where code is found wrong (JVMS 4.10.1.9), as the instruction's offset.

use crate::asked::Asked;
use crate::code::{KIN, MAIN, Shape};
use crate::play::main_asks;
use ap_base::Kind;
use code_form::{Access, Binary, Condition, Conversion, Equality, Number, Shift, Sort, Stack};
use frames::{Body, Op};
use std::test::Fail;

const INT: Op = Op::PushInt(0);

const LONG: Op = Op::PushLong(0);

const NULL: Op = Op::PushNull;

const ADD: Op = Op::Binary(Number::Int, Binary::Add);

const ADD_LONGS: Op = Op::Binary(Number::Long, Binary::Add);

/// A method of an int and then a reference.
const OF_TWO: Shape = Shape {
    body: Body::Code(0),
    parameters: &[Sort::Reference, Sort::Int],
    ..MAIN
};

/// A method of an object.
const OF_OBJECT: Shape = Shape {
    is_static: false,
    ..MAIN
};

/// Instructions of a method with two local variables and four cells of stack, and where they are wrong.
static WRONG: [(&[Op], u32); 60] = [
    // iconst_0, iadd
    (&[INT, ADD], 1),
    // an operand of another kind, in each place
    (&[INT, NULL, ADD], 2),
    (&[NULL, INT, ADD], 2),
    (&[LONG, INT, INT, ADD_LONGS], 3),
    (&[INT, INT, LONG, ADD_LONGS], 3),
    (&[LONG, Op::Negate(Number::Int)], 1),
    (&[INT, Op::Negate(Number::Long)], 1),
    (&[INT, NULL, Op::Shift(Number::Int, Shift::Left)], 2),
    (&[LONG, INT, Op::Shift(Number::Int, Shift::Left)], 2),
    (&[LONG, LONG, Op::Shift(Number::Long, Shift::Left)], 2),
    (&[NULL, Op::Convert(Conversion::IntToByte)], 1),
    (&[INT, Op::Convert(Conversion::LongToInt)], 1),
    (&[LONG, INT, INT, Op::CompareLongs], 3),
    (&[INT, INT, LONG, Op::CompareLongs], 3),
    (&[NULL, Op::If(Condition::Equal, 0)], 1),
    (&[INT, NULL, Op::IfInts(Condition::Equal, 0)], 2),
    (&[NULL, INT, Op::IfInts(Condition::Equal, 0)], 2),
    (&[INT, Op::IfNull(Equality::Equal, 0)], 1),
    (&[INT, NULL, Op::IfSame(Equality::Equal, 0)], 2),
    (&[NULL, INT, Op::IfSame(Equality::Equal, 0)], 2),
    (&[NULL, Op::TableSwitch(0)], 1),
    (&[LONG, Op::LookupSwitch(0)], 1),
    (&[LONG, Op::Stack(Stack::Pop)], 1),
    (&[LONG, INT, Op::Stack(Stack::Swap)], 2),
    (&[NULL, Op::Store(Sort::Int, 0)], 1),
    (&[INT, Op::Store(Sort::Reference, 0)], 1),
    (&[INT, Op::Store(Sort::Long, 0)], 1),
    (&[Op::Load(Sort::Int, 0)], 0),
    (&[Op::Load(Sort::Reference, 1)], 0),
    (&[Op::Increment(0, 1)], 0),
    (&[NULL, Op::Static(Access::Store, 0)], 1),
    (&[INT, Op::Static(Access::Store, 1)], 1),
    (&[INT, Op::Static(Access::Store, 2)], 1),
    (&[INT, Op::Field(Access::Load, 0)], 1),
    (&[INT, INT, Op::Field(Access::Store, 0)], 2),
    (&[NULL, NULL, Op::Field(Access::Store, 0)], 2),
    (&[INT, INT, Op::Element(Access::Load, Kind::I)], 2),
    (&[NULL, NULL, Op::Element(Access::Load, Kind::I)], 2),
    (&[INT, INT, INT, Op::Element(Access::Store, Kind::I)], 3),
    (&[NULL, NULL, INT, Op::Element(Access::Store, Kind::I)], 3),
    (&[NULL, INT, NULL, Op::Element(Access::Store, Kind::I)], 3),
    (&[NULL, Op::NewArray(70)], 1),
    (&[INT, Op::Length], 1),
    (&[INT, Op::Throw], 1),
    (&[INT, Op::Enter], 1),
    (&[INT, Op::Cast(3)], 1),
    (&[INT, Op::IsA(3)], 1),
    (&[INT, Op::InvokeVirtual(0)], 1),
    (&[INT, INT, Op::InvokeStatic(1)], 2),
    (&[NULL, NULL, Op::InvokeStatic(1)], 2),
    (&[INT, Op::InvokeSpecial(2)], 1),
    (&[NULL, Op::ReturnValue(Sort::Int)], 1),
    // local variables past the frame's
    (&[Op::Load(Sort::Reference, 2)], 0),
    (&[INT, Op::Store(Sort::Int, 2)], 1),
    (&[LONG, Op::Store(Sort::Long, 1)], 1),
    (&[Op::Increment(2, 1)], 0),
    // a fifth cell
    (&[INT, LONG, INT, NULL], 3),
    (&[INT, INT, INT, LONG], 3),
    // past the end of the code, with and without an end that decoding put there
    (&[Op::Nop, Op::Bad], 1),
    (&[Op::Goto(7)], 0),
];

#[test]
fn wrong_code_is_found_where_it_is(rt: HostRuntime) -> Result<(), Fail> {
    let alloc = rt.alloc();
    for (row, (ops, pc)) in WRONG.iter().enumerate() {
        let asks = main_asks(alloc, ops, &[MAIN, OF_TWO, OF_OBJECT], &[KIN])?;
        assert!(rt;
            asks.as_slice().last() == Some(&Asked::BadCode(0, *pc)),
            "row {row}"
        );
    }
    Ok(())
}
