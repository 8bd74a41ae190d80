//! What numbers come to (JVMS 6.5).

use crate::asked::Asked;
use crate::code::{KIN, MAIN, Shape};
use crate::play::main_asks;
use ap_base::Item;
use code_form::{Access, Binary, Conversion, Number, Shift, Sort, Stack};
use frames::Op;
use std::alloc::Global;
use std::test::Fail;

const ADD: Op = Op::Binary(Number::Int, Binary::Add);

const SUBTRACT: Op = Op::Binary(Number::Int, Binary::Subtract);

const MULTIPLY: Op = Op::Binary(Number::Int, Binary::Multiply);

const DIVIDE: Op = Op::Binary(Number::Int, Binary::Divide);

const REMAINDER: Op = Op::Binary(Number::Int, Binary::Remainder);

const LEFT: Op = Op::Shift(Number::Int, Shift::Left);

const RIGHT: Op = Op::Shift(Number::Int, Shift::Right);

const UNSIGNED_RIGHT: Op = Op::Shift(Number::Int, Shift::UnsignedRight);

/// Instructions, and the int that they leave.
static INTS: [(&[Op], i32); 32] = [
    (&[Op::PushInt(i32::MAX), Op::PushInt(1), ADD], i32::MIN),
    (&[Op::PushInt(i32::MIN), Op::PushInt(1), SUBTRACT], i32::MAX),
    (
        &[Op::PushInt(46_341), Op::PushInt(46_341), MULTIPLY],
        -2_147_479_015,
    ),
    (&[Op::PushInt(i32::MIN), Op::PushInt(-1), DIVIDE], i32::MIN),
    (&[Op::PushInt(i32::MIN), Op::PushInt(-1), REMAINDER], 0),
    (&[Op::PushInt(-7), Op::PushInt(2), DIVIDE], -3),
    (&[Op::PushInt(-7), Op::PushInt(3), REMAINDER], -1),
    (&[Op::PushInt(7), Op::PushInt(-3), REMAINDER], 1),
    (
        &[
            Op::PushInt(-1),
            Op::PushInt(255),
            Op::Binary(Number::Int, Binary::And),
        ],
        255,
    ),
    (
        &[
            Op::PushInt(-256),
            Op::PushInt(15),
            Op::Binary(Number::Int, Binary::Or),
        ],
        -241,
    ),
    (
        &[
            Op::PushInt(-1),
            Op::PushInt(1),
            Op::Binary(Number::Int, Binary::Xor),
        ],
        -2,
    ),
    (&[Op::PushInt(i32::MIN), Op::Negate(Number::Int)], i32::MIN),
    (&[Op::PushInt(1), Op::PushInt(33), LEFT], 2),
    (&[Op::PushInt(1), Op::PushInt(-1), LEFT], i32::MIN),
    (&[Op::PushInt(-8), Op::PushInt(33), RIGHT], -4),
    (&[Op::PushInt(-1), Op::PushInt(28), UNSIGNED_RIGHT], 15),
    (&[Op::PushInt(-1), Op::PushInt(32), UNSIGNED_RIGHT], -1),
    (&[Op::PushInt(200), Op::Convert(Conversion::IntToByte)], -56),
    (
        &[Op::PushInt(-1), Op::Convert(Conversion::IntToChar)],
        65_535,
    ),
    (
        &[Op::PushInt(40_000), Op::Convert(Conversion::IntToShort)],
        -25_536,
    ),
    // 2^32 loses its upper half
    (&[Op::PushLong(5), Op::Convert(Conversion::LongToInt)], 0),
    // lcmp
    (&[Op::PushLong(4), Op::PushLong(3), Op::CompareLongs], -1),
    (&[Op::PushLong(6), Op::PushLong(7), Op::CompareLongs], 1),
    (&[Op::PushLong(2), Op::PushLong(2), Op::CompareLongs], 0),
    // iinc of a local variable
    (
        &[
            Op::PushInt(5),
            Op::Store(Sort::Int, 1),
            Op::Increment(1, -9),
            Op::Load(Sort::Int, 1),
        ],
        -4,
    ),
    // dup, dup_x1 and swap, told apart by a subtraction
    (&[Op::PushInt(3), Op::Stack(Stack::Dup), SUBTRACT], 0),
    (
        &[
            Op::PushInt(9),
            Op::PushInt(2),
            Op::Stack(Stack::Swap),
            SUBTRACT,
        ],
        -7,
    ),
    (
        &[
            Op::PushInt(9),
            Op::PushInt(2),
            Op::Stack(Stack::DupX1),
            SUBTRACT,
            SUBTRACT,
        ],
        -5,
    ),
    (
        &[
            Op::PushInt(9),
            Op::PushInt(2),
            Op::Stack(Stack::Dup2),
            SUBTRACT,
            ADD,
            ADD,
        ],
        18,
    ),
    // pop2 of a long, and pop
    (
        &[Op::PushInt(4), Op::PushLong(1), Op::Stack(Stack::Pop2)],
        4,
    ),
    (&[Op::PushInt(4), Op::PushNull, Op::Stack(Stack::Pop)], 4),
    (&[Op::Nop, Op::PushInt(-1)], -1),
];

/// Instructions, and the long that they leave.
static LONGS: [(&[Op], i64); 16] = [
    (
        &[
            Op::PushLong(3),
            Op::PushLong(1),
            Op::Binary(Number::Long, Binary::Add),
        ],
        i64::MIN,
    ),
    (
        &[
            Op::PushLong(4),
            Op::PushLong(1),
            Op::Binary(Number::Long, Binary::Subtract),
        ],
        i64::MAX,
    ),
    (
        &[
            Op::PushLong(5),
            Op::PushLong(5),
            Op::Binary(Number::Long, Binary::Multiply),
        ],
        0,
    ),
    (
        &[
            Op::PushLong(4),
            Op::PushLong(2),
            Op::Binary(Number::Long, Binary::Divide),
        ],
        i64::MIN,
    ),
    (
        &[
            Op::PushLong(4),
            Op::PushLong(2),
            Op::Binary(Number::Long, Binary::Remainder),
        ],
        0,
    ),
    (
        &[
            Op::PushLong(7),
            Op::PushLong(5),
            Op::Binary(Number::Long, Binary::Remainder),
        ],
        -7,
    ),
    (
        &[
            Op::PushLong(2),
            Op::PushLong(5),
            Op::Binary(Number::Long, Binary::And),
        ],
        4_294_967_296,
    ),
    (
        &[
            Op::PushLong(5),
            Op::PushLong(6),
            Op::Binary(Number::Long, Binary::Or),
        ],
        4_294_967_303,
    ),
    (
        &[
            Op::PushLong(2),
            Op::PushLong(5),
            Op::Binary(Number::Long, Binary::Xor),
        ],
        -4_294_967_297,
    ),
    (&[Op::PushLong(4), Op::Negate(Number::Long)], i64::MIN),
    (
        &[
            Op::PushLong(1),
            Op::PushInt(33),
            Op::Shift(Number::Long, Shift::Left),
        ],
        8_589_934_592,
    ),
    (
        &[
            Op::PushLong(1),
            Op::PushInt(65),
            Op::Shift(Number::Long, Shift::Left),
        ],
        2,
    ),
    (
        &[
            Op::PushLong(7),
            Op::PushInt(1),
            Op::Shift(Number::Long, Shift::Right),
        ],
        -4,
    ),
    (
        &[
            Op::PushLong(2),
            Op::PushInt(60),
            Op::Shift(Number::Long, Shift::UnsignedRight),
        ],
        15,
    ),
    (
        &[Op::PushInt(i32::MIN), Op::Convert(Conversion::IntToLong)],
        -2_147_483_648,
    ),
    // dup2_x1 of a long over an int
    (
        &[
            Op::PushInt(8),
            Op::PushLong(6),
            Op::Stack(Stack::Dup2X1),
            Op::Stack(Stack::Pop2),
            Op::Stack(Stack::Pop),
        ],
        7,
    ),
];

/// A `main` whose stack may have six cells.
const WIDE: Shape = Shape {
    max_stack: 6,
    ..MAIN
};

// Whether instructions leave this value for the static field of its kind.
fn leaves(alloc: Global, ops: &[Op], store: Op, wanted: Item) -> Result<bool, Fail> {
    let mut code = Vec::new(alloc);
    for op in ops {
        code.push(*op)?;
    }
    code.push(store)?;
    code.push(Op::Return)?;
    let asks = main_asks(alloc, code.as_slice(), &[WIDE], &[KIN])?;
    Ok(asks.as_slice().get(2) == Some(&Asked::Put(wanted)))
}

#[test]
fn numbers_are_those_of_the_standard(rt: HostRuntime) -> Result<(), Fail> {
    let alloc = rt.alloc();
    for (row, (ops, value)) in INTS.iter().enumerate() {
        let store = Op::Static(Access::Store, 0);
        assert!(rt; leaves(alloc, ops, store, Item::Int(*value))?, "int {row}");
    }
    for (row, (ops, value)) in LONGS.iter().enumerate() {
        let store = Op::Static(Access::Store, 1);
        assert!(rt;
            leaves(alloc, ops, store, Item::Long(*value))?,
            "long {row}"
        );
    }
    Ok(())
}
