//! Small programs, and what they ask in turn.

use crate::asked::Asked;
use crate::code::{ARITHMETIC, KIN, Kin, MAIN, Shape};
use crate::play::{main_asks, thread_asks};
use ap_base::{Item, Kind, Ref};
use code_form::{Access, Binary, Condition, Equality, Number, Sort, Stack};
use frames::{Body, Catch, Handler, Op, Target};
use natives::Native;
use std::alloc::Global;
use std::test::Fail;

const PUT: Op = Op::Static(Access::Store, 0);

const PUT_REFERENCE: Op = Op::Static(Access::Store, 2);

const DIVIDE: Op = Op::Binary(Number::Int, Binary::Divide);

const SUBTRACT: Op = Op::Binary(Number::Int, Binary::Subtract);

const INIT: Asked = Asked::Init(0);

const DONE: Asked = Asked::InitDone(0);

const RAISE: Asked = Asked::Raise(ARITHMETIC);

const LEAVE: Asked = Asked::Leave(None);

const THROWN: Ref = Ref::Volatile(ARITHMETIC);

/// A program, and what its `main` asks in turn.
struct Row {
    name: &'static str,
    ops: &'static [Op],
    shapes: &'static [Shape],
    kins: &'static [Kin],
    wanted: &'static [Asked],
}

/// A static method without parameters that begins at the ninth instruction.
const CALLED: Shape = Shape {
    body: Body::Code(8),
    parameters: &[],
    max_locals: 0,
    max_stack: 2,
    ..MAIN
};

/// A loop from 3 down, which takes each number from a sum by a call.
const SUM: [Op; 18] = [
    Op::PushInt(0),
    Op::Store(Sort::Int, 0),
    Op::PushInt(3),
    Op::Store(Sort::Int, 1),
    Op::Load(Sort::Int, 0),
    Op::Load(Sort::Int, 1),
    Op::InvokeStatic(1),
    Op::Store(Sort::Int, 0),
    Op::Increment(1, -1),
    Op::Load(Sort::Int, 1),
    Op::If(Condition::NotEqual, 4),
    Op::Load(Sort::Int, 0),
    PUT,
    Op::Return,
    // the first argument less the second
    Op::Load(Sort::Int, 0),
    Op::Load(Sort::Int, 1),
    SUBTRACT,
    Op::ReturnValue(Sort::Int),
];

/// A call within two handlers, of a method that divides by zero.
const NESTED: [Op; 12] = [
    Op::InvokeStatic(1),
    Op::Return,
    // the inner handler
    Op::PushInt(1),
    PUT,
    // the outer one
    Op::Stack(Stack::Pop),
    Op::PushInt(2),
    PUT,
    Op::Return,
    Op::PushInt(1),
    Op::PushInt(0),
    DIVIDE,
    Op::Return,
];

/// A handler of the call above.
const INNER: Handler = Handler {
    start: 0,
    end: 1,
    target: 2,
    catches: Catch::Class(ARITHMETIC),
};

const OF_ANOTHER: Handler = Handler {
    catches: Catch::Class(ARITHMETIC + 1),
    ..INNER
};

const OUTER: Handler = Handler {
    start: 0,
    end: 2,
    target: 4,
    catches: Catch::All,
};

/// `try { 1 / 0 } finally { f = 9 }`, as compilers write it: the block stands behind the body and in a handler.
const FINALLY: [Op; 12] = [
    Op::PushInt(1),
    Op::PushInt(0),
    DIVIDE,
    PUT,
    Op::PushInt(8),
    PUT,
    Op::Return,
    Op::Store(Sort::Reference, 1),
    Op::PushInt(9),
    PUT,
    Op::Load(Sort::Reference, 1),
    Op::Throw,
];

const FINALLY_HANDLER: Handler = Handler {
    start: 0,
    end: 4,
    target: 7,
    catches: Catch::All,
};

/// References that a program compares, and objects that it makes and uses.
const OBJECTS: [Op; 30] = [
    Op::New(50),
    Op::Stack(Stack::Dup),
    Op::Store(Sort::Reference, 1),
    Op::PushInt(5),
    Op::Field(Access::Store, 0),
    Op::Load(Sort::Reference, 1),
    Op::Field(Access::Load, 0),
    PUT,
    Op::PushInt(2),
    Op::NewArray(51),
    Op::PushInt(1),
    Op::PushLong(1),
    Op::Element(Access::Store, Kind::J),
    Op::PushLiteral(1),
    Op::Length,
    PUT,
    Op::Load(Sort::Reference, 1),
    Op::PushLiteral(0),
    Op::IfSame(Equality::Equal, 25),
    Op::Load(Sort::Reference, 1),
    Op::Enter,
    Op::Load(Sort::Reference, 1),
    Op::Exit,
    Op::PushLiteral(0),
    PUT_REFERENCE,
    Op::PushNull,
    Op::IfNull(Equality::Equal, 28),
    Op::Goto(0),
    Op::Return,
    Op::Bad,
];

/// Switches to the seventh and the tenth instruction for -1 and 0, and for -4 and 7; else to the fourth.
const SWITCHES: [Op; 12] = [
    Op::PushInt(-1),
    Op::TableSwitch(0),
    Op::Bad,
    Op::PushInt(30),
    PUT,
    Op::Return,
    Op::PushInt(7),
    Op::LookupSwitch(0),
    Op::Bad,
    Op::PushInt(-5),
    Op::LookupSwitch(0),
    Op::Bad,
];

/// `run()` of two objects.
const VIRTUAL: [Op; 11] = [
    Op::New(1),
    Op::InvokeVirtual(0),
    Op::PushLiteral(0),
    Op::InvokeVirtual(0),
    Op::Return,
    Op::Bad,
    Op::Bad,
    Op::Bad,
    // the method
    Op::PushInt(5),
    PUT,
    Op::Return,
];

const NATIVE: [Op; 5] = [
    Op::PushLiteral(0),
    Op::PushLiteral(1),
    Op::InvokeStatic(1),
    PUT,
    Op::Return,
];

const SUMMING: Shape = Shape {
    parameters: &[],
    ..MAIN
};

const DIFFERENCE: Shape = Shape {
    body: Body::Code(14),
    parameters: &[Sort::Int, Sort::Int],
    ..MAIN
};

const NESTING: Shape = Shape {
    handlers: &[INNER, OUTER],
    ..MAIN
};

const NESTING_ANOTHER: Shape = Shape {
    handlers: &[OF_ANOTHER, OUTER],
    ..MAIN
};

const ENDING: Shape = Shape {
    handlers: &[FINALLY_HANDLER],
    ..MAIN
};

const AT_RETURN: Shape = Shape {
    body: Body::Code(1),
    ..MAIN
};

const SYNCHRONIZED: Shape = Shape {
    body: Body::Code(8),
    is_synchronized: true,
    ..MAIN
};

const THROWING: Kin = Kin {
    initialiser: Some(1),
    ..KIN
};

const OF_ARITHMETIC: Kin = Kin {
    supertypes: &[ARITHMETIC],
    ..KIN
};

const BELOW: Kin = Kin {
    superclass: Some(1),
    ..KIN
};

const LEAVES: Asked = Asked::Leave(Some(ARITHMETIC));

/// `Object.equals` as a static method of two objects, the second on top.
const EQUALS: Shape = Shape {
    body: Body::Native(Native::ObjectEquals),
    parameters: &[Sort::Reference, Sort::Reference],
    ..CALLED
};

/// An instance method that puts 5.
const RUNS: Shape = Shape {
    is_static: false,
    parameters: &[Sort::Reference],
    max_locals: 1,
    ..CALLED
};

/// `Thread.run`.
const THREAD_RUN: Shape = Shape {
    body: Body::Native(Native::ThreadRun),
    ..RUNS
};

static ROWS: [Row; 11] = [
    Row {
        name: "a loop calls a method",
        ops: &SUM,
        shapes: &[SUMMING, DIFFERENCE],
        kins: &[KIN],
        wanted: &[
            INIT,
            DONE,
            INIT,
            INIT,
            INIT,
            Asked::Put(Item::Int(-6)),
            LEAVE,
        ],
    },
    Row {
        name: "the inner of two handlers, and on into the outer one's code",
        ops: &NESTED,
        shapes: &[NESTING, CALLED],
        kins: &[KIN, KIN, OF_ARITHMETIC],
        wanted: &[
            INIT,
            DONE,
            INIT,
            RAISE,
            Asked::Put(Item::Int(1)),
            Asked::Put(Item::Int(2)),
            LEAVE,
        ],
    },
    Row {
        name: "the outer of two handlers",
        ops: &NESTED,
        shapes: &[NESTING_ANOTHER, CALLED],
        kins: &[KIN, KIN, OF_ARITHMETIC],
        wanted: &[INIT, DONE, INIT, RAISE, Asked::Put(Item::Int(2)), LEAVE],
    },
    Row {
        name: "finally",
        ops: &FINALLY,
        shapes: &[ENDING],
        kins: &[KIN],
        wanted: &[
            INIT,
            DONE,
            RAISE,
            Asked::Put(Item::Int(9)),
            Asked::ClassOf(THROWN),
            LEAVES,
        ],
    },
    Row {
        name: "an initialiser throws",
        ops: &NESTED,
        shapes: &[AT_RETURN, CALLED],
        kins: &[THROWING],
        wanted: &[INIT, RAISE, Asked::InitFailed(0)],
    },
    Row {
        name: "a superclass is initialised first",
        ops: &NESTED,
        shapes: &[AT_RETURN],
        kins: &[BELOW, KIN],
        wanted: &[
            INIT,
            Asked::Init(1),
            Asked::InitDone(1),
            Asked::Init(1),
            DONE,
            LEAVE,
        ],
    },
    Row {
        name: "a throwable leaves a synchronized method",
        ops: &NESTED,
        shapes: &[SYNCHRONIZED],
        kins: &[KIN],
        wanted: &[INIT, DONE, Asked::Enter, RAISE, Asked::Exit, LEAVES],
    },
    Row {
        name: "objects",
        ops: &OBJECTS,
        shapes: &[MAIN],
        kins: &[KIN],
        wanted: &[
            INIT,
            DONE,
            Asked::New(50),
            Asked::PutIn(Ref::Volatile(50), Item::Int(5)),
            Asked::Get(Ref::Volatile(50)),
            Asked::Put(Item::Int(60)),
            Asked::New(51),
            Asked::PutIn(Ref::Volatile(51), Item::Long(1)),
            Asked::Get(Ref::Persistent(41)),
            Asked::Put(Item::Int(3)),
            Asked::Same(Ref::Volatile(50), Ref::Volatile(40)),
            Asked::Enter,
            Asked::Exit,
            Asked::Put(Item::Ref(Ref::Volatile(40))),
            LEAVE,
        ],
    },
    Row {
        name: "switches",
        ops: &SWITCHES,
        shapes: &[MAIN],
        kins: &[KIN],
        wanted: &[INIT, DONE, Asked::Put(Item::Int(30)), LEAVE],
    },
    Row {
        name: "a virtual call, and none where the class has no such method",
        ops: &VIRTUAL,
        shapes: &[MAIN, RUNS],
        kins: &[KIN, KIN],
        wanted: &[
            INIT,
            DONE,
            Asked::New(1),
            Asked::ClassOf(Ref::Volatile(1)),
            Asked::Put(Item::Int(5)),
            Asked::ClassOf(Ref::Volatile(40)),
            Asked::Other,
        ],
    },
    Row {
        name: "a native method is given its arguments in order",
        ops: &NATIVE,
        shapes: &[MAIN, EQUALS],
        kins: &[KIN],
        wanted: &[
            INIT,
            DONE,
            INIT,
            Asked::Same(Ref::Volatile(40), Ref::Persistent(41)),
            Asked::Put(Item::Int(0)),
            LEAVE,
        ],
    },
];

#[test]
fn programs_ask_in_turn(rt: HostRuntime) -> Result<(), Fail> {
    let alloc = rt.alloc();
    for row in &ROWS {
        let asks = main_asks(alloc, row.ops, row.shapes, row.kins)?;
        assert!(rt; asks.as_slice() == row.wanted, "{}", row.name);
    }
    Ok(())
}

// So many instructions that ask nothing, and then a store.
fn storing(alloc: Global, before: usize) -> Result<Vec<Op>, Fail> {
    let mut ops = Vec::new(alloc);
    ops.push(Op::PushInt(5))?;
    for _nop in 1..before {
        ops.push(Op::Nop)?;
    }
    ops.push(PUT)?;
    ops.push(Op::Return)?;
    Ok(ops)
}

fn asks_after(alloc: Global, before: usize) -> Result<Vec<Asked>, Fail> {
    let ops = storing(alloc, before)?;
    main_asks(alloc, ops.as_slice(), &[MAIN], &[])
}

static IN_ONE_TURN: [Asked; 4] = [INIT, DONE, Asked::Put(Item::Int(5)), LEAVE];

static IN_TWO_TURNS: [Asked; 5] = [INIT, DONE, Asked::Pause, Asked::Put(Item::Int(5)), LEAVE];

// So many instructions that do nothing, and then some that are done several at once, wherever they stand: a product is
// stored, counted down and compared, and the number stored to the field.
fn joined(alloc: Global, before: u32) -> Result<Vec<Op>, Fail> {
    let mut ops = Vec::new(alloc);
    for _nop in 0..before {
        ops.push(Op::Nop)?;
    }
    let joined = [
        Op::PushInt(6),
        Op::Store(Sort::Int, 1),
        Op::Load(Sort::Int, 1),
        Op::PushInt(7),
        Op::Binary(Number::Int, Binary::Multiply),
        Op::Store(Sort::Int, 1),
        Op::Increment(1, -2),
        Op::Goto(before.wrapping_add(8)),
        Op::Load(Sort::Int, 1),
        Op::PushInt(40),
        Op::IfInts(Condition::Equal, before.wrapping_add(12)),
        Op::Return,
        Op::Load(Sort::Int, 1),
        PUT,
        Op::Return,
    ];
    for op in &joined {
        ops.push(*op)?;
    }
    Ok(ops)
}

static JOINED_IN_ONE_TURN: [Asked; 4] = [INIT, DONE, Asked::Put(Item::Int(40)), LEAVE];

static JOINED_IN_TWO_TURNS: [Asked; 5] = [
    INIT,
    DONE,
    Asked::Pause,
    Asked::Put(Item::Int(40)),
    LEAVE,
];

// What such a program asks: twelve of its instructions are done before the store to the field, and a turn may end among them.
#[test]
fn a_turn_may_end_among_joined_instructions(rt: HostRuntime) -> Result<(), Fail> {
    let alloc = rt.alloc();
    for before in 1_008..1_025 {
        let ops = joined(alloc, before)?;
        let asks = main_asks(alloc, ops.as_slice(), &[MAIN], &[])?;
        if before < 1_012 {
            assert!(rt;
                asks.as_slice() == JOINED_IN_ONE_TURN.as_slice(),
                "{before}"
            );
        } else {
            assert!(rt;
                asks.as_slice() == JOINED_IN_TWO_TURNS.as_slice(),
                "{before}"
            );
        }
    }
    Ok(())
}

/// A method that calls itself, of a program whose classes are built in, so that a call asks nothing.
static CALLING: [Op; 2] = [Op::InvokeStatic(1), Op::InvokeStatic(1)];

const WITHOUT_CELLS: Shape = Shape {
    max_locals: 0,
    max_stack: 0,
    ..CALLED
};

const ITSELF: Shape = Shape {
    body: Body::Code(1),
    ..WITHOUT_CELLS
};

const FIRST: Shape = Shape {
    max_locals: 1,
    max_stack: 0,
    ..MAIN
};

#[test]
fn turns_and_frames_are_bounded(rt: HostRuntime) -> Result<(), Fail> {
    let alloc = rt.alloc();
    assert!(rt; asks_after(alloc, 1_023)?.as_slice() == IN_ONE_TURN.as_slice());
    assert!(rt; asks_after(alloc, 1_024)?.as_slice() == IN_TWO_TURNS.as_slice());
    // `main` has one local variable, so that 65,531 slots are left; of the calls the 16,383rd finds three
    let asks = main_asks(alloc, &CALLING, &[FIRST, ITSELF], &[])?;
    assert_eq!(rt; asks.len(), 18);
    assert!(rt; asks.as_slice().last() == Some(&Asked::Slots(4, 3)));
    Ok(())
}

/// What the thread of a Thread object asks whose class has `Thread.run`, with a target of another class.
static OF_THREAD: [Asked; 5] = [
    Asked::ClassOf(Ref::Volatile(0)),
    Asked::Get(Ref::Volatile(0)),
    Asked::ClassOf(Ref::Volatile(1)),
    Asked::Put(Item::Int(5)),
    LEAVE,
];

const OF_TARGET: Kin = Kin {
    run: Target::Method(2),
    ..KIN
};

#[test]
fn a_thread_runs_its_target(rt: HostRuntime) -> Result<(), Fail> {
    let shapes = [MAIN, THREAD_RUN, RUNS];
    let asks = thread_asks(rt.alloc(), &VIRTUAL, &shapes, &[KIN, OF_TARGET])?;
    assert!(rt; asks.as_slice() == OF_THREAD.as_slice());
    Ok(())
}
