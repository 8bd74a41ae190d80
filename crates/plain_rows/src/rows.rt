//! Rows. Main has number 0, Node number 1, PrintStream 3, NullPointerException 19 and String 23. Object 0 is the node,
//! 1 that of `System.out`, 2 the array of arguments, 3 the literal. Static field 0 is `System.out`, 1 the root.

use crate::play::{Did, Program, Row, odd_row, persists_behind};
use ap_base::Place;
use graph_model::Value;
use run_history::{Op, Stage};
use std::test::Fail;

// Numbers of built-in classes.
const PRINT_STREAM: u32 = 3;

const NULL_POINTER: u32 = 19;

const STRING: u32 = 23;

/// `int v = root.v; Node n = new Node(); n.v = v + 1; System.out.println(n.v); "hi".length();
/// synchronized (n) { } n == root; ((Node) null).v`.
static PROGRAM: Program = Program {
    listing: b".class Main
.super java/lang/Object
.field root LNode; static root
.field sum I static
.method main ([Ljava/lang/String;)V 3 3 static
getstatic Main root LNode;
getfield Node v I
istore_1
new Node
astore_2
aload_2
iload_1
iconst_1
iadd
putfield Node v I
getstatic java/lang/System out Ljava/io/PrintStream;
aload_2
getfield Node v I
invokevirtual java/io/PrintStream println (I)V
ldc \"hi\"
invokevirtual java/lang/String length ()I
pop
aload_2
monitorenter
aload_2
monitorexit
aload_2
getstatic Main root LNode;
if_acmpeq end
end:
getstatic Main sum I
pop
aconst_null
getfield Node v I
pop
return
.end
.class Node
.super java/lang/Object
.field v I
",
    root: b"Main.root",
    class: b"Node",
    values: &[7],
};

/// What thread 0 does, one after another, each with what differs from it.
static ROWS: [Row; 24] = [
    (Did::Init(0, Stage::Begun), Did::Init(1, Stage::Begun)),
    (Did::Init(0, Stage::Done), Did::Init(0, Stage::Ready)),
    // the root holds the node, whose field is 7
    (
        Did::ReadStatic(1, Value::Obj(0)),
        Did::ReadStatic(1, Value::Null),
    ),
    (
        Did::ReadSlot(0, Value::Int(7)),
        Did::ReadSlot(0, Value::Int(0)),
    ),
    // Node is initialised before `new` makes an object
    (Did::Init(1, Stage::Begun), Did::Alloc(4, 1, 1)),
    (Did::Init(1, Stage::Done), Did::Init(1, Stage::Begun)),
    (Did::Alloc(4, 1, 1), Did::Alloc(3, 1, 1)),
    (Did::Stored(4, Value::Int(8)), Did::Stored(4, Value::Int(7))),
    (
        Did::ReadStatic(0, Value::Obj(1)),
        Did::ReadStatic(0, Value::Obj(2)),
    ),
    (
        Did::ReadSlot(4, Value::Int(8)),
        Did::ReadSlot(0, Value::Int(8)),
    ),
    (Did::Class(1, PRINT_STREAM), Did::Class(1, STRING)),
    (Did::Enter(1), Did::Enter(4)),
    // a print may be of any first bytes
    (Did::Print(b"8"), Did::Print(b"7")),
    (Did::Print(b"\n"), Did::Print(b"8\n")),
    (Did::Exit(1), Did::Enter(1)),
    (Did::Class(3, STRING), Did::Class(3, PRINT_STREAM)),
    (Did::Length(3, 2), Did::Length(3, 3)),
    (Did::Enter(4), Did::Enter(0)),
    (Did::Exit(4), Did::Exit(0)),
    (
        Did::ReadStatic(1, Value::Obj(0)),
        Did::ReadStatic(1, Value::Obj(4)),
    ),
    (Did::Same(false), Did::Same(true)),
    (
        Did::ReadStatic(2, Value::Int(0)),
        Did::ReadStatic(2, Value::Int(8)),
    ),
    (Did::Throw(5, NULL_POINTER), Did::Throw(5, STRING)),
    (Did::Ended(Some(NULL_POINTER)), Did::Ended(None)),
];

#[test]
fn each_act_of_a_program_comes_next_alone(rt: HostRuntime) -> Result<(), Fail> {
    let odd = odd_row(rt.alloc(), &PROGRAM, &ROWS)?;
    assert!(rt; odd.is_none(), "{odd:?}");
    Ok(())
}

fn persistent() -> [Op; 5] {
    [
        Op::Asked {
            place: Place::Static(1),
            value: Value::Obj(0),
        },
        Op::Joined,
        Op::Guarded {
            place: Place::Static(1),
        },
        Op::Closing,
        Op::Fenced,
    ]
}

#[test]
fn acts_of_persistence_are_followed_anywhere(rt: HostRuntime) -> Result<(), Fail> {
    for op in &persistent() {
        for front in [&ROWS[..0], &ROWS[..7], &ROWS[..]] {
            assert!(rt;
                persists_behind(rt.alloc(), &PROGRAM, front, *op)?,
                "{op:?}"
            );
        }
    }
    Ok(())
}
