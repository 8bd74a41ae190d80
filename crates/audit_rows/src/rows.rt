// Rows. Main has number 0, and PrintStream 2. Object 0 is that of `System.out`, 1 the array of arguments.

use crate::histories::{History, print, verdict};
use ap_base::{Bytes, Kind, ListOf, Place, ThreadNo};
use audit_runs::Verdict;
use graph_model::{Graph, NamedValue, Node, Shape, Value};
use run_history::{Op, PlainKey, Stage};
use std::alloc::{AllocError, Global};
use std::test::Fail;

/// `System.out.println(7);`
static PRINTS: &[u8] = b".class Main
.super java/lang/Object
.method main ([Ljava/lang/String;)V 2 1 static
getstatic java/lang/System out Ljava/io/PrintStream;
bipush 7
invokevirtual java/io/PrintStream println (I)V
return
.end
";

/// `data = new int[3]; data[1] = 7;`, where `data` is a durable root.
static STORES: &[u8] = b".class Main
.super java/lang/Object
.field data [I static root
.method main ([Ljava/lang/String;)V 3 1 static
iconst_3
newarray int
putstatic Main data [I
getstatic Main data [I
iconst_1
bipush 7
iastore
return
.end
";

const BEGUN: Op = Op::Init {
    class: 0,
    is: Stage::Begun,
};

const DONE: Op = Op::Init {
    class: 0,
    is: Stage::Done,
};

const STREAM: Op = Op::Read {
    place: Place::Static(0),
    value: Value::Obj(0),
};

const CLASS: Op = Op::Class {
    object: Some(0),
    shape: Some(2),
};

const ENTER: Op = Op::Enter {
    key: PlainKey::Object(0),
};

const EXIT: Op = Op::Exit {
    key: PlainKey::Object(0),
};

const ENDED: Op = Op::Ended { uncaught: None };

fn empty(alloc: Global) -> Graph {
    Graph {
        roots: ListOf::new(alloc),
        nodes: ListOf::new(alloc),
    }
}

// The verdict of a history of the program that prints.
fn printed(alloc: Global, ops: &[Op], output: &[u8]) -> Result<Verdict, Fail> {
    let history = History {
        first: ops,
        joined: None,
        then: &[],
    };
    verdict(alloc, PRINTS, history, 0, output, &empty(alloc))
}

#[test]
fn a_run_that_prints_is_right(rt: HostRuntime) -> Result<(), Fail> {
    let seven = print(b"7\n")?;
    let ops = [BEGUN, DONE, STREAM, CLASS, ENTER, seven, EXIT, ENDED];
    let is = printed(rt.alloc(), &ops, b"7\n")?;
    assert!(rt; is == Verdict::Yes, "{is:?}");
    Ok(())
}

#[test]
fn another_output_is_refuted(rt: HostRuntime) -> Result<(), Fail> {
    let seven = print(b"7\n")?;
    let ops = [BEGUN, DONE, STREAM, CLASS, ENTER, seven, EXIT, ENDED];
    let is = printed(rt.alloc(), &ops, b"8\n")?;
    assert!(rt; is == Verdict::Output, "{is:?}");
    Ok(())
}

#[test]
fn an_act_left_out_is_refuted(rt: HostRuntime) -> Result<(), Fail> {
    let seven = print(b"7\n")?;
    let ops = [BEGUN, DONE, STREAM, ENTER, seven, EXIT, ENDED];
    let is = printed(rt.alloc(), &ops, b"7\n")?;
    assert!(rt; is == Verdict::Act(3), "{is:?}");
    Ok(())
}

// ---- a durable root and an array: Main's root is static field 1, and the array has number 2, of the type with number 30

const MADE: Op = Op::Alloc {
    object: 2,
    shape: 30,
    length: 3,
};

const ASKED: Op = Op::Asked {
    place: Place::Static(1),
    value: Value::Obj(2),
};

const ROOTED: Op = Op::Stored {
    place: Place::Static(1),
    value: Value::Obj(2),
};

const READ: Op = Op::Read {
    place: Place::Static(1),
    value: Value::Obj(2),
};

const SEVEN: Op = Op::Stored {
    place: Place::Slot {
        object: 2,
        index: 1,
    },
    value: Value::Int(7),
};

// The root with an array of three ints, of which the middle one is given.
fn rooted(alloc: Global, middle: i32) -> Result<Graph, Fail> {
    let values = [Value::Int(0), Value::Int(middle), Value::Int(0)];
    let mut roots = Vec::new(alloc);
    roots.push(NamedValue {
        name: Bytes::copy(alloc, b"Main.data")?,
        value: Value::Obj(0),
    })?;
    let mut nodes = Vec::new(alloc);
    nodes.push(Node {
        shape: Shape {
            name: Bytes::copy(alloc, b"[I")?,
            fields: ListOf::new(alloc),
            element: Some(Kind::I),
        },
        values: ListOf::from_vec(Vec::from_slice(alloc, &values)?),
    })?;
    Ok(Graph {
        roots: ListOf::from_vec(roots),
        nodes: ListOf::from_vec(nodes),
    })
}

/// What thread 0 does in a row.
#[derive(Clone, Copy, Debug)]
enum Did {
    Begun,
    Done,
    Made,
    Asked,
    Rooted,
    Fenced,
    Read,
    Seven,
    Ended,
}

fn op_of(did: Did) -> Op {
    match did {
        Did::Begun => BEGUN,
        Did::Done => DONE,
        Did::Made => MADE,
        Did::Asked => ASKED,
        Did::Rooted => ROOTED,
        Did::Fenced => Op::Fenced,
        Did::Read => READ,
        Did::Seven => SEVEN,
        Did::Ended => ENDED,
    }
}

fn ops_of(alloc: Global, did: &[Did]) -> Result<Vec<Op>, AllocError> {
    did.iter().map(|one| op_of(*one)).collect(alloc)
}

/// The acts before and behind a Joined act of object 2, if there is one; `keep`; what the array has at 1 then; and the verdict.
type Row = (&'static [Did], bool, &'static [Did], u64, i32, Verdict);

static ROWS: [Row; 8] = [
    // the whole run
    (
        &[Did::Begun, Did::Done, Did::Made, Did::Asked],
        true,
        &[
            Did::Rooted,
            Did::Fenced,
            Did::Read,
            Did::Seven,
            Did::Fenced,
            Did::Ended,
        ],
        0,
        7,
        Verdict::Yes,
    ),
    // the last store isn't fenced: kept, or not
    (
        &[Did::Begun, Did::Done, Did::Made, Did::Asked],
        true,
        &[Did::Rooted, Did::Fenced, Did::Read, Did::Seven],
        1,
        7,
        Verdict::Yes,
    ),
    (
        &[Did::Begun, Did::Done, Did::Made, Did::Asked],
        true,
        &[Did::Rooted, Did::Fenced, Did::Read, Did::Seven],
        0,
        0,
        Verdict::Yes,
    ),
    (
        &[Did::Begun, Did::Done, Did::Made, Did::Asked],
        true,
        &[Did::Rooted, Did::Fenced, Did::Read, Did::Seven],
        2,
        7,
        Verdict::Image,
    ),
    // the array didn't become durable before the root was stored
    (
        &[Did::Begun, Did::Done, Did::Made, Did::Asked],
        false,
        &[Did::Rooted, Did::Fenced],
        0,
        0,
        Verdict::Act(4),
    ),
    // nobody wanted the array
    (
        &[Did::Begun, Did::Done, Did::Made],
        true,
        &[Did::Rooted],
        0,
        0,
        Verdict::Act(3),
    ),
    // no fence
    (
        &[Did::Begun, Did::Done, Did::Made, Did::Asked],
        true,
        &[Did::Rooted, Did::Read],
        0,
        0,
        Verdict::Act(6),
    ),
    // it is asked once
    (
        &[Did::Begun, Did::Done, Did::Made, Did::Asked, Did::Asked],
        true,
        &[],
        0,
        0,
        Verdict::Act(4),
    ),
];

fn row_verdict(alloc: Global, row: &Row, output: &[u8]) -> Result<Verdict, Fail> {
    let first = ops_of(alloc, row.0)?;
    let then = ops_of(alloc, row.2)?;
    let history = History {
        first: first.as_slice(),
        joined: if row.1 { Some(2) } else { None },
        then: then.as_slice(),
    };
    let after = rooted(alloc, row.4)?;
    verdict(alloc, STORES, history, row.3, output, &after)
}

#[test]
fn stores_to_a_durable_root_are_judged(rt: HostRuntime) -> Result<(), Fail> {
    for row in &ROWS {
        let is = row_verdict(rt.alloc(), row, b"")?;
        assert!(rt; is == row.5, "{is:?}");
    }
    Ok(())
}

/// Rows of which several things are wrong, with what they are said to print: the verdict is the first that applies. The program
/// prints nothing.
static WRONG: [(Row, &[u8]); 4] = [
    (
        (&[Did::Begun, Did::Done], false, &[], 0, 7, Verdict::Image),
        b"",
    ),
    (
        (
            &[Did::Begun, Did::Done, Did::Made, Did::Asked],
            true,
            &[Did::Rooted, Did::Fenced],
            0,
            0,
            Verdict::Output,
        ),
        b"7\n",
    ),
    (
        (
            &[Did::Begun, Did::Done, Did::Made, Did::Asked],
            true,
            &[Did::Rooted, Did::Fenced],
            0,
            7,
            Verdict::Output,
        ),
        b"7\n",
    ),
    (
        (
            &[Did::Begun, Did::Done, Did::Made],
            true,
            &[Did::Rooted],
            0,
            7,
            Verdict::Act(3),
        ),
        b"7\n",
    ),
];

#[test]
fn the_first_that_applies_is_said(rt: HostRuntime) -> Result<(), Fail> {
    for (row, output) in &WRONG {
        let is = row_verdict(rt.alloc(), row, output)?;
        assert!(rt; is == row.5, "{is:?}");
    }
    Ok(())
}

/// An act of each kind, none of which comes where `System.out` is read, or behind the end.
fn too_many() -> Result<[Op; 22], Fail> {
    let object = 0;
    let place = Place::Static(1);
    let value = Value::Null;
    Ok([
        Op::Pause,
        MADE,
        Op::Read { place, value },
        Op::Stored { place, value },
        Op::Length { object, length: 0 },
        CLASS,
        Op::Same { yes: true },
        ENTER,
        EXIT,
        Op::Start {
            object,
            child: ThreadNo::new(1).ok_or("a thread")?,
        },
        Op::Join { object },
        DONE,
        print(b"7\n")?,
        Op::Throw {
            object: 2,
            class: 3,
        },
        Op::Begin,
        Op::End,
        ENDED,
        Op::Asked { place, value },
        Op::Joined,
        Op::Guarded { place },
        Op::Closing,
        Op::Fenced,
    ])
}

#[test]
fn an_act_too_many_is_refuted(rt: HostRuntime) -> Result<(), Fail> {
    for op in &too_many()? {
        let is = printed(rt.alloc(), &[BEGUN, DONE, *op], b"")?;
        assert!(rt; is == Verdict::Act(2), "{op:?} {is:?}");
    }
    Ok(())
}

#[test]
fn an_act_behind_the_end_is_refuted(rt: HostRuntime) -> Result<(), Fail> {
    let seven = print(b"7\n")?;
    for op in &too_many()? {
        let ops = [BEGUN, DONE, STREAM, CLASS, ENTER, seven, EXIT, ENDED, *op];
        let is = printed(rt.alloc(), &ops, b"7\n")?;
        assert!(rt; is == Verdict::Act(8), "{op:?} {is:?}");
    }
    Ok(())
}
