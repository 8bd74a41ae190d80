//! Programs for rows.

use ap_base::{Kind, ListOf, Ref};
use code_form::{Case, Sort};
use frames::{
    Body, Class, Dispatch, Handler, Lookup, Method, Op, Placed, Program, Selector, Table, Target,
};
use natives::Native;
use program_host::ProgramHost;
use run_types::{FieldAt, Known};
use std::alloc::Global;
use std::test::Fail;

/// A method of class 0.
#[derive(Clone, Copy)]
pub struct Shape {
    pub body: Body<Native>,
    pub parameters: &'static [Sort],
    pub max_locals: u16,
    pub max_stack: u16,
    pub is_static: bool,
    pub is_synchronized: bool,
    pub handlers: &'static [Handler],
}

/// A class of the program.
#[derive(Clone, Copy)]
pub struct Kin {
    pub superclass: Option<u32>,
    pub initialiser: Option<u32>,
    /// The classes of which it is a subtype.
    pub supertypes: &'static [u32],
    /// What `run()` is.
    pub run: Target,
}

/// The class ArithmeticException.
pub const ARITHMETIC: u32 = 2;

/// A `main` at the first instruction, with its argument as a local variable and another one.
pub const MAIN: Shape = Shape {
    body: Body::Code(0),
    parameters: &[Sort::Reference],
    max_locals: 2,
    max_stack: 4,
    is_static: true,
    is_synchronized: false,
    handlers: &[],
};

/// A class without superclass, initialiser or methods.
pub const KIN: Kin = Kin {
    superclass: None,
    initialiser: None,
    supertypes: &[],
    run: Target::Method(1),
};

/// The program's longs.
static LONGS: [i64; 8] = [0, 1, -1, i64::MAX, i64::MIN, 4_294_967_296, 7, -7];

const INT_FIELD: FieldAt = FieldAt {
    class: 0,
    is_static: true,
    at: 0,
    kind: Kind::I,
};

/// A field of ints, one of longs and one of references.
static FIELDS: [FieldAt; 3] = [
    INT_FIELD,
    FieldAt {
        kind: Kind::J,
        ..INT_FIELD
    },
    FieldAt {
        kind: Kind::L,
        ..INT_FIELD
    },
];

static TARGETS: [u32; 2] = [6, 9];

static CASES: [Case; 2] = [Case { key: -4, target: 6 }, Case { key: 7, target: 9 }];

/// What is called by the class of its receiver.
const SELECTOR: Selector = Selector {
    signature: 0,
    within: 91,
    arguments: 1,
    class: 0,
    index: 4,
};

fn list<T: Copy + Drop>(alloc: Global, items: &[T]) -> Result<ListOf<T>, Fail> {
    let mut list = Vec::new(alloc);
    for item in items {
        list.push(*item)?;
    }
    Ok(ListOf::from_vec(list))
}

// Each instruction at its index, of the first method.
fn placed(alloc: Global, ops: &[Op]) -> Result<ListOf<Placed>, Fail> {
    let mut code = Vec::new(alloc);
    let mut pc: u32 = 0;
    for op in ops {
        code.push(Placed {
            op: *op,
            method: 0,
            pc,
        })?;
        pc = pc.wrapping_add(1);
    }
    Ok(ListOf::from_vec(code))
}

fn method(alloc: Global, number: u32, shape: &Shape) -> Result<Method<Native>, Fail> {
    let parameters = list(alloc, shape.parameters)?;
    let handlers = list(alloc, shape.handlers)?;
    Ok(Method {
        class: 0,
        number,
        body: shape.body,
        parameters,
        max_locals: shape.max_locals,
        max_stack: shape.max_stack,
        is_static: shape.is_static,
        is_synchronized: shape.is_synchronized,
        handlers,
    })
}

fn methods(alloc: Global, shapes: &[Shape]) -> Result<ListOf<Method<Native>>, Fail> {
    let mut methods = ListOf::new(alloc);
    let mut number: u32 = 0;
    for shape in shapes {
        methods.push(method(alloc, number, shape)?)?;
        number = number.wrapping_add(1);
    }
    Ok(methods)
}

fn class(alloc: Global, kin: &Kin) -> Result<Class, Fail> {
    let run = Dispatch {
        signature: 0,
        target: kin.run,
    };
    let dispatch = list(alloc, &[run])?;
    let supertypes = list(alloc, kin.supertypes)?;
    Ok(Class {
        supertypes,
        dispatch,
        superclass: kin.superclass,
        initialiser: kin.initialiser,
        of_program: true,
    })
}

fn classes(alloc: Global, kins: &[Kin]) -> Result<ListOf<Class>, Fail> {
    let mut classes = ListOf::new(alloc);
    for kin in kins {
        classes.push(class(alloc, kin)?)?;
    }
    Ok(classes)
}

fn tables(alloc: Global) -> Result<ListOf<Table>, Fail> {
    let targets = list(alloc, &TARGETS)?;
    let mut tables = ListOf::new(alloc);
    tables.push(Table {
        low: -1,
        default: 3,
        targets,
    })?;
    Ok(tables)
}

fn lookups(alloc: Global) -> Result<ListOf<Lookup>, Fail> {
    let cases = list(alloc, &CASES)?;
    let mut lookups = ListOf::new(alloc);
    lookups.push(Lookup { default: 3, cases })?;
    Ok(lookups)
}

fn empty(alloc: Global) -> Program<Native> {
    Program {
        code: ListOf::new(alloc),
        methods: ListOf::new(alloc),
        classes: ListOf::new(alloc),
        tables: ListOf::new(alloc),
        lookups: ListOf::new(alloc),
        selectors: ListOf::new(alloc),
        fields: ListOf::new(alloc),
        longs: ListOf::new(alloc),
        throwable: 91,
        thread: 92,
        null_pointer: 93,
        arithmetic: ARITHMETIC,
        run: 0,
        to_string: 1,
    }
}

// A program with the tables that all rows have.
fn with_tables(alloc: Global) -> Result<Program<Native>, Fail> {
    let mut program = empty(alloc);
    program.tables = tables(alloc)?;
    program.lookups = lookups(alloc)?;
    program.selectors = list(alloc, &[SELECTOR])?;
    program.fields = list(alloc, &FIELDS)?;
    program.longs = list(alloc, &LONGS)?;
    Ok(program)
}

// A program of these instructions and methods, of which the first is `main`.
fn program(
    alloc: Global,
    ops: &[Op],
    shapes: &[Shape],
    kins: &[Kin],
) -> Result<Program<Native>, Fail> {
    let mut program = with_tables(alloc)?;
    program.code = placed(alloc, ops)?;
    program.methods = methods(alloc, shapes)?;
    program.classes = classes(alloc, kins)?;
    Ok(program)
}

/// The machine of such a program, with two string literals.
pub fn host(
    alloc: Global,
    ops: &[Op],
    shapes: &[Shape],
    kins: &[Kin],
) -> Result<ProgramHost, Fail> {
    let known = Known {
        chars: 80,
        string: 81,
        object: 82,
        runnable: 83,
        builder: 84,
        thread: 92,
        throwable: 91,
    };
    let literals = list(alloc, &[Ref::Volatile(40), Ref::Persistent(41)])?;
    let program = program(alloc, ops, shapes, kins)?;
    Ok(ProgramHost::new(alloc, program, 0, known, literals)?)
}
