//! Reads of the tables of a program, by number.

ghost use Rattle.std.specs.Prelude.{◌≡◌, pos, slice_index_or};
ghost use Rattle.frames.specs.Tables.{placed_at, method_at, class_at, selector_at, field_at, no_table, no_lookup, from_of};
ghost use Rattle.frames.specs.Tables.{start_of, dispatched, is_subtype, first_initialised, target_of, covers};
ghost use Rattle.frame_thread.specs.Outlines.{outline_of};

use ap_base::Kind;
use code_form::{Case, Sort};
use frames::{Body, Dispatch, Handler, Op, Placed, Program, Selector, Target};
use run_types::{At, FieldAt, LinkKind};

/// What frames ask of a method, but for its lists.
#[derive(Clone, Copy)]
pub struct Outline<M> {
    pub class: u32,
    pub number: u32,
    pub body: Body<M>,
    pub max_locals: u16,
    pub max_stack: u16,
    pub is_static: bool,
    pub is_synchronized: bool,
}

#[inline(always)]
pub fn placed<M: Copy + Drop>(program: &Program<M>, at: usize) -> Placed
    ensures { result ≡ placed_at program.now at }
{
    match program.code.as_slice().get(at) {
        Some(placed) => *placed,
        None => Placed {
            op: Op::Bad,
            method: 0,
            pc: 0,
        },
    }
}

#[inline(always)]
pub fn long<M: Copy + Drop>(program: &Program<M>, number: u32) -> i64
    ensures { result ≡ slice_index_or program.now.longs number (pos 0) }
{
    match program.longs.as_slice().get(number as usize) {
        Some(long) => *long,
        None => 0,
    }
}

/// A method.
pub fn outline_at<M: Copy + Drop>(program: &Program<M>, number: u32) -> Outline<M>
    ensures { result ≡ outline_of (method_at program.now number) }
{
    match program.methods.as_slice().get(number as usize) {
        Some(method) => Outline {
            class: method.class,
            number: method.number,
            body: method.body,
            max_locals: method.max_locals,
            max_stack: method.max_stack,
            is_static: method.is_static,
            is_synchronized: method.is_synchronized,
        },
        None => Outline {
            class: 0,
            number: 0,
            body: Body::Empty,
            max_locals: 0,
            max_stack: 0,
            is_static: true,
            is_synchronized: false,
        },
    }
}

/// The types of a method's arguments, the last one first.
pub fn parameters<M: Copy + Drop>(program: &Program<M>, number: u32) -> &[Sort]
    ensures { result.now ≡ (method_at program.now number).parameters }
{
    match program.methods.as_slice().get(number as usize) {
        Some(method) => method.parameters.as_slice(),
        None => &[],
    }
}

/// The exception entries of a method.
pub fn handlers<M: Copy + Drop>(program: &Program<M>, number: u32) -> &[Handler]
    ensures { result.now ≡ (method_at program.now number).handlers }
{
    match program.methods.as_slice().get(number as usize) {
        Some(method) => method.handlers.as_slice(),
        None => &[],
    }
}

/// The instruction at an index, of a method, as requests and faults name it.
pub fn from<M: Copy + Drop>(program: &Program<M>, method: u32, at: usize) -> At
    ensures { result ≡ from_of program.now method at }
{
    let outline = outline_at(program, method);
    At {
        class: outline.class,
        method: outline.number,
        pc: placed(program, at).pc,
    }
}

/// The same where a method begins, and in a native one.
pub fn start<M: Copy + Drop>(program: &Program<M>, method: u32) -> At
    ensures { result ≡ start_of program.now method }
{
    let outline = outline_at(program, method);
    At {
        class: outline.class,
        method: outline.number,
        pc: 0,
    }
}

pub fn selector<M: Copy + Drop>(program: &Program<M>, number: u32) -> Selector
    ensures { result ≡ selector_at program.now number }
{
    match program.selectors.as_slice().get(number as usize) {
        Some(selector) => *selector,
        None => Selector {
            signature: 0,
            within: 0,
            arguments: 1,
            class: 0,
            index: 0,
        },
    }
}

pub fn field<M: Copy + Drop>(program: &Program<M>, number: u32) -> FieldAt
    ensures { result ≡ field_at program.now number }
{
    match program.fields.as_slice().get(number as usize) {
        Some(field) => *field,
        None => FieldAt {
            class: 0,
            is_static: true,
            at: 0,
            kind: Kind::L,
        },
    }
}

/// Whether the initialisation of a class is asked for.
pub fn is_of_program<M: Copy + Drop>(program: &Program<M>, class: u32) -> bool
    ensures { result ≡ (class_at program.now class).of_program }
{
    match program.classes.as_slice().get(class as usize) {
        Some(class) => class.of_program,
        None => false,
    }
}

/// The method `<clinit>` of a class, if there is one.
pub fn initialiser<M: Copy + Drop>(program: &Program<M>, class: u32) -> Option<u32>
    ensures { result ≡ (class_at program.now class).initialiser }
{
    match program.classes.as_slice().get(class as usize) {
        Some(class) => class.initialiser,
        None => None,
    }
}

fn superclass<M: Copy + Drop>(program: &Program<M>, class: u32) -> Option<u32>
    ensures { result ≡ (class_at program.now class).superclass }
{
    match program.classes.as_slice().get(class as usize) {
        Some(class) => class.superclass,
        None => None,
    }
}

/// The superclass that is initialised before a class, if there is one.
pub fn first_initialised<M: Copy + Drop>(program: &Program<M>, class: u32) -> Option<u32>
    ensures { result ≡ first_initialised program.now class }
{
    let superclass = superclass(program, class)?;
    if is_of_program(program, superclass) {
        Some(superclass)
    } else {
        None
    }
}

/// What a call of a signature finds from a class on.
pub fn dispatched<M: Copy + Drop>(program: &Program<M>, class: u32, signature: u32) -> Target
    ensures { result ≡ dispatched program.now class signature }
{
    match program.classes.as_slice().get(class as usize) {
        Some(class) => target(class.dispatch.as_slice(), signature),
        None => Target::Fails(LinkKind::MissingMethod),
    }
}

fn target(rows: &[Dispatch], signature: u32) -> Target
    ensures { result ≡ target_of rows.now signature }
{
    for row in rows {
        if row.signature == signature {
            return row.target;
        }
    }
    Target::Fails(LinkKind::MissingMethod)
}

pub fn is_subtype<M: Copy + Drop>(program: &Program<M>, class: u32, of: u32) -> bool
    ensures { result ≡ is_subtype program.now class of }
{
    match program.classes.as_slice().get(class as usize) {
        Some(class) => class.supertypes.as_slice().iter().any(|n| *n == of),
        None => false,
    }
}
