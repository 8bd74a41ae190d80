//! The arguments of a method that is called, on top of its caller's stack.

ghost use Rattle.std.specs.Prelude.{◌≡◌, ◌<◌, ◌≤◌, ◌-◌, List, [], ◌∷◌, length, reverse, take, Some, None, IfOk, MatchOption};
ghost use Rattle.std.specs.Prelude.{vec_capacity};
ghost use Rattle.frames.specs.declared.given.Given.{Given as Argument};
ghost use Rattle.frame_cells.specs.Own.{reference_at};
ghost use Rattle.frames.specs.Calls.{arguments_on, cells_taken};
ghost use Rattle.private_steps.specs.Arguments.{argument_width, argument_at, IsTaken};

use code_form::Sort;
use frame_cells::Cells;
use frames::Given;
use std::alloc::{AllocError, Global};
use std::marker::Model;

/// How many arguments there is room for: no native method reads more.
const ARGUMENTS: usize = 2;

/// The first two arguments of a native method, the last one first, in memory of a fixed size.
#[derive(Drop)]
pub struct Arguments<R: Copy + Drop> {
    items: Vec<Given<R>>,
}

impl<R: Copy + Drop> Model for Arguments<R> {
    ghost use Rattle.std.specs.Prelude.{◌≤◌, List, vec_capacity};
    ghost use Rattle.frames.specs.declared.given.Given.{Given};

    ghost Value = { List (Given R) };

    ghost view = { λ a. a.items.items };

    ghost invariant = { λ a. 2 ≤ vec_capacity a.items };
}

impl<R: Copy + Drop> Arguments<R> {
    /// No arguments. It takes all the memory that they will need.
    pub fn new(alloc: Global) -> Result<Arguments<R>, AllocError>
        ensures { IfOk result (λ r. r ≡ []) }
    {
        Ok(Arguments {
            items: Vec::with_capacity(alloc, ARGUMENTS)?,
        })
    }

    /// The first two arguments of these types, if all of them lie on top of a stack.
    pub fn read(&mut self, parameters: &[Sort], cells: &Cells<R>)
        requires { length cells.now.own.stack ≤ 65536 }
        ensures { (arguments : List (Argument R)) →
            arguments_on parameters.now cells.now.own.stack [] ≡ Some arguments → reverse self.new ≡ take 2 arguments }
    {
        read(&mut self.items, parameters, cells);
    }

    pub fn as_slice(&self) -> &[Given<R>]
        ensures { result.now ≡ self.now }
    {
        self.items.as_slice()
    }
}

fn read<R: Copy + Drop>(items: &mut Vec<Given<R>>, parameters: &[Sort], cells: &Cells<R>)
    requires room { 2 ≤ vec_capacity items.old }
    requires few { length cells.now.own.stack ≤ 65536 }
    ensures arguments { (arguments : List (Argument R)) →
        arguments_on parameters.now cells.now.own.stack [] ≡ Some arguments → reverse items.new.items ≡ take 2 arguments }
    ensures room { vec_capacity items.new ≡ vec_capacity items.old }
{
    items.clear();
    let depth = cells.depth();
    let mut above = 0;
    let mut left = parameters.len();
    for sort in parameters {
        if depth <= above {
            return;
        }
        let Some(given) = argument(*sort, cells, above) else {
            return;
        };
        left -= 1;
        keep(items, given, left);
        above += width(*sort);
    }
}

// An argument before which there are so many comes before those that were read, if it is one of the first two.
fn keep<R: Copy + Drop>(items: &mut Vec<Given<R>>, given: Given<R>, left: usize)
    requires room { 2 ≤ vec_capacity items.old }
    requires few { length items.old.items ≤ 1 - left }
    ensures items { (later : List (Argument R)) → reverse items.old.items ≡ take (1 - left) later →
        reverse items.new.items ≡ take (2 - left) (given ∷ later) }
    ensures few { length items.new.items ≤ 2 - left }
    ensures room { vec_capacity items.new ≡ vec_capacity items.old }
{
    if left < ARGUMENTS {
        items.push_reserved(given);
        return;
    }
}

/// How many cells an argument takes.
fn width(sort: Sort) -> usize
    ensures { result ≡ argument_width sort }
{
    match sort {
        Sort::Long => 2,
        _ => 1,
    }
}

// The argument of a type that lies below so many cells.
fn argument<R: Copy + Drop>(sort: Sort, cells: &Cells<R>, above: usize) -> Option<Given<R>>
    requires { above < 65536 }
    ensures { result ≡ argument_at sort above cells.now.own }
{
    match sort {
        Sort::Int => Some(Given::Int(cells.int_at(above)?)),
        Sort::Long => Some(Given::Long(cells.long_at(above)?)),
        Sort::Reference => Some(Given::Reference(cells.reference_at(above)?)),
    }
}

/// How many cells the arguments of these types take that lie on top of a stack; none where they don't.
pub fn taken<R: Copy + Drop>(parameters: &[Sort], cells: &Cells<R>) -> Option<usize>
    requires { length cells.now.own.stack ≤ 65536 }
    ensures { MatchOption result (arguments_on parameters.now cells.now.own.stack [] ≡ None)
        (IsTaken parameters.now cells.now.own.stack) }
{
    let depth = cells.depth();
    let mut above = 0;
    for sort in parameters {
        if depth <= above {
            return None;
        }
        let Some(_given) = argument(*sort, cells, above) else {
            return None;
        };
        above += width(*sort);
    }
    Some(above)
}

/// The reference below the other arguments of these types, if one lies there.
pub fn receiver<R: Copy + Drop>(parameters: &[Sort], cells: &Cells<R>) -> Option<R>
    requires { length cells.now.own.stack ≤ 65536 }
    ensures { result ≡ reference_at (cells_taken parameters.now - 1) cells.now.own }
{
    let depth = cells.depth();
    let mut above: usize = 0;
    for sort in parameters {
        if depth <= above {
            return None;
        }
        above += width(*sort);
    }
    cells.reference_at(above.saturating_sub(1))
}
