// The machine of a program.

ghost use Rattle.std.specs.Prelude.{◌≡◌, IfOk};
ghost use Rattle.program_host.specs.Literals.{spare};
ghost use Rattle.program_host.specs.Settings.{setting_of};

use crate::methods::{advance, argument, begun, given, this};
use ap_base::{Item, ListOf, Ref};
use frame_thread::{Advance, Flat, Flattened, Host, tables};
use frames::{Given, Program};
use natives::{Native, NativeState, Reply, Request, next_request};
use run_types::{At, Known};
use std::alloc::{AllocError, Global};

/// The tables of a program, the classes that the runtime knows, the number of `main`, and the reference of each
/// string literal, by number.
#[derive(Drop)]
pub struct ProgramHost {
    program: Flattened<Native>,
    main: u32,
    known: Known,
    literals: ListOf<Ref>,
}

/// A reference of no object, another one for each number.
fn spare(number: u32) -> Ref
    ensures { result ≡ spare number }
{
    if number < 2_147_483_648 {
        Ref::Persistent(number + 2_147_483_648)
    } else {
        Ref::Volatile(number)
    }
}

impl ProgramHost {
    ghost use Rattle.program_host.specs.Hosts.{setting_in};

    /// It takes the memory of the code's flat forms alone.
    ///
    /// # Errors
    ///
    /// Want of memory.
    pub fn new(
        alloc: Global,
        program: Program<Native>,
        main: u32,
        known: Known,
        literals: ListOf<Ref>,
    ) -> Result<ProgramHost, AllocError>
        ensures { IfOk result (λ host. setting_in host ≡ setting_of program main known literals) }
    {
        Ok(ProgramHost {
            program: Flattened::new(alloc, program)?,
            main,
            known,
            literals,
        })
    }
}

impl Host<Native, Ref, NativeState, Item> for ProgramHost {
    ghost use Rattle.std.specs.Prelude.{map};
    ghost use Rattle.frames.specs.Calls.{value_of};
    ghost use Rattle.frame_thread.specs.Views.{receiver_given};
    ghost use Rattle.program_host.specs.Hosts.{setting_in};

    ghost setting = { setting_in };

    fn program(&self) -> &Program<Native> {
        self.program.program()
    }

    fn flats(&self) -> &[Flat] {
        self.program.flats()
    }

    fn main(&self) -> At {
        tables::start(self.program.program(), self.main)
    }

    fn null(&self) -> Ref {
        Ref::Null
    }

    fn is_null(&self, reference: Ref) -> bool {
        matches!(reference, Ref::Null)
    }

    fn literal(&self, number: u32) -> Ref {
        match self.literals.as_slice().get(number as usize) {
            Some(literal) => *literal,
            None => spare(number),
        }
    }

    fn of_int(&self, value: i32) -> Item {
        Item::Int(value)
    }

    fn of_long(&self, value: i64) -> Item {
        Item::Long(value)
    }

    fn of_reference(&self, value: Ref) -> Item {
        Item::Ref(value)
    }

    fn given(&self, value: &Item) -> Given<Ref> {
        given(value)
    }

    fn start(&self, method: Native, from: At, arguments: &[Given<Ref>]) -> NativeState {
        let first_two = [argument(arguments, 0), argument(arguments, 1)];
        begun(method, &self.known, from, first_two)
    }

    fn begin(&self, method: Native, from: At, receiver: Option<Ref>) -> NativeState
        ensures { let values = map (value_of (setting_in self.now)) (receiver_given receiver) in
            result ≡ (setting_in self.now).start method from values }
    {
        begun(
            method,
            &self.known,
            from,
            [this(receiver), Item::Ref(Ref::Null)],
        )
    }

    fn asks(&self, state: NativeState) -> Request {
        state.request()
    }

    fn next(&self, state: NativeState, reply: &Reply) -> Advance<Ref, NativeState> {
        let mut state = state;
        let step = next_request(&mut state, reply);
        advance(step, state)
    }
}
