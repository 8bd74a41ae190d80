//! The methods of built-in classes.

ghost use Rattle.std.specs.Prelude.{◌≡◌, ℕ, ◌+◌, ◌<◌, ◌≤◌, ◌^◌, ◌++◌, true, Option, map, length, IfOk, OnOk};
ghost use Rattle.std.specs.List.{list_all};
ghost use Rattle.built_in_table.specs.Rows.{member_facts, row_members};
ghost use Rattle.class_code.specs.BuiltIns.{are_spelled, built_in_with, is_spelled};
ghost use Rattle.class_code.specs.Codes.{built_in_from, built_ins_from, native_body};

use crate::arguments::parameters_spelled;
use ap_base::ListOf;
use built_in_table::{BuiltIn, Member};
use frames::{Body, Method};
use std::alloc::{AllocError, Global};

/// What the methods of built-in classes do that ask something.
pub trait NativeMethods<M: Copy + Drop> {
    /// By the class's place among the built-in ones, and the method's number there.
    ghost native_at: { Self → (place number : ℕ) → Option M };

    /// What the method with a number does of the built-in class at a place, `None` where it does
    /// nothing.
    fn native(&self, place: u8, number: u32) -> Option<M>
        ensures { result ≡ native_at self.now place number };
}

fn native_body<M: Copy + Drop>(native: Option<M>) -> Body<M>
    ensures { result ≡ native_body (λ place number. native) native }
{
    match native {
        Some(native) => Body::Native(native),
        None => Body::Empty,
    }
}

/// The method with this number of the class with this one.
fn built_in_method<M: Copy + Drop>(
    alloc: Global,
    class: u32,
    number: u32,
    member: &Member,
    native: Option<M>,
) -> Result<Method<M>, AllocError>
    requires { is_spelled (member_facts member.now) ≡ true }
    ensures { IfOk result
        (λ method. method ≡ built_in_with native class number (member_facts member.now)) }
{
    Ok(Method {
        class,
        number,
        body: native_body(native),
        parameters: parameters_spelled(alloc, member.is_static, member.descriptor)?,
        max_locals: 0,
        max_stack: 0,
        is_static: member.is_static,
        is_synchronized: false,
        handlers: ListOf::new(alloc),
    })
}

/// Adds the methods of the built-in class at a place, whose number is this.
fn add_built_in<M: Copy + Drop, N: NativeMethods<M>>(
    alloc: Global,
    natives: &N,
    class: u32,
    place: u8,
    members: &[Member],
    methods: &mut Vec<Method<M>>,
) -> Result<(), AllocError>
    requires few { length members.now < 2 ^ 32 }
    requires spelled { list_all is_spelled (map member_facts members.now) ≡ true }
    ensures { OnOk result (methods.new.items ≡ methods.old.items
        ++ built_in_from (N.native_at natives.now) class place 0 (map member_facts members.now)) }
{
    for (number, member) in members.iter().enumerate() {
        let native = natives.native(place, number as u32);
        methods.push(built_in_method(alloc, class, number as u32, member, native)?)?;
    }
    Ok(())
}

/// Adds the methods of the built-in classes, which stand behind so many others.
pub(crate) fn add_built_ins<M: Copy + Drop, N: NativeMethods<M>>(
    alloc: Global,
    natives: &N,
    first: u32,
    rows: &[BuiltIn],
    methods: &mut Vec<Method<M>>,
) -> Result<(), AllocError>
    requires few { length rows.now ≤ 256 }
    requires room { first + length rows.now < 2 ^ 32 }
    requires spelled { list_all are_spelled (map row_members rows.now) ≡ true }
    ensures { OnOk result (methods.new.items ≡ methods.old.items
        ++ built_ins_from (N.native_at natives.now) first 0 (map row_members rows.now)) }
{
    for (place, row) in rows.iter().enumerate() {
        let class = first + place as u32;
        add_built_in(alloc, natives, class, place as u8, row.methods, methods)?;
    }
    Ok(())
}
