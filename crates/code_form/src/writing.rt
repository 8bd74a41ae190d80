//! Writing a code.

ghost use Rattle.std.specs.Prelude.{◌≡◌, ◌++◌, ◌+◌, ◌^◌, ◌≤◌, ◌<◌, ◌∷◌, [], length, map, replicate, OnOk, IfOk, FitsSigned};
ghost use Rattle.std.specs.List.{flat_map, AllByRecursion};
ghost use Rattle.std.specs.Int.{w8, w16, w32};
ghost use Rattle.byteorder.specs.Endian.{big_bytes};
ghost use Rattle.code_form.specs.Opcodes.{branch_opcode};
ghost use Rattle.code_form.specs.Spelling.{longest, IsCode, Spells, IsWritable, signed, offset, padding, case_bytes};
ghost use Rattle.code_form.specs.Spelling.{variable_bytes, table_bytes, lookup_bytes, zeroed, written};

use crate::fields::padding;
use crate::ins::{Access, Branch, Case, Ins, Local, Placed, Sort};
use crate::opcodes::{
    BIPUSH, GOTO_W, IINC, INVOKEINTERFACE, LDC, LOOKUPSWITCH, NEWARRAY, SIPUSH, TABLESWITCH, WIDE,
    branch_opcode, plain_opcode, pool_opcode, primitive_code, short_opcode, variable_opcode,
};
use parsing::{put_u16, put_u32};
use std::alloc::{AllocError, Global};

fn put_i8(out: &mut Vec<u8>, number: i8) -> Result<(), AllocError>
    ensures { OnOk result (out.new.items ≡ out.old.items ++ signed w8 number) }
{
    out.push(number.cast_unsigned())?;
    Ok(())
}

fn put_i16(out: &mut Vec<u8>, number: i16) -> Result<(), AllocError>
    ensures { OnOk result (out.new.items ≡ out.old.items ++ signed w16 number) }
{
    put_u16(out, number.cast_unsigned())
}

fn put_i32(out: &mut Vec<u8>, number: i32) -> Result<(), AllocError>
    ensures { OnOk result (out.new.items ≡ out.old.items ++ signed w32 number) }
{
    put_u32(out, number.cast_unsigned())
}

/// The offset from a jump to its target, in two bytes.
fn put_near(out: &mut Vec<u8>, pc: u32, target: u32) -> Result<(), AllocError>
    requires { FitsSigned w16 (offset pc target) }
    ensures { OnOk result (out.new.items ≡ out.old.items ++ signed w16 (offset pc target)) }
{
    put_i16(out, (i64::from(target) - i64::from(pc)) as i16)
}

/// The offset from a jump to its target, in four bytes.
fn put_far(out: &mut Vec<u8>, pc: u32, target: u32) -> Result<(), AllocError>
    requires near { pc ≤ longest }
    requires reached { target ≤ longest }
    ensures { OnOk result (out.new.items ≡ out.old.items ++ signed w32 (offset pc target)) }
{
    put_i32(out, (i64::from(target) - i64::from(pc)) as i32)
}

fn put_zeros(out: &mut Vec<u8>, count: usize) -> Result<(), AllocError>
    ensures { OnOk result (out.new.items ≡ out.old.items ++ replicate count 0) }
{
    for _ in 0..count {
        out.push(0)?;
    }
    Ok(())
}

fn put_targets(out: &mut Vec<u8>, pc: u32, targets: &[u32]) -> Result<(), AllocError>
    requires near { pc ≤ longest }
    requires reached { AllByRecursion (λ t. t ≤ longest) targets.now }
    ensures { OnOk result
        (out.new.items ≡ out.old.items ++ flat_map (λ t. signed w32 (offset pc t)) targets.now) }
{
    for target in targets {
        put_far(out, pc, *target)?;
    }
    Ok(())
}

fn put_case(out: &mut Vec<u8>, pc: u32, case: &Case) -> Result<(), AllocError>
    requires near { pc ≤ longest }
    requires reached { case.now.target ≤ longest }
    ensures { OnOk result (out.new.items ≡ out.old.items ++ case_bytes pc case.now) }
{
    put_i32(out, case.key)?;
    put_far(out, pc, case.target)
}

fn put_cases(out: &mut Vec<u8>, pc: u32, cases: &[Case]) -> Result<(), AllocError>
    requires near { pc ≤ longest }
    requires reached { AllByRecursion (λ c. c.target ≤ longest) cases.now }
    ensures { OnOk result (out.new.items ≡ out.old.items ++ flat_map (case_bytes pc) cases.now) }
{
    for case in cases {
        put_case(out, pc, case)?;
    }
    Ok(())
}

/// An opcode and the byte behind it.
fn put_byte(out: &mut Vec<u8>, opcode: u8, byte: u8) -> Result<(), AllocError>
    ensures { OnOk result (out.new.items ≡ out.old.items ++ opcode ∷ byte ∷ []) }
{
    out.extend_from_slice(&[opcode, byte])
}

/// An opcode and the two bytes behind it.
fn put_short(out: &mut Vec<u8>, opcode: u8, number: u16) -> Result<(), AllocError>
    ensures { OnOk result (out.new.items ≡ out.old.items ++ opcode ∷ big_bytes 2 number) }
{
    out.push(opcode)?;
    put_u16(out, number)
}

fn put_variable(
    out: &mut Vec<u8>,
    access: Access,
    sort: Sort,
    local: Local,
) -> Result<(), AllocError>
    ensures { OnOk result (out.new.items ≡ out.old.items ++ variable_bytes access sort local) }
{
    match local {
        Local::Short(slot) => out.push(short_opcode(access, sort, slot))?,
        Local::Byte(index) => put_byte(out, variable_opcode(access, sort), index)?,
        Local::Wide(index) => {
            out.push(WIDE)?;
            put_short(out, variable_opcode(access, sort), index)?;
        }
    }
    Ok(())
}

fn put_interface(out: &mut Vec<u8>, index: u16, count: u8) -> Result<(), AllocError>
    ensures { OnOk result
        (out.new.items ≡ out.old.items ++ INVOKEINTERFACE ∷ big_bytes 2 index ++ count ∷ 0 ∷ []) }
{
    put_short(out, INVOKEINTERFACE, index)?;
    put_byte(out, count, 0)
}

fn put_increment(out: &mut Vec<u8>, local: u8, by: i8) -> Result<(), AllocError>
    ensures { OnOk result
        (out.new.items ≡ out.old.items ++ IINC ∷ big_bytes 1 local ++ signed w8 by) }
{
    put_byte(out, IINC, local)?;
    put_i8(out, by)
}

fn put_increment_wide(out: &mut Vec<u8>, local: u16, by: i16) -> Result<(), AllocError>
    ensures { OnOk result
        (out.new.items ≡ out.old.items ++ WIDE ∷ IINC ∷ big_bytes 2 local ++ signed w16 by) }
{
    put_byte(out, WIDE, IINC)?;
    put_u16(out, local)?;
    put_i16(out, by)
}

fn put_branch(out: &mut Vec<u8>, branch: Branch, pc: u32, target: u32) -> Result<(), AllocError>
    requires { FitsSigned w16 (offset pc target) }
    ensures { OnOk result
        (out.new.items ≡ out.old.items ++ branch_opcode branch ∷ signed w16 (offset pc target)) }
{
    out.push(branch_opcode(branch))?;
    put_near(out, pc, target)
}

fn put_goto_wide(out: &mut Vec<u8>, pc: u32, target: u32) -> Result<(), AllocError>
    requires near { pc ≤ longest }
    requires reached { target ≤ longest }
    ensures { OnOk result
        (out.new.items ≡ out.old.items ++ GOTO_W ∷ signed w32 (offset pc target)) }
{
    out.push(GOTO_W)?;
    put_far(out, pc, target)
}

/// What both switches begin with: the opcode, the padding and the default.
fn put_switch(out: &mut Vec<u8>, opcode: u8, pc: u32, default: u32) -> Result<(), AllocError>
    requires near { pc ≤ longest }
    requires reached { default ≤ longest }
    ensures { OnOk result
        (out.new.items ≡ out.old.items ++ opcode ∷ replicate (padding pc) 0
        ++ signed w32 (offset pc default)) }
{
    out.push(opcode)?;
    put_zeros(out, padding(pc))?;
    put_far(out, pc, default)
}

/// The least and the greatest key of a `tableswitch`.
fn put_range(out: &mut Vec<u8>, low: i32, high: i32) -> Result<(), AllocError>
    ensures { OnOk result (out.new.items ≡ out.old.items ++ signed w32 low ++ signed w32 high) }
{
    put_i32(out, low)?;
    put_i32(out, high)
}

fn put_table(
    out: &mut Vec<u8>,
    pc: u32,
    default: u32,
    low: i32,
    high: i32,
    targets: &[u32],
) -> Result<(), AllocError>
    requires near { pc ≤ longest }
    requires reached { AllByRecursion (λ t. t ≤ longest) (default ∷ targets.now) }
    ensures { OnOk result
        (out.new.items ≡ out.old.items
        ++ table_bytes (replicate (padding pc) 0) pc default low high targets.now) }
{
    put_switch(out, TABLESWITCH, pc, default)?;
    put_range(out, low, high)?;
    put_targets(out, pc, targets)
}

fn put_lookup(out: &mut Vec<u8>, pc: u32, default: u32, cases: &[Case]) -> Result<(), AllocError>
    requires near { pc ≤ longest }
    requires few { length cases.now < 2 ^ 31 }
    requires reached { AllByRecursion (λ t. t ≤ longest) (default ∷ map (λ c. c.target) cases.now) }
    ensures { OnOk result
        (out.new.items ≡ out.old.items
        ++ lookup_bytes (replicate (padding pc) 0) pc default cases.now) }
{
    put_switch(out, LOOKUPSWITCH, pc, default)?;
    put_u32(out, cases.len() as u32)?;
    put_cases(out, pc, cases)
}

fn put_ins(out: &mut Vec<u8>, placed: &Placed) -> Result<(), AllocError>
    requires { IsWritable placed.now }
    ensures { OnOk result (out.new.items ≡ out.old.items ++ zeroed placed.now) }
{
    let pc = placed.pc;
    match &placed.ins {
        Ins::Plain(plain) => out.push(plain_opcode(*plain))?,
        Ins::Variable(access, sort, local) => put_variable(out, *access, *sort, *local)?,
        Ins::PushByte(value) => put_byte(out, BIPUSH, value.cast_unsigned())?,
        Ins::PushShort(value) => put_short(out, SIPUSH, value.cast_unsigned())?,
        Ins::LoadConstant(index) => put_byte(out, LDC, *index)?,
        Ins::Pool(usage, index) => put_short(out, pool_opcode(*usage), *index)?,
        Ins::InvokeInterface { index, count } => put_interface(out, *index, *count)?,
        Ins::NewArray(primitive) => put_byte(out, NEWARRAY, primitive_code(*primitive))?,
        Ins::Increment { local, by } => put_increment(out, *local, *by)?,
        Ins::IncrementWide { local, by } => put_increment_wide(out, *local, *by)?,
        Ins::Branch(branch, target) => put_branch(out, *branch, pc, *target)?,
        Ins::GotoWide(target) => put_goto_wide(out, pc, *target)?,
        Ins::TableSwitch {
            default,
            low,
            high,
            targets,
        } => put_table(out, pc, *default, *low, *high, targets.as_slice())?,
        Ins::LookupSwitch { default, cases } => put_lookup(out, pc, *default, cases.as_slice())?,
    }
    Ok(())
}

/// The code's bytes, with zeros as the padding of switches and as the last byte of `invokeinterface`.
pub fn write_code(alloc: Global, code: &[Placed]) -> Result<Vec<u8>, AllocError>
    requires { IsCode code.now }
    ensures bytes { IfOk result (λ v. v.items ≡ written code.now) }
    // So `read_code` gives the same code again.
    ensures spells { IfOk result (λ v. Spells code.now v.items) }
{
    let mut out = Vec::new(alloc);
    for placed in code {
        put_ins(&mut out, placed)?;
    }
    Ok(out)
}
