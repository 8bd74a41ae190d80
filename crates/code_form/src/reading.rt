//! Reading a code from front to back.

ghost use Rattle.std.specs.Prelude.{◌≡◌, ◌+◌, ◌≤◌, ◌<◌, ◌-◌, length, List, All, IfOk, IsErr, None, Some, Ok};
ghost use Rattle.std.specs.Int.{w32};
ghost use Rattle.code_form.specs.declared.ins.Placed.{Placed as OnePlaced};
ghost use Rattle.code_form.specs.Spelling.{longest, IsCode, Spells};
ghost use Rattle.parsing.specs.Results.{Gives, many_from};
ghost use Rattle.code_form.specs.declared.refusal.CodeRefusal.TheVariants.{OutOfMemory};
ghost use Rattle.code_form.specs.Reading.{known_form, known_primitive, form_of, primitive_of, target_at, interface_at};
ghost use Rattle.code_form.specs.Reading.{new_array_at, increment_at, widened_at, wide_at, case_at, table_at, lookup_at};
ghost use Rattle.code_form.specs.Reading.{operands_at, ins_at, placed_at, front_of, code_of};

use crate::fields::{
    bytes_at, far_target_at, i8_at, i16_at, i32_at, near_target_at, padding, u8_at, u16_at, u32_at,
};
use crate::ins::{Case, Cases, Ins, Local, Placed, Primitive, Targets};
use crate::opcodes::NEWARRAY;
use crate::refusal::CodeRefusal;
use crate::table::{Form, OPCODES, form_of};
use crate::targets::check_targets;
use std::alloc::Global;

/// The longest code (JVMS 4.7.3).
const LONGEST: usize = 65535;

fn known_form(pc: u32, opcode: u8) -> Result<Form, CodeRefusal>
    ensures { result ≡ known_form pc opcode (form_of opcode) }
{
    match form_of(opcode) {
        Some(form) => Ok(form),
        None if opcode < OPCODES => Err(CodeRefusal::NotInProfile(pc, opcode)),
        None => Err(CodeRefusal::BadOpcode(pc)),
    }
}

#[tactic(auto, unfolding(crate::specs::Reading::primitive_of))]
fn primitive_of(code: u8) -> Option<Primitive>
    ensures { result ≡ primitive_of code }
{
    match code {
        4 => Some(Primitive::Boolean),
        5 => Some(Primitive::Char),
        8 => Some(Primitive::Byte),
        9 => Some(Primitive::Short),
        10 => Some(Primitive::Int),
        11 => Some(Primitive::Long),
        _ => None,
    }
}

fn known_primitive(pc: u32, code: u8) -> Result<Primitive, CodeRefusal>
    ensures { result ≡ known_primitive pc code (primitive_of code) }
{
    match primitive_of(code) {
        Some(primitive) => Ok(primitive),
        None if code == 6 || code == 7 => Err(CodeRefusal::NotInProfile(pc, NEWARRAY)),
        None => Err(CodeRefusal::BadOpcode(pc)),
    }
}

#[tactic(auto, unfolding(crate::specs::Reading::interface_at))]
fn interface_at(pc: u32, bytes: &[u8]) -> Result<(Ins, &[u8]), CodeRefusal>
    ensures { Gives None (λ x. (x.0, x.1.now)) result (interface_at pc bytes.now) }
{
    let (index, rest) = u16_at(pc, bytes)?;
    let (count, rest) = u8_at(pc, rest)?;
    let (_, rest) = bytes_at(pc, 1, rest)?;
    Ok((Ins::InvokeInterface { index, count }, rest))
}

#[tactic(auto, unfolding(crate::specs::Reading::new_array_at))]
fn new_array_at(pc: u32, bytes: &[u8]) -> Result<(Ins, &[u8]), CodeRefusal>
    ensures { Gives None (λ x. (x.0, x.1.now)) result (new_array_at pc bytes.now) }
{
    let (code, rest) = u8_at(pc, bytes)?;
    Ok((Ins::NewArray(known_primitive(pc, code)?), rest))
}

#[tactic(auto, unfolding(crate::specs::Reading::increment_at))]
fn increment_at(pc: u32, bytes: &[u8]) -> Result<(Ins, &[u8]), CodeRefusal>
    ensures { Gives None (λ x. (x.0, x.1.now)) result (increment_at pc bytes.now) }
{
    let (local, rest) = u8_at(pc, bytes)?;
    let (by, rest) = i8_at(pc, rest)?;
    Ok((Ins::Increment { local, by }, rest))
}

#[tactic(auto, unfolding(crate::specs::Reading::widened_at))]
fn widened_at(pc: u32, form: Option<Form>, bytes: &[u8]) -> Result<(Ins, &[u8]), CodeRefusal>
    ensures { Gives None (λ x. (x.0, x.1.now)) result (widened_at pc form bytes.now) }
{
    match form {
        Some(Form::Variable(access, sort)) => {
            let (local, rest) = u16_at(pc, bytes)?;
            Ok((Ins::Variable(access, sort, Local::Wide(local)), rest))
        }
        Some(Form::Increment) => {
            let (local, rest) = u16_at(pc, bytes)?;
            let (by, rest) = i16_at(pc, rest)?;
            Ok((Ins::IncrementWide { local, by }, rest))
        }
        _ => Err(CodeRefusal::BadOpcode(pc)),
    }
}

#[tactic(auto, unfolding(crate::specs::Reading::wide_at))]
fn wide_at(pc: u32, bytes: &[u8]) -> Result<(Ins, &[u8]), CodeRefusal>
    ensures { Gives None (λ x. (x.0, x.1.now)) result (wide_at pc bytes.now) }
{
    let (opcode, rest) = u8_at(pc, bytes)?;
    widened_at(pc, form_of(opcode), rest)
}

/// The targets of the jump at `pc`, as many as `count`.
fn targets_at(
    alloc: Global,
    pc: u32,
    count: u64,
    bytes: &[u8],
) -> Result<(Vec<u32>, &[u8]), CodeRefusal>
    ensures { Gives (Some OutOfMemory) (λ x. (x.0.items, x.1.now)) result
        (many_from (target_at pc w32) count bytes.now) }
{
    let mut targets = Vec::new(alloc);
    let mut rest = bytes;
    for _ in 0..count {
        let (target, after) = far_target_at(pc, rest)?;
        targets.push(target)?;
        rest = after;
    }
    Ok((targets, rest))
}

#[tactic(auto, unfolding(crate::specs::Reading::table_at))]
fn table_at(alloc: Global, pc: u32, bytes: &[u8]) -> Result<(Ins, &[u8]), CodeRefusal>
    ensures { Gives (Some OutOfMemory) (λ x. (x.0, x.1.now)) result (table_at pc bytes.now) }
{
    let (_, rest) = bytes_at(pc, padding(pc), bytes)?;
    let (default, rest) = far_target_at(pc, rest)?;
    let (low, rest) = i32_at(pc, rest)?;
    let (high, rest) = i32_at(pc, rest)?;
    if high < low {
        return Err(CodeRefusal::BadTarget(pc));
    }
    let (targets, rest) = targets_at(alloc, pc, u64::from(high.abs_diff(low)) + 1, rest)?;
    let targets = Targets::new(targets);
    let ins = Ins::TableSwitch {
        default,
        low,
        high,
        targets,
    };
    Ok((ins, rest))
}

#[tactic(auto, unfolding(crate::specs::Reading::case_at))]
fn case_at(pc: u32, bytes: &[u8]) -> Result<(Case, &[u8]), CodeRefusal>
    ensures { Gives None (λ x. (x.0, x.1.now)) result (case_at pc bytes.now) }
{
    let (key, rest) = i32_at(pc, bytes)?;
    let (target, rest) = far_target_at(pc, rest)?;
    Ok((Case { key, target }, rest))
}

fn cases_at(
    alloc: Global,
    pc: u32,
    count: u32,
    bytes: &[u8],
) -> Result<(Vec<Case>, &[u8]), CodeRefusal>
    ensures { Gives (Some OutOfMemory) (λ x. (x.0.items, x.1.now)) result
        (many_from (case_at pc) count bytes.now) }
{
    let mut cases = Vec::new(alloc);
    let mut rest = bytes;
    for _ in 0..count {
        let (case, after) = case_at(pc, rest)?;
        cases.push(case)?;
        rest = after;
    }
    Ok((cases, rest))
}

#[tactic(auto, unfolding(crate::specs::Reading::lookup_at))]
fn lookup_at(alloc: Global, pc: u32, bytes: &[u8]) -> Result<(Ins, &[u8]), CodeRefusal>
    ensures { Gives (Some OutOfMemory) (λ x. (x.0, x.1.now)) result (lookup_at pc bytes.now) }
{
    let (_, rest) = bytes_at(pc, padding(pc), bytes)?;
    let (default, rest) = far_target_at(pc, rest)?;
    let (count, rest) = u32_at(pc, rest)?;
    // From here on it is a negative count.
    if count >= 1 << 31 {
        return Err(CodeRefusal::BadTarget(pc));
    }
    let (cases, rest) = cases_at(alloc, pc, count, rest)?;
    let cases = Cases::new(cases);
    Ok((Ins::LookupSwitch { default, cases }, rest))
}

#[tactic(auto, unfolding(crate::specs::Reading::operands_at))]
fn operands_at(
    alloc: Global,
    form: Form,
    pc: u32,
    bytes: &[u8],
) -> Result<(Ins, &[u8]), CodeRefusal>
    ensures { Gives (Some OutOfMemory) (λ x. (x.0, x.1.now)) result
        (operands_at form pc bytes.now) }
{
    match form {
        Form::Plain(plain) => Ok((Ins::Plain(plain), bytes)),
        Form::ShortVariable(access, sort, slot) => {
            Ok((Ins::Variable(access, sort, Local::Short(slot)), bytes))
        }
        Form::Variable(access, sort) => {
            let (local, rest) = u8_at(pc, bytes)?;
            Ok((Ins::Variable(access, sort, Local::Byte(local)), rest))
        }
        Form::PushByte => {
            let (value, rest) = i8_at(pc, bytes)?;
            Ok((Ins::PushByte(value), rest))
        }
        Form::PushShort => {
            let (value, rest) = i16_at(pc, bytes)?;
            Ok((Ins::PushShort(value), rest))
        }
        Form::LoadConstant => {
            let (index, rest) = u8_at(pc, bytes)?;
            Ok((Ins::LoadConstant(index), rest))
        }
        Form::Pool(usage) => {
            let (index, rest) = u16_at(pc, bytes)?;
            Ok((Ins::Pool(usage, index), rest))
        }
        Form::InvokeInterface => interface_at(pc, bytes),
        Form::NewArray => new_array_at(pc, bytes),
        Form::Increment => increment_at(pc, bytes),
        Form::Branch(branch) => {
            let (target, rest) = near_target_at(pc, bytes)?;
            Ok((Ins::Branch(branch, target), rest))
        }
        Form::GotoWide => {
            let (target, rest) = far_target_at(pc, bytes)?;
            Ok((Ins::GotoWide(target), rest))
        }
        Form::TableSwitch => table_at(alloc, pc, bytes),
        Form::LookupSwitch => lookup_at(alloc, pc, bytes),
        Form::Wide => wide_at(pc, bytes),
    }
}

/// The instruction at `pc`, of which these are the bytes and those after it.
#[tactic(auto, unfolding(crate::specs::Reading::ins_at))]
fn ins_at(alloc: Global, pc: u32, bytes: &[u8]) -> Result<(Ins, &[u8]), CodeRefusal>
    ensures { Gives (Some OutOfMemory) (λ x. (x.0, x.1.now)) result (ins_at pc bytes.now) }
{
    let (opcode, rest) = u8_at(pc, bytes)?;
    operands_at(alloc, known_form(pc, opcode)?, pc, rest)
}

/// The instructions of a code, whose targets aren't checked yet.
fn all_placed(alloc: Global, bytes: &[u8]) -> Result<Vec<Placed>, CodeRefusal>
    requires { length bytes.now ≤ longest }
    ensures { Gives (Some OutOfMemory) (λ v. v.items) result
        (placed_at (length bytes.now) (length bytes.now) bytes.now) }
{
    let mut code = Vec::new(alloc);
    let mut rest = bytes;
    while !rest.is_empty() {
        let pc = (bytes.len() - rest.len()) as u32;
        let (ins, after) = ins_at(alloc, pc, rest)?;
        code.push(Placed { pc, ins })?;
        rest = after;
    }
    Ok(code)
}

/// The bytes up to the longest code.
fn front_of(bytes: &[u8]) -> &[u8]
    ensures front { result.now ≡ front_of bytes.now }
    ensures short { length result.now ≤ longest }
{
    &bytes[..LONGEST.min(bytes.len())]
}

#[tactic(auto, unfolding(crate::specs::Reading::code_of))]
fn code_of(alloc: Global, bytes: &[u8]) -> Result<Vec<Placed>, CodeRefusal>
    ensures { Gives (Some OutOfMemory) (λ v. v.items) result (code_of bytes.now) }
{
    let front = front_of(bytes);
    let code = all_placed(alloc, front)?;
    if bytes.len() > LONGEST {
        return Err(CodeRefusal::Truncated(LONGEST as u32));
    }
    check_targets(alloc, &code, front.len())?;
    Ok(code)
}

/// The instructions of a code, in order (JVMS 4.7.3, 4.9.1, 6.5). Of no bytes there are none.
///
/// The refusal is the first fault from front to back, and names the pc of its instruction. Targets are
/// checked once all instructions are read. No code is longer than 65,535 bytes: of more bytes the
/// instruction that passes that place is `Truncated`. `OutOfMemory` may stand in place of any answer.
pub fn read_code(alloc: Global, bytes: &[u8]) -> Result<Vec<Placed>, CodeRefusal>
    // What is read is a code, and the bytes are its spelling.
    ensures found { IfOk result (λ v. IsCode v.items × Spells v.items bytes.now) }
    ensures long { longest < length bytes.now → IsErr result }
    ensures within { IfOk result (λ v. All (λ (p : OnePlaced). p.pc < length bytes.now) v.items) }
    // The bytes of a code give that code, unless memory runs out.
    ensures only { (code : List OnePlaced) → IsCode code → Spells code bytes.now
        → Gives (Some OutOfMemory) (λ v. v.items) result (Ok code) }
    // Which refusal it is: the first fault from front to back.
    ensures exact { Gives (Some OutOfMemory) (λ v. v.items) result (code_of bytes.now) }
{
    code_of(alloc, bytes)
}
