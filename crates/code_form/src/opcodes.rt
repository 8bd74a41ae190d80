//! The opcodes of the families, for writing (JVMS 6.5, 7).

ghost use Rattle.std.specs.Prelude.{◌≡◌, ◌≤◌};
ghost use Rattle.code_form.specs.Opcodes.{number_place, sort_place, element_place, slot_place, constant_opcode};
ghost use Rattle.code_form.specs.Opcodes.{variable_opcode, short_opcode, element_opcode, stack_opcode, binary_opcode};
ghost use Rattle.code_form.specs.Opcodes.{shift_opcode, conversion_opcode, plain_opcode, condition_place, equality_place};
ghost use Rattle.code_form.specs.Opcodes.{branch_opcode, pool_opcode, primitive_code};

use crate::ins::{
    Access, Binary, Branch, Condition, Constant, Conversion, Element, Equality, IntConstant,
    LongConstant, Number, Plain, PoolUse, Primitive, Shift, Slot, Sort, Stack,
};

pub(crate) const BIPUSH: u8 = 16;

pub(crate) const SIPUSH: u8 = 17;

pub(crate) const LDC: u8 = 18;

pub(crate) const IINC: u8 = 132;

pub(crate) const TABLESWITCH: u8 = 170;

pub(crate) const LOOKUPSWITCH: u8 = 171;

pub(crate) const INVOKEINTERFACE: u8 = 185;

pub(crate) const NEWARRAY: u8 = 188;

pub(crate) const WIDE: u8 = 196;

pub(crate) const GOTO_W: u8 = 200;

// Families of opcodes go through the types in one order: int, long, float, double, reference, byte,
// char, short.

fn number_place(number: Number) -> u8
    ensures place { result ≡ number_place number }
    ensures small { result ≤ 1 }
{
    match number {
        Number::Int => 0,
        Number::Long => 1,
    }
}

fn sort_place(sort: Sort) -> u8
    ensures place { result ≡ sort_place sort }
    ensures small { result ≤ 4 }
{
    match sort {
        Sort::Int => 0,
        Sort::Long => 1,
        Sort::Reference => 4,
    }
}

fn element_place(element: Element) -> u8
    ensures place { result ≡ element_place element }
    ensures small { result ≤ 7 }
{
    match element {
        Element::Int => 0,
        Element::Long => 1,
        Element::Reference => 4,
        Element::Byte => 5,
        Element::Char => 6,
        Element::Short => 7,
    }
}

fn slot_place(slot: Slot) -> u8
    ensures place { result ≡ slot_place slot }
    ensures small { result ≤ 3 }
{
    match slot {
        Slot::Zero => 0,
        Slot::One => 1,
        Slot::Two => 2,
        Slot::Three => 3,
    }
}

fn constant_opcode(constant: Constant) -> u8
    ensures { result ≡ constant_opcode constant }
{
    match constant {
        Constant::Null => 1,
        Constant::Int(IntConstant::MinusOne) => 2,
        Constant::Int(IntConstant::Zero) => 3,
        Constant::Int(IntConstant::One) => 4,
        Constant::Int(IntConstant::Two) => 5,
        Constant::Int(IntConstant::Three) => 6,
        Constant::Int(IntConstant::Four) => 7,
        Constant::Int(IntConstant::Five) => 8,
        Constant::Long(LongConstant::Zero) => 9,
        Constant::Long(LongConstant::One) => 10,
    }
}

pub(crate) fn variable_opcode(access: Access, sort: Sort) -> u8
    ensures { result ≡ variable_opcode access sort }
{
    match access {
        Access::Load => 21 + sort_place(sort),
        Access::Store => 54 + sort_place(sort),
    }
}

pub(crate) fn short_opcode(access: Access, sort: Sort, slot: Slot) -> u8
    ensures { result ≡ short_opcode access sort slot }
{
    match access {
        Access::Load => 26 + 4 * sort_place(sort) + slot_place(slot),
        Access::Store => 59 + 4 * sort_place(sort) + slot_place(slot),
    }
}

fn element_opcode(access: Access, element: Element) -> u8
    ensures { result ≡ element_opcode access element }
{
    match access {
        Access::Load => 46 + element_place(element),
        Access::Store => 79 + element_place(element),
    }
}

fn stack_opcode(stack: Stack) -> u8
    ensures { result ≡ stack_opcode stack }
{
    match stack {
        Stack::Pop => 87,
        Stack::Pop2 => 88,
        Stack::Dup => 89,
        Stack::DupX1 => 90,
        Stack::DupX2 => 91,
        Stack::Dup2 => 92,
        Stack::Dup2X1 => 93,
        Stack::Dup2X2 => 94,
        Stack::Swap => 95,
    }
}

fn binary_opcode(binary: Binary) -> u8
    ensures opcode { result ≡ binary_opcode binary }
    ensures small { result ≤ 130 }
{
    match binary {
        Binary::Add => 96,
        Binary::Subtract => 100,
        Binary::Multiply => 104,
        Binary::Divide => 108,
        Binary::Remainder => 112,
        Binary::And => 126,
        Binary::Or => 128,
        Binary::Xor => 130,
    }
}

fn shift_opcode(shift: Shift) -> u8
    ensures opcode { result ≡ shift_opcode shift }
    ensures small { result ≤ 124 }
{
    match shift {
        Shift::Left => 120,
        Shift::Right => 122,
        Shift::UnsignedRight => 124,
    }
}

fn conversion_opcode(conversion: Conversion) -> u8
    ensures { result ≡ conversion_opcode conversion }
{
    match conversion {
        Conversion::IntToLong => 133,
        Conversion::LongToInt => 136,
        Conversion::IntToByte => 145,
        Conversion::IntToChar => 146,
        Conversion::IntToShort => 147,
    }
}

pub(crate) fn plain_opcode(plain: Plain) -> u8
    ensures { result ≡ plain_opcode plain }
{
    match plain {
        Plain::Nop => 0,
        Plain::Constant(constant) => constant_opcode(constant),
        Plain::Element(access, element) => element_opcode(access, element),
        Plain::Stack(stack) => stack_opcode(stack),
        Plain::Binary(number, binary) => binary_opcode(binary) + number_place(number),
        Plain::Negate(number) => 116 + number_place(number),
        Plain::Shift(number, shift) => shift_opcode(shift) + number_place(number),
        Plain::Convert(conversion) => conversion_opcode(conversion),
        Plain::CompareLongs => 148,
        Plain::ReturnValue(sort) => 172 + sort_place(sort),
        Plain::Return => 177,
        Plain::ArrayLength => 190,
        Plain::Throw => 191,
        Plain::MonitorEnter => 194,
        Plain::MonitorExit => 195,
    }
}

fn condition_place(condition: Condition) -> u8
    ensures place { result ≡ condition_place condition }
    ensures small { result ≤ 5 }
{
    match condition {
        Condition::Equal => 0,
        Condition::NotEqual => 1,
        Condition::Less => 2,
        Condition::GreaterOrEqual => 3,
        Condition::Greater => 4,
        Condition::LessOrEqual => 5,
    }
}

fn equality_place(equality: Equality) -> u8
    ensures place { result ≡ equality_place equality }
    ensures small { result ≤ 1 }
{
    match equality {
        Equality::Equal => 0,
        Equality::NotEqual => 1,
    }
}

pub(crate) fn branch_opcode(branch: Branch) -> u8
    ensures { result ≡ branch_opcode branch }
{
    match branch {
        Branch::If(condition) => 153 + condition_place(condition),
        Branch::IfInts(condition) => 159 + condition_place(condition),
        Branch::IfReferences(equality) => 165 + equality_place(equality),
        Branch::Goto => 167,
        Branch::IfNull => 198,
        Branch::IfNonNull => 199,
    }
}

pub(crate) fn pool_opcode(usage: PoolUse) -> u8
    ensures { result ≡ pool_opcode usage }
{
    match usage {
        PoolUse::LoadConstant => 19,
        PoolUse::LoadLong => 20,
        PoolUse::GetStatic => 178,
        PoolUse::PutStatic => 179,
        PoolUse::GetField => 180,
        PoolUse::PutField => 181,
        PoolUse::InvokeVirtual => 182,
        PoolUse::InvokeSpecial => 183,
        PoolUse::InvokeStatic => 184,
        PoolUse::New => 187,
        PoolUse::NewReferenceArray => 189,
        PoolUse::CheckCast => 192,
        PoolUse::InstanceOf => 193,
    }
}

pub(crate) fn primitive_code(primitive: Primitive) -> u8
    ensures { result ≡ primitive_code primitive }
{
    match primitive {
        Primitive::Boolean => 4,
        Primitive::Char => 5,
        Primitive::Byte => 8,
        Primitive::Short => 9,
        Primitive::Int => 10,
        Primitive::Long => 11,
    }
}
