//! The operands of instructions (JVMS 6.5).

ghost use Rattle.std.specs.Prelude.{◌≡◌, ◌≤◌, IfOk, Ok};
ghost use Rattle.listing_lines.specs.Numbers.{number as number_of};
ghost use Rattle.listing_lines.specs.Reading.{Answers, Gives, or_fault};
ghost use Rattle.listing_lines.specs.Instructions.{bare, byte_number, short_number, local_index, increment, primitive_code};
ghost use Rattle.listing_lines.specs.Instructions.{new_array, jump, has_each_key, keys, table, key_label, pairs, lookup};
ghost use Rattle.listing_lines.specs.Instructions.{constant, load_constant, load_long, class_use, named, field_use, method_use};
ghost use Rattle.listing_lines.specs.Instructions.{is_long, cell_count, interface_count, interface_use, instruction_with};

use crate::lines::{Instruction, KeyLabel, MemberKind, MemberName, Wanted};
use crate::mnemonics::Operands;
use crate::numbers::number;
use crate::operands::{
    SYNTAX, field_type, is_word, natural, no_operand, one_operand, parameters, three_operands,
    two_operands,
};
use crate::refusal::{LineRefusal, ListingFault};
use crate::texts::{begins_text, text};
use ap_base::{Bytes, ListOf};
use const_pool::{BaseType, ElementType, FieldType};
use parsing::put_u16;
use std::alloc::{AllocError, Global};

const BAD_NUMBER: LineRefusal = LineRefusal::Fault(ListingFault::BadNumber);

const LOWEST: i64 = -0x8000_0000;

const HIGHEST: i64 = 0x7FFF_FFFF;

/// An instruction of these bytes.
fn whole(alloc: Global, bytes: &[u8]) -> Result<Instruction, LineRefusal>
    ensures { Gives (λ i. i) result (Ok (Instruction.Whole bytes.now)) }
{
    Ok(Instruction::Whole(Bytes::copy(alloc, bytes)?))
}

fn bare(alloc: Global, opcode: u8, words: &[Bytes]) -> Result<Instruction, LineRefusal>
    ensures { Gives (λ i. i) result (bare opcode words.now) }
{
    no_operand(words)?;
    whole(alloc, &[opcode])
}

#[tactic(auto, unfolding(crate::specs::Instructions::byte_number))]
fn byte_number(alloc: Global, opcode: u8, words: &[Bytes]) -> Result<Instruction, LineRefusal>
    ensures { Gives (λ i. i) result (byte_number opcode words.now) }
{
    let word = one_operand(words)?;
    let number = number(-128, 127, word).ok_or(BAD_NUMBER)?;
    whole(alloc, &[opcode, (number as i8).cast_unsigned()])
}

#[tactic(auto, unfolding(crate::specs::Instructions::short_number))]
fn short_number(alloc: Global, opcode: u8, words: &[Bytes]) -> Result<Instruction, LineRefusal>
    ensures { Gives (λ i. i) result (short_number opcode words.now) }
{
    let word = one_operand(words)?;
    let number = number(-32_768, 32_767, word).ok_or(BAD_NUMBER)?;
    let mut bytes = Vec::new(alloc);
    bytes.push(opcode)?;
    put_u16(&mut bytes, (number as i16).cast_unsigned())?;
    Ok(Instruction::Whole(Bytes::from_vec(bytes)))
}

#[tactic(auto, unfolding(crate::specs::Instructions::local_index))]
fn local_index(alloc: Global, opcode: u8, words: &[Bytes]) -> Result<Instruction, LineRefusal>
    ensures { Gives (λ i. i) result (local_index opcode words.now) }
{
    let word = one_operand(words)?;
    let local = natural(255, word).ok_or(BAD_NUMBER)?;
    whole(alloc, &[opcode, local as u8])
}

#[tactic(auto, unfolding(crate::specs::Instructions::increment))]
fn increment(alloc: Global, opcode: u8, words: &[Bytes]) -> Result<Instruction, LineRefusal>
    ensures { Gives (λ i. i) result (increment opcode words.now) }
{
    let (first, second) = two_operands(words)?;
    let local = natural(255, first).ok_or(BAD_NUMBER)?;
    let number = number(-128, 127, second).ok_or(BAD_NUMBER)?;
    whole(
        alloc,
        &[opcode, local as u8, (number as i8).cast_unsigned()],
    )
}

/// The code of an element type (JVMS table 6.5.newarray-A).
fn primitive_code(word: &[u8]) -> Option<u8>
    ensures { result ≡ primitive_code word.now }
{
    if is_word(word, b"boolean") {
        Some(4)
    } else if is_word(word, b"char") {
        Some(5)
    } else if is_word(word, b"byte") {
        Some(8)
    } else if is_word(word, b"short") {
        Some(9)
    } else if is_word(word, b"int") {
        Some(10)
    } else if is_word(word, b"long") {
        Some(11)
    } else {
        None
    }
}

#[tactic(auto, unfolding(crate::specs::Instructions::new_array))]
fn new_array(alloc: Global, opcode: u8, words: &[Bytes]) -> Result<Instruction, LineRefusal>
    ensures { Gives (λ i. i) result (new_array opcode words.now) }
{
    let word = one_operand(words)?;
    let code = primitive_code(word).ok_or(LineRefusal::Fault(ListingFault::UnknownWord))?;
    whole(alloc, &[opcode, code])
}

fn jump(alloc: Global, opcode: u8, words: &[Bytes]) -> Result<Instruction, LineRefusal>
    ensures { Gives (λ i. i) result (jump opcode words.now) }
{
    let label = Bytes::copy(alloc, one_operand(words)?)?;
    Ok(Instruction::Jump { opcode, label })
}

/// A number of 32 bits.
fn int(word: &[u8]) -> Result<i32, LineRefusal>
    ensures { Answers (λ z. z) result
        (or_fault ListingFault.BadNumber (number_of LOWEST HIGHEST word.now)) }
{
    let number = number(LOWEST, HIGHEST, word).ok_or(BAD_NUMBER)?;
    Ok(number as i32)
}

fn copies(alloc: Global, words: &[Bytes]) -> Result<ListOf<Bytes>, AllocError>
    ensures { IfOk result (λ list. list ≡ words.now) }
{
    let mut copies = Vec::new(alloc);
    for word in words {
        copies.push(Bytes::copy(alloc, word.as_slice())?)?;
    }
    Ok(ListOf::from_vec(copies))
}

fn has_each_key(low: i32, high: i32, labels: &[Bytes]) -> bool
    ensures { result ≡ has_each_key low high labels.now }
{
    low <= high && labels.len() as u64 == (i64::from(high) - i64::from(low)).unsigned_abs() + 1
}

/// The lowest and the highest key of a switch with these labels.
#[tactic(auto, unfolding(crate::specs::Instructions::keys))]
fn keys(low: &[u8], high: &[u8], labels: &[Bytes]) -> Result<(i32, i32), LineRefusal>
    ensures { Answers (λ found. found) result (keys low.now high.now labels.now) }
{
    let low = int(low)?;
    let high = int(high)?;
    if has_each_key(low, high, labels) {
        Ok((low, high))
    } else {
        Err(SYNTAX)
    }
}

#[tactic(auto, unfolding(crate::specs::Instructions::table))]
fn table(alloc: Global, words: &[Bytes]) -> Result<Instruction, LineRefusal>
    ensures { Gives (λ i. i) result (table words.now) }
{
    match words {
        [low, high, default, labels @ ..] => {
            let (low, high) = keys(low.as_slice(), high.as_slice(), labels)?;
            let default = Bytes::copy(alloc, default.as_slice())?;
            let labels = copies(alloc, labels)?;
            Ok(Instruction::Table {
                low,
                high,
                default,
                labels,
            })
        }
        _ => Err(SYNTAX),
    }
}

#[tactic(auto, unfolding(crate::specs::Instructions::key_label))]
fn key_label(alloc: Global, key: &[u8], label: &[u8]) -> Result<KeyLabel, LineRefusal>
    ensures { Gives (λ pair. pair) result (key_label key.now label.now) }
{
    let key = int(key)?;
    let label = Bytes::copy(alloc, label)?;
    Ok(KeyLabel { key, label })
}

/// Pairs of a key and a label.
#[tactic(auto, unfolding(crate::specs::Instructions::pairs))]
fn pairs(alloc: Global, words: &[Bytes]) -> Result<Vec<KeyLabel>, LineRefusal>
    ensures { Gives (λ v. v.items) result (pairs words.now) }
{
    let mut pairs = Vec::new(alloc);
    let mut rest = words;
    'pairs: loop {
        match rest {
            [] => return Ok(pairs),
            [_] => return Err(SYNTAX),
            [key, label, behind @ ..] => {
                pairs.push(key_label(alloc, key.as_slice(), label.as_slice())?)?;
                rest = behind;
            }
        }
    }
}

#[tactic(auto, unfolding(crate::specs::Instructions::lookup))]
fn lookup(alloc: Global, words: &[Bytes]) -> Result<Instruction, LineRefusal>
    ensures { Gives (λ i. i) result (lookup words.now) }
{
    match words {
        [default, rest @ ..] => {
            let pairs = ListOf::from_vec(pairs(alloc, rest)?);
            let default = Bytes::copy(alloc, default.as_slice())?;
            Ok(Instruction::Lookup { default, pairs })
        }
        [] => Err(SYNTAX),
    }
}

#[tactic(auto, unfolding(crate::specs::Instructions::constant))]
fn constant(alloc: Global, word: &[u8]) -> Result<Wanted, LineRefusal>
    ensures { Gives (λ entry. entry) result (constant word.now) }
{
    if !begins_text(word) {
        return Ok(Wanted::Integer(int(word)?));
    }
    match text(alloc, word)? {
        Some(text) => Ok(Wanted::Text(text)),
        None => Err(LineRefusal::Fault(ListingFault::BadText)),
    }
}

fn load_constant(alloc: Global, opcode: u8, words: &[Bytes]) -> Result<Instruction, LineRefusal>
    ensures { Gives (λ i. i) result (load_constant opcode words.now) }
{
    let entry = constant(alloc, one_operand(words)?)?;
    Ok(Instruction::Entry { opcode, entry })
}

#[tactic(auto, unfolding(crate::specs::Instructions::load_long))]
fn load_long(opcode: u8, words: &[Bytes]) -> Result<Instruction, LineRefusal>
    ensures { Answers (λ i. i) result (load_long opcode words.now) }
{
    let word = one_operand(words)?;
    let number = number(i64::MIN, i64::MAX, word).ok_or(BAD_NUMBER)?;
    let entry = Wanted::Long(number);
    Ok(Instruction::Entry { opcode, entry })
}

fn class_use(alloc: Global, opcode: u8, words: &[Bytes]) -> Result<Instruction, LineRefusal>
    ensures { Gives (λ i. i) result (class_use opcode words.now) }
{
    let entry = Wanted::Class(Bytes::copy(alloc, one_operand(words)?)?);
    Ok(Instruction::Entry { opcode, entry })
}

fn member(
    alloc: Global,
    kind: MemberKind,
    class: &[u8],
    name: &[u8],
    descriptor: &[u8],
) -> Result<MemberName, AllocError>
    ensures { IfOk result (λ m. m ≡ named kind (class.now, name.now, descriptor.now)) }
{
    Ok(MemberName {
        kind,
        class: Bytes::copy(alloc, class)?,
        name: Bytes::copy(alloc, name)?,
        descriptor: Bytes::copy(alloc, descriptor)?,
    })
}

#[tactic(auto, unfolding(crate::specs::Instructions::field_use))]
fn field_use(alloc: Global, opcode: u8, words: &[Bytes]) -> Result<Instruction, LineRefusal>
    ensures { Gives (λ i. i) result (field_use opcode words.now) }
{
    let (class, name, descriptor) = three_operands(words)?;
    field_type(alloc, descriptor)?;
    let entry = Wanted::Member(member(alloc, MemberKind::Field, class, name, descriptor)?);
    Ok(Instruction::Entry { opcode, entry })
}

#[tactic(auto, unfolding(crate::specs::Instructions::method_use))]
fn method_use(alloc: Global, opcode: u8, words: &[Bytes]) -> Result<Instruction, LineRefusal>
    ensures { Gives (λ i. i) result (method_use opcode words.now) }
{
    let (class, name, descriptor) = three_operands(words)?;
    parameters(alloc, descriptor)?;
    let entry = Wanted::Member(member(alloc, MemberKind::Method, class, name, descriptor)?);
    Ok(Instruction::Entry { opcode, entry })
}

fn is_long(element: &ElementType) -> bool
    ensures { result ≡ is_long element.now }
{
    matches!(element, ElementType::Base(BaseType::Long))
}

/// How many cells an argument takes (JVMS 2.6.1).
fn cell_count(field: &FieldType) -> u16
    ensures count { result ≡ cell_count field.now }
    ensures small { result ≤ 2 }
{
    if field.dimensions == 0 && is_long(&field.element) {
        2
    } else {
        1
    }
}

/// One more than the cells of the arguments, where that is below 256.
fn interface_count(types: &[FieldType]) -> Option<u8>
    ensures { result ≡ interface_count types.now }
{
    let mut count: u16 = 1;
    for field in types {
        count += cell_count(field);
        if count > 255 {
            return None;
        }
    }
    Some(count as u8)
}

#[tactic(auto, unfolding(crate::specs::Instructions::interface_use))]
fn interface_use(alloc: Global, words: &[Bytes]) -> Result<Instruction, LineRefusal>
    ensures { Gives (λ i. i) result (interface_use words.now) }
{
    let (class, name, descriptor) = three_operands(words)?;
    let types = parameters(alloc, descriptor)?;
    let count = interface_count(types.as_slice()).ok_or(LineRefusal::Fault(
        ListingFault::TooLarge,
    ))?;
    let method = member(alloc, MemberKind::InterfaceMethod, class, name, descriptor)?;
    Ok(Instruction::Interface { method, count })
}

/// The instruction with this opcode and these operands.
pub(crate) fn instruction_with(
    alloc: Global,
    opcode: u8,
    operands: Operands,
    words: &[Bytes],
) -> Result<Instruction, LineRefusal>
    ensures { Gives (λ i. i) result (instruction_with opcode operands words.now) }
{
    match operands {
        Operands::Nothing => bare(alloc, opcode, words),
        Operands::Byte => byte_number(alloc, opcode, words),
        Operands::Short => short_number(alloc, opcode, words),
        Operands::Local => local_index(alloc, opcode, words),
        Operands::Increment => increment(alloc, opcode, words),
        Operands::Jump => jump(alloc, opcode, words),
        Operands::Constant => load_constant(alloc, opcode, words),
        Operands::Long => load_long(opcode, words),
        Operands::Table => table(alloc, words),
        Operands::Lookup => lookup(alloc, words),
        Operands::Field => field_use(alloc, opcode, words),
        Operands::Method => method_use(alloc, opcode, words),
        Operands::Interface => interface_use(alloc, words),
        Operands::Class => class_use(alloc, opcode, words),
        Operands::Primitive => new_array(alloc, opcode, words),
    }
}
