//! Writing a history file.

ghost use Rattle.std.specs.Prelude.{◌≡◌, ◌++◌, ◌≤◌, ◌<◌, OnOk, IfOk, length, replicate};
ghost use Rattle.history_file.specs.Spelling.{word, words, place_words, value_words, key_words, stage_word, bool_word};
ghost use Rattle.history_file.specs.Spelling.{option_word, filling, fields, place_extra, extra, act_bytes, history_bytes};

use crate::fields::NUMBERS;
use crate::head::head_word;
use crate::kind::Kind;
use ap_base::Place;
use graph_model::Value;
use run_history::{Act, Acts, Op, PlainKey, Stage};
use std::alloc::{AllocError, Global};

/// The bytes APHISTOR as a word.
pub(crate) const MAGIC: u64 = 0x524F_5453_4948_5041;

// Appends a word, the lowest byte first.
#[tactic(auto, unfolding(crate::specs::Spelling::word))]
fn put(out: &mut Vec<u8>, number: u64) -> Result<(), AllocError>
    ensures { OnOk result (out.new.items ≡ out.old.items ++ word number) }
{
    out.extend_from_slice(&number.to_le_bytes())
}

fn put_words(out: &mut Vec<u8>, numbers: &[u64]) -> Result<(), AllocError>
    ensures { OnOk result (out.new.items ≡ out.old.items ++ words numbers.now) }
{
    for number in numbers {
        put(out, *number)?;
    }
    Ok(())
}

fn put_objects(out: &mut Vec<u8>, objects: &[u32]) -> Result<(), AllocError>
    ensures { OnOk result (out.new.items ≡ out.old.items ++ words objects.now) }
{
    for object in objects {
        put(out, u64::from(*object))?;
    }
    Ok(())
}

fn put_place(out: &mut Vec<u8>, place: Place) -> Result<(), AllocError>
    ensures { OnOk result (out.new.items ≡ out.old.items ++ words (place_words place)) }
{
    match place {
        Place::Static(n) => put_words(out, &[0, u64::from(n)]),
        Place::Slot { object, index } => put_words(out, &[1, u64::from(object), u64::from(index)]),
    }
}

fn put_value(out: &mut Vec<u8>, value: Value) -> Result<(), AllocError>
    ensures { OnOk result (out.new.items ≡ out.old.items ++ words (value_words value)) }
{
    match value {
        Value::Int(i) => put_words(out, &[0, u64::from(i.cast_unsigned())]),
        Value::Long(i) => put_words(out, &[1, i.cast_unsigned()]),
        Value::Null => put_words(out, &[2, 0]),
        Value::Obj(object) => put_words(out, &[3, u64::from(object)]),
    }
}

fn put_access(out: &mut Vec<u8>, place: Place, value: Value) -> Result<(), AllocError>
    ensures { OnOk result (out.new.items ≡ out.old.items ++ (words (place_words place) ++ words (value_words value))) }
{
    put_place(out, place)?;
    put_value(out, value)
}

fn put_key(out: &mut Vec<u8>, key: PlainKey) -> Result<(), AllocError>
    ensures { OnOk result (out.new.items ≡ out.old.items ++ words (key_words key)) }
{
    match key {
        PlainKey::Object(object) => put_words(out, &[0, u64::from(object)]),
        PlainKey::Class(class) => put_words(out, &[1, u64::from(class)]),
    }
}

fn stage_word(stage: Stage) -> u64
    ensures { result ≡ stage_word stage }
{
    match stage {
        Stage::Begun => 0,
        Stage::Ready => 1,
        Stage::Done => 2,
    }
}

// A number more by one if it is there, or 0.
fn option_word(number: Option<u32>) -> u64
    ensures { result ≡ option_word number }
{
    match number {
        None => 0,
        Some(n) => u64::from(n) + 1,
    }
}

// Appends the number of bytes, the bytes, and zeros up to the end of the last word.
fn put_text(out: &mut Vec<u8>, text: &[u8]) -> Result<(), AllocError>
    requires { length text.now ≤ 24 }
    ensures { OnOk result (out.new.items
        ≡ out.old.items ++ (word (length text.now) ++ (text.now ++ replicate (filling (length text.now)) 0))) }
{
    put(out, text.len() as u64)?;
    out.extend_from_slice(text)?;
    for _ in text.len()..8 * text.len().div_ceil(8) {
        out.push(0)?;
    }
    Ok(())
}

/// Appends the fields of an operation, where the act names so many objects.
fn put_fields(out: &mut Vec<u8>, op: &Op, named: usize) -> Result<(), AllocError>
    ensures { OnOk result (out.new.items ≡ out.old.items ++ fields op.now named) }
{
    match op {
        Op::Pause | Op::Begin | Op::End | Op::Closing | Op::Fenced => Ok(()),
        Op::Alloc {
            object,
            shape,
            length,
        } => put_objects(out, &[*object, *shape, *length]),
        Op::Read { place, value } | Op::Stored { place, value } | Op::Asked { place, value } => {
            put_access(out, *place, *value)
        }
        Op::Length { object, length } => put_objects(out, &[*object, *length]),
        Op::Class { object, shape } => {
            put_words(out, &[option_word(*object), option_word(*shape)])
        }
        Op::Same { yes } => put_words(out, &[u64::from(*yes)]),
        Op::Enter { key } | Op::Exit { key } => put_key(out, *key),
        Op::Start { object, child } => {
            put_words(out, &[u64::from(*object), u64::from(child.number())])
        }
        Op::Join { object } => put_objects(out, &[*object]),
        Op::Init { class, is } => put_words(out, &[u64::from(*class), stage_word(*is)]),
        Op::Print { bytes } => put_text(out, bytes.as_slice()),
        Op::Throw { object, class } => put_objects(out, &[*object, *class]),
        Op::Ended { uncaught } => put_words(out, &[option_word(*uncaught)]),
        Op::Joined => put_words(out, &[named as u64]),
        Op::Guarded { place } => put_place(out, *place),
    }
}

// How many words an operation takes beyond the fewest of its kind.
fn extra(op: &Op) -> usize
    ensures exact { result ≡ extra op.now }
    ensures few { result < 4 }
{
    match op {
        Op::Read { place, .. } | Op::Stored { place, .. } | Op::Asked { place, .. } => {
            extra_of(*place)
        }
        Op::Guarded { place } => extra_of(*place),
        Op::Print { bytes } => bytes.as_slice().len().div_ceil(8) - 1,
        _ => 0,
    }
}

// A slot takes a word more than a static field.
fn extra_of(place: Place) -> usize
    ensures exact { result ≡ place_extra place }
    ensures few { result < 2 }
{
    match place {
        Place::Static(_) => 0,
        Place::Slot { .. } => 1,
    }
}

/// Appends an act with the objects that it names.
fn put_act(out: &mut Vec<u8>, act: &Act, objects: &[u32]) -> Result<(), AllocError>
    ensures { OnOk result (out.new.items ≡ out.old.items ++ act_bytes (record { act = act.now; named = objects.now })) }
{
    let kind = Kind::of(&act.op);
    let count = kind.fewest() as usize + extra(&act.op) + objects.len();
    let words = (count as u64 % NUMBERS) as u32;
    put_words(out, &[head_word(kind, act.thread, words), act.at])?;
    put_fields(out, &act.op, objects.len())?;
    put_objects(out, objects)
}

/// The bytes of a history file: the acts, and `keep`, a bit for each thread.
pub fn write_history(alloc: Global, acts: &Acts, keep: u64) -> Result<Vec<u8>, AllocError>
    ensures bytes { IfOk result (λ out. out.items ≡ history_bytes acts.now.acts keep) }
{
    let mut out = Vec::new(alloc);
    put_words(&mut out, &[MAGIC, 1, u64::from(acts.len()), keep])?;
    let mut i = 0;
    'acts: while let Some(act) = acts.get(i) {
        put_act(&mut out, act, acts.named(i))?;
        i += 1;
    }
    Ok(out)
}
