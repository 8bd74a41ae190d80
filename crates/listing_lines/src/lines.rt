//! What lines mean.

use crate::refusal::ListingFault;
use ap_base::{Bytes, ListOf};

/// What a member is.
#[derive(Clone, Copy)]
pub enum MemberKind {
    Field,
    Method,
    InterfaceMethod,
}

/// A member that an instruction names.
#[derive(Drop)]
pub struct MemberName {
    pub kind: MemberKind,
    pub class: Bytes,
    pub name: Bytes,
    pub descriptor: Bytes,
}

/// The entry of the constant pool that an instruction names.
#[derive(Drop)]
pub enum Wanted {
    Integer(i32),
    Long(i64),
    Text(Bytes),
    Class(Bytes),
    Member(MemberName),
}

/// A key of a `lookupswitch`, and its label.
#[derive(Drop)]
pub struct KeyLabel {
    pub key: i32,
    pub label: Bytes,
}

/// An instruction as a line has it.
#[derive(Drop)]
pub enum Instruction {
    /// One without a label or an entry of the constant pool: its bytes.
    Whole(Bytes),
    /// A jump whose offset is written in two bytes.
    Jump {
        opcode: u8,
        label: Bytes,
    },
    /// `tableswitch`, with a label for each key from `low` to `high`.
    Table {
        low: i32,
        high: i32,
        default: Bytes,
        labels: ListOf<Bytes>,
    },
    /// `lookupswitch`
    Lookup {
        default: Bytes,
        pairs: ListOf<KeyLabel>,
    },
    /// One with an entry of the constant pool, whose index is written in two bytes.
    Entry {
        opcode: u8,
        entry: Wanted,
    },
    /// `invokeinterface`, with its count byte.
    Interface {
        method: MemberName,
        count: u8,
    },
}

/// What a line means.
#[derive(Drop)]
pub enum Line {
    /// It is empty or a comment.
    Nothing,
    Wrong(ListingFault),
    /// It begins a class with these access flags.
    Class {
        access: u16,
        name: Bytes,
    },
    Super(Bytes),
    Implements(Bytes),
    Field {
        access: u16,
        name: Bytes,
        descriptor: Bytes,
        root: bool,
    },
    /// It begins a method, with the greatest depth of its stack and the number of its local variables.
    Method {
        access: u16,
        name: Bytes,
        descriptor: Bytes,
        stack: u16,
        locals: u16,
        is_abstract: bool,
    },
    Label(Bytes),
    Instruction(Instruction),
    /// An entry of the exception table between labels, for a class or for any throwable.
    Catch {
        class: Option<Bytes>,
        start: Bytes,
        end: Bytes,
        handler: Bytes,
    },
    /// It ends a method.
    End,
}
