//! The instructions, in families.

ghost use Rattle.std.specs.Prelude.{◌≡◌};

use std::marker::Model;

/// The type of an arithmetic instruction.
#[derive(Clone, Copy)]
pub enum Number {
    Int,
    Long,
}

/// The type of a local variable that is loaded or stored, or of a result (JVMS 2.11.1).
#[derive(Clone, Copy)]
pub enum Sort {
    Int,
    Long,
    Reference,
}

/// The type of an array's elements. `Byte` is that of boolean arrays too (JVMS 6.5, baload).
#[derive(Clone, Copy)]
pub enum Element {
    Int,
    Long,
    Reference,
    Byte,
    Char,
    Short,
}

/// Whether a value is read or written.
#[derive(Clone, Copy)]
pub enum Access {
    Load,
    Store,
}

/// The local variable that an opcode such as `iload_0` names itself.
#[derive(Clone, Copy)]
pub enum Slot {
    Zero,
    One,
    Two,
    Three,
}

/// A local variable's index, as it is written.
#[derive(Clone, Copy)]
pub enum Local {
    /// `iload_0`
    Short(Slot),
    /// `iload 0`
    Byte(u8),
    /// `wide iload 0`
    Wide(u16),
}

/// `iconst_m1` to `iconst_5`
#[derive(Clone, Copy)]
pub enum IntConstant {
    MinusOne,
    Zero,
    One,
    Two,
    Three,
    Four,
    Five,
}

/// `lconst_0`, `lconst_1`
#[derive(Clone, Copy)]
pub enum LongConstant {
    Zero,
    One,
}

/// A constant that an opcode names itself.
#[derive(Clone, Copy)]
pub enum Constant {
    /// `aconst_null`
    Null,
    Int(IntConstant),
    Long(LongConstant),
}

/// The instructions on the operand stack alone: `pop` to `swap`.
#[derive(Clone, Copy)]
pub enum Stack {
    Pop,
    Pop2,
    Dup,
    DupX1,
    DupX2,
    Dup2,
    Dup2X1,
    Dup2X2,
    Swap,
}

/// An operator of two numbers of one type.
#[derive(Clone, Copy)]
pub enum Binary {
    Add,
    Subtract,
    Multiply,
    Divide,
    Remainder,
    And,
    Or,
    Xor,
}

/// A shift by an int: `shl`, `shr`, `ushr`.
#[derive(Clone, Copy)]
pub enum Shift {
    Left,
    Right,
    UnsignedRight,
}

/// `i2l`, `l2i`, `i2b`, `i2c`, `i2s`
#[derive(Clone, Copy)]
pub enum Conversion {
    IntToLong,
    LongToInt,
    IntToByte,
    IntToChar,
    IntToShort,
}

/// An instruction without operands.
#[derive(Clone, Copy)]
pub enum Plain {
    Nop,
    Constant(Constant),
    /// `iaload`, `bastore` ..
    Element(Access, Element),
    Stack(Stack),
    /// `iadd`, `lxor` ..
    Binary(Number, Binary),
    Negate(Number),
    Shift(Number, Shift),
    Convert(Conversion),
    /// `lcmp`
    CompareLongs,
    /// `ireturn`, `lreturn`, `areturn`
    ReturnValue(Sort),
    Return,
    ArrayLength,
    /// `athrow`
    Throw,
    MonitorEnter,
    MonitorExit,
}

/// How two ints are compared, or one with 0.
#[derive(Clone, Copy)]
pub enum Condition {
    Equal,
    NotEqual,
    Less,
    GreaterOrEqual,
    Greater,
    LessOrEqual,
}

/// How two references are compared.
#[derive(Clone, Copy)]
pub enum Equality {
    Equal,
    NotEqual,
}

/// A jump whose target is written in two bytes.
#[derive(Clone, Copy)]
pub enum Branch {
    /// `ifeq` ..
    If(Condition),
    /// `if_icmpeq` ..
    IfInts(Condition),
    /// `if_acmpeq`, `if_acmpne`
    IfReferences(Equality),
    Goto,
    IfNull,
    IfNonNull,
}

/// What an instruction does with an entry of the constant pool whose index is written in two bytes.
#[derive(Clone, Copy)]
pub enum PoolUse {
    /// `ldc_w`
    LoadConstant,
    /// `ldc2_w`
    LoadLong,
    GetStatic,
    PutStatic,
    GetField,
    PutField,
    InvokeVirtual,
    InvokeSpecial,
    InvokeStatic,
    New,
    /// `anewarray`
    NewReferenceArray,
    CheckCast,
    InstanceOf,
}

/// The element type of `newarray`.
#[derive(Clone, Copy)]
pub enum Primitive {
    Boolean,
    Char,
    Byte,
    Short,
    Int,
    Long,
}

/// The targets of a `tableswitch` for its keys in ascending order. Contracts see a list of pcs.
#[derive(Drop)]
pub struct Targets {
    items: Vec<u32>,
}

impl Model for Targets {
    ghost use Rattle.std.specs.Prelude.{ℕ, List};

    ghost Value = { List ℕ };

    ghost view = { λ b. b.items.items };
}

impl Targets {
    /// The targets in this order. It takes no memory.
    pub fn new(items: Vec<u32>) -> Targets
        ensures { result ≡ items.items }
    {
        Targets { items }
    }

    pub fn as_slice(&self) -> &[u32]
        ensures { result.now ≡ self.now }
    {
        self.items.as_slice()
    }

    /// Gives the vector back.
    pub fn into_vec(self) -> Vec<u32>
        ensures { result.items ≡ self }
    {
        self.items
    }
}

/// A key of a `lookupswitch`, and its target, a pc.
#[derive(Clone, Copy)]
pub struct Case {
    pub key: i32,
    pub target: u32,
}

/// The pairs of a `lookupswitch` in the order in which they are written. Contracts see a list.
#[derive(Drop)]
pub struct Cases {
    items: Vec<Case>,
}

impl Model for Cases {
    ghost use Rattle.std.specs.Prelude.{List};
    ghost use Rattle.code_form.specs.declared.ins.Case.{Case as OneCase};

    ghost Value = { List OneCase };

    ghost view = { λ b. b.items.items };
}

impl Cases {
    /// The pairs in this order. It takes no memory.
    pub fn new(items: Vec<Case>) -> Cases
        ensures { result ≡ items.items }
    {
        Cases { items }
    }

    pub fn as_slice(&self) -> &[Case]
        ensures { result.now ≡ self.now }
    {
        self.items.as_slice()
    }

    /// Gives the vector back.
    pub fn into_vec(self) -> Vec<Case>
        ensures { result.items ≡ self }
    {
        self.items
    }
}

/// An instruction. A target is the pc at which an instruction begins, and keeps no offset.
#[derive(Drop)]
pub enum Ins {
    Plain(Plain),
    /// A load or a store of a local variable: `iload_0`, `astore 4`, `wide lload 4` ..
    Variable(Access, Sort, Local),
    /// `bipush`
    PushByte(i8),
    /// `sipush`
    PushShort(i16),
    /// `ldc`: an index into the constant pool.
    LoadConstant(u8),
    /// An index into the constant pool, and what is done with the entry.
    Pool(PoolUse, u16),
    /// `invokeinterface`: an index into the constant pool, and the count byte.
    InvokeInterface {
        index: u16,
        count: u8,
    },
    NewArray(Primitive),
    /// `iinc`
    Increment {
        local: u8,
        by: i8,
    },
    /// `wide iinc`
    IncrementWide {
        local: u16,
        by: i16,
    },
    Branch(Branch, u32),
    /// `goto_w`
    GotoWide(u32),
    /// The targets are those of the keys from `low` to `high`.
    TableSwitch {
        default: u32,
        low: i32,
        high: i32,
        targets: Targets,
    },
    LookupSwitch {
        default: u32,
        cases: Cases,
    },
}

/// An instruction and where it begins, in bytes from the start of the code.
#[derive(Drop)]
pub struct Placed {
    pub pc: u32,
    pub ins: Ins,
}
