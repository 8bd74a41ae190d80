//! The words of the instructions (JVMS 6.5).

ghost use Rattle.std.specs.Prelude.{◌≡◌, map};
ghost use Rattle.listing_lines.specs.Mnemonics.{row_of, instruction_named};

/// What stands behind the word of an instruction.
#[derive(Clone, Copy)]
pub(crate) enum Operands {
    Nothing,
    /// A number of eight bits.
    Byte,
    /// A number of 16 bits.
    Short,
    /// The index of a local variable, below 256.
    Local,
    /// The index of a local variable, and a number of eight bits.
    Increment,
    /// A label.
    Jump,
    /// A number of 32 bits, or a text in quotes.
    Constant,
    /// A number of 64 bits.
    Long,
    /// The lowest and the highest key, the default's label, and a label for each key.
    Table,
    /// The default's label, and pairs of a key and its label.
    Lookup,
    /// A class, and the name and the descriptor of a field.
    Field,
    /// A class, and the name and the descriptor of a method.
    Method,
    /// An interface, and the name and the descriptor of a method.
    Interface,
    /// A class name, or the descriptor of an array.
    Class,
    /// The element type of an array.
    Primitive,
}

/// The words, with their opcodes and their operands. `ldc` is written in its wide form.
static MNEMONICS: [(&[u8], u8, Operands); 137] = [
    (b"nop", 0, Operands::Nothing),
    (b"aconst_null", 1, Operands::Nothing),
    (b"iconst_m1", 2, Operands::Nothing),
    (b"iconst_0", 3, Operands::Nothing),
    (b"iconst_1", 4, Operands::Nothing),
    (b"iconst_2", 5, Operands::Nothing),
    (b"iconst_3", 6, Operands::Nothing),
    (b"iconst_4", 7, Operands::Nothing),
    (b"iconst_5", 8, Operands::Nothing),
    (b"lconst_0", 9, Operands::Nothing),
    (b"lconst_1", 10, Operands::Nothing),
    (b"bipush", 16, Operands::Byte),
    (b"sipush", 17, Operands::Short),
    (b"ldc", 19, Operands::Constant),
    (b"ldc2_w", 20, Operands::Long),
    (b"iload", 21, Operands::Local),
    (b"lload", 22, Operands::Local),
    (b"aload", 25, Operands::Local),
    (b"iload_0", 26, Operands::Nothing),
    (b"iload_1", 27, Operands::Nothing),
    (b"iload_2", 28, Operands::Nothing),
    (b"iload_3", 29, Operands::Nothing),
    (b"lload_0", 30, Operands::Nothing),
    (b"lload_1", 31, Operands::Nothing),
    (b"lload_2", 32, Operands::Nothing),
    (b"lload_3", 33, Operands::Nothing),
    (b"aload_0", 42, Operands::Nothing),
    (b"aload_1", 43, Operands::Nothing),
    (b"aload_2", 44, Operands::Nothing),
    (b"aload_3", 45, Operands::Nothing),
    (b"iaload", 46, Operands::Nothing),
    (b"laload", 47, Operands::Nothing),
    (b"aaload", 50, Operands::Nothing),
    (b"baload", 51, Operands::Nothing),
    (b"caload", 52, Operands::Nothing),
    (b"saload", 53, Operands::Nothing),
    (b"istore", 54, Operands::Local),
    (b"lstore", 55, Operands::Local),
    (b"astore", 58, Operands::Local),
    (b"istore_0", 59, Operands::Nothing),
    (b"istore_1", 60, Operands::Nothing),
    (b"istore_2", 61, Operands::Nothing),
    (b"istore_3", 62, Operands::Nothing),
    (b"lstore_0", 63, Operands::Nothing),
    (b"lstore_1", 64, Operands::Nothing),
    (b"lstore_2", 65, Operands::Nothing),
    (b"lstore_3", 66, Operands::Nothing),
    (b"astore_0", 75, Operands::Nothing),
    (b"astore_1", 76, Operands::Nothing),
    (b"astore_2", 77, Operands::Nothing),
    (b"astore_3", 78, Operands::Nothing),
    (b"iastore", 79, Operands::Nothing),
    (b"lastore", 80, Operands::Nothing),
    (b"aastore", 83, Operands::Nothing),
    (b"bastore", 84, Operands::Nothing),
    (b"castore", 85, Operands::Nothing),
    (b"sastore", 86, Operands::Nothing),
    (b"pop", 87, Operands::Nothing),
    (b"pop2", 88, Operands::Nothing),
    (b"dup", 89, Operands::Nothing),
    (b"dup_x1", 90, Operands::Nothing),
    (b"dup_x2", 91, Operands::Nothing),
    (b"dup2", 92, Operands::Nothing),
    (b"dup2_x1", 93, Operands::Nothing),
    (b"dup2_x2", 94, Operands::Nothing),
    (b"swap", 95, Operands::Nothing),
    (b"iadd", 96, Operands::Nothing),
    (b"ladd", 97, Operands::Nothing),
    (b"isub", 100, Operands::Nothing),
    (b"lsub", 101, Operands::Nothing),
    (b"imul", 104, Operands::Nothing),
    (b"lmul", 105, Operands::Nothing),
    (b"idiv", 108, Operands::Nothing),
    (b"ldiv", 109, Operands::Nothing),
    (b"irem", 112, Operands::Nothing),
    (b"lrem", 113, Operands::Nothing),
    (b"ineg", 116, Operands::Nothing),
    (b"lneg", 117, Operands::Nothing),
    (b"ishl", 120, Operands::Nothing),
    (b"lshl", 121, Operands::Nothing),
    (b"ishr", 122, Operands::Nothing),
    (b"lshr", 123, Operands::Nothing),
    (b"iushr", 124, Operands::Nothing),
    (b"lushr", 125, Operands::Nothing),
    (b"iand", 126, Operands::Nothing),
    (b"land", 127, Operands::Nothing),
    (b"ior", 128, Operands::Nothing),
    (b"lor", 129, Operands::Nothing),
    (b"ixor", 130, Operands::Nothing),
    (b"lxor", 131, Operands::Nothing),
    (b"iinc", 132, Operands::Increment),
    (b"i2l", 133, Operands::Nothing),
    (b"l2i", 136, Operands::Nothing),
    (b"i2b", 145, Operands::Nothing),
    (b"i2c", 146, Operands::Nothing),
    (b"i2s", 147, Operands::Nothing),
    (b"lcmp", 148, Operands::Nothing),
    (b"ifeq", 153, Operands::Jump),
    (b"ifne", 154, Operands::Jump),
    (b"iflt", 155, Operands::Jump),
    (b"ifge", 156, Operands::Jump),
    (b"ifgt", 157, Operands::Jump),
    (b"ifle", 158, Operands::Jump),
    (b"if_icmpeq", 159, Operands::Jump),
    (b"if_icmpne", 160, Operands::Jump),
    (b"if_icmplt", 161, Operands::Jump),
    (b"if_icmpge", 162, Operands::Jump),
    (b"if_icmpgt", 163, Operands::Jump),
    (b"if_icmple", 164, Operands::Jump),
    (b"if_acmpeq", 165, Operands::Jump),
    (b"if_acmpne", 166, Operands::Jump),
    (b"goto", 167, Operands::Jump),
    (b"tableswitch", 170, Operands::Table),
    (b"lookupswitch", 171, Operands::Lookup),
    (b"ireturn", 172, Operands::Nothing),
    (b"lreturn", 173, Operands::Nothing),
    (b"areturn", 176, Operands::Nothing),
    (b"return", 177, Operands::Nothing),
    (b"getstatic", 178, Operands::Field),
    (b"putstatic", 179, Operands::Field),
    (b"getfield", 180, Operands::Field),
    (b"putfield", 181, Operands::Field),
    (b"invokevirtual", 182, Operands::Method),
    (b"invokespecial", 183, Operands::Method),
    (b"invokestatic", 184, Operands::Method),
    (b"invokeinterface", 185, Operands::Interface),
    (b"new", 187, Operands::Class),
    (b"newarray", 188, Operands::Primitive),
    (b"anewarray", 189, Operands::Class),
    (b"arraylength", 190, Operands::Nothing),
    (b"athrow", 191, Operands::Nothing),
    (b"checkcast", 192, Operands::Class),
    (b"instanceof", 193, Operands::Class),
    (b"monitorenter", 194, Operands::Nothing),
    (b"monitorexit", 195, Operands::Nothing),
    (b"ifnull", 198, Operands::Jump),
    (b"ifnonnull", 199, Operands::Jump),
];

/// The first row of a word.
#[tactic(auto, unfolding(crate::specs::Mnemonics::row_of))]
fn row_of(rows: &[(&[u8], u8, Operands)], word: &[u8]) -> Option<(u8, Operands)>
    ensures { result ≡ row_of (map (λ row. (row.0.now, row.1, row.2)) rows.now) word.now }
{
    let mut rest = rows;
    'rows: loop {
        match rest {
            [] => return None,
            [(name, opcode, operands), behind @ ..] => {
                if *name == word {
                    return Some((*opcode, *operands));
                }
                rest = behind;
            }
        }
    }
}

/// The opcode of the instruction with this word, and what its operands are.
#[tactic(auto, unfolding(crate::specs::Mnemonics::mnemonics))]
pub(crate) fn instruction_named(word: &[u8]) -> Option<(u8, Operands)>
    ensures { result ≡ instruction_named word.now }
{
    row_of(&MNEMONICS, word)
}
