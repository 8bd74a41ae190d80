//! Reading a class file from front to back.

ghost use Rattle.std.specs.Prelude.{◌≡◌, ◌+◌, ◌^◌, ◌<◌, IfOk, length};
ghost use Rattle.std.specs.List.{list_any};
ghost use Rattle.const_pool.specs.declared.entry.Tag.TheVariants as tag;
ghost use Rattle.const_pool.specs.Pool.{class_name_at};
ghost use Rattle.const_pool.specs.Reading.{pool_in};
ghost use Rattle.class_items.specs.Kinds.{AreKindsOf};
ghost use Rattle.parsing.specs.Results.{placed, many_from};
ghost use Rattle.class_file.specs.Refusals.{Gives, of_pool};
ghost use Rattle.class_file.specs.Members.{index};
ghost use Rattle.class_file.specs.Classes.{CanBeRead, class_in, class_bytes, head_at, is_barred, is_misnamed, this_at};
ghost use Rattle.class_file.specs.Classes.{interfaces_at, behind_at};

use crate::class::ClassFile;
use crate::fields::fields;
use crate::methods::methods;
use crate::refusal::ClassRefusal;
use ap_base::ListOf;
use class_items::{DescriptorKinds, attributes, index};
use const_pool::{Pool, Tag, read_pool};
use parsing::Reader;
use std::alloc::Global;

const MAGIC: u32 = 0xCAFE_BABE;

/// The magic and version 52.0.
#[tactic(auto, unfolding(crate::specs::Classes::head_at))]
fn head(file: &mut Reader) -> Result<(), ClassRefusal>
    ensures { Gives (λ _. file.new) result (head_at file.old) }
{
    if file.u32()? != MAGIC {
        return Err(ClassRefusal::BadMagic);
    }
    let minor = file.u16()?;
    let major = file.u16()?;
    if major != 52 || minor != 0 {
        return Err(ClassRefusal::BadVersion { major, minor });
    }
    Ok(())
}

fn is_barred(b: u8) -> bool
    ensures { result ≡ is_barred b }
{
    matches!(b, b'.' | b';' | b'[')
}

fn has_barred(name: &[u8]) -> bool
    ensures { result ≡ list_any is_barred name.now }
{
    for b in name {
        if is_barred(*b) {
            return true;
        }
    }
    false
}

/// Whether the class at an index has a name that no class file's own class has (JVMS 4.2.1).
fn is_misnamed(pool: &Pool, index: u16) -> bool
    ensures { result ≡ is_misnamed (class_name_at pool.now index) }
{
    match pool.class_name(index) {
        Some(name) => has_barred(name.as_slice()),
        None => false,
    }
}

/// The class's own entry.
#[tactic(auto, unfolding(crate::specs::Classes::this_at))]
fn this_class(pool: &Pool, file: &mut Reader) -> Result<u16, ClassRefusal>
    ensures { Gives (λ x. (x, file.new)) result (this_at pool.now file.old) }
{
    let offset = file.at();
    let index = index(pool, Tag::Class, file)?;
    if is_misnamed(pool, index) {
        return Err(ClassRefusal::BadIndex { offset, index });
    }
    Ok(index)
}

fn some_interfaces(
    alloc: Global,
    pool: &Pool,
    count: u16,
    file: &mut Reader,
) -> Result<Vec<u16>, ClassRefusal>
    ensures { Gives (λ v. (v.items, file.new)) result
        (many_from (index pool.now tag.Class) count file.old) }
{
    let mut interfaces = Vec::new(alloc);
    for _ in 0..count {
        interfaces.push(index(pool, Tag::Class, file)?)?;
    }
    Ok(interfaces)
}

/// The direct superinterfaces.
#[tactic(auto, unfolding(crate::specs::Classes::interfaces_at))]
fn interfaces(alloc: Global, pool: &Pool, file: &mut Reader) -> Result<ListOf<u16>, ClassRefusal>
    ensures { Gives (λ list. (list, file.new)) result (interfaces_at pool.now file.old) }
{
    let count = file.u16()?;
    let interfaces = some_interfaces(alloc, pool, count, file)?;
    Ok(ListOf::from_vec(interfaces))
}

/// What stands behind the pool, up to the file's end.
#[tactic(auto, unfolding(crate::specs::Classes::behind_at))]
fn behind(
    alloc: Global,
    pool: Pool,
    kinds: &DescriptorKinds,
    file: &mut Reader,
) -> Result<ClassFile, ClassRefusal>
    requires { AreKindsOf pool kinds.now }
    ensures { Gives (λ c. c) result (behind_at pool file.old) }
{
    let access = file.u16()?;
    let this_class = this_class(&pool, file)?;
    let super_class = index(&pool, Tag::Class, file)?;
    let interfaces = interfaces(alloc, &pool, file)?;
    let fields = fields(alloc, &pool, kinds, file)?;
    let methods = methods(alloc, &pool, kinds, file)?;
    let attributes = attributes(alloc, &pool, file)?;
    if !file.is_ended() {
        return Err(ClassRefusal::TrailingBytes(file.at()));
    }
    Ok(ClassFile {
        pool,
        access,
        this_class,
        super_class,
        interfaces,
        fields,
        methods,
        attributes,
    })
}

#[tactic(auto, using(crate::proofs::Codes::pool_err))]
fn pool(alloc: Global, bytes: &[u8]) -> Result<(Pool, usize), ClassRefusal>
    ensures { Gives (λ x. x) result (placed of_pool (pool_in bytes.now)) }
{
    Ok(read_pool(alloc, bytes)?)
}

/// The class file that these bytes are, or the first fault.
#[tactic(auto, unfolding(crate::specs::Classes::class_in))]
fn class(alloc: Global, bytes: &[u8]) -> Result<ClassFile, ClassRefusal>
    ensures { Gives (λ c. c) result (class_in bytes.now) }
{
    head(&mut Reader::new(0, bytes))?;
    let (pool, after) = pool(alloc, bytes)?;
    let kinds = DescriptorKinds::of(alloc, &pool)?;
    let rest = bytes.get(after..).unwrap_or(&[]);
    behind(alloc, pool, &kinds, &mut Reader::new(after, rest))
}

/// Reads a class file, which is all of the bytes (JVMS 4.1).
///
/// The answer is the first fault, from front to back. The index of a ConstantValue, a durable root and a missing Code
/// are judged once the member's last attribute is read. `OutOfMemory` may stand in place of any answer.
pub fn read_class(alloc: Global, bytes: &[u8]) -> Result<ClassFile, ClassRefusal>
    // What is read is spelled so, each byte of it.
    ensures found { IfOk result (λ c. bytes.now ≡ class_bytes c) }
    ensures readable { IfOk result CanBeRead }
    // Which answer it is.
    ensures exact { Gives (λ c. c) result (class_in bytes.now) }
{
    class(alloc, bytes)
}
