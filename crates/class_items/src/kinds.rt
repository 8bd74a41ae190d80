//! Which texts of a constant pool are descriptors (JVMS 4.3.2, 4.3.3).

ghost use Rattle.std.specs.Prelude.{◌≡◌, ℕ, IfOk, slice_index_or};
ghost use Rattle.class_items.specs.declared.kinds.DescriptorKind.TheVariants.{Neither};
ghost use Rattle.class_items.specs.Kinds.{sort_of, kind_of_descriptor, kind_of_text, kind_at, AreKindsOf};

use const_pool::{
    BaseType, Descriptor, DescriptorRefusal, ElementType, FieldType, Name, Pool, read_descriptor,
};
use std::alloc::{AllocError, Global};
use std::marker::Model;

/// What a place of a field's type holds (JVMS 2.3, 2.4).
#[derive(Clone, Copy)]
pub enum FieldSort {
    /// `boolean`, `byte`, `char`, `short` or `int`.
    Int,
    Long,
    /// An instance of a class or an array, or null.
    Reference,
}

/// What a text is as a descriptor, without those of float and double.
#[derive(Clone, Copy)]
pub enum DescriptorKind {
    Field(FieldSort),
    Method,
    /// No descriptor.
    Neither,
}

/// What the text at each index of a pool is as a descriptor, so that each text is looked at once. Contracts see a
/// list, one for each index.
#[derive(Drop)]
pub struct DescriptorKinds {
    kinds: Vec<DescriptorKind>,
}

impl Model for DescriptorKinds {
    ghost use Rattle.std.specs.Prelude.{List};
    ghost use Rattle.class_items.specs.declared.kinds.DescriptorKind.{DescriptorKind};

    ghost Value = { List DescriptorKind };

    ghost view = { λ k. k.kinds.items };
}

impl DescriptorKinds {
    /// The kinds of a pool's texts. It takes time linear in the pool's bytes.
    pub fn of(alloc: Global, pool: &Pool) -> Result<DescriptorKinds, AllocError>
        ensures { IfOk result (λ kinds. AreKindsOf pool.now kinds) }
    {
        let mut kinds = Vec::new(alloc);
        for index in 0..pool.len() {
            kinds.push(kind_in(alloc, pool, index)?)?;
        }
        Ok(DescriptorKinds { kinds })
    }

    /// What the text at an index is, `Neither` where no text is there.
    pub fn get(&self, index: u16) -> DescriptorKind
        ensures { result ≡ slice_index_or self.now index Neither }
    {
        match self.kinds.get(usize::from(index)) {
            Some(kind) => *kind,
            None => DescriptorKind::Neither,
        }
    }
}

fn sort_of(field: &FieldType) -> FieldSort
    ensures { result ≡ sort_of field.now }
{
    if field.dimensions != 0 {
        return FieldSort::Reference;
    }
    match &field.element {
        ElementType::Base(BaseType::Long) => FieldSort::Long,
        ElementType::Base(_) => FieldSort::Int,
        ElementType::Class(_) => FieldSort::Reference,
    }
}

fn kind_of_descriptor(descriptor: &Descriptor) -> DescriptorKind
    ensures { result ≡ kind_of_descriptor descriptor.now }
{
    match descriptor {
        Descriptor::Field(field) => DescriptorKind::Field(sort_of(field)),
        Descriptor::Method { .. } => DescriptorKind::Method,
    }
}

fn kind_of_text(alloc: Global, text: &Name) -> Result<DescriptorKind, AllocError>
    ensures { IfOk result (λ kind. kind ≡ kind_of_text text.now) }
{
    match read_descriptor(alloc, text) {
        Ok(descriptor) => Ok(kind_of_descriptor(&descriptor)),
        Err(DescriptorRefusal::Bad) => Ok(DescriptorKind::Neither),
        Err(DescriptorRefusal::OutOfMemory) => Err(AllocError),
    }
}

#[tactic(auto, unfolding(crate::specs::Kinds::kind_at))]
fn kind_in(alloc: Global, pool: &Pool, index: u16) -> Result<DescriptorKind, AllocError>
    ensures { IfOk result (λ kind. kind ≡ kind_at pool.now index) }
{
    match pool.utf8(index) {
        Some(text) => kind_of_text(alloc, text),
        None => Ok(DescriptorKind::Neither),
    }
}
