//! The names of durable roots, of which no two are the same.

ghost use Rattle.std.specs.Prelude.{◌≡◌, ℕ, ◌&&◌, not, List, [], ◌∷◌, ◌++◌, IfOk, OnOk};
ghost use Rattle.class_file.specs.declared.refusal.ClassRefusal.TheVariants as refusal;
ghost use Rattle.parsing.specs.Results.{unless};
ghost use Rattle.class_file.specs.Refusals.{Gives};
ghost use Rattle.class_file.specs.Members.{is_among, with_root};
ghost use Rattle.class_file.specs.RootNames.{AreTexts};

use crate::field::Field;
use crate::refusal::ClassRefusal;
use const_pool::Pool;
use std::alloc::AllocError;
use std::collections::BTreeSet;

/// Adds the text at an index to those at others, and tells whether it was not among them.
fn add_text<'a>(
    pool: &'a Pool,
    texts: &mut BTreeSet<&'a [u8]>,
    index: u16,
) -> Result<bool, AllocError>
    ensures new { (roots : List ℕ) → AreTexts pool.now roots texts.old
        → IfOk result (λ added. added ≡ not (is_among pool.now roots index)) }
    ensures added { (roots : List ℕ) → AreTexts pool.now roots texts.old
        → OnOk result (AreTexts pool.now (roots ++ index ∷ []) texts.new) }
{
    match pool.utf8(index) {
        Some(text) => Ok(texts.insert(text.as_slice())?),
        None => Ok(true),
    }
}

/// Notes the name of a field that is a durable root, which is refused where one before has that name.
pub(crate) fn note_root<'a>(
    pool: &'a Pool,
    texts: &mut BTreeSet<&'a [u8]>,
    number: u16,
    field: &Field,
) -> Result<(), ClassRefusal>
    ensures own { (roots : List ℕ) → AreTexts pool.now roots texts.old
        → Gives (λ _. tt) result (unless (field.now.root && is_among pool.now roots field.now.name)
        (refusal.RootNotReference number)) }
    ensures noted { (roots : List ℕ) → AreTexts pool.now roots texts.old
        → OnOk result (AreTexts pool.now (with_root roots field.now) texts.new) }
{
    if !field.root {
        return Ok(());
    }
    if !add_text(pool, texts, field.name)? {
        return Err(ClassRefusal::RootNotReference(number));
    }
    Ok(())
}
