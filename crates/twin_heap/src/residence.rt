// Making the lines of an object resident.
ghost use Rattle.std.specs.Prelude.{◌≡◌, ◌⊎◌, ◌<◌, ◌+◌, ℕ, List, IfOk, IfSome, IsNone, Ok, OnErr, length};
ghost use Rattle.ap_base.specs.Causes.{HasCause};
ghost use Rattle.ap_base.specs.References.{reference_word};
ghost use Rattle.line_memory.specs.Memory.{IsResident, OneCall, SameImage, SameResident};
ghost use Rattle.line_memory.specs.Moments.{KeepsShown};
ghost use Rattle.twin_forms.specs.Table.{Leads, line_of};
ghost use Rattle.twin_forms.specs.Sights.{sight};
ghost use Rattle.twin_heap.specs.Here.{IsFetched, IsHere, HasPlace, Says};

use crate::access::slot_of;
use crate::heap::TwinHeap;
use ap_base::Ref;
use forwarding::state_at;
use line_image::{Image, ImageFailed};
use line_memory::{LineMemory, Touch};
use object_header::State;

// Makes two lines resident, with at most one image call. `Again` asks for the same once more.
fn touch_both<I: Image>(
    memory: &mut LineMemory<I>,
    head: u32,
    line: u32,
) -> Result<Touch, ImageFailed>
    requires within { (head < memory.old.size) × (line < memory.old.size) }
    ensures ready { IfOk result (λ touch. touch ≡ Touch.Ready
        → IsResident memory.new head × IsResident memory.new line) }
    ensures same { IfOk result (λ touch. touch ≡ Touch.Ready → memory.new ≡ memory.old) }
    ensures again { IfOk result (λ touch. touch ≡ Touch.Again → OneCall memory.old memory.new) }
    ensures fetched { IfOk result (λ touch. touch ≡ Touch.Again
        → IsFetched head memory.old memory.new ⊎ IsFetched line memory.old memory.new) }
    ensures failed { OnErr result (SameResident memory.old memory.new) }
    ensures at_once { IsResident memory.old head → IsResident memory.old line
        → (result ≡ Ok Touch.Ready) × SameImage memory.old memory.new }
    ensures keeps { KeepsShown memory.old memory.new }
    ensures count { SameImage memory.old memory.new ⊎ OneCall memory.old memory.new }
    ensures cause { HasCause memory.old.faults memory.new.faults result }
{
    if !memory.resident(head) {
        memory.touch(head)?;
        return Ok(Touch::Again);
    }
    if !memory.resident(line) {
        memory.touch(line)?;
        return Ok(Touch::Again);
    }
    Ok(Touch::Ready)
}

impl<I: Image> TwinHeap<I> {
    // The first line of an object's copy. `None` where it has no lines.
    fn first_line(&self, r: Ref) -> Option<u32>
        requires object { Leads (sight self.now.space self.now.memory self.now.marks) (reference_word r) }
        ensures some { Says (sight self.now.space self.now.memory self.now.marks) (reference_word r)
            (λ e _. IfSome result (λ line. (0 < e.stage) × (line ≡ e.line))) }
        ensures none { Says (sight self.now.space self.now.memory self.now.marks) (reference_word r)
            (λ e _. IsNone result → e.stage ≡ 0) }
    {
        match r {
            Ref::Persistent(line) => Some(line),
            Ref::Volatile(at) => match state_at(&self.space, at) {
                State::Copying(_, line) | State::Converted(_, line) | State::Durable(line) => Some(
                    line,
                ),
                State::Ordinary | State::Claimed(_) => None,
            },
            Ref::Null => None,
        }
    }

    /// Makes the line of an object's head and that of a slot's word resident, with at most one image call. `Ready`
    /// comes where no call was made, and all is then as before. `Again` comes where one was made: one of the lines that
    /// wasn't resident is, or a next touch will make it so; it asks for the same once more. Index 0 is allowed for an
    /// object without slots.
    ///
    /// # Errors
    ///
    /// `ImageFailed` where the image failed. The lines that were resident still are, and no others.
    pub fn resident(&mut self, r: Ref, index: u32) -> Result<Touch, ImageFailed>
        requires place { HasPlace (sight self.old.space self.old.memory self.old.marks) (reference_word r) index }
        ensures ready { IfOk result (λ touch. touch ≡ Touch.Ready
            → Says (sight self.old.space self.old.memory self.old.marks) (reference_word r)
            (λ e _. IsHere self.new.memory e index)) }
        ensures same { IfOk result (λ touch. touch ≡ Touch.Ready → self.new.memory ≡ self.old.memory) }
        ensures again { IfOk result (λ touch. touch ≡ Touch.Again → OneCall self.old.memory self.new.memory) }
        ensures fetched { IfOk result (λ touch. touch ≡ Touch.Again
            → Says (sight self.old.space self.old.memory self.old.marks) (reference_word r)
            (λ e _. IsFetched e.line self.old.memory self.new.memory
            ⊎ IsFetched (e.line + line_of index) self.old.memory self.new.memory)) }
        ensures failed { OnErr result (SameResident self.old.memory self.new.memory) }
        ensures at_once { Says (sight self.old.space self.old.memory self.old.marks) (reference_word r)
            (λ e _. IsHere self.old.memory e index
            → (result ≡ Ok Touch.Ready) × SameImage self.old.memory self.new.memory) }
        ensures keeps { KeepsShown self.old.memory self.new.memory }
        ensures count { SameImage self.old.memory self.new.memory ⊎ OneCall self.old.memory self.new.memory }
        ensures cause { HasCause self.old.memory.faults self.new.memory.faults result }
        ensures space { self.new.space ≡ self.old.space }
        ensures marks { self.new.marks ≡ self.old.marks }
    {
        match self.first_line(r) {
            None => Ok(Touch::Ready),
            Some(line) => touch_both(&mut self.memory, line, slot_of(line, index).line),
        }
    }
}
