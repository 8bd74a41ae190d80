//! Whether the jumps of a code lead to its instructions.

ghost use Rattle.std.specs.Prelude.{◌≡◌, ◌<◌, ℕ, Ok, Some, false, length, All, IfOk};
ghost use Rattle.std.specs.List.{list_all};
ghost use Rattle.code_form.specs.Spelling.{is_start, jumps_to_starts};
ghost use Rattle.parsing.specs.Results.{Gives};
ghost use Rattle.code_form.specs.declared.refusal.CodeRefusal.TheVariants.{OutOfMemory};
ghost use Rattle.code_form.specs.Reading.{first_astray, unless_astray};
ghost use Rattle.code_form.specs.Marks.{AreMarksOf};

use crate::ins::{Case, Ins, Placed};
use crate::refusal::CodeRefusal;
use std::alloc::{AllocError, Global};
use std::marker::Model;

/// Where the instructions of a code begin, in a table with a cell for each of its bytes. Contracts see the code.
#[derive(Drop)]
pub struct Starts<'a> {
    code: &'a [Placed],
    marks: Vec<bool>,
}

impl<'a> Model for Starts<'a> {
    ghost use Rattle.std.specs.Prelude.{List};
    ghost use Rattle.code_form.specs.declared.ins.Placed.{Placed as OnePlaced};
    ghost use Rattle.code_form.specs.Marks.{AreMarksOf};

    ghost Value = { List OnePlaced };

    ghost view = { λ s. s.code.now };

    ghost invariant = { λ s. AreMarksOf s.code.now s.marks.items };
}

impl<'a> Starts<'a> {
    /// The starts of a code of `len` bytes.
    pub fn of(alloc: Global, code: &'a [Placed], len: usize) -> Result<Starts<'a>, AllocError>
        requires { All (λ p. p.pc < len) code.now }
        ensures { IfOk result (λ starts. starts ≡ code.now) }
    {
        let marks = marks_of(alloc, code, len)?;
        Ok(Starts { code, marks })
    }

    /// Whether an instruction begins at a pc, which takes constant time.
    pub fn has(&self, pc: u32) -> bool
        ensures { result ≡ is_start self.now pc }
    {
        match self.marks.get(pc as usize) {
            Some(is_start) => *is_start,
            None => false,
        }
    }
}

fn marks_of(alloc: Global, code: &[Placed], len: usize) -> Result<Vec<bool>, AllocError>
    requires { All (λ p. p.pc < len) code.now }
    ensures { IfOk result (λ marks. AreMarksOf code.now marks.items) }
{
    let mut marks = Vec::from_elem(alloc, false, len)?;
    for placed in code {
        marks[placed.pc as usize] = true;
    }
    Ok(marks)
}

fn are_starts(starts: &Starts, pcs: &[u32]) -> bool
    ensures { result ≡ list_all (is_start starts.now) pcs.now }
{
    pcs.iter().all(|pc| starts.has(*pc))
}

fn lead_to_starts(starts: &Starts, cases: &[Case]) -> bool
    ensures { result ≡ list_all (λ c. is_start starts.now c.target) cases.now }
{
    cases.iter().all(|case| starts.has(case.target))
}

#[tactic(auto, using(crate::proofs::Jumps::list_all_of_map))]
fn jumps_to_starts(starts: &Starts, placed: &Placed) -> bool
    ensures { result ≡ jumps_to_starts starts.now placed.now }
{
    match &placed.ins {
        Ins::Branch(_, target) | Ins::GotoWide(target) => starts.has(*target),
        Ins::TableSwitch {
            default,
            targets,
            ..
        } => starts.has(*default) && are_starts(starts, targets.as_slice()),
        Ins::LookupSwitch { default, cases } => {
            starts.has(*default) && lead_to_starts(starts, cases.as_slice())
        }
        _ => true,
    }
}

/// Refuses a code of `len` bytes where an instruction jumps to where none begins.
pub(crate) fn check_targets(alloc: Global, code: &[Placed], len: usize) -> Result<(), CodeRefusal>
    requires { All (λ p. p.pc < len) code.now }
    ensures { Gives (Some OutOfMemory) (λ _. code.now) result
        (unless_astray code.now (first_astray code.now)) }
{
    let starts = Starts::of(alloc, code, len)?;
    for placed in code {
        if !jumps_to_starts(&starts, placed) {
            return Err(CodeRefusal::BadTarget(placed.pc));
        }
    }
    Ok(())
}
