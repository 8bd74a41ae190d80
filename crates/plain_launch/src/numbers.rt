// The numbers of the first objects that are no nodes.
ghost use Rattle.std.specs.Prelude.{◌≡◌, ◌+◌, ◌<◌, ◌^◌, IfOk, length, map};
ghost use Rattle.ap_base.specs.declared.reference.Ref.TheVariants.{Volatile};
ghost use Rattle.class_set.specs.Facts.{facts_of};
ghost use Rattle.plain_model.specs.Facts.{SetFacts};
ghost use Rattle.plain_model.specs.First.{arguments_number, literal_number, stream_number};
ghost use Rattle.plain_launch.specs.Launches.{references_to};

use ap_base::Ref;
use graph_model::Graph;
use std::alloc::{AllocError, Global};

/// The number of the object in `System.out`: it stands behind the nodes.
pub(crate) fn stream_number(opening: &Graph) -> u32
    requires fits { length opening.now.nodes < 2 ^ 32 }
    ensures { (set : SetFacts) → result ≡ stream_number set opening.now }
{
    opening.nodes.len() as u32
}

/// The number of the array of arguments.
pub(crate) fn arguments_number(opening: &Graph) -> u32
    requires fits { length opening.now.nodes + 1 < 2 ^ 32 }
    ensures { (set : SetFacts) → result ≡ arguments_number set opening.now }
{
    opening.nodes.len() as u32 + 1
}

/// The number of the object of a literal.
pub(crate) fn literal_number(opening: &Graph, literal: u32) -> u32
    requires fits { length opening.now.nodes + 2 + literal < 2 ^ 32 }
    ensures { (set : SetFacts) → result ≡ literal_number set opening.now literal }
{
    opening.nodes.len() as u32 + 2 + literal
}

/// The references of the objects of so many literals: in a plain heap an object lies at its number.
pub(crate) fn literal_references(
    alloc: Global,
    opening: &Graph,
    literals: u32,
) -> Result<Vec<Ref>, AllocError>
    requires fits { length opening.now.nodes + 2 + literals < 2 ^ 32 }
    ensures { (set : SetFacts) → IfOk result (λ references.
        references.items ≡ references_to set opening.now literals) }
{
    let mut references = Vec::new(alloc);
    for literal in 0..literals {
        references.push(Ref::Volatile(literal_number(opening, literal)))?;
    }
    Ok(references)
}
