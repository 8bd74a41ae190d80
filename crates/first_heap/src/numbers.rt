// The numbers of the first objects that are no nodes.
ghost use Rattle.std.specs.Prelude.{◌≡◌, ◌+◌, ◌<◌, ◌^◌, length};
ghost use Rattle.plain_model.specs.Facts.{SetFacts};
ghost use Rattle.plain_model.specs.First.{literal_number, stream_number};

use graph_model::Graph;

/// The number of the object in `System.out`: it stands behind the nodes.
pub(crate) fn stream_number(opening: &Graph) -> u32
    requires fits { length opening.now.nodes < 2 ^ 32 }
    ensures { (set : SetFacts) → result ≡ stream_number set opening.now }
{
    opening.nodes.len() as u32
}

/// The number of the object of a literal.
pub(crate) fn literal_number(opening: &Graph, literal: u32) -> u32
    requires fits { length opening.now.nodes + 2 + literal < 2 ^ 32 }
    ensures { (set : SetFacts) → result ≡ literal_number set opening.now literal }
{
    opening.nodes.len() as u32 + 2 + literal
}
