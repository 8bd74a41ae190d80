// The audit of a history.
ghost use Rattle.std.specs.Prelude.{◌≡◌, ◌<◌, ◌^◌, All, IfOk, IsErrOf, IsTrue, Ok, length};
ghost use Rattle.graph_model.specs.declared.types.Node.{Node as NodeOf};
ghost use Rattle.class_code.specs.Sizes.{IsTooLarge};
ghost use Rattle.class_set.specs.Facts.{facts_of};
ghost use Rattle.plain_model.specs.First.{IsOpening};
ghost use Rattle.plain_model.specs.Runs.{IsAllowed};
ghost use Rattle.program_launch.specs.declared.mains.Main.{Main};
ghost use Rattle.audit_verdicts.specs.declared.verdict.Verdict.TheVariants.{Yes};
ghost use Rattle.audit_runs.specs.Audits.{IsMainOf, IsRight};

use crate::beginning::begin;
use crate::endings::judge_end;
use crate::mains::main_from;
use audit_verdicts::Verdict;
use class_code::DecodeRefusal;
use class_set::ClassSet;
use graph_model::{Graph, Node};
use run_history::Acts;
use set_types::SetTypes;
use std::alloc::Global;

/// Whether no node has 2^31 slots or more.
fn are_short(nodes: &[Node]) -> bool
    ensures { IsTrue result → All (λ (n : NodeOf). length n.values < 2 ^ 31) nodes.now }
{
    nodes.iter().all(|node| node.values.len() < 2_147_483_648)
}

/// Judges a history: whether its acts are a plain run of the class set from the opening graph, with the rules of persistence
/// and of what becomes durable; whether the bytes are those of its Print acts; and whether `after` is the canonical graph
/// after the kept list that `keep` picks: bit t keeps the store of thread t that isn't fenced, or its closing region.
///
/// `main_class` is the number of the class whose `main` the run begins with. `Verdict::Act(n)`: the acts before act n, counted
/// from 0, are a plain run, and with it they aren't.
///
/// # Errors
///
/// `TooLarge` only where the set's methods have 2^32 instructions or more, with an end for each; want of memory, and of numbers:
/// an object of the opening graph has 2^31 slots or more, there are 2^32 - 2 durable roots, or a monitor would be held beside
/// 4,096 others.
pub fn audit_run(
    alloc: Global,
    set: &ClassSet,
    main_class: u32,
    opening: &Graph,
    acts: &Acts,
    keep: u64,
    output: &[u8],
    after: &Graph,
) -> Result<Verdict, DecodeRefusal>
    requires opening { IsOpening (facts_of set.now) opening.now }
    requires main { (main : Main) × IsMainOf set.now main_class main }
    ensures right { (main : Main) → IsMainOf set.now main_class main → IfOk result (IsRight set.now main opening.now
        acts.now.acts keep output.now after.now) }
    ensures allowed { result ≡ Ok Yes → IsAllowed (facts_of set.now) opening.now acts.now.acts after.now }
    ensures too_large { IsErrOf result DecodeRefusal.TooLarge → IsTooLarge set.now }
{
    let main = main_from(set, main_class);
    if !are_short(opening.nodes.as_slice()) {
        return Err(DecodeRefusal::OutOfMemory);
    }
    let mut begun = begin(alloc, set, &main, opening)?;
    let types = SetTypes::of(set);
    if let Some(n) = begun.audit.follow(alloc, &types, &begun.host, acts)? {
        return Ok(Verdict::Act(n));
    }
    let doubts = begun.into_doubts();
    Ok(judge_end(alloc, set, opening, acts, &doubts, keep, output, after)?)
}
