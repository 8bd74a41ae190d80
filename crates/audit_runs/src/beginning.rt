// Where an audit begins.
ghost use Rattle.std.specs.Prelude.{◌≡◌, ◌<◌, ◌^◌, [], All, IfOk, IsErrOf, length};
ghost use Rattle.graph_model.specs.declared.types.Node.{Node as NodeOf};
ghost use Rattle.run_types.specs.declared.limits.Limits.{Limits};
ghost use Rattle.class_code.specs.Sizes.{IsTooLarge};
ghost use Rattle.class_set.specs.Facts.{facts_of};
ghost use Rattle.plain_model.specs.Duties.{IsClass};
ghost use Rattle.plain_model.specs.First.{IsOpening, first_known};
ghost use Rattle.program_host.specs.Hosts.{setting_in};
ghost use Rattle.plain_launch.specs.Launches.{launch_of};
ghost use Rattle.audit_steps.specs.Audits.{IsAt};
ghost use Rattle.audit_acts.specs.Keeps.{HasKept};

use audit_keeping::{Keeping, keeping_begins};
use audit_steps::{Audit, Kept};
use class_code::DecodeRefusal;
use class_set::ClassSet;
use first_heap::first_heap;
use graph_model::Graph;
use kept_lists::Doubts;
use plain_launch::begin_plain;
use program_host::ProgramHost;
use program_launch::Main;
use std::alloc::{AllocError, Global};

/// An audit, and what gives the frames of its plain run their tables.
#[derive(Drop)]
pub(crate) struct Begun {
    pub audit: Audit,
    pub host: ProgramHost,
}

impl Begun {
    /// The doubts of the acts so far. All else is dropped, heaps and frames among it.
    pub(crate) fn into_doubts(self) -> Doubts
        ensures { result ≡ self.audit.kept.doubts }
    {
        let audit = self.audit;
        let kept = audit.kept;
        kept.doubts
    }
}

/// What is kept before the first act.
fn first_kept(alloc: Global, set: &ClassSet, opening: &Graph) -> Result<Kept, AllocError>
    requires opening { IsOpening (facts_of set.now) opening.now }
    ensures kept { IfOk result (HasKept (first_known (facts_of set.now) opening.now) []) }
{
    keeping_begins();
    let heap = first_heap(alloc, set, opening)?;
    let keeping = Keeping::begin(alloc, &heap, opening.nodes.len())?;
    let doubts = Doubts::new(alloc)?;
    Ok(Kept {
        heap,
        keeping,
        doubts,
        at: 0,
    })
}

/// The audit of the runs of a class set from this `main` and opening graph, before the first act. `TooLarge` only where
/// the set is too large to be decoded.
pub(crate) fn begin(
    alloc: Global,
    set: &ClassSet,
    main: &Main,
    opening: &Graph,
) -> Result<Begun, DecodeRefusal>
    requires opening { IsOpening (facts_of set.now) opening.now }
    requires main { IsClass (facts_of set.now) main.now.class }
    requires short { All (λ (n : NodeOf). length n.values < 2 ^ 31) opening.now.nodes }
    ensures at { (limits : Limits) → IfOk result (λ begun.
        IsAt (launch_of set.now main.now opening.now limits) [] (facts_of set.now) (setting_in begun.host) begun.audit) }
    ensures too_large { IsErrOf result DecodeRefusal.TooLarge → IsTooLarge set.now }
{
    let kept = first_kept(alloc, set, opening)?;
    let run = begin_plain(alloc, set, main, opening)?;
    Ok(Begun {
        audit: Audit {
            plain: run.plain,
            kept,
        },
        host: run.host,
    })
}
