// Failure-atomic regions.
ghost use Rattle.std.specs.Prelude.{◌<◌, length};
ghost use Rattle.natives.specs.declared.requests.Request.TheVariants as ask;
ghost use Rattle.run_types.specs.declared.resolved.At.{At as From};
ghost use Rattle.plain_model.specs.Facts.{SetFacts};
ghost use Rattle.shared_objects.specs.Worlds.{HasCounts, KnowsMonitors};
ghost use Rattle.step_forms.specs.Becomes.{Becomes, IsQuiet};
ghost use Rattle.step_forms.specs.Follows.{IsHeapOf, IsStep};
ghost use Rattle.world_steps.specs.Rests.{IsRestStep};

use ap_base::ThreadNo;
use natives::Reply;
use plain_model::Throws;
use run_history::Op;
use shared_objects::{Objects, Rest, Types};
use step_forms::{Stepped, throw};

/// Opens a region, or one more level of it.
pub fn begin(rest: &mut Rest, t: ThreadNo) -> Stepped
    requires there { t < length rest.old.threads }
    requires counts { HasCounts rest.old }
    ensures step { (set : SetFacts) → IsRestStep set t (λ from. ask.Begin from) rest.old result
        rest.new }
    ensures quiet { IsQuiet result }
{
    rest.threads.begin(t);
    Stepped::Did {
        op: Op::Begin,
        reply: Reply::Done,
    }
}

/// Closes a level of a region; outside regions it throws.
pub fn end<C: Types, O: Objects>(set: &C, objects: &mut O, rest: &mut Rest, t: ThreadNo) -> Stepped
    requires heap { IsHeapOf (C.facts set.now) (O.shown objects.old) }
    requires monitors { KnowsMonitors (O.shown objects.old) rest.old }
    requires there { t < length rest.old.threads }
    requires make { O.may_make objects.old }
    ensures step { (from : From) → IsStep (C.facts set.now) t (ask.End from)
        (O.shown objects.old) rest.old result (O.shown objects.new) rest.new }
    ensures heap { Becomes O.shown O.stores O.makes objects.old result objects.new }
{
    if rest.threads.depth(t) == 0 {
        return throw(set, objects, Throws::IllegalState);
    }
    rest.threads.end(t);
    Stepped::Did {
        op: Op::End,
        reply: Reply::Done,
    }
}
