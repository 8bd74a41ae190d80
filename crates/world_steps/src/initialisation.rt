// The initialisation of classes (JVMS 5.5).
ghost use Rattle.std.specs.Prelude.{◌<◌, ℕ, length};
ghost use Rattle.natives.specs.declared.requests.Request.TheVariants as ask;
ghost use Rattle.plain_model.specs.Facts.{SetFacts};
ghost use Rattle.step_forms.specs.Becomes.{IsQuiet};
ghost use Rattle.world_steps.specs.Rests.{IsRestStep};

use ap_base::ThreadNo;
use natives::Reply;
use run_history::{Op, Progress, Stage};
use shared_objects::Rest;
use step_forms::{Stepped, initialise_first};

/// Asks for the initialisation of a class.
pub fn init(rest: &mut Rest, t: ThreadNo, class: u32) -> Stepped
    requires there { class < length rest.old.classes.items }
    ensures step { (set : SetFacts) → IsRestStep set t (λ from. ask.Init from class) rest.old result
        rest.new }
    ensures quiet { IsQuiet result }
{
    if let Some(first) = initialise_first(rest, t, class) {
        return first;
    }
    Stepped::Did {
        op: Op::Init {
            class,
            is: Stage::Ready,
        },
        reply: Reply::Done,
    }
}

/// The initialiser of a class has ended.
pub fn init_done(rest: &mut Rest, class: u32) -> Stepped
    requires there { class < length rest.old.classes.items }
    ensures step { (set : SetFacts) (t : ℕ) → IsRestStep set t (λ from. ask.InitDone from class)
        rest.old result rest.new }
    ensures quiet { IsQuiet result }
{
    rest.classes[class as usize] = Progress::Finished;
    Stepped::Did {
        op: Op::Init {
            class,
            is: Stage::Done,
        },
        reply: Reply::Done,
    }
}
