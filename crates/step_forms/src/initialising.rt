// The initialisation of a class before its first use.
ghost use Rattle.std.specs.Prelude.{◌≡◌, ◌<◌, IfSome, length};
ghost use Rattle.step_forms.specs.Becomes.{IsQuiet};
ghost use Rattle.step_forms.specs.Follows.{InitialisesFirst};

use crate::Stepped;
use ap_base::ThreadNo;
use natives::Reply;
use run_history::{Op, Progress, Stage};
use run_types::On;
use shared_objects::Rest;

/// What comes before the use of a class (JVMS 5.5): a class that nobody has begun is begun by this
/// thread, which initialises it and
/// asks again; one that another thread has begun is waited for. `None` where nothing does: the
/// class is done, or this thread has
/// begun it.
pub fn initialise_first(rest: &mut Rest, t: ThreadNo, class: u32) -> Option<Stepped>
    requires there { class < length rest.old.classes.items }
    ensures first { InitialisesFirst t class rest.old result rest.new }
    ensures quiet { IfSome result IsQuiet }
{
    let at = class as usize;
    match rest.classes[at] {
        Progress::Untouched => {
            rest.classes[at] = Progress::BegunBy(t);
            let op = Op::Init {
                class,
                is: Stage::Begun,
            };
            let reply = Reply::Init(class);
            Some(Stepped::Did { op, reply })
        }
        Progress::BegunBy(u) => {
            if u.number() == t.number() {
                None
            } else {
                Some(Stepped::Waits(On::Init(u)))
            }
        }
        Progress::Finished => None,
    }
}
