// Printing.
ghost use Rattle.std.specs.Prelude.{ℕ, length};
ghost use Rattle.ap_base.specs.Sinks.{TakesBehind};
ghost use Rattle.natives.specs.declared.requests.Request.TheVariants as ask;
ghost use Rattle.plain_model.specs.Facts.{SetFacts};
ghost use Rattle.shared_objects.specs.declared.rest.Rest.{Rest as RestOf};
ghost use Rattle.step_forms.specs.Becomes.{IsQuiet};
ghost use Rattle.world_steps.specs.Rests.{IsRestStep};
ghost use Rattle.world_steps.specs.Printing.{HasSinkCause, PrintsTo, TakesShare, printed_in};

use ap_base::{Piece, Sink};
use natives::Reply;
use run_history::Op;
use run_types::StepFault;
use step_forms::Stepped;

/// Prints as many bytes of a piece as the sink takes, at least one.
///
/// The run is over where the sink fails, and nothing is printed then.
pub fn print<S: Sink>(sink: &mut S, piece: Piece) -> Stepped
    ensures step { (set : SetFacts) (t : ℕ) (rest : RestOf)
        → IsRestStep set t (λ from. ask.Print from piece) rest result rest }
    ensures quiet { IsQuiet result }
    ensures share { TakesShare (S.takes sink.old 0) piece result }
    ensures behind { TakesBehind (S.takes sink.old) (S.takes sink.new) (length (printed_in result)) }
    ensures told { PrintsTo (S.taken sink.old) result (S.taken sink.new) }
    ensures cause { HasSinkCause (S.faults sink.old) (S.faults sink.new) result }
{
    match sink.put(piece.as_slice()) {
        Err(_) => Stepped::Over(StepFault::SinkFault),
        Ok(taken) => match Piece::new(&piece.as_slice()[..taken]) {
            None => Stepped::Over(StepFault::SinkFault),
            Some(bytes) => Stepped::Did {
                op: Op::Print { bytes },
                reply: Reply::Printed(taken as u32),
            },
        },
    }
}
