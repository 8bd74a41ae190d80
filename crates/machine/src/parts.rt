// What the end of a step comes to.
ghost use Rattle.std.specs.Prelude.{◌≡◌};
ghost use Rattle.run_forms.specs.Ends.{from_in};
ghost use Rattle.machine.specs.Ended.{event_of};

use crate::{Event, Halt};
use natives::Request;
use run_types::{At, StepFault};
use step_forms::Stepped;

// The instruction that asks; pauses, faults and leaves have none.
fn from_in(request: &Request) -> Option<At>
    ensures { result ≡ from_in request.now }
{
    match *request {
        Request::Pause | Request::Broken(_) | Request::Leave { .. } => None,
        Request::New { from, .. }
        | Request::NewArray { from, .. }
        | Request::NewText { from, .. }
        | Request::GetStatic { from, .. }
        | Request::PutStatic { from, .. }
        | Request::GetField { from, .. }
        | Request::PutField { from, .. }
        | Request::GetElement { from, .. }
        | Request::PutElement { from, .. }
        | Request::Length { from, .. }
        | Request::ClassOf { from, .. }
        | Request::Cast { from, .. }
        | Request::IsA { from, .. }
        | Request::Same { from, .. }
        | Request::Enter { from, .. }
        | Request::Exit { from, .. }
        | Request::Start { from, .. }
        | Request::Join { from, .. }
        | Request::Init { from, .. }
        | Request::InitDone { from, .. }
        | Request::Print { from, .. }
        | Request::Raise { from, .. }
        | Request::Begin { from }
        | Request::End { from } => Some(from),
    }
}

/// What the step of a request comes to: its reply, what it waits for, or that by which the run is over.
pub(crate) fn ended(request: &Request, step: Stepped) -> Event
    ensures { result ≡ event_of request.now step }
{
    match step {
        Stepped::Did { reply, .. } => Event::Did(reply),
        Stepped::Waits(on) => Event::WouldWait(on),
        Stepped::Wrong => {
            // a request that finds a wrong operand is an instruction's
            let nowhere = At {
                class: 0,
                method: 0,
                pc: 0,
            };
            let from = from_in(request).unwrap_or(nowhere);
            Event::Over(Halt::Met(StepFault::BadCode(from)))
        }
        Stepped::Over(fault) => Event::Over(Halt::Met(fault)),
    }
}
