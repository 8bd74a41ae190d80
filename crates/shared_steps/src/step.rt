// The step of a request.
ghost use Rattle.step_forms.specs.Becomes.{Becomes, MayBeStored};
ghost use Rattle.step_forms.specs.Follows.{Agrees, IsStep};
ghost use Rattle.step_forms.specs.Needs.{IsAskable};
ghost use Rattle.shared_steps.specs.Giving.{StoresGiven};
ghost use Rattle.std.specs.Prelude.{◌≡◌};
ghost use Rattle.shared_steps.specs.Output.{BehindGoes, FaultsGo, IsSilent, OutputGoes, SharesGo};

use ap_base::{Sink, ThreadNo};
use natives::Request;
use object_steps::{
    cast, class_of, get_element, get_field, get_static, is_a, length, new_array, new_object,
    new_text, put_element, put_field, put_static, same,
};
use run_types::Key;
use shared_objects::{Objects, Rest, Types};
use step_forms::{Stepped, throw_class};
use world_steps::{
    begin, end, enter_class, enter_object, exit_class, exit_object, init, init_done, join, leave,
    pause, print, start,
};

/// What a request of a thread comes to. Only a print calls the sink.
pub fn take_step<C: Types, O: Objects, S: Sink>(
    set: &C,
    objects: &mut O,
    rest: &mut Rest,
    sink: &mut S,
    t: ThreadNo,
    request: &Request,
) -> Stepped
    requires agrees { Agrees (C.facts set.now) (O.shown objects.old) rest.old }
    requires asks { IsAskable (C.facts set.now) (O.is_here objects.old)
        (O.is_static_here objects.old) (O.shown objects.old) rest.old t request.now }
    requires may { MayBeStored (O.may_store objects.old) (C.facts set.now) (O.shown objects.old)
        rest.old t request.now }
    requires make { O.may_make objects.old }
    ensures step { IsStep (C.facts set.now) t request.now
        (O.shown objects.old) rest.old result (O.shown objects.new) rest.new }
    ensures heap { Becomes O.shown O.stores O.makes objects.old result objects.new }
    ensures given { StoresGiven O.shown O.stores objects.old request.now result objects.new }
    ensures share { SharesGo request.now (S.takes sink.old 0) result }
    ensures output { OutputGoes request.now (S.taken sink.old) result (S.taken sink.new) }
    ensures behind { BehindGoes request.now (S.takes sink.old) result (S.takes sink.new) }
    ensures cause { FaultsGo request.now (S.faults sink.old) result (S.faults sink.new) }
    ensures silent { IsSilent request.now → sink.new ≡ sink.old }
{
    match *request {
        Request::Pause => pause(),
        Request::Broken(fault) => Stepped::Over(fault),
        Request::New { class, .. } => new_object(set, objects, rest, t, class),
        Request::NewArray { shape, length, .. } => new_array(set, objects, shape, length),
        Request::NewText { length, .. } => new_text(set, objects, length),
        Request::GetStatic { field, .. } => get_static(objects, rest, t, field),
        Request::PutStatic { field, value, .. } => put_static(objects, rest, t, field, value),
        Request::GetField { holder, field, .. } => get_field(set, objects, holder, field),
        Request::PutField {
            holder,
            field,
            value,
            ..
        } => put_field(set, objects, holder, field, value),
        Request::GetElement {
            array,
            index,
            kind,
            ..
        } => get_element(set, objects, array, index, kind),
        Request::PutElement {
            array,
            index,
            kind,
            value,
            ..
        } => put_element(set, objects, array, index, kind, value),
        Request::Length { array, .. } => length(set, objects, array),
        Request::ClassOf { object, within, .. } => class_of(set, objects, object, within),
        Request::Cast { object, target, .. } => cast(set, objects, object, target),
        Request::IsA { object, target, .. } => is_a(set, objects, object, target),
        Request::Same { left, right, .. } => same(objects, left, right),
        Request::Enter { key, .. } => match key {
            Key::Object(object) => enter_object(set, objects, rest, t, object),
            Key::Class(class) => enter_class(objects, rest, t, class),
        },
        Request::Exit { key, .. } => match key {
            Key::Object(object) => exit_object(set, objects, rest, t, object),
            Key::Class(class) => exit_class(set, objects, rest, t, class),
        },
        Request::Start { thread, .. } => start(set, objects, rest, thread),
        Request::Join { thread, .. } => join(set, objects, rest, thread),
        Request::Init { class, .. } => init(rest, t, class),
        Request::InitDone { class, .. } => init_done(rest, class),
        Request::Print { piece, .. } => print(sink, piece),
        Request::Raise { class, .. } => throw_class(set, objects, class),
        Request::Begin { .. } => begin(rest, t),
        Request::End { .. } => end(set, objects, rest, t),
        Request::Leave { uncaught } => leave(rest, t, uncaught),
    }
}
