//! Steps of requests.

ghost use Rattle.std.specs.Prelude.{◌≡◌, All, IfSome};
ghost use Rattle.shared_objects.specs.Plain.{KnowsReply};
ghost use Rattle.shared_objects.specs.Shown.{IsKnown, Numbers};
ghost use Rattle.space_rows.specs.Worlds.{Holds, KnowsStepped, MayBeAsked, entries_of, spaces_of};

use crate::world::World;
use ap_base::{Item, Ref, ThreadNo};
use natives::{Reply, Request};
use run_history::Op;
use shared_objects::Types;
use shared_steps::take_step;
use std::alloc::AllocError;
use step_forms::Stepped;

// The reference that a reply gives, if it gives one.
fn given(reply: &Reply) -> Option<Ref>
    ensures { (number : Numbers) → KnowsReply number reply.now → IfSome result (IsKnown number) }
{
    match reply {
        Reply::Item(Item::Ref(r)) => Some(*r),
        Reply::Made(r) => Some(*r),
        Reply::Thrown { object, class: _ } => Some(*object),
        _ => None,
    }
}

// Keeps the reference that a step gives.
fn keep(refs: &mut Vec<Ref>, stepped: &Stepped) -> Result<(), AllocError>
    ensures { (number : Numbers) → KnowsStepped number stepped.now
        → All (IsKnown number) refs.old.items → All (IsKnown number) refs.new.items }
{
    if let Stepped::Did { op: _, reply } = stepped {
        if let Some(r) = given(reply) {
            refs.push(r)?;
        }
    }
    Ok(())
}

// 1 where a monitor was entered.
fn entries(stepped: &Stepped) -> u32
    ensures { result ≡ entries_of stepped.now }
{
    match stepped {
        Stepped::Did {
            op: Op::Enter { key: _ },
            reply: _,
        } => 1,
        _ => 0,
    }
}

/// How many steps rows make at most.
const MOST: u32 = 1_000_000;

impl World {
    /// What a request of a thread comes to. `None` where the thread wasn't started.
    pub fn step<C: Types>(
        &mut self,
        types: &C,
        t: ThreadNo,
        request: &Request,
    ) -> Result<Option<Stepped>, AllocError>
        requires holds { Holds (C.facts types.now) self.old.spaces self.old.rest
            self.old.refs.items self.old.next self.old.acts self.old.entered }
        requires may { MayBeAsked (C.facts types.now) (spaces_of self.old.spaces) self.old.rest t
            request.now }
        ensures holds { Holds (C.facts types.now) self.new.spaces self.new.rest
            self.new.refs.items self.new.next self.new.acts self.new.entered }
    {
        if self.rest.threads.count() <= t.number() as usize {
            return Ok(None);
        }
        if self.acts >= MOST || self.entered >= MOST {
            return Ok(None);
        }
        let stepped = take_step(
            types,
            &mut self.spaces,
            &mut self.rest,
            &mut self.sink,
            t,
            request,
        );
        self.acts += 1;
        self.entered += entries(&stepped);
        keep(&mut self.refs, &stepped)?;
        Ok(Some(stepped))
    }
}
