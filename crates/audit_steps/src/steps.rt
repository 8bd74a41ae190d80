// A step of an audit.
ghost use Rattle.std.specs.Prelude.{◌≡◌, ◌<◌, ◌↔◌, ◌∷◌, ◌++◌, [], suc, IfOk, IfSome, IsTrue, List, None, Ok, length, take, true};
ghost use Rattle.run_history.specs.Recorded.{NamesRightly, Recorded};
ghost use Rattle.run_forms.specs.Standing.{IsRun, Launch};
ghost use Rattle.plain_machine.specs.Standing.{recorded};
ghost use Rattle.shared_objects.specs.Threads.{depth_at};
ghost use Rattle.audit_steps.specs.Audits.{IsAt, StopsAt};

use ap_base::{Item, Ref, ThreadNo};
use audit_acts::Kept;
use frame_thread::Host;
use natives::{Native, NativeState};
use plain_machine::Plain;
use run_history::{Act, Acts};
use shared_objects::{Threads, Types};
use std::alloc::{AllocError, Global};

/// An audit in the midst of a history: the plain run of the acts so far, and what is kept beside it.
#[derive(Drop)]
pub struct Audit {
    pub plain: Plain,
    pub kept: Kept,
}

/// How deep the region of a thread is; 0 where it wasn't started.
fn depth_of(threads: &Threads, t: ThreadNo) -> u64
    ensures { result ≡ depth_at threads.now t }
{
    match threads.get(t) {
        Some(state) => state.depth,
        None => 0,
    }
}

impl Audit {
    /// Goes on by an act, with the objects that it names: answers true exactly where the acts so far with this one are a plain
    /// run. Then the audit has followed it.
    ///
    /// # Errors
    ///
    /// Want of memory; of numbers, where there are 2^32 - 1 objects; and where the act's thread enters a monitor that nobody
    /// holds, and 4,096 are held.
    pub fn step<C: Types, H: Host<Native, Ref, NativeState, Item>>(
        &mut self,
        alloc: Global,
        set: &C,
        host: &H,
        act: &Act,
        named: &[u32],
    ) -> Result<bool, AllocError>
        requires at { (launch : Launch) × (acts : List Recorded) × IsAt launch acts (C.facts set.now) (H.setting host.now) self.old }
        requires named { NamesRightly act.now.op named.now }
        ensures exact { (launch : Launch) (acts : List Recorded) → IsAt launch acts (C.facts set.now) (H.setting host.now) self.old
            → IfOk result (λ yes. IsTrue yes ↔ IsRun launch (acts ++ recorded act.now named.now ∷ [])) }
        ensures goes { (launch : Launch) (acts : List Recorded) → IsAt launch acts (C.facts set.now) (H.setting host.now) self.old
            → result ≡ Ok true
            → IsAt launch (acts ++ recorded act.now named.now ∷ []) (C.facts set.now) (H.setting host.now) self.new }
    {
        plain_frames::programs_with_built_in_methods_ask_what_is_fit();
        let depth = depth_of(&self.plain.world.rest.threads, act.thread);
        let next = self.plain.ahead(set, host, act.thread);
        let about = self.plain.follow(alloc, set, host, act)?;
        self.kept.judge(alloc, next, about, depth, act, named)
    }

    /// Goes on by act `i`.
    fn step_at<C: Types, H: Host<Native, Ref, NativeState, Item>>(
        &mut self,
        alloc: Global,
        set: &C,
        host: &H,
        acts: &Acts,
        i: u32,
    ) -> Result<bool, AllocError>
        requires there { i < length acts.now.acts }
        requires at { (launch : Launch) × IsAt launch (take i acts.now.acts) (C.facts set.now) (H.setting host.now) self.old }
        ensures exact { (launch : Launch) → IsAt launch (take i acts.now.acts) (C.facts set.now) (H.setting host.now) self.old
            → IfOk result (λ yes. IsTrue yes ↔ IsRun launch (take (suc i) acts.now.acts)) }
        ensures goes { (launch : Launch) → IsAt launch (take i acts.now.acts) (C.facts set.now) (H.setting host.now) self.old
            → result ≡ Ok true
            → IsAt launch (take (suc i) acts.now.acts) (C.facts set.now) (H.setting host.now) self.new }
    {
        match acts.get(i) {
            Some(act) => self.step(alloc, set, host, act, acts.named(i)),
            None => Ok(false),
        }
    }

    /// Follows the acts of a history from its first one on, as long as they are a plain run. Answers the number of the act with
    /// which they aren't, if there is one.
    ///
    /// # Errors
    ///
    /// As `step`.
    pub fn follow<C: Types, H: Host<Native, Ref, NativeState, Item>>(
        &mut self,
        alloc: Global,
        set: &C,
        host: &H,
        acts: &Acts,
    ) -> Result<Option<u32>, AllocError>
        requires at { (launch : Launch) × IsAt launch [] (C.facts set.now) (H.setting host.now) self.old }
        ensures stops { (launch : Launch) → IsAt launch [] (C.facts set.now) (H.setting host.now) self.old
            → IfOk result (λ stop. IfSome stop (StopsAt launch acts.now.acts)) }
        ensures whole { (launch : Launch) → IsAt launch [] (C.facts set.now) (H.setting host.now) self.old
            → result ≡ Ok None → IsAt launch acts.now.acts (C.facts set.now) (H.setting host.now) self.new }
    {
        let mut i = 0;
        'acts: while i < acts.len() {
            if !self.step_at(alloc, set, host, acts, i)? {
                return Ok(Some(i));
            }
            i += 1;
        }
        Ok(None)
    }
}
