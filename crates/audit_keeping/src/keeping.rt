// What is known of persistence after some acts, and the rules of regions and stores by it.
ghost use Rattle.std.specs.Prelude.{◌≡◌, ◌≤◌, ◌&&◌, [], OnOk, filter, length, map, nat_eq, true};
ghost use Rattle.graph_model.specs.Heaps.{has_number, kept_values_of};
ghost use Rattle.run_history.specs.declared.act.Op.TheVariants.{Joined};
ghost use Rattle.run_history.specs.Knowing.{guard_of, has_guards, owes_fence, pending_of};
ghost use Rattle.plain_model.specs.Runs.{is_fenced};
ghost use Rattle.audit_rules.specs.Rules.{ends_next, is_object, may_store_by, none_pending, same_bool, stored_next};
ghost use Rattle.audit_keeping.specs.Keeping.{AreShort, IsTold, act_test_in, are_durable_in, ask_test_in, asks_volatile_in};
ghost use Rattle.audit_keeping.specs.Keeping.{close_test_in, durable_in, durable_value_in, end_test_in, guard_in, guard_test_in};
ghost use Rattle.audit_keeping.specs.Keeping.{is_marked, is_other, is_other_asked, is_other_guarded, is_other_owed, join_test_in};
ghost use Rattle.audit_keeping.specs.Keeping.{lists_after_end, lists_after_store, lists_of, mark_test, marked_with, next_lists};
ghost use Rattle.audit_keeping.specs.Keeping.{owed_in, pending_in, refer_durably_in, rule_test_in, store_test_in, volatile_in};
ghost use Rattle.audit_keeping.specs.Keeping.{wanted_in, wanted_slot_in, with_object};

use ap_base::{ListOf, Place, ThreadNo};
use graph_model::{Heap, Value};
use run_history::Op;
use std::alloc::AllocError;

/// A thread has asked this value for its store at this place, and hasn't made the store yet.
#[derive(Drop)]
pub struct Asked {
    pub thread: ThreadNo,
    pub place: Place,
    pub value: Value,
    /// By its number whether each object that was there is wanted by the thread, or was durable.
    pub marks: ListOf<bool>,
}

/// The open region of a thread has guarded this place.
#[derive(Clone, Copy)]
pub struct Guarded {
    pub thread: ThreadNo,
    pub place: Place,
}

/// A durable store of the thread at this place isn't fenced.
#[derive(Clone, Copy)]
pub struct Owed {
    pub thread: ThreadNo,
    pub place: Place,
}

/// What is known of persistence after some acts: by its number whether each static is a durable root and each object is
/// durable, and the threads' asked values, guards, closing regions and stores that aren't fenced.
#[derive(Drop)]
pub struct Keeping {
    pub roots: Vec<bool>,
    pub durable: Vec<bool>,
    pub asked: Vec<Asked>,
    pub guards: Vec<Guarded>,
    pub closing: Vec<ThreadNo>,
    pub unfenced: Vec<Owed>,
}

fn has_thread(threads: &[ThreadNo], t: ThreadNo) -> bool
    ensures { result ≡ has_number threads.now t }
{
    let mut rest = threads;
    'threads: loop {
        match rest {
            [] => return false,
            [first, behind @ ..] => {
                if first.number() == t.number() {
                    return true;
                }
                rest = behind;
            }
        }
    }
}

/// The thread whose open region has guarded the place.
fn guard_of(guards: &[Guarded], place: Place) -> Option<ThreadNo>
    ensures { result ≡ guard_of (map guard_in guards.now) place }
{
    let mut rest = guards;
    'guards: loop {
        match rest {
            [] => return None,
            [guard, behind @ ..] => {
                if guard.place == place {
                    return Some(guard.thread);
                }
                rest = behind;
            }
        }
    }
}

/// Whether the thread's region has guarded a place.
fn has_guards(guards: &[Guarded], t: ThreadNo) -> bool
    ensures { result ≡ has_guards (map guard_in guards.now) t }
{
    let mut rest = guards;
    'guards: loop {
        match rest {
            [] => return false,
            [guard, behind @ ..] => {
                if guard.thread.number() == t.number() {
                    return true;
                }
                rest = behind;
            }
        }
    }
}

/// The value that the operation stores at the place, if it does.
fn stored_next(ahead: Option<Op>, place: Place) -> Option<Value>
    ensures { result ≡ stored_next ahead place }
{
    match ahead {
        Some(
            Op::Stored {
                place: there,
                value,
            },
        ) => { if there == place { Some(value) } else { None } }
        _ => None,
    }
}

fn ends_next(ahead: Option<Op>) -> bool
    ensures { result ≡ ends_next ahead }
{
    match ahead {
        Some(Op::End) => true,
        _ => false,
    }
}

/// Whether a region may store at a durable place that this thread has guarded, if one has.
fn may_store_by(outside: bool, t: ThreadNo, guard: Option<ThreadNo>) -> bool
    ensures { result ≡ may_store_by outside t guard }
{
    match guard {
        None => outside,
        Some(thread) => thread.number() == t.number(),
    }
}

pub(crate) fn is_marked(marks: &[bool], n: u32) -> bool
    ensures { result ≡ is_marked marks.now n }
{
    if (n as usize) < marks.len() {
        marks[n as usize]
    } else {
        false
    }
}

fn is_volatile(marks: &[bool], value: Value) -> bool
    ensures { result ≡ volatile_in marks.now value }
{
    match value {
        Value::Obj(object) => !is_marked(marks, object),
        Value::Int(_) | Value::Long(_) | Value::Null => false,
    }
}

fn is_durable_value(marks: &[bool], value: Option<Value>) -> bool
    ensures { result ≡ durable_value_in marks.now value }
{
    match value {
        None => false,
        Some(value) => !is_volatile(marks, value),
    }
}

fn none_pending(asked: &[Asked], t: ThreadNo) -> bool
    ensures { result ≡ none_pending (pending_of (map pending_in asked.now) t) }
{
    let mut rest = asked;
    'asked: loop {
        match rest {
            [] => return true,
            [pending, behind @ ..] => {
                if pending.thread.number() == t.number() {
                    return false;
                }
                rest = behind;
            }
        }
    }
}

fn is_fenced(op: &Op) -> bool
    ensures { result ≡ is_fenced op.now }
{
    match *op {
        Op::Fenced => true,
        _ => false,
    }
}

fn same_bool(a: bool, b: bool) -> bool
    ensures { result ≡ same_bool a b }
{
    if a { b } else { !b }
}

fn owes_fence(unfenced: &[Owed], t: ThreadNo) -> bool
    ensures { result ≡ owes_fence (map owed_in unfenced.now) t }
{
    let mut rest = unfenced;
    'owed: loop {
        match rest {
            [] => return false,
            [owed, behind @ ..] => {
                if owed.thread.number() == t.number() {
                    return true;
                }
                rest = behind;
            }
        }
    }
}

/// Whether some thread wants the object, where that isn't durable.
fn is_wanted(asked: &[Asked], n: u32) -> bool
    ensures { result ≡ wanted_in asked.now n }
{
    let mut rest = asked;
    'asked: loop {
        match rest {
            [] => return false,
            [pending, behind @ ..] => {
                if is_marked(pending.marks.as_slice(), n) {
                    return true;
                }
                rest = behind;
            }
        }
    }
}

fn is_object(n: u32, value: Option<Value>) -> bool
    ensures { result ≡ is_object n value }
{
    match value {
        Some(Value::Obj(object)) => object == n,
        _ => false,
    }
}

fn asks_volatile(marks: &[bool], value: Value, next: Option<Value>) -> bool
    ensures { result ≡ asks_volatile_in marks.now value next }
{
    match value {
        Value::Obj(n) => !is_marked(marks, n) && is_object(n, next),
        Value::Int(_) | Value::Long(_) | Value::Null => false,
    }
}

fn is_wanted_slot(asked: &[Asked], place: Place) -> bool
    ensures { result ≡ wanted_slot_in asked.now place }
{
    match place {
        Place::Static(_) => false,
        Place::Slot { object, .. } => is_wanted(asked, object),
    }
}

fn keep_asked(asked: &mut Vec<Asked>, t: ThreadNo)
    ensures { asked.new.items ≡ filter (is_other_asked t) asked.old.items }
{
    asked.retain(|one| one.thread.number() != t.number());
}

fn keep_guards(guards: &mut Vec<Guarded>, t: ThreadNo)
    ensures { guards.new.items ≡ filter (is_other_guarded t) guards.old.items }
{
    guards.retain(|one| one.thread.number() != t.number());
}

fn keep_closing(closing: &mut Vec<ThreadNo>, t: ThreadNo)
    ensures { closing.new.items ≡ filter (is_other t) closing.old.items }
{
    closing.retain(|one| one.number() != t.number());
}

fn keep_owed(unfenced: &mut Vec<Owed>, t: ThreadNo)
    ensures { unfenced.new.items ≡ filter (is_other_owed t) unfenced.old.items }
{
    unfenced.retain(|one| one.thread.number() != t.number());
}

/// Marks these objects one by one. Answers false at the first that is marked already or isn't wanted.
fn mark_each(marks: &mut [bool], asked: &[Asked], named: &[u32]) -> bool
    requires short { AreShort (length marks.old) asked.now }
    ensures test { result ≡ mark_test marks.old asked.now named.now }
    ensures marked { result ≡ true → marks.new ≡ marked_with marks.old named.now }
    ensures long { length marks.new ≡ length marks.old }
{
    let mut rest = named;
    'named: loop {
        match rest {
            [] => return true,
            [n, behind @ ..] => {
                if is_marked(marks, *n) {
                    return false;
                }
                if !is_wanted(asked, *n) {
                    return false;
                }
                marks[*n as usize] = true;
                rest = behind;
            }
        }
    }
}

/// Whether none of the values is a volatile object.
fn are_durable(marks: &[bool], values: &[Value]) -> bool
    ensures { result ≡ are_durable_in marks.now values.now }
{
    let mut rest = values;
    'values: loop {
        match rest {
            [] => return true,
            [value, behind @ ..] => {
                if is_volatile(marks, *value) {
                    return false;
                }
                rest = behind;
            }
        }
    }
}

/// Whether an object refers to no volatile object.
fn refers_durably(heap: &Heap, marks: &[bool], n: u32) -> bool
    ensures { result ≡ are_durable_in marks.now (kept_values_of heap.now n) }
{
    if (n as usize) < heap.objects.len() {
        are_durable(marks, heap.values(n))
    } else {
        true
    }
}

fn refer_durably(heap: &Heap, marks: &[bool], named: &[u32]) -> bool
    ensures { result ≡ refer_durably_in heap.now marks.now named.now }
{
    let mut rest = named;
    'named: loop {
        match rest {
            [] => return true,
            [n, behind @ ..] => {
                if !refers_durably(heap, marks, *n) {
                    return false;
                }
                rest = behind;
            }
        }
    }
}

impl Keeping {
    /// Makes these objects durable, if they may become so. Where they may not, marks are set in part.
    pub fn join(&mut self, heap: &Heap, named: &[u32]) -> bool
        requires short { AreShort (length self.old.durable.items) self.old.asked.items }
        ensures test { result ≡ join_test_in heap.now self.old named.now }
        ensures joined { result ≡ true → lists_of self.new ≡ next_lists (lists_of self.old) 0 0 named.now Joined }
    {
        if named.is_empty() {
            return false;
        }
        if !mark_each(&mut self.durable, &self.asked, named) {
            return false;
        }
        refer_durably(heap, &self.durable, named)
    }

    /// Whether a durable store of the thread isn't fenced: its next act is to be Fenced.
    pub fn owes_fence(&self, t: ThreadNo) -> bool
        ensures { result ≡ owes_fence (map owed_in self.now.unfenced.items) t }
    {
        owes_fence(&self.unfenced, t)
    }

    /// Whether the thread's region is closing.
    pub fn is_closing(&self, t: ThreadNo) -> bool
        ensures { result ≡ has_number self.now.closing.items t }
    {
        has_thread(&self.closing, t)
    }

    /// Whether the thread may ask this value for its store at the place.
    pub fn may_ask(&self, ahead: Option<Op>, t: ThreadNo, place: Place, value: Value) -> bool
        ensures { result ≡ ask_test_in self.now ahead t place value }
    {
        none_pending(&self.asked, t)
            && (asks_volatile(&self.durable, value, stored_next(ahead, place))
                && (self.is_durable(place) || is_wanted_slot(&self.asked, place)))
    }

    /// Whether a place is durable.
    pub fn is_durable(&self, place: Place) -> bool
        ensures { result ≡ durable_in self.now.roots.items self.now.durable.items place }
    {
        match place {
            Place::Static(n) => is_marked(&self.roots, n),
            Place::Slot { object, .. } => is_marked(&self.durable, object),
        }
    }

    /// Whether the thread, whose region is so deep, may guard the place, where its request does this.
    pub fn may_guard(&self, ahead: Option<Op>, t: ThreadNo, depth: u64, place: Place) -> bool
        ensures { result ≡ guard_test_in self.now ahead t depth place }
    {
        is_durable_value(&self.durable, stored_next(ahead, place))
            && (depth != 0
                && (!has_thread(&self.closing, t)
                    && (self.is_durable(place) && guard_of(&self.guards, place).is_none())))
    }

    /// Whether the thread's region may begin to close.
    pub fn may_close(&self, ahead: Option<Op>, t: ThreadNo, depth: u64) -> bool
        ensures { result ≡ close_test_in self.now ahead t depth }
    {
        ends_next(ahead)
            && (depth == 1 && (has_guards(&self.guards, t) && !has_thread(&self.closing, t)))
    }

    /// Whether the thread may make its store at the place.
    pub fn may_store(&self, t: ThreadNo, depth: u64, place: Place) -> bool
        ensures { result ≡ store_test_in self.now t depth place }
    {
        !self.is_durable(place) || may_store_by(depth == 0, t, guard_of(&self.guards, place))
    }

    /// Whether the thread may leave a level of its region.
    pub fn may_end(&self, t: ThreadNo, depth: u64) -> bool
        ensures { result ≡ end_test_in self.now t depth }
    {
        !(depth == 1 && has_guards(&self.guards, t)) || has_thread(&self.closing, t)
    }

    /// Whether the act of a thread whose region is so deep may come next, where it isn't Joined. `about` says of a visible
    /// operation whether it is the step of the thread's request, and `ahead` what that step does.
    pub fn may_come(&self, ahead: Option<Op>, about: bool, t: ThreadNo, depth: u64, op: Op) -> bool
        ensures { result ≡ act_test_in self.now ahead about t depth op }
    {
        same_bool(is_fenced(&op), owes_fence(&self.unfenced, t))
            && self.keeps_rule(ahead, about, t, depth, op)
    }

    fn keeps_rule(&self, ahead: Option<Op>, about: bool, t: ThreadNo, depth: u64, op: Op) -> bool
        ensures { result ≡ rule_test_in self.now ahead about t depth op }
    {
        match op {
            Op::Asked { place, value } => self.may_ask(ahead, t, place, value),
            Op::Guarded { place } => self.may_guard(ahead, t, depth, place),
            Op::Closing => self.may_close(ahead, t, depth),
            Op::Fenced => true,
            Op::Stored { place, value } => {
                about
                    && (self.may_store(t, depth, place)
                        && !(self.is_durable(place) && is_volatile(&self.durable, value)))
            }
            Op::End => about && self.may_end(t, depth),
            Op::Joined => false,
            _ => about,
        }
    }

    fn forget_asked(&mut self, t: ThreadNo)
        ensures { lists_of self.new ≡ (record (lists_of self.old) { asked = filter (is_other_asked t) self.old.asked.items }) }
    {
        keep_asked(&mut self.asked, t);
    }

    fn forget_region(&mut self, t: ThreadNo)
        ensures { lists_of self.new ≡ lists_after_end (lists_of self.old) t true }
    {
        keep_guards(&mut self.guards, t);
        keep_closing(&mut self.closing, t);
    }

    fn forget_owed(&mut self, t: ThreadNo)
        ensures { lists_of self.new ≡ (record (lists_of self.old) { unfenced = filter (is_other_owed t) self.old.unfenced.items }) }
    {
        keep_owed(&mut self.unfenced, t);
    }

    fn store(&mut self, t: ThreadNo, depth: u64, place: Place) -> Result<(), AllocError>
        ensures { OnOk result (lists_of self.new ≡ lists_after_store (lists_of self.old) t place
            (durable_in self.old.roots.items self.old.durable.items place && nat_eq depth 0)) }
    {
        let is_single = self.is_durable(place) && depth == 0;
        self.forget_asked(t);
        if is_single {
            self.unfenced.push(Owed { thread: t, place })?;
        }
        Ok(())
    }

    fn make(&mut self) -> Result<(), AllocError>
        ensures { OnOk result (lists_of self.new ≡ with_object (lists_of self.old)) }
    {
        self.durable.push(false)?;
        Ok(())
    }

    /// Is told an operation of a thread whose region was so deep. A Joined act's objects were marked already, an Asked act
    /// is told by `ask`, and what a stored reference adds to wanted sets by `spread`.
    pub fn tell(&mut self, t: ThreadNo, depth: u64, op: Op) -> Result<(), AllocError>
        requires other { IsTold op }
        ensures { OnOk result (lists_of self.new ≡ next_lists (lists_of self.old) t depth [] op) }
    {
        match op {
            Op::Guarded { place } => self.guards.push(Guarded { thread: t, place })?,
            Op::Closing => self.closing.push(t)?,
            Op::Fenced => self.forget_owed(t),
            Op::Stored { place, .. } => self.store(t, depth, place)?,
            Op::End => {
                if depth == 1 {
                    self.forget_region(t);
                }
            }
            Op::Alloc { .. } => self.make()?,
            Op::Throw { .. } => self.make()?,
            _ => (),
        }
        Ok(())
    }
}
