//! The frames of a thread in memory of a fixed size: all that reads or writes how they lie there.

ghost use Rattle.std.specs.Prelude.{◌≡◌, ◌<◌, ◌≤◌, ◌+◌, ◌-◌, [], ◌∷◌, ◌++◌, drop, take, length, reverse, replicate, Some, None};
ghost use Rattle.std.specs.Prelude.{IsSome, IfSome, IfOk, vec_capacity};
ghost use Rattle.frame_cells.specs.Own.{IsAsLarge, put};
ghost use Rattle.frame_cells.specs.Window.{filled, window_after};
ghost use Rattle.frames.specs.Settings.{Running, Runs};
ghost use Rattle.frames.specs.Calls.{cells_of};
ghost use Rattle.frames.specs.Turns.{turn_of};
ghost use Rattle.frame_thread.specs.Views.{doing_of};
ghost use Rattle.frame_thread.specs.Stops.{comes_to, IsAtOther};
ghost use Rattle.frame_thread.specs.Stacked.{frames_with, list_of, frames_of, room_left, slots_at, moved, restated, holding};
ghost use Rattle.frame_thread.specs.Stacked.{called_own, received, without, IsBelowEnd, IsOther, MayDo};

use crate::form::{Activity, Form, Standing};
use crate::forms::Forms;
use crate::host::Host;
use crate::private::{Stop, run};
use frame_cells::{Cell, Cells, Did, Places};
use frames::Given;
use run_types::Key;
use std::alloc::{AllocError, Global};
use std::marker::Model;

/// How many cells the frames of a thread have room for.
const CELLS: usize = 65_536;

/// The frames of a thread. Nothing takes memory once it is made.
#[derive(Drop)]
pub struct Thread<R: Copy + Drop, N: Copy + Drop> {
    doing: Activity<R>,
    forms: Forms<R, N>,
    left: usize,
    cells: Cells<R>,
}

impl<R: Copy + Drop, N: Copy + Drop> Model for Thread<R, N> {
    ghost use Rattle.frame_thread.specs.Stacked.{Stacked, callers_of, IsLaid, MayDo};
    ghost use Rattle.frame_thread.specs.Views.{doing_of};

    ghost Value = { Stacked R N };

    ghost view = { λ t. record {
      doing = doing_of t.doing;
      form = t.forms.form;
      own = t.cells.own;
      below = callers_of t.forms.saved t.cells.under;
    } };

    ghost invariant = { λ t. (IsLaid t.forms.form t.left t.cells t.forms.saved) × (MayDo t.doing t.forms.form) };
}

impl<R: Copy + Drop, N: Copy + Drop> Thread<R, N> {
    /// No frames. It takes all the memory that the thread will need.
    pub fn new(alloc: Global) -> Result<Thread<R, N>, AllocError>
        ensures { IfOk result (λ r. (list_of r ≡ []) × (r.doing ≡ Runs)) }
    {
        Ok(Thread {
            doing: Activity::Runs,
            forms: Forms::new(alloc)?,
            left: CELLS,
            cells: Cells::new(alloc)?,
        })
    }

    /// What the thread does next.
    #[inline(always)]
    pub fn doing(&self) -> Activity<R>
        ensures doing { doing_of result ≡ self.now.doing }
        ensures may { MayDo result self.now.form }
    {
        self.doing
    }

    #[inline(always)]
    pub fn set_doing(&mut self, doing: Activity<R>)
        requires { MayDo doing self.old.form }
        ensures { self.new ≡ record self.old { doing = doing_of doing } }
    {
        self.doing = doing;
    }

    /// What the last frame is, if there is one.
    #[inline(always)]
    pub fn form(&self) -> Option<Form<R, N>>
        ensures { result ≡ self.now.form }
    {
        self.forms.last()
    }

    /// The cells of the last frame.
    #[inline(always)]
    pub fn cells(&self) -> &Cells<R>
        ensures { result.now.own ≡ self.now.own }
    {
        &self.cells
    }

    /// How many slots are left for more frames.
    #[inline(always)]
    pub fn left(&self) -> usize
        ensures left { result ≡ room_left (list_of self.now) }
        ensures few { result ≤ 65536 }
    {
        self.left
    }

    /// The method that runs goes on at this instruction.
    #[inline(always)]
    pub fn move_to(&mut self, to: usize)
        requires { self.old.doing ≡ Runs }
        ensures { self.new ≡ record self.old { form = moved to self.old.form } }
    {
        self.forms.move_to(to);
    }

    /// The method that runs holds this monitor.
    pub fn hold(&mut self, monitor: Option<Key<R>>)
        ensures { self.new ≡ record self.old { form = holding monitor self.old.form } }
    {
        if let Some(standing) = self.forms.standing() {
            self.forms.stand(Standing {
                held: monitor,
                ..standing
            });
        }
    }

    /// The native method that runs waits for this.
    pub fn restate(&mut self, state: N)
        ensures { self.new ≡ record self.old { form = restated state self.old.form } }
    {
        if let Some(Form::Native { from, state: _ }) = self.forms.last() {
            self.forms.put(Form::Native { from, state });
        }
    }

    /// These cells come in place of the last frame's top ones, and then it goes on so.
    #[inline(always)]
    pub fn put(&mut self, taken: usize, given: Given<R>, did: Did) -> Did
        ensures did { result ≡ (put taken (cells_of given) did self.old.own).did }
        ensures own { self.new
            ≡ record self.old { own = (put taken (cells_of given) did self.old.own).own } }
        ensures size { IsAsLarge self.old.own self.new.own }
    {
        put_given(&mut self.cells, taken, given, did)
    }

    /// Private instructions on cells alone, at most so many, by the method that runs.
    #[inline(always)]
    pub fn run<M: Copy + Drop, V: Drop, H: Host<M, R, N, V>>(
        &mut self,
        host: &H,
        standing: Standing<R>,
        fuel: u32,
    ) -> Stop
        requires form { self.old.form ≡ Some (Form.Running standing) }
        requires doing { self.old.doing ≡ Runs }
        ensures turns { turn_of (H.setting host.now) fuel (frames_of self.old)
            ≡ comes_to (H.setting host.now) result standing.method standing.held self.old.below self.new.own }
        ensures stands { self.new ≡ record self.old {
          form = Some (Form.Running (record standing { at = result.at }));
          own = self.new.own;
        } }
        ensures size { IsAsLarge self.old.own self.new.own }
        ensures other { IsAtOther (H.setting host.now).program result }
        ensures fuel { result.fuel ≤ fuel }
    {
        let mut left = fuel;
        let (at, why) = run(host, &mut self.cells, standing.at, &mut left);
        self.forms.move_to(at);
        Stop {
            at,
            fuel: left,
            why,
        }
    }

    /// The first local variable of the method that runs is this reference.
    pub fn receive(&mut self, r: R)
        requires { 0 < length self.old.own.locals }
        ensures { self.new ≡ record self.old { own = received (Some r) self.old.own } }
    {
        self.cells.keep(0, 0, Cell::Reference(r));
    }

    /// A method is called, whose first locals are the top cells of the last frame.
    #[inline(always)]
    pub fn call(&mut self, method: u32, entry: usize, taken: usize, locals: usize, room: usize)
        requires caller { IsSome self.old.form }
        requires waits { IfSome self.old.form IsBelowEnd }
        requires taken { taken ≤ length self.old.own.stack }
        requires locals { taken ≤ locals }
        requires entry { entry < 18446744073709551615 }
        requires slots { 4 + locals + room ≤ room_left (list_of self.old) }
        ensures { self.new ≡ record self.old {
          form = Some (Form.Running (record { method = method; at = entry; held = None }));
          own = called_own taken locals room self.old.own;
          below = frames_with self.old.form (without taken self.old.own) self.old.below;
        } }
    {
        let places = self.cells.places();
        let _depth = self.cells.depth();
        let standing = Standing {
            method,
            at: entry,
            held: None,
        };
        self.forms.call(standing, places, self.left);
        self.cells.enter(taken, locals, room);
        self.left -= 4 + locals + room;
    }

    /// A method is the only frame. It has no arguments yet.
    pub fn begin(&mut self, method: u32, entry: usize, locals: usize, room: usize)
        requires entry { entry < 18446744073709551615 }
        requires slots { 4 + locals + room ≤ 65536 }
        ensures { self.new ≡ record self.old {
          form = Some (Form.Running (record { method = method; at = entry; held = None }));
          own = record { locals = replicate locals Cell.Empty; stack = []; room = room };
          below = [];
        } }
    {
        clear(&mut self.cells);
        self.cells.enter(0, locals, room);
        self.left = CELLS - (4 + locals + room);
        self.forms.begin(Standing {
            method,
            at: entry,
            held: None,
        });
    }

    /// A frame without cells is the only one.
    pub fn begin_other(&mut self, form: Form<R, N>)
        requires { IsOther form × IsBelowEnd form }
        ensures doing { self.new.doing ≡ self.old.doing }
        ensures form { self.new.form ≡ Some form }
        ensures below { self.new.below ≡ [] }
    {
        clear(&mut self.cells);
        self.cells.enter(0, 0, 0);
        self.left = CELLS - slots_of(&form);
        self.forms.begin_other(form);
    }

    /// A frame without cells comes above the others.
    pub fn push(&mut self, form: Form<R, N>)
        requires below { IsSome self.old.form }
        requires waits { IfSome self.old.form IsBelowEnd }
        requires form { IsOther form × IsBelowEnd form }
        requires slots { 16 ≤ room_left (list_of self.old) }
        requires few { slots_at form 0 0 ≡ 16 }
        ensures doing { self.new.doing ≡ self.old.doing }
        ensures form { self.new.form ≡ Some form }
        ensures below { self.new.below ≡ list_of self.old }
    {
        let places = self.cells.places();
        let _depth = self.cells.depth();
        self.forms.push(form, places, self.left);
        self.cells.enter(0, 0, 0);
        self.left -= 16;
    }

    /// The last frame goes.
    pub fn pop(&mut self)
        ensures doing { self.new.doing ≡ self.old.doing }
        ensures frames { list_of self.new ≡ self.old.below }
        ensures waits { IfSome self.new.form IsBelowEnd }
    {
        let Some(kept) = self.forms.pop() else {
            clear(&mut self.cells);
            self.left = CELLS;
            return;
        };
        self.cells.leave(kept.places);
        self.left = kept.left;
    }

    /// All frames go.
    pub fn clear(&mut self)
        ensures doing { self.new.doing ≡ self.old.doing }
        ensures frames { list_of self.new ≡ [] }
    {
        clear(&mut self.cells);
        self.forms.clear();
        self.left = CELLS;
    }
}

fn slots_of<R, N>(form: &Form<R, N>) -> usize
    ensures slots { result ≡ slots_at form.now 0 0 }
    ensures few { result ≤ 16 }
{
    match form {
        Form::Running(_) => 4,
        Form::Native { .. } => 16,
        Form::Initialiser { .. } => 16,
        Form::Main { .. } => 0,
    }
}

// No cells.
fn clear<R: Copy + Drop>(cells: &mut Cells<R>)
    requires { length cells.old.under ≤ 65536 }
    ensures { filled cells.new ≡ 0 }
{
    let under = cells.places().locals;
    cells.leave(Places {
        locals: 0,
        base: 0,
        room: under,
    });
    let depth = cells.depth();
    cells.take_off(depth, Did::Next);
}

#[inline(always)]
fn put_given<R: Copy + Drop>(cells: &mut Cells<R>, taken: usize, given: Given<R>, did: Did) -> Did
    ensures did { result ≡ (put taken (cells_of given) did cells.old.own).did }
    ensures own { cells.new ≡ window_after cells.old (put taken (cells_of given) did cells.old.own) }
    ensures size { IsAsLarge cells.old.own cells.new.own }
{
    let done = match given {
        Given::Nothing => return cells.take_off(taken, did),
        Given::Int(value) => cells.put(taken, Cell::Int(value)),
        Given::Long(value) => cells.put_long(taken, value),
        Given::Reference(r) => cells.put(taken, Cell::Reference(r)),
    };
    match done {
        Did::Next => did,
        _ => Did::Bad,
    }
}
