//! What the frames of a thread are, in memory of a fixed size.

ghost use Rattle.std.specs.Prelude.{◌≡◌, [], ◌∷◌, ◌<◌, length, reverse, Some, None, IfOk, MatchOption, IsSome, vec_capacity};
ghost use Rattle.frame_thread.specs.Stacked.{IsOther, moved};
ghost use Rattle.frame_thread.specs.Forms.{form_of, standing_in, others_below, all_apart, ComesBack};

use crate::form::{Form, Standing};
use frame_cells::Places;
use run_types::At;
use std::alloc::{AllocError, Global};
use std::marker::Model;

/// How many frames a thread has room for: each but the first takes at least four slots.
const FRAMES: usize = 16_385;

/// How many of them can be no method's: each but the first takes 16 slots.
const OTHERS: usize = 4_097;

/// What a frame is that is no method's.
#[derive(Clone, Copy)]
pub enum Other<R, N> {
    /// A native method: where its requests come from, and what it waits for.
    Native { from: At, state: N },
    /// The initialisation of a class, for an instruction.
    Initialiser { class: u32, from: At },
    /// `main` and its argument, until its class is initialised.
    Main { method: u32, arguments: R },
}

/// A frame below the last one: where its method stands, where its cells are, and how many slots were left
/// above it. What is no method's stands nowhere.
#[derive(Clone, Copy)]
pub struct Kept<R> {
    pub standing: Standing<R>,
    pub is_method: bool,
    pub places: Places,
    pub left: usize,
}

/// What the frames of a thread are, the last one apart from those below it. Nothing takes memory once it is made.
#[derive(Drop)]
pub struct Forms<R: Copy + Drop, N: Copy + Drop> {
    standing: Standing<R>,
    is_method: bool,
    kept: Vec<Kept<R>>,
    /// The forms of all frames that are no methods'.
    others: Vec<Other<R, N>>,
}

impl<R: Copy + Drop, N: Copy + Drop> Model for Forms<R, N> {
    ghost use Rattle.std.specs.Prelude.{◌≡◌, ◌≤◌, length, reverse, vec_capacity};
    ghost use Rattle.frame_thread.specs.Forms.{Piled, last_form, others_below, saved_of, kept_apart};

    ghost Value = { Piled R N };

    ghost view = { λ f. record {
      form = last_form f.is_method f.standing (reverse f.others.items);
      saved = saved_of (reverse f.kept.items) (others_below f.is_method (reverse f.others.items));
    } };

    ghost invariant = { λ f. (length (others_below f.is_method (reverse f.others.items)) ≡ kept_apart (reverse f.kept.items))
        × (16385 ≤ vec_capacity f.kept)
        × (4097 ≤ vec_capacity f.others) };
}

impl<R, N> Other<R, N> {
    fn form(self) -> Form<R, N>
        ensures { result ≡ form_of self }
    {
        match self {
            Other::Native { from, state } => Form::Native { from, state },
            Other::Initialiser { class, from } => Form::Initialiser { class, from },
            Other::Main { method, arguments } => Form::Main { method, arguments },
        }
    }
}

fn other_of<R, N>(form: Form<R, N>) -> Other<R, N>
    requires { IsOther form }
    ensures { form_of result ≡ form }
{
    match form {
        Form::Running(_) => unreachable!(),
        Form::Native { from, state } => Other::Native { from, state },
        Form::Initialiser { class, from } => Other::Initialiser { class, from },
        Form::Main { method, arguments } => Other::Main { method, arguments },
    }
}

fn nowhere<R>() -> Standing<R> {
    Standing {
        method: 0,
        at: 0,
        held: None,
    }
}

impl<R: Copy + Drop, N: Copy + Drop> Forms<R, N> {
    /// No frames. It takes all the memory that their forms will need, and writes none of it.
    pub fn new(alloc: Global) -> Result<Forms<R, N>, AllocError>
        ensures { IfOk result (λ r. r ≡ record { form = None; saved = [] }) }
    {
        Ok(Forms {
            standing: nowhere(),
            is_method: false,
            kept: Vec::with_capacity(alloc, FRAMES)?,
            others: Vec::with_capacity(alloc, OTHERS)?,
        })
    }

    /// What the last frame is, if there is one.
    #[inline(always)]
    pub fn last(&self) -> Option<Form<R, N>>
        ensures { result ≡ self.now.form }
    {
        if self.is_method {
            return Some(Form::Running(self.standing));
        }
        let count = self.others.len();
        if count == 0 {
            return None;
        }
        Some(self.others[count - 1].form())
    }

    /// Where the last frame's method stands, if it is a method's.
    #[inline(always)]
    pub fn standing(&self) -> Option<Standing<R>>
        ensures { result ≡ standing_in self.now.form }
    {
        if self.is_method {
            Some(self.standing)
        } else {
            None
        }
    }

    /// The last frame's method stands here now.
    #[inline(always)]
    pub fn stand(&mut self, standing: Standing<R>)
        requires { IsSome (standing_in self.old.form) }
        ensures { self.new ≡ record self.old { form = Some (Form.Running standing) } }
    {
        self.standing = standing;
    }

    /// The last frame's method, if it is one's, goes on at this instruction.
    #[inline(always)]
    pub fn move_to(&mut self, to: usize)
        ensures { self.new ≡ record self.old { form = moved to self.old.form } }
    {
        // where the last frame is no method's, nobody reads this
        self.standing.at = to;
    }

    /// The last frame, which is no method's, is this now.
    pub fn put(&mut self, form: Form<R, N>)
        requires last { (IsSome self.old.form) × (standing_in self.old.form ≡ None) }
        requires form { IsOther form }
        ensures { self.new ≡ record self.old { form = Some form } }
    {
        drop_last(&mut self.others, false);
        self.others.push_reserved(other_of(form));
    }

    /// A method's frame is the only one.
    pub fn begin(&mut self, standing: Standing<R>)
        ensures { self.new ≡ record { form = Some (Form.Running standing); saved = [] } }
    {
        self.clear();
        self.standing = standing;
        self.is_method = true;
    }

    /// A frame that is no method's is the only one.
    pub fn begin_other(&mut self, form: Form<R, N>)
        requires { IsOther form }
        ensures { self.new ≡ record { form = Some form; saved = [] } }
    {
        self.clear();
        self.others.push_reserved(other_of(form));
    }

    /// A method's frame comes above the last one, which has its cells there.
    #[inline(always)]
    pub fn call(&mut self, standing: Standing<R>, places: Places, left: usize)
        requires form { IsSome self.old.form }
        requires few { length self.old.saved < 16385 }
        ensures { (form : Form R N) → self.old.form ≡ Some form → self.new ≡ record {
          form = Some (Form.Running standing);
          saved = record { form = form; places = places; left = left } ∷ self.old.saved;
        } }
    {
        self.kept.push_reserved(Kept {
            standing: self.standing,
            is_method: self.is_method,
            places,
            left,
        });
        self.standing = standing;
        self.is_method = true;
    }

    /// A frame that is no method's comes above the last one, which has its cells there.
    pub fn push(&mut self, form: Form<R, N>, places: Places, left: usize)
        requires below { IsSome self.old.form }
        requires form { IsOther form }
        requires few { length self.old.saved < 16385 }
        requires apart { all_apart self.old < 4097 }
        ensures { (last : Form R N) → self.old.form ≡ Some last → self.new ≡ record {
          form = Some form;
          saved = record { form = last; places = places; left = left } ∷ self.old.saved;
        } }
    {
        self.kept.push_reserved(Kept {
            standing: self.standing,
            is_method: self.is_method,
            places,
            left,
        });
        self.others.push_reserved(other_of(form));
        self.is_method = false;
    }

    /// The last frame goes, and the one below it is the last, if there is one: where that has its cells.
    pub fn pop(&mut self) -> Option<Kept<R>>
        ensures { MatchOption result
            ((self.old.saved ≡ []) × (self.new ≡ record { form = None; saved = [] }))
            (ComesBack self.old self.new) }
    {
        let Some(kept) = self.kept.pop() else {
            self.clear();
            return None;
        };
        drop_last(&mut self.others, self.is_method);
        self.standing = kept.standing;
        self.is_method = kept.is_method;
        Some(kept)
    }

    /// All frames go.
    pub fn clear(&mut self)
        ensures { self.new ≡ record { form = None; saved = [] } }
    {
        self.kept.clear();
        self.others.clear();
        self.is_method = false;
    }
}

// Where the last frame is no method's, its form goes.
#[inline(always)]
fn drop_last<R: Copy + Drop, N: Copy + Drop>(others: &mut Vec<Other<R, N>>, is_method: bool)
    ensures others { reverse others.new.items ≡ others_below is_method (reverse others.old.items) }
    ensures room { vec_capacity others.new ≡ vec_capacity others.old }
{
    if is_method {
        return;
    }
    others.pop();
}
