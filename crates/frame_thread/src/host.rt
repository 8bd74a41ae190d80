//! What frames are given by the machine that runs them.

ghost use Rattle.std.specs.Prelude.{◌≡◌, List, map, reverse, take};
ghost use Rattle.frames.specs.Settings.{Setting};
ghost use Rattle.frames.specs.Calls.{cells_of, value_of};
ghost use Rattle.frame_thread.specs.Views.{native_step, receiver_given};
ghost use Rattle.frame_thread.specs.Flats.{AreFlat};

use crate::flat::Flat;
use crate::form::Advance;
use frames::{Given, Program};
use natives::{Reply, Request};
use run_types::At;

/// The tables, and all that depends on what references and values are: how they are made, and the native
/// methods. M is the type of native methods, N that of their states, R that of references, and V that of
/// values in requests and replies. Contracts see the setting that the definitions of turns and answers take.
pub trait Host<M: Copy + Drop, R: Copy + Drop, N: Copy + Drop, V: Drop> {
    ghost setting: { Self → Setting M R N V };

    fn program(&self) -> &Program<M>
        ensures { result.now ≡ (setting self.now).program };

    /// The flat forms of the program's code.
    fn flats(&self) -> &[Flat]
        ensures { AreFlat result.now (setting self.now).program.code };

    /// Where a thread stands before its first instruction.
    fn main(&self) -> At
        ensures { result ≡ (setting self.now).main };

    fn null(&self) -> R
        ensures { result ≡ (setting self.now).null };

    fn is_null(&self, reference: R) -> bool
        ensures { result ≡ (setting self.now).is_null reference };

    /// The object of a string literal, by number.
    fn literal(&self, number: u32) -> R
        ensures { result ≡ (setting self.now).literal number };

    fn of_int(&self, value: i32) -> V
        ensures { result ≡ (setting self.now).of_int value };

    fn of_long(&self, value: i64) -> V
        ensures { result ≡ (setting self.now).of_long value };

    fn of_reference(&self, value: R) -> V
        ensures { result ≡ (setting self.now).of_reference value };

    /// What the cells of a value hold.
    fn given(&self, value: &V) -> Given<R>
        ensures { cells_of result ≡ (setting self.now).cells value.now };

    /// Where a native method stands that was given arguments, of which these are the first two, the last one first.
    /// No native method reads more.
    fn start(&self, method: M, from: At, arguments: &[Given<R>]) -> N
        ensures { (values : List V) →
            take 2 (map (value_of (setting self.now)) (reverse arguments.now)) ≡ take 2 values →
            result ≡ (setting self.now).start method from values };

    /// The same of a native method with no argument but this receiver.
    fn begin(&self, method: M, from: At, receiver: Option<R>) -> N
        ensures { let values = map (value_of (setting self.now)) (receiver_given receiver) in
            result ≡ (setting self.now).start method from values };

    /// The request for whose reply a native method waits.
    fn asks(&self, state: N) -> Request<R, V>
        ensures { result ≡ (setting self.now).asks state };

    /// What comes of the reply.
    fn next(&self, state: N, reply: &Reply<R, V>) -> Advance<R, N>
        ensures { native_step result ≡ (setting self.now).next state reply.now };
}
