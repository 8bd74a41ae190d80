//! The frames of a thread.

ghost use Rattle.std.specs.Prelude.{◌≡◌, [], IfOk};
ghost use Rattle.frames.specs.Turns.{begun_main, begun_thread, turn, answer};
ghost use Rattle.frame_steps.specs.Sized.{AreOf};
ghost use Rattle.private_steps.specs.Waits.{Waits, WaitsAfter};
ghost use Rattle.private_steps.specs.Ahead.{Finishes, HasCome, HasComeSo};

use crate::answers::answered;
use crate::arguments::Arguments;
use crate::coming::{Come, advance, go_on};
use crate::turns::{finish, turn};
use frame_thread::{Activity, Form, Host, Said, Stop, Thread};
use natives::{Reply, Request};
use std::alloc::{AllocError, Global};
use std::marker::Model;

/// How many private instructions a turn does at most.
const FUEL: u32 = 1_024;

/// The frames of a thread (JVMS 2.5.2, 2.6). Contracts see those of the definitions of turns and answers. Nothing
/// takes memory once they are made.
#[derive(Drop)]
pub struct Frames<R: Copy + Drop, N: Copy + Drop> {
    pub(crate) thread: Thread<R, N>,
    pub(crate) arguments: Arguments<R>,
    pub(crate) paused: bool,
}

impl<R: Copy + Drop, N: Copy + Drop> Model for Frames<R, N> {
    ghost use Rattle.frames.specs.Settings.{Frames};
    ghost use Rattle.frame_thread.specs.Stacked.{list_of};

    ghost Value = { Frames R N };

    ghost view = { λ f. record {
      doing = f.thread.doing;
      frames = list_of f.thread;
      paused = f.paused;
    } };
}

impl<R: Copy + Drop, N: Copy + Drop> Frames<R, N> {
    /// No frames. It takes all the memory that the thread will need.
    ///
    /// # Errors
    ///
    /// Where there isn't so much memory.
    pub fn new(alloc: Global) -> Result<Frames<R, N>, AllocError>
        ensures { IfOk result (λ r. r.frames ≡ []) }
    {
        Ok(Frames {
            thread: Thread::new(alloc)?,
            arguments: Arguments::new(alloc)?,
            paused: false,
        })
    }

    /// Thread 0 begins: by the initialisation of the main class, and then it calls the method `main`, by number,
    /// with this argument.
    pub fn begin_main(&mut self, class: u32, method: u32, arguments: R)
        ensures { self.new ≡ begun_main class method arguments }
    {
        self.thread.begin_other(Form::Main { method, arguments });
        self.thread.set_doing(Activity::BeginsMain(class));
        self.paused = false;
    }

    /// The thread of a Thread object begins.
    pub fn begin_thread(&mut self, object: R)
        ensures { self.new ≡ begun_thread object }
    {
        self.thread.clear();
        self.thread.set_doing(Activity::BeginsThread(object));
        self.paused = false;
    }

    /// A turn of frames of the host's program: at most 1,024 private instructions, and then the request; Pause
    /// where so many were done.
    pub fn run_private<M: Copy + Drop, V: Drop, H: Host<M, R, N, V>>(
        &mut self,
        host: &H,
    ) -> Request<R, V>
        requires of { AreOf (H.setting host.now).program self.old.frames }
        ensures frames { self.new ≡ (turn (H.setting host.now) self.old).frames }
        ensures asks { Some result ≡ (turn (H.setting host.now) self.old).asks }
        ensures waits { WaitsAfter result self.new }
        ensures of { AreOf (H.setting host.now).program self.new.frames }
    {
        if self.paused {
            return Request::Pause;
        }
        let _length = host.program().code.len();
        match turn(&mut self.thread, &mut self.arguments, host, FUEL) {
            Some(request) => request,
            None => {
                self.paused = true;
                Request::Pause
            }
        }
    }

    /// The instructions on cells and frames alone of a turn, up to another one: the turn goes on from there.
    #[inline(always)]
    pub fn advance<M: Copy + Drop, V: Drop, H: Host<M, R, N, V>>(&mut self, host: &H) -> Come<R>
        requires of { AreOf (H.setting host.now).program self.old.frames }
        ensures come { HasCome (H.setting host.now) result self.old self.new }
        ensures of { AreOf (H.setting host.now).program self.new.frames }
    {
        if self.paused {
            return Come::Paused;
        }
        advance(&mut self.thread, &mut self.arguments, host, FUEL)
    }

    /// The rest of a turn that has come so far, up to its request; Pause where so many instructions were done.
    pub fn finish<M: Copy + Drop, V: Drop, H: Host<M, R, N, V>>(
        &mut self,
        host: &H,
        come: Come<R>,
    ) -> Request<R, V>
        requires come { HasComeSo (H.setting host.now) come self.old }
        requires of { AreOf (H.setting host.now).program self.old.frames }
        ensures finishes { Finishes (H.setting host.now) come self.old self.new result }
        ensures waits { WaitsAfter result self.new }
        ensures of { AreOf (H.setting host.now).program self.new.frames }
    {
        match come {
            Come::Paused => Request::Pause,
            Come::At(stop) => self.finish_at(host, stop),
            Come::Gone(said, left) => self.finish_gone(host, said, left),
        }
    }

    // The same of one that has stopped so.
    fn finish_at<M: Copy + Drop, V: Drop, H: Host<M, R, N, V>>(
        &mut self,
        host: &H,
        stop: Stop,
    ) -> Request<R, V>
        requires ahead { HasComeSo (H.setting host.now) (Come.At stop) self.old }
        requires of { AreOf (H.setting host.now).program self.old.frames }
        ensures finishes { Finishes (H.setting host.now) (Come.At stop) self.old self.new result }
        ensures waits { WaitsAfter result self.new }
        ensures of { AreOf (H.setting host.now).program self.new.frames }
    {
        let Some(Form::Running(standing)) = self.thread.form() else {
            unreachable!()
        };
        let _length = host.program().code.len();
        let asked = finish(&mut self.thread, &mut self.arguments, host, standing, stop);
        let Some(request) = asked else {
            self.paused = true;
            return Request::Pause;
        };
        request
    }

    // The same of one in which this was said.
    fn finish_gone<M: Copy + Drop, V: Drop, H: Host<M, R, N, V>>(
        &mut self,
        host: &H,
        said: Said<R>,
        left: u32,
    ) -> Request<R, V>
        requires gone { HasComeSo (H.setting host.now) (Come.Gone said left) self.old }
        requires of { AreOf (H.setting host.now).program self.old.frames }
        ensures finishes { Finishes (H.setting host.now) (Come.Gone said left) self.old self.new result }
        ensures waits { WaitsAfter result self.new }
        ensures of { AreOf (H.setting host.now).program self.new.frames }
    {
        let _length = host.program().code.len();
        let asked = go_on(&mut self.thread, &mut self.arguments, host, said, left);
        let Some(request) = asked else {
            self.paused = true;
            return Request::Pause;
        };
        request
    }

    /// The reply to the request of the last turn, which wasn't Broken.
    pub fn answer<M: Copy + Drop, V: Drop, H: Host<M, R, N, V>>(
        &mut self,
        host: &H,
        reply: &Reply<R, V>,
    )
        requires waits { Waits self.old }
        requires of { AreOf (H.setting host.now).program self.old.frames }
        ensures answer { self.new ≡ answer (H.setting host.now) self.old reply.now }
        ensures of { AreOf (H.setting host.now).program self.new.frames }
    {
        if self.paused {
            self.paused = false;
            return;
        }
        if let Said::Breaks(fault) = answered(&mut self.thread, &mut self.arguments, host, reply) {
            self.thread.set_doing(Activity::Breaks(fault));
        }
    }
}
