//! Follows a run step by step.

ghost use Rattle.std.specs.Prelude.{◌≡◌, ◌<◌, length, slice_index_or, slice_set, None};
ghost use Rattle.monk_judge.specs.{Judged.after_all, Shown.setting_of, Shown.shown, Shown.state_of};
ghost use Rattle.monk_judge.specs.declared.{place.Place.TheVariants.Outside, step.Step.TheVariants.Tells};
ghost use Rattle.monk_judge.specs.Run.{IsRun, May, Sleeps, WakesRightly, after, moved, run_out, signalled, with_place};
ghost use Rattle.monk_judge.specs.Run.{woken_unasked};

use crate::judge::Judge;
use crate::place::Place;
use crate::step::Step;
use monk_logs::LogLine;
use monk_object::{Guarded, Op};

impl<T: Guarded> Judge<T> {
    /// Takes a step of a run, as [`run_of_log`](crate::run_of_log) returns it: a line with the thread that its signal
    /// woke, or a step of which a log has no line. The caller knows that the step may happen here; nothing tests it.
    /// A broadcast looks once at each seat.
    pub fn follow(&mut self, step: Step)
        requires { May (setting_of self.old T.meaning) (state_of self.old) step }
        ensures state { state_of self.new ≡ after (setting_of self.old T.meaning) (state_of self.old) step }
        ensures setting { setting_of self.new T.meaning ≡ setting_of self.old T.meaning }
    {
        match step {
            Step::Tells(line, woken) => self.tell(line, woken),
            Step::RunsOut(seat) => self.run_out(seat),
            Step::WakesUnasked(seat) => self.wake_unasked(seat),
        }
    }

    /// Takes the steps of a run in order, each as [`follow`](Judge::follow) does.
    pub fn follow_all(&mut self, steps: &[Step])
        requires { IsRun (setting_of self.old T.meaning) (state_of self.old) steps.now }
        ensures state { state_of self.new
            ≡ after_all (setting_of self.old T.meaning) (state_of self.old) steps.now }
        ensures setting { setting_of self.new T.meaning ≡ setting_of self.old T.meaning }
    {
        for step in steps {
            self.follow(*step);
        }
    }

    /// Carries out the step of a line. Its signal wakes the thread `woken`.
    fn tell(&mut self, line: LogLine, woken: Option<u8>)
        requires { May (setting_of self.old T.meaning) (state_of self.old) (Tells line woken) }
        ensures state { state_of self.new
            ≡ after (setting_of self.old T.meaning) (state_of self.old) (Tells line woken) }
        ensures setting { setting_of self.new T.meaning ≡ setting_of self.old T.meaning }
    {
        match line {
            LogLine::Enter(seat) | LogLine::Resume(seat) | LogLine::Lapse(seat) => self.take(seat),
            LogLine::Leave(seat) => self.let_go(seat, Place::Outside),
            LogLine::Wait(seat, cond) => self.let_go(seat, Place::Waiting(cond)),
            LogLine::Signal(_, cond) => self.wake_named(cond, woken),
            LogLine::Broadcast(_, cond) => self.wake(cond),
            LogLine::Until(..) => {}
            LogLine::Act(_, op, _) => self.change(op),
        }
    }

    /// Lets the seat's lock go, and moves the seat to the place.
    fn let_go(&mut self, seat: u8, place: Place)
        requires { seat < length self.old.places }
        ensures { self.new ≡ shown self.old.conds None (slice_set self.old.places seat place) self.old.ends
            self.old.data_now }
    {
        self.lock = None;
        self.put(seat, place);
    }

    /// Wakes the thread that a signal to the condition wakes.
    fn wake_named(&mut self, cond: u8, woken: Option<u8>)
        requires { WakesRightly (state_of self.old) cond woken }
        ensures state { state_of self.new
            ≡ moved (signalled cond woken (state_of self.old).place) (state_of self.old) }
        ensures setting { setting_of self.new T.meaning ≡ setting_of self.old T.meaning }
    {
        if let Some(seat) = woken {
            self.put(seat, Place::Woken(cond));
        }
    }

    /// Carries out an operation on the object.
    fn change(&mut self, op: Op)
        requires { op.code < T.CODES }
        ensures { self.new ≡ shown self.old.conds self.old.lock self.old.places self.old.ends
            (T.meaning.after self.old.data_now op) }
    {
        let _reply = self.object.act(op);
    }

    /// Lets the wait of the seat run out.
    fn run_out(&mut self, seat: u8)
        requires { Sleeps (slice_index_or self.old.places seat Outside) }
        ensures state { state_of self.new
            ≡ moved (with_place seat (run_out (slice_index_or self.old.places seat Outside))
            (state_of self.old).place) (state_of self.old) }
        ensures setting { setting_of self.new T.meaning ≡ setting_of self.old T.meaning }
    {
        let place = self.places[usize::from(seat)];
        self.put(seat, place.run_out());
    }

    /// Wakes the seat though nobody sent a signal.
    fn wake_unasked(&mut self, seat: u8)
        requires { Sleeps (slice_index_or self.old.places seat Outside) }
        ensures state { state_of self.new
            ≡ moved (with_place seat (woken_unasked (slice_index_or self.old.places seat Outside))
            (state_of self.old).place) (state_of self.old) }
        ensures setting { setting_of self.new T.meaning ≡ setting_of self.old T.meaning }
    {
        let place = self.places[usize::from(seat)];
        self.put(seat, place.woken_unasked());
    }
}
