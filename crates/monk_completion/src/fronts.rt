//! The fronts of the queues from which a release chooses.

ghost use Rattle.std.specs.Prelude.{◌≡◌, ◌<◌, ◌==◌, All, Some, [], slice_get, if◌then◌else◌};
ghost use Rattle.monk_history.specs.Meaning.Choice as choice;
ghost use Rattle.monk_history.specs.{declared.event.Next.Next, Meaning.Choice.queues_at, Meaning.Events.next_of};
ghost use Rattle.monk_history.specs.{Meaning.Signallers.signals, Meaning.Waiters.serves, Meaning.Wish.unwished_choice};
ghost use Rattle.monk_audit.specs.Settled as settled;
ghost use Rattle.monk_audit.specs.Replay.{is_front_in, replay_situation};
ghost use Rattle.monk_completion.specs.Blame as blames;
ghost use Rattle.monk_completion.specs.Told as told;
ghost use Rattle.monk_completion.specs.Fronts.{fronts_of, shown};

use crate::blame::Blame;
use monk_audit::Replay;
use monk_history::{Event, Next};
use monk_kinds::{Mode, Rules};
use monk_logs::LogLine;
use monk_object::Guarded;

/// The fronts of the queues from which a release chooses.
#[derive(Clone, Copy)]
pub(crate) struct Fronts {
    pub(crate) waiter: Option<u8>,
    pub(crate) signaller: Option<u8>,
    /// The first seat that waits until a predicate, and the predicate holds.
    pub(crate) ready: Option<u8>,
}

/// Returns the first seat that the event serves.
pub(crate) fn first_served(replay: &Replay, event: Event) -> Option<u8>
    ensures { result ≡ slice_get (serves (replay_situation replay.now []).condition event) 0 }
{
    match event {
        Event::Signal(_, cond, _)
        | Event::SignalLeave(_, cond, _)
        | Event::SignalWait(_, cond, _, _)
        | Event::SignalAll(_, cond) => replay.first_at(cond),
        _ => None,
    }
}

/// Returns the caller of the event, if it steps back into the signaller queue.
pub(crate) fn stepping_back(replay: &Replay, event: Event) -> Option<u8>
    ensures { result ≡ slice_get (signals (replay_situation replay.now []).condition event) 0 }
{
    match event {
        Event::Signal(seat, cond, _) if replay.first_at(cond).is_some() => Some(seat),
        _ => None,
    }
}

/// Returns the choice of the front of the signaller queue. If that front is the caller, the caller stays.
fn own_or(front: u8, caller: u8) -> Next
    ensures { result ≡ (if front == caller then Next.Stay else Next.Signaller front) }
{
    if front == caller {
        Next::Stay
    } else {
        Next::Signaller(front)
    }
}

impl Fronts {
    /// Returns the fronts at an event. It joins and serves before it chooses.
    #[tactic(auto, using(crate::proofs::FrontLaws::first_of_both, crate::proofs::FrontLaws::first_alone))]
    pub(crate) fn at<T: Guarded>(replay: &Replay, object: &T, event: Event) -> Fronts
        requires { All (λ w. w.1 < T.PREDICATES) (replay_situation replay.now []).untils }
        ensures { shown result
            ≡ fronts_of (queues_at T.meaning (replay_situation replay.now (T.state object.now)) event) }
    {
        Fronts {
            waiter: replay.first_waiter().or(first_served(replay, event)),
            signaller: replay.first_signaller().or(stepping_back(replay, event)),
            ready: replay.first_ready(object),
        }
    }

    /// Whether the seat is one of the fronts.
    pub(crate) fn has(self, seat: u8) -> bool
        ensures { result ≡ is_front_in (shown self) seat }
    {
        self.waiter == Some(seat) || self.signaller == Some(seat) || self.ready == Some(seat)
    }

    /// Returns the reason if the caller goes on at once, though it may not have stayed.
    pub(crate) fn stay_blame(self, rules: Rules, seat: u8) -> Blame
        ensures { result ≡ blames.stay_blame rules (shown self) seat }
    {
        if rules.signaller < rules.waiter || self.signaller == Some(seat) {
            Blame::Choice
        } else {
            Blame::Order
        }
    }

    /// Returns the choice that the line shows.
    pub(crate) fn told_next(self, line: LogLine) -> Next
        ensures { result ≡ told.told_next (shown self) line }
    {
        match line {
            LogLine::Enter(_) => Next::Entry,
            LogLine::Resume(seat) if self.waiter == Some(seat) => Next::Waiter(seat),
            LogLine::Resume(seat) if self.signaller == Some(seat) => Next::Signaller(seat),
            LogLine::Resume(seat) => Next::Until(seat),
            _ => Next::Stay,
        }
    }

    /// Returns the choice if nobody wishes for anything.
    pub(crate) fn unwished(self, rules: Rules, caller: u8) -> Next
        ensures { result ≡ unwished_choice rules (shown self) caller }
    {
        let inner = match rules.mode {
            Mode::Automatic => self.ready.map(Next::Until),
            _ => self.waiter.map(Next::Waiter),
        };
        match (inner, self.signaller) {
            (None, None) => Next::Entry,
            (Some(next), None) => next,
            (None, Some(front)) => own_or(front, caller),
            (Some(next), Some(front)) => {
                if rules.signaller <= rules.waiter {
                    next
                } else {
                    own_or(front, caller)
                }
            }
        }
    }

    /// Whether an event may choose what it chose.
    pub(crate) fn permits(self, rules: Rules, stays: bool, event: Event) -> bool
        ensures { result ≡ settled.permits rules (shown self) stays event }
    {
        match event.choice() {
            None => !stays,
            Some(next) if stays => next == Next::Stay,
            Some(Next::Stay) => self.permits_stay(rules, event),
            Some(next) => self.permits_next(rules, event.seat(), next),
        }
    }

    /// Whether a caller that serves somebody may go on at once.
    fn permits_stay(self, rules: Rules, event: Event) -> bool
        requires { next_of event ≡ Some Next.Stay }
        ensures { result ≡ choice.chooses_well rules (shown self) event }
    {
        match event {
            Event::Signal(seat, ..) => {
                self.signaller == Some(seat) && rules.waiter <= rules.signaller
            }
            _ => false,
        }
    }

    /// Whether a release of the seat may choose `next`, if it need not stay.
    fn permits_next(self, rules: Rules, seat: u8, next: Next) -> bool
        ensures { result ≡ choice.may_choose rules (shown self) seat next }
    {
        match next {
            Next::Stay => false,
            Next::Entry => {
                (self.waiter.is_none() && self.ready.is_none() || rules.waiter == rules.entry)
                    && (self.signaller.is_none() || rules.signaller == rules.entry)
            }
            Next::Waiter(chosen) => {
                self.waiter == Some(chosen)
                    && (self.signaller.is_none() || rules.signaller <= rules.waiter)
            }
            Next::Signaller(chosen) => {
                self.signaller == Some(chosen)
                    && (self.waiter.is_none() || rules.waiter <= rules.signaller)
                    && chosen != seat
            }
            Next::Until(chosen) => rules.mode == Mode::Automatic && self.ready == Some(chosen),
        }
    }
}
