//! Events and turns as the answers print them.

ghost use Rattle.std.specs.Prelude.{◌≡◌, [], Some, get_or};
ghost use Rattle.monk_history.specs.Text.{event_words, from_word, via_word};
ghost use Rattle.monk_tell.specs.Words.{event_text, turn_text};

use monk_history::{Event, From3, Turn, Via};
use std::fmt;

/// Returns the queue's name, as in a text: `waiter`, `signaller` or `until`.
pub fn queue_word(queue: From3) -> &'static str
    ensures { result.now ≡ from_word queue }
{
    match queue {
        From3::Waiter => "waiter",
        From3::Signaller => "signaller",
        From3::Until => "until",
    }
}

/// Returns how a seat came in, as in a text: `free` or `handed`.
pub fn via_word(via: Via) -> &'static str
    ensures { result.now ≡ via_word via }
{
    match via {
        Via::Free => "free",
        Via::Handed => "handed",
    }
}

/// Returns the first word of an event's line.
pub fn call_word(event: Event) -> &'static str
    ensures { result.now ≡ get_or (event_words event) 0 [] }
{
    match event {
        Event::Enter(..) => "enter",
        Event::Act(..) => "act",
        Event::Leave(..) => "leave",
        Event::Wait(..) => "wait",
        Event::Signal(..) => "signal",
        Event::SignalLeave(..) => "signal-leave",
        Event::Until(..) => "until",
        Event::Resume(..) => "resume",
        Event::SignalAll(..) => "signal-all",
        Event::SignalWait(..) => "signal-wait",
    }
}

/// An event as in its line of a text: `signal 1 1 waiter 0`.
#[derive(Drop)]
pub struct SaidEvent(pub Event);

impl fmt::Display for SaidEvent {
    ghost output = { λ e. Some (event_text e.0) };

    fn fmt<W: fmt::Write>(&self, f: &mut fmt::Formatter<W>) -> fmt::Result {
        let (call, seat) = (call_word(self.0), self.0.seat());
        match self.0 {
            Event::Enter(_, via) => write!(f, "{call} {seat} {}", via_word(via)),
            Event::Act(_, op, reply) => write!(f, "{call} {seat} {} {} {reply}", op.code, op.arg),
            Event::Leave(_, next) => write!(f, "{call} {seat} {next}"),
            Event::Wait(_, number, next)
            | Event::Signal(_, number, next)
            | Event::SignalLeave(_, number, next)
            | Event::Until(_, number, next) => write!(f, "{call} {seat} {number} {next}"),
            Event::Resume(_, queue) => write!(f, "{call} {seat} {}", queue_word(queue)),
            Event::SignalAll(_, cond) => write!(f, "{call} {seat} {cond}"),
            Event::SignalWait(_, cond, other, next) => {
                write!(f, "{call} {seat} {cond} {other} {next}")
            }
        }
    }
}

/// Whose turn it is: `open`, `due 1 waiter` or `of 1`.
#[derive(Drop)]
pub struct SaidTurn(pub Turn);

impl fmt::Display for SaidTurn {
    ghost output = { λ t. Some (turn_text t.0) };

    fn fmt<W: fmt::Write>(&self, f: &mut fmt::Formatter<W>) -> fmt::Result {
        match self.0 {
            Turn::Open => write!(f, "open"),
            Turn::Due(seat, queue) => write!(f, "due {seat} {}", queue_word(queue)),
            Turn::Owned(seat) => write!(f, "of {seat}"),
        }
    }
}
