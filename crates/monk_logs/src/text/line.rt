//! A line of a log.

ghost use Rattle.std.specs.Prelude.{◌≡◌};
ghost use Rattle.monk_logs.specs.Log.{line_seat};

use monk_object::Op;

/// What a thread knows and writes down while it holds the lock. The first number is its seat. It
/// can't know whom the scheduler chose, and from which queue.
#[derive(Clone, Copy, Debug, PartialEq, Eq)]
pub enum LogLine {
    /// The seat came in.
    Enter(u8),
    /// The seat goes on after a wait, or after a signal that handed the monitor over.
    Resume(u8),
    /// The seat goes on after a timed wait that ran out.
    Lapse(u8),
    /// The seat goes out. Written before the call.
    Leave(u8),
    /// The seat waits on the condition. Written before the call.
    Wait(u8, u8),
    /// The seat signals the condition. Written before the call.
    Signal(u8, u8),
    /// The seat signals to all who wait on the condition. Written before the call.
    Broadcast(u8, u8),
    /// The seat waits until the predicate holds. Written before the call.
    Until(u8, u8),
    /// The seat called the object's act, and got this reply.
    Act(u8, Op, u64),
}

impl LogLine {
    /// Returns the seat that wrote the line.
    pub fn seat(self) -> u8
        ensures { result ≡ line_seat self }
    {
        match self {
            LogLine::Enter(seat)
            | LogLine::Resume(seat)
            | LogLine::Lapse(seat)
            | LogLine::Leave(seat)
            | LogLine::Wait(seat, _)
            | LogLine::Signal(seat, _)
            | LogLine::Broadcast(seat, _)
            | LogLine::Until(seat, _)
            | LogLine::Act(seat, ..) => seat,
        }
    }
}
