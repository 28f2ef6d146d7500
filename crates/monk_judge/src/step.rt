//! A step of a run.

use monk_logs::LogLine;
use std::fmt;

/// A step of a run: one that a line tells, or one that no line tells.
#[derive(Clone, Copy, Debug, PartialEq, Eq)]
pub enum Step {
    /// The step of a line, with the thread that a signal wakes.
    Tells(LogLine, Option<u8>),
    /// The wait of the seat runs out.
    RunsOut(u8),
    /// The seat wakes though nobody sent a signal.
    WakesUnasked(u8),
}

/// As in `signal 2 0 wakes 1`, `out 0` or `wake 1`.
impl fmt::Display for Step {
    ghost use Rattle.std.specs.Prelude.{Some};
    ghost use Rattle.monk_judge.specs.Text.{step_text};

    ghost output = { λ s. Some (step_text s) };

    fn fmt<W: fmt::Write>(&self, f: &mut fmt::Formatter<W>) -> fmt::Result {
        match *self {
            Step::Tells(line, None) => write!(f, "{}", LineWords { line }),
            Step::Tells(line, Some(seat)) => write!(f, "{} wakes {seat}", LineWords { line }),
            Step::RunsOut(seat) => write!(f, "out {seat}"),
            Step::WakesUnasked(seat) => write!(f, "wake {seat}"),
        }
    }
}

/// The words of a line of a log.
#[derive(Clone, Copy)]
struct LineWords {
    line: LogLine,
}

impl fmt::Display for LineWords {
    ghost use Rattle.std.specs.Prelude.{Some};
    ghost use Rattle.monk_judge.specs.Text.{line_text};

    ghost output = { λ w. Some (line_text w.line) };

    fn fmt<W: fmt::Write>(&self, f: &mut fmt::Formatter<W>) -> fmt::Result {
        match self.line {
            LogLine::Enter(seat) => write!(f, "enter {seat}"),
            LogLine::Resume(seat) => write!(f, "resume {seat}"),
            LogLine::Lapse(seat) => write!(f, "lapse {seat}"),
            LogLine::Leave(seat) => write!(f, "leave {seat}"),
            LogLine::Wait(seat, cond) => write!(f, "wait {seat} {cond}"),
            LogLine::Signal(seat, cond) => write!(f, "signal {seat} {cond}"),
            LogLine::Broadcast(seat, cond) => write!(f, "broadcast {seat} {cond}"),
            LogLine::Until(seat, pred) => write!(f, "until {seat} {pred}"),
            LogLine::Act(seat, op, reply) => {
                write!(f, "act {seat} {} {} {reply}", op.code, op.arg)
            }
        }
    }
}
