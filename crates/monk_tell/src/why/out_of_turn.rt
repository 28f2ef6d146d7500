//! Why a seat may not make its call now: whose turn it is, or where the seat is.

ghost use Rattle.std.specs.Prelude.{Some};
ghost use Rattle.monk_tell.specs.Why.{out_of_turn_text};

use crate::said::queue_word;
use monk_history::From3;
use std::fmt;

/// Why a seat may not make its call now: whose turn it is, or where the seat is.
#[derive(Clone, Copy, Debug)]
pub enum OutOfTurn {
    /// The seat isn't active: a caller who enters is next.
    Open(u8),
    /// The seat isn't next: the second seat has to resume from that queue first.
    Due(u8, u8, From3),
    /// The seat has to resume from that queue first.
    Resumes(u8, From3),
    /// The seat isn't next: the second seat is active.
    Active(u8, u8),
    /// The seat is active already.
    Already(u8),
    /// The seat waits on that condition, and nobody has signalled it.
    Unsignalled(u8, usize),
    /// The seat is inside already.
    Inside(u8),
    /// The seat can't find the monitor free: somebody inside could go on.
    NotFree(u8),
    /// Nobody came before the seat who could hand the monitor over to it.
    FirstOfAll(u8),
}

impl fmt::Display for OutOfTurn {
    ghost output = { λ w. Some (out_of_turn_text w) };

    fn fmt<W: fmt::Write>(&self, f: &mut fmt::Formatter<W>) -> fmt::Result {
        match *self {
            OutOfTurn::Open(seat) => write!(
                f,
                "seat {seat} isn't active, since the monitor is open to whoever enters next"
            ),
            OutOfTurn::Due(seat, other, queue) => write!(
                f,
                "seat {seat} isn't next, since seat {other} has to resume from {} first",
                queue_word(queue)
            ),
            OutOfTurn::Resumes(seat, queue) => write!(
                f,
                "seat {seat} has to resume from {} first",
                queue_word(queue)
            ),
            OutOfTurn::Active(seat, other) => write!(
                f,
                "seat {seat} isn't next, since seat {other} is active"
            ),
            OutOfTurn::Already(seat) => write!(f, "seat {seat} is active already"),
            OutOfTurn::Unsignalled(seat, cond) => write!(
                f,
                "seat {seat} waits on condition {cond}, and nobody has signalled it"
            ),
            OutOfTurn::Inside(seat) => write!(f, "seat {seat} is inside already"),
            OutOfTurn::NotFree(seat) => write!(
                f,
                "seat {seat} can't find the monitor free, since somebody inside could go on"
            ),
            OutOfTurn::FirstOfAll(seat) => write!(
                f,
                "nobody came before seat {seat} who could hand the monitor over"
            ),
        }
    }
}
