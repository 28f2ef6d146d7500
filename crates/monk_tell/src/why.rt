//! Why an event is not allowed, in a sentence.

ghost use Rattle.std.specs.Prelude.{Some};
ghost use Rattle.monk_tell.specs.Why.{why_text};

mod out_of_turn;
mod precedence;
mod staying;

use monk_kinds::KindName;
pub use out_of_turn::OutOfTurn;
pub use precedence::Precedence;
pub use staying::Staying;
use std::fmt;

/// Why an event is not allowed, with the numbers of the case.
#[derive(Clone, Copy, Debug)]
pub enum Why {
    /// The first number is the seat, which is out of range. The second is the number of seats.
    NoSeat(u8, u8),
    /// The first number is the condition, which is out of range. The second is the number of conditions.
    NoCondition(u8, u8),
    /// The object has no operation of that code.
    NoOperation(u8),
    /// The object has no predicate of that number.
    NoPredicate(u8),
    /// Monitors of that kind don't have the call.
    Call(KindName),
    /// Monitors of that kind have nobody who waits until a predicate holds.
    NoUntils(KindName),
    /// The seat may not make the call now.
    Turn(OutOfTurn),
    /// The object replies the first number, not the second.
    Reply(u64, u64),
    /// The seat may not stay active, or has to.
    Stay(Staying),
    /// Another seat has to go on first.
    Order(Precedence),
}

impl fmt::Display for Why {
    ghost output = { λ w. Some (why_text w) };

    fn fmt<W: fmt::Write>(&self, f: &mut fmt::Formatter<W>) -> fmt::Result {
        match *self {
            Why::NoSeat(seat, seats) => write!(
                f,
                "there is no seat {seat}, since the {seats} seats are counted from 0"
            ),
            Why::NoCondition(cond, conds) => write!(
                f,
                "there is no condition {cond}, since the {conds} conditions are counted from 0"
            ),
            Why::NoOperation(code) => write!(f, "the object has no operation {code}"),
            Why::NoPredicate(pred) => write!(f, "the object has no predicate {pred}"),
            Why::Call(kind) => write!(f, "{} monitors have no such call", kind.as_str()),
            Why::NoUntils(kind) => write!(
                f,
                "{} monitors have nobody who waits until a predicate holds",
                kind.as_str()
            ),
            Why::Turn(found) => write!(f, "{found}"),
            Why::Reply(right, wrong) => write!(f, "the object replies {right} and not {wrong}"),
            Why::Stay(found) => write!(f, "{found}"),
            Why::Order(found) => write!(f, "{found}"),
        }
    }
}
