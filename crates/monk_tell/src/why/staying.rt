//! Why the seat may not stay active, or has to.

ghost use Rattle.std.specs.Prelude.{Some};
ghost use Rattle.monk_tell.specs.Why.{staying_text};

use monk_kinds::KindName;
use std::fmt;

/// Why the seat may not stay active, or has to.
#[derive(Clone, Copy, Debug)]
pub enum Staying {
    /// Nobody waits on the condition, so the seat has to stay active.
    NobodyWaits(u8, u8),
    /// The predicate holds already, so the seat has to stay active.
    HoldsAlready(u8, u8),
    /// The call gives the monitor up, so the seat can't stay active.
    GivesUp(u8),
    /// The kind puts waiters above signallers, so the seat can't stay active.
    MustYield(u8, KindName),
    /// The kind puts signallers above waiters, so the seat has to stay active.
    MustStay(u8, KindName),
    /// The first seat steps back after the second, which signalled before it.
    StepsBehind(u8, u8),
    /// The seat's own signal put it in the queue, so it goes on only by staying.
    OwnSignal(u8),
}

impl fmt::Display for Staying {
    ghost output = { λ w. Some (staying_text w) };

    fn fmt<W: fmt::Write>(&self, f: &mut fmt::Formatter<W>) -> fmt::Result {
        match *self {
            Staying::NobodyWaits(cond, seat) => write!(
                f,
                "seat {seat} has to stay active, since nobody waits on condition {cond}"
            ),
            Staying::HoldsAlready(pred, seat) => write!(
                f,
                "seat {seat} has to stay active, since predicate {pred} holds already"
            ),
            Staying::GivesUp(seat) => write!(
                f,
                "seat {seat} can't stay active, since its call gives the monitor up"
            ),
            Staying::MustYield(seat, kind) => write!(
                f,
                "seat {seat} can't stay active, since {} puts waiters above signallers",
                kind.as_str()
            ),
            Staying::MustStay(seat, kind) => write!(
                f,
                "seat {seat} has to stay active, since {} puts signallers above waiters",
                kind.as_str()
            ),
            Staying::StepsBehind(seat, other) => write!(
                f,
                "seat {seat} can't stay active, since seat {other} is before it in the signaller queue"
            ),
            Staying::OwnSignal(seat) => write!(
                f,
                "seat {seat} goes on after its own signal by staying active"
            ),
        }
    }
}
