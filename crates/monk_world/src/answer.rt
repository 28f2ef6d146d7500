use monk_history::Next;
use std::fmt;

/// What a seat's command came to. The last four are refusals: nothing was done. The first that applies is returned.
#[derive(Clone, Copy, Debug, PartialEq, Eq)]
pub enum Answer {
    /// The ticket that was drawn, and how many were not passed on before (0 if the monitor was free).
    Arrived(u32, u32),
    /// Whether the right was found.
    Looked(bool),
    /// How many tickets were found not passed on, before the step.
    Found(u32),
    /// The floor came to the seat.
    Now,
    /// Whom the floor chose. It is `Next::Stay` if the seat remains active.
    Chose(Next),
    /// The ticket that was granted.
    GrantedTicket(u32),
    /// The seat that was called.
    GrantedSeat(u8),
    /// The object's reply.
    Reply(u64),
    /// How many a signal to all served.
    Woke(u32),
    /// The seat, the condition, the predicate or the code is out of range.
    Range,
    /// The kind of monitor has no such call.
    NoCall,
    /// The command doesn't fit the place where the seat is.
    NotNow,
    /// Too few events are left to the seat.
    Tired,
}

/// Written as `arrived 2 1`, `looked no`, `found 2`, `now`, `chose entry`, `granted ticket 3`, `granted seat 1`,
/// `replied 7`, `woke 2`, or `refused` and why: `range`, `no-call`, `not-now` or `tired`.
impl fmt::Display for Answer {
    ghost use Rattle.std.specs.Prelude.{Some};
    ghost use Rattle.std.specs.List.{join_with_byte};
    ghost use Rattle.monk_world.specs.Shown.{answer_words};

    ghost output = { λ a. Some (join_with_byte 32 (answer_words a)) };

    fn fmt<W: fmt::Write>(&self, f: &mut fmt::Formatter<W>) -> fmt::Result {
        match *self {
            Answer::Arrived(ticket, found) => write!(f, "arrived {ticket} {found}"),
            Answer::Looked(true) => write!(f, "looked yes"),
            Answer::Looked(false) => write!(f, "looked no"),
            Answer::Found(found) => write!(f, "found {found}"),
            Answer::Now => write!(f, "now"),
            Answer::Chose(next) => write!(f, "chose {next}"),
            Answer::GrantedTicket(ticket) => write!(f, "granted ticket {ticket}"),
            Answer::GrantedSeat(seat) => write!(f, "granted seat {seat}"),
            Answer::Reply(reply) => write!(f, "replied {reply}"),
            Answer::Woke(served) => write!(f, "woke {served}"),
            Answer::Range => write!(f, "refused range"),
            Answer::NoCall => write!(f, "refused no-call"),
            Answer::NotNow => write!(f, "refused not-now"),
            Answer::Tired => write!(f, "refused tired"),
        }
    }
}
