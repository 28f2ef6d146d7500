ghost use Rattle.std.specs.Prelude.{◌≡◌};
ghost use Rattle.monk_world.specs.Play.{pick_word};

use monk_kinds::Pick;
use monk_object::Op;
use std::fmt;

/// What a seat is asked to do: one atomic step, or a call on the floor that it holds.
#[derive(Clone, Copy, Debug, PartialEq, Eq)]
pub enum Command {
    /// Draw a ticket.
    Arrive,
    /// Look whether the right was handed over: in its ticket's place or, if it is inside, in its own place.
    Look,
    /// Take the floor, which records the enter or the resume.
    Out,
    /// Look how many tickets are not passed on, to know whether somebody waits for entry.
    Peek,
    /// Take itself off the ticket word.
    Drop,
    /// Grant the right to the ticket or the seat that is next.
    Grant,
    /// Carry an operation out on the object.
    Act(Op),
    /// Leave the monitor, with a wish for who is next.
    Leave(Pick),
    /// Wait on this condition, with a wish for who is next.
    Wait(u8, Pick),
    /// Signal this condition, with a wish for who is next.
    Signal(u8, Pick),
    /// Signal this condition and leave the monitor, with a wish for who is next.
    SignalLeave(u8, Pick),
    /// Wait until this predicate holds, with a wish for who is next.
    Until(u8, Pick),
    /// Signal all who wait on this condition, and go on. In plays from version 2 on.
    SignalAll(u8),
    /// Signal the first condition and then wait on the second, with a wish for who is next. In plays from version 2 on.
    SignalWait(u8, u8, Pick),
}

/// Written as in the text of a play, without the seat: `arrive`, `act 0 7`, `wait 1 entry`.
impl fmt::Display for Command {
    ghost use Rattle.std.specs.Prelude.{Some};
    ghost use Rattle.std.specs.List.{join_with_byte};
    ghost use Rattle.monk_world.specs.Play.{action_words};

    ghost output = { λ c. Some (join_with_byte 32 (action_words c)) };

    fn fmt<W: fmt::Write>(&self, f: &mut fmt::Formatter<W>) -> fmt::Result {
        match *self {
            Command::Arrive => write!(f, "arrive"),
            Command::Look => write!(f, "look"),
            Command::Out => write!(f, "out"),
            Command::Peek => write!(f, "peek"),
            Command::Drop => write!(f, "drop"),
            Command::Grant => write!(f, "grant"),
            Command::Act(op) => write!(f, "act {} {}", op.code, op.arg),
            Command::Leave(pick) => write!(f, "leave {}", word(pick)),
            Command::Wait(cond, pick) => write!(f, "wait {cond} {}", word(pick)),
            Command::Signal(cond, pick) => write!(f, "signal {cond} {}", word(pick)),
            Command::SignalLeave(cond, pick) => write!(f, "signal-leave {cond} {}", word(pick)),
            Command::Until(pred, pick) => write!(f, "until {pred} {}", word(pick)),
            Command::SignalAll(cond) => write!(f, "signal-all {cond}"),
            Command::SignalWait(cond, wait_cond, pick) => {
                write!(f, "signal-wait {cond} {wait_cond} {}", word(pick))
            }
        }
    }
}

/// Returns the word of a wish.
fn word(pick: Pick) -> &'static str
    ensures { result.now ≡ pick_word pick }
{
    match pick {
        Pick::Entry => "entry",
        Pick::Waiter => "waiter",
        Pick::Signaller => "signaller",
    }
}
