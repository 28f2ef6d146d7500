//! Why a line of a log can't come from a monitor.

ghost use Rattle.std.specs.Prelude.{◌≡◌};
ghost use Rattle.monk_audit.specs.Reasons.{number_of};
ghost use Rattle.monk_completion.specs.Blame.{blame_number, blame_of, blame_word, early_blame_of};

use monk_audit::Reason;

/// Why a line can't follow the lines before it: the first of these that applies. Lines are tested
/// in this order.
#[derive(Clone, Copy, Debug, PartialEq, Eq)]
pub enum Blame {
    /// A seat, a condition, a predicate or a code of the line is out of range.
    Range,
    /// The kind of monitor has no such call. Or, under immediate return, a signal is not followed
    /// by a `leave` or a `wait` of its own seat.
    Call,
    /// It is not the turn of the line's seat, whatever the release before it chose: the seat is
    /// outside or active, or somebody else is active.
    Turn,
    /// A task comes in that is inside already.
    Place,
    /// The reply is not the object's.
    Reply,
    /// A seat goes on that waits on a condition and wasn't served, or that waits until a predicate that doesn't hold.
    Unserved,
    /// A `lapse` says that a timed wait ran out. No history tells that, so every `lapse` has this
    /// reason or an earlier one.
    Served,
    /// A seat goes on that is in its queue, but not at the front.
    Order,
    /// The priorities don't permit what the release before it must have chosen: that release is to blame.
    Choice,
}

impl Blame {
    /// Returns the number of the reason, 1 to 9.
    pub fn number(self) -> u8
        ensures { result ≡ blame_number self }
    {
        match self {
            Blame::Range => 1,
            Blame::Call => 2,
            Blame::Turn => 3,
            Blame::Place => 4,
            Blame::Reply => 5,
            Blame::Unserved => 6,
            Blame::Served => 7,
            Blame::Order => 8,
            Blame::Choice => 9,
        }
    }

    /// Returns the word of the reason.
    pub fn text(self) -> &'static str
        ensures { result.now ≡ blame_word self }
    {
        match self {
            Blame::Range => "range",
            Blame::Call => "call",
            Blame::Turn => "turn",
            Blame::Place => "place",
            Blame::Reply => "reply",
            Blame::Unserved => "unserved",
            Blame::Served => "served",
            Blame::Order => "order",
            Blame::Choice => "choice",
        }
    }

    /// Returns the blame for an audit's reason, if the event alone decides it.
    pub(crate) fn of_early_reason(reason: Reason) -> Option<Blame>
        ensures { result ≡ early_blame_of (number_of reason) }
    {
        match reason {
            Reason::Range => Some(Blame::Range),
            Reason::Call => Some(Blame::Call),
            Reason::Turn => None,
            Reason::Place => None,
            Reason::Reply => None,
            Reason::Choice => None,
        }
    }

    /// Returns the blame for an audit's reason.
    pub(crate) fn of_reason(reason: Reason) -> Blame
        ensures { result ≡ blame_of (number_of reason) }
    {
        match reason {
            Reason::Range => Blame::Range,
            Reason::Call => Blame::Call,
            Reason::Turn => Blame::Turn,
            Reason::Place => Blame::Place,
            Reason::Reply => Blame::Reply,
            Reason::Choice => Blame::Choice,
        }
    }
}
