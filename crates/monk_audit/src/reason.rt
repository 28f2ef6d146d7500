//! The reasons against an event.

ghost use Rattle.std.specs.Prelude.{◌≡◌};
ghost use Rattle.monk_audit.specs.Reasons.{caption_of, number_of, numbered, word_of};

/// Why an event is not allowed: the first of six tests that it fails, in the order in which they are made.
#[derive(Clone, Copy, Debug, PartialEq, Eq)]
pub enum Reason {
    /// A seat, a condition, a predicate or a code is out of range.
    Range,
    /// The kind of monitor has no such call.
    Call,
    /// It is not the turn of this event.
    Turn,
    /// The task is inside already, or may not enter in this way.
    Place,
    /// The reply is not the object's.
    Reply,
    /// The priorities don't permit what the event chose.
    Choice,
}

impl Reason {
    /// Returns the number of the reason, 1 to 6: which of the tests it is.
    pub fn number(self) -> u8
        ensures { result ≡ number_of self }
    {
        match self {
            Reason::Range => 1,
            Reason::Call => 2,
            Reason::Turn => 3,
            Reason::Place => 4,
            Reason::Reply => 5,
            Reason::Choice => 6,
        }
    }

    /// Returns the reason with the number, or the last reason if none has it.
    pub fn numbered(number: u8) -> Reason
        ensures { result ≡ numbered number }
    {
        match number {
            1 => Reason::Range,
            2 => Reason::Call,
            3 => Reason::Turn,
            4 => Reason::Place,
            5 => Reason::Reply,
            _ => Reason::Choice,
        }
    }

    /// Returns the word of the reason, as in the line of an audit.
    pub fn as_str(self) -> &'static str
        ensures { result.now ≡ word_of self }
    {
        match self {
            Reason::Range => "range",
            Reason::Call => "call",
            Reason::Turn => "turn",
            Reason::Place => "place",
            Reason::Reply => "reply",
            Reason::Choice => "choice",
        }
    }

    /// Returns what a picture says of an event that is not allowed for this reason: the word and its meaning.
    pub fn caption(self) -> &'static str
        ensures { result.now ≡ caption_of self }
    {
        match self {
            Reason::Range => "range, a number that the monitor doesn't have",
            Reason::Call => "call, this kind has no such call",
            Reason::Turn => "turn, it is not this seat's turn",
            Reason::Place => "place, this seat may not come in here",
            Reason::Reply => "reply, the object replies otherwise",
            Reason::Choice => "choice, this kind lets another seat go on",
        }
    }
}
