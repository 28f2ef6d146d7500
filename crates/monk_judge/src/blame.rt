//! Why a line can't follow the lines before it.

ghost use Rattle.std.specs.Prelude.{◌≡◌};
ghost use Rattle.monk_judge.specs.Blame.{blame_sentence, blame_word};

/// Why no run tells the lines up to this one: the first of these that applies.
#[derive(Clone, Copy, Debug, PartialEq, Eq)]
pub enum Blame {
    /// A seat, a condition or a code is not one of the header's.
    Range,
    /// `until` is no call of a mutex.
    Call,
    /// A seat takes the lock while another holds it.
    Held,
    /// A seat does what only the holder of the lock may do, and doesn't have the lock.
    NoLock,
    /// A seat comes in, but it hasn't come back from its wait.
    Asleep,
    /// A seat comes back, but it doesn't wait.
    Awake,
    /// The object gives another reply.
    Reply,
}

impl Blame {
    /// Returns the word of the reason.
    pub fn text(self) -> &'static str
        ensures { result.now ≡ blame_word self }
    {
        match self {
            Blame::Range => "range",
            Blame::Call => "call",
            Blame::Held => "held",
            Blame::NoLock => "nolock",
            Blame::Asleep => "asleep",
            Blame::Awake => "awake",
            Blame::Reply => "reply",
        }
    }
    /// Returns what is wrong, in a sentence without its end. It also says what to look for.
    pub fn sentence(self) -> &'static str
        ensures { result.now ≡ blame_sentence self }
    {
        match self {
            Blame::Range => "the header has no such seat, condition or code",
            Blame::Call => {
                "until is no call of a mutex with condition variables; `monk complete --kind PIS` judges it"
            }
            Blame::Held =>
                "another seat holds the lock; did the recorder give two threads one seat?",
            Blame::NoLock => {
                "the seat doesn't hold the lock; does another thread unlock it, or did it wait without the lock?"
            }
            Blame::Asleep =>
                "the seat hasn't come back from its wait; do two threads have its seat?",
            Blame::Awake => "the seat doesn't wait; do two threads have its seat?",
            Blame::Reply => "the object replies otherwise: the seat relied on what no longer held",
        }
    }
}
