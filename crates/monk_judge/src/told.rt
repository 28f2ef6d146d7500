//! What a line told, together with the silent steps that it shows.

ghost use Rattle.std.specs.Prelude.{◌≡◌};
ghost use Rattle.monk_judge.specs.Shown.{whom};

/// What a line told: all that the counts need to know of it.
#[derive(Clone, Copy, Debug, PartialEq, Eq)]
pub enum Told {
    /// Nothing of what follows.
    Plain,
    /// A thread took the lock while a woken one wasn't back. It came in, or came back from a wait that ran out.
    Passed,
    /// A signal that found nobody asleep.
    Unheard,
    /// A signal woke the seat.
    Woke(u8),
    /// A broadcast woke that number of threads.
    WokeAll(u8),
    /// A thread came back that nobody had woken.
    Spurious,
}

impl Told {
    /// Returns the seat that a signal woke.
    pub(crate) fn whom(self) -> Option<u8>
        ensures { result ≡ whom self }
    {
        match self {
            Told::Woke(seat) => Some(seat),
            Told::Plain | Told::Passed | Told::Unheard | Told::WokeAll(_) | Told::Spurious => None,
        }
    }
}
