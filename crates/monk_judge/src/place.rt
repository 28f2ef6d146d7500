//! Where a thread is.

ghost use Rattle.std.specs.Prelude.{◌≡◌, ℕ, slice_index_or};
ghost use Rattle.monk_judge.specs.{Counts.is_asleep, Counts.is_woken, Counts.waits_on, Hints.woken_on, Run.run_out};
ghost use Rattle.monk_judge.specs.{Run.woken, Run.woken_unasked, declared.place.Place.TheVariants.Outside};

use std::fmt;

/// Where a thread is, by the log and the silent steps before it.
#[derive(Clone, Copy, Debug, PartialEq, Eq)]
pub enum Place {
    /// It neither holds the lock nor waits.
    Outside,
    /// It holds the lock.
    Active,
    /// It sleeps on the condition.
    Waiting(u8),
    /// It was woken on the condition, and doesn't have the lock yet.
    Woken(u8),
    /// Its wait on the condition ran out, and it doesn't have the lock yet.
    RanOut(u8),
}

impl Place {
    /// Whether a thread there sleeps.
    pub(crate) fn is_asleep(self) -> bool
        ensures { result ≡ is_asleep self }
    {
        matches!(self, Place::Waiting(_))
    }

    /// Whether a thread there sleeps on the condition.
    pub(crate) fn waits_on(self, cond: u8) -> bool
        ensures { result ≡ waits_on cond self }
    {
        match self {
            Place::Waiting(on) => on == cond,
            Place::Outside | Place::Active | Place::Woken(_) | Place::RanOut(_) => false,
        }
    }

    /// Whether a thread there was woken.
    pub(crate) fn is_woken(self) -> bool
        ensures { result ≡ is_woken self }
    {
        matches!(self, Place::Woken(_))
    }

    /// Returns the condition on which a thread there was woken.
    pub(crate) fn woken_on(self) -> Option<u8>
        ensures { result ≡ woken_on self }
    {
        match self {
            Place::Woken(on) => Some(on),
            Place::Outside | Place::Active | Place::Waiting(_) | Place::RanOut(_) => None,
        }
    }

    /// Returns the place of a thread after its wait runs out.
    pub(crate) fn run_out(self) -> Place
        ensures { result ≡ run_out self }
    {
        match self {
            Place::Waiting(on) => Place::RanOut(on),
            Place::Outside | Place::Active | Place::Woken(_) | Place::RanOut(_) => self,
        }
    }

    /// Returns the place of a thread after it wakes though nobody sent a signal.
    pub(crate) fn woken_unasked(self) -> Place
        ensures { result ≡ woken_unasked self }
    {
        match self {
            Place::Waiting(on) => Place::Woken(on),
            Place::Outside | Place::Active | Place::Woken(_) | Place::RanOut(_) => self,
        }
    }

    /// Returns the place of a thread after a broadcast to the condition.
    fn woken(self, cond: u8) -> Place
        ensures { result ≡ woken cond self }
    {
        match self {
            Place::Waiting(on) if on == cond => Place::Woken(on),
            Place::Outside
            | Place::Active
            | Place::Waiting(_)
            | Place::Woken(_)
            | Place::RanOut(_) => self,
        }
    }
}

/// As in `waiting 1`.
impl fmt::Display for Place {
    ghost use Rattle.std.specs.Prelude.{Some};
    ghost use Rattle.monk_judge.specs.Text.{place_text};

    ghost output = { λ p. Some (place_text p) };

    fn fmt<W: fmt::Write>(&self, f: &mut fmt::Formatter<W>) -> fmt::Result {
        match *self {
            Place::Outside => write!(f, "outside"),
            Place::Active => write!(f, "active"),
            Place::Waiting(cond) => write!(f, "waiting {cond}"),
            Place::Woken(cond) => write!(f, "woken {cond}"),
            Place::RanOut(cond) => write!(f, "out {cond}"),
        }
    }
}

/// Wakes all who sleep on the condition.
pub(crate) fn mark_woken(places: &mut [Place], cond: u8)
    ensures { (k : ℕ) → slice_index_or places.new k Outside ≡ woken cond (slice_index_or places.old k Outside) }
{
    for place in places.iter_mut() {
        *place = place.woken(cond);
    }
}
