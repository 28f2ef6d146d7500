//! Woken threads that a rival overtook on their way back.

ghost use Rattle.std.specs.Prelude.{◌≡◌, ◌<◌, ◌≤◌, None, ℕ, List, length, slice_index_or, slice_set};
ghost use Rattle.monk_logs.specs.declared.text.line.LogLine.{LogLine};
ghost use Rattle.monk_judge.specs.Hints.{AreWaiters, marked, other_than, passed_after, passed_of, passing_after, woken_on};
ghost use Rattle.monk_judge.specs.declared.place.Place.TheVariants.{Outside};

use crate::place::Place;
use crate::waiters::Waiters;
use monk_logs::{LINE_SEATS, LogLine};

/// Which woken threads were overtaken, by their seats. Each table has the condition on which a seat
/// was woken.
#[derive(Drop)]
pub(crate) struct Passed {
    /// The seats that have been woken since the visit in progress began, if nobody has signalled to
    /// their condition in it.
    passing: [Option<u8>; LINE_SEATS],
    /// The seats that were woken when a rival came, and that are not back since it left.
    seats: [Option<u8>; LINE_SEATS],
    ghost sized: { (length passing ≡ 256) × (length seats ≡ 256) },
}

impl Passed {
    /// Returns the state before any line: nobody was overtaken.
    pub(crate) fn nobody() -> Passed
        ensures passing { (j : ℕ) → j < 256 → slice_index_or result.passing j None ≡ None }
        ensures seats { (j : ℕ) → j < 256 → slice_index_or result.seats j None ≡ None }
    {
        Passed {
            passing: [None; LINE_SEATS],
            seats: [None; LINE_SEATS],
        }
    }

    /// Looks at a line that the judge has taken. `places` says where the seats are after it. If its
    /// thread comes back overtaken, returns the condition on which it was woken.
    pub(crate) fn look_at(
        &mut self,
        places: &[Place],
        waiters: &Waiters,
        line: LogLine,
    ) -> Option<u8>
        requires { length places.now ≤ 256 }
        ensures result { result ≡ passed_of line self.old.seats }
        ensures passing { (j : ℕ) → j < length places.now → slice_index_or self.new.passing j None
            ≡ passing_after line (slice_index_or places.now j Outside) (slice_index_or self.old.passing j None) }
        ensures seats { (log : List LogLine) → AreWaiters log waiters.now.table.items → (j : ℕ) → j < length places.now
            → slice_index_or self.new.seats j None
            ≡ passed_after line log j (slice_index_or self.old.passing j None) (slice_index_or self.old.seats j None) }
    {
        match line {
            LogLine::Enter(seat) => {
                self.begin_visit(places);
                self.take_back(seat)
            }
            LogLine::Resume(seat) | LogLine::Lapse(seat) => {
                self.begin_no_visit();
                self.take_back(seat)
            }
            LogLine::Leave(seat) => {
                self.end_visit(places.len(), waiters, seat);
                None
            }
            LogLine::Signal(_, cond) | LogLine::Broadcast(_, cond) => {
                self.signal(places.len(), cond);
                None
            }
            LogLine::Wait(..) | LogLine::Until(..) | LogLine::Act(..) => None,
        }
    }

    /// Returns the condition on which the seat was overtaken, if it was. It is back now.
    fn take_back(&mut self, seat: u8) -> Option<u8>
        ensures result { result ≡ slice_index_or self.old.seats seat None }
        ensures seats { self.new.seats ≡ slice_set self.old.seats seat None }
        ensures passing { self.new.passing ≡ self.old.passing }
    {
        let was = self.seats[usize::from(seat)];
        self.seats[usize::from(seat)] = None;
        was
    }

    /// A visit begins, which may overtake whoever is woken.
    fn begin_visit(&mut self, places: &[Place])
        requires { length places.now ≤ 256 }
        ensures passing { (j : ℕ) → j < length places.now
            → slice_index_or self.new.passing j None ≡ woken_on (slice_index_or places.now j Outside) }
        ensures seats { self.new.seats ≡ self.old.seats }
    {
        for (seat, place) in places.iter().enumerate() {
            self.passing[seat] = place.woken_on();
        }
    }

    /// A thread goes on, which overtakes nobody.
    fn begin_no_visit(&mut self)
        ensures passing { (j : ℕ) → j < 256 → slice_index_or self.new.passing j None ≡ None }
        ensures seats { self.new.seats ≡ self.old.seats }
    {
        self.passing = [None; LINE_SEATS];
    }

    /// The rival's visit ends. It overtook whom it might overtake, if the rival waits there too.
    fn end_visit(&mut self, seats: usize, waiters: &Waiters, rival: u8)
        requires { seats ≤ 256 }
        ensures seats { (log : List LogLine) → AreWaiters log waiters.now.table.items → (j : ℕ) → j < seats
            → slice_index_or self.new.seats j None
            ≡ marked log rival (slice_index_or self.old.passing j None) (slice_index_or self.old.seats j None) }
        ensures passing { self.new.passing ≡ self.old.passing }
    {
        for seat in 0..seats {
            self.seats[seat] = marked(waiters, rival, self.passing[seat], self.seats[seat]);
        }
    }

    /// A signal to the condition: the visit in progress overtakes nobody there.
    fn signal(&mut self, seats: usize, cond: u8)
        requires { seats ≤ 256 }
        ensures passing { (j : ℕ) → j < seats
            → slice_index_or self.new.passing j None ≡ other_than cond (slice_index_or self.old.passing j None) }
        ensures seats { self.new.seats ≡ self.old.seats }
    {
        for seat in 0..seats {
            self.passing[seat] = other_than(cond, self.passing[seat]);
        }
    }
}

/// Returns the condition, unless it is `cond`.
fn other_than(cond: u8, was: Option<u8>) -> Option<u8>
    ensures { result ≡ other_than cond was }
{
    match was {
        Some(on) if on != cond => Some(on),
        Some(_) | None => None,
    }
}

/// Returns the condition on which a seat was overtaken after a visit that may have overtaken it on
/// `passing`. It did if its seat waits there too.
fn marked(waiters: &Waiters, rival: u8, passing: Option<u8>, was: Option<u8>) -> Option<u8>
    ensures { (log : List LogLine) → AreWaiters log waiters.now.table.items → result ≡ marked log rival passing was }
{
    match passing {
        Some(cond) if waiters.has(rival, cond) => Some(cond),
        Some(_) | None => was,
    }
}
