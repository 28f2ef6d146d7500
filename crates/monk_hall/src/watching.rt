//! What a thread does while it waits, in the one order that misses no wake. It looks at the word where its grant will
//! come, polls, and then sleeps on what it saw. Each stage has its own type, which only the stage before it makes.
ghost use Rattle.std.specs.Prelude.{◌≡◌, ◌<◌, IfOk, IfErr};
ghost use Rattle.monk_hall.specs.{Calls.ComesAfter, Calls.HasEntered, Calls.StillWaits, Layout.waiting_word};

use crate::active::Active;
use crate::hall::Hall;
use crate::parked::Parked;
use crate::places::{tickets, unpassed};
use crate::steps::{Words, seat_word, ticket_word};
use monk_history::MOST_SEATS;
use monk_kinds::Kind;
use monk_object::Guarded;
use monk_world::Place;
use std::sync::Wait;
use std::sync::atomic::AtomicU64;
use std::sync::atomic::Ordering::SeqCst;

/// A waiting seat that has looked at its word and has not polled yet.
pub(crate) struct Watched<K: Kind, T: Guarded> {
    parked: Parked<K, T>,
    word: usize,
    seen: u64,
    ghost near: { word < parked.hall.words },
}

/// A waiting seat that has polled and found no grant, with what it saw in its word before.
pub(crate) struct Polled<K: Kind, T: Guarded> {
    parked: Parked<K, T>,
    word: usize,
    seen: u64,
    ghost near: { word < parked.hall.words },
}

impl<K: Kind, T: Guarded> Parked<K, T> {
    /// Returns the word where the seat will find its grant. A seat that is due needs none.
    pub fn word(&self, hall: &Hall<K, T>) -> usize
        requires { self.now.hall ≡ hall.now.id }
        ensures word { result ≡ waiting_word self.now.me }
        ensures near { result < hall.now.id.words }
    {
        match self.place {
            Place::Ticket(ticket) => ticket_word(hall.seats, ticket),
            _ => seat_word(self.numbers.seat),
        }
    }

    /// Returns how many visits come before that of a seat with a ticket, at least 1, at most as many as there can be
    /// seats. For a seat inside nobody knows. It is a load of the ticket word, and tells nothing.
    fn visits_before(&self, hall: &Hall<K, T>) -> Option<u8>
        requires { self.now.hall ≡ hall.now.id }
    {
        match self.place {
            Place::Ticket(ticket) => {
                let found = hall.words.peek(0);
                let first = tickets(found).wrapping_sub(unpassed(found));
                let visits = ticket.wrapping_sub(first);
                Some(visits.clamp(1, u32::from(MOST_SEATS)) as u8)
            }
            _ => None,
        }
    }

    /// The first stage: looks at its word.
    pub(crate) fn watch(self, hall: &Hall<K, T>) -> Watched<K, T>
        requires { self.hall ≡ hall.now.id }
        ensures { (result.parked ≡ self) × (result.word ≡ waiting_word self.me) }
    {
        let word = self.word(hall);
        let seen = hall.words.peek(word);
        Watched {
            parked: self,
            word,
            seen,
        }
    }
}

impl<K: Kind, T: Guarded> Watched<K, T> {
    /// The second stage: polls.
    pub(crate) fn poll(self, hall: &Hall<K, T>) -> Result<Active<K, T>, Polled<K, T>>
        requires { self.parked.hall ≡ hall.now.id }
        ensures active { IfOk result (λ a. HasEntered K.rules T.meaning self.parked a
            × ComesAfter 0 self.parked.me a.me) }
        ensures parked { IfErr result (λ p. StillWaits K.rules T.meaning self.parked p.parked) }
        ensures same { IfErr result (λ p. (p.word ≡ self.word) × (p.seen ≡ self.seen)) }
    {
        let Watched { parked, word, seen } = self;
        match parked.poll(hall) {
            Ok(active) => Ok(active),
            Err(parked) => Err(Polled { parked, word, seen }),
        }
    }
}

impl<K: Kind, T: Guarded> Polled<K, T> {
    /// The third stage: spins, and then sleeps, until its word is no longer what it saw there before the poll. It may
    /// return earlier.
    pub(crate) fn sleep<R: Wait>(self, rt: &R, hall: &Hall<K, T>) -> Parked<K, T>
        requires { self.parked.hall ≡ hall.now.id }
        ensures { result ≡ self.parked }
    {
        let Polled { parked, word, seen } = self;
        let visits = parked.visits_before(hall);
        let looks = hall.pace.looks_for(hall.seats, visits);
        let changed = changes_within(&hall.words, word, seen, looks);
        hall.pace.learn(hall.seats, visits, changed);
        if !changed {
            let marked = hall.words.mark(word);
            hall.words.park(rt, marked, (seen % (1 << 32)) as u32);
        }
        parked
    }
}

/// Whether the word is found changed by one of so many looks.
///
/// The kit's `spin_loop` does nothing. So a look is followed by an atomic step on a word of the thread's own. That
/// takes some 20 cycles however the program is compiled: as long as a processor's own instruction for this.
fn changes_within<K: Kind, T: Guarded>(
    words: &Words<K, T>,
    word: usize,
    seen: u64,
    looks: u32,
) -> bool
    requires { word < words.now.table.shared.table_id.words }
{
    let beat = AtomicU64::new(0);
    for _ in 0..looks {
        if words.peek(word) != seen {
            return true;
        }
        beat.fetch_add(1, SeqCst);
    }
    false
}
