//! Where a seat is after a step, by what it found.
ghost use Rattle.std.specs.Prelude.{◌≡◌, ◌+◌, ◌==◌};
ghost use Rattle.monk_world.specs.Steps.{place_after_arrive, place_after_ticket_look, place_after_seat_look, count_after_seat_look};
ghost use Rattle.monk_hall.specs.Layout.{tickets, unpassed};

use monk_world::{Place, Source};

/// What one drawn ticket adds to the ticket word, which counts them above its low 32 bits.
pub(crate) const TICKET: u64 = 1 << 32;

/// Returns how many tickets were drawn, by the ticket word.
pub(crate) fn tickets(word: u64) -> u32
    ensures { result ≡ tickets word }
{
    (word / TICKET) as u32
}

/// Returns how many tickets are not passed on, by the ticket word.
pub(crate) fn unpassed(word: u64) -> u32
    ensures { result ≡ unpassed word }
{
    (word % TICKET) as u32
}

/// Returns the place of a seat that drew a ticket and found this ticket word.
pub(crate) fn place_after_arrive(word: u64) -> Place
    ensures { result ≡ place_after_arrive (tickets word) (unpassed word) }
{
    let ticket = tickets(word);
    if unpassed(word) == 0 {
        Place::Due(Source::Free(ticket))
    } else {
        Place::Ticket(ticket)
    }
}

/// Returns the place of a seat that looked for its ticket and found this in the ticket's place.
pub(crate) fn place_after_ticket_look(ticket: u32, found: u64) -> Place
    ensures { result ≡ place_after_ticket_look ticket (found == ticket + 1) }
{
    if found == ticket as u64 + 1 {
        Place::Due(Source::Granted(ticket))
    } else {
        Place::Ticket(ticket)
    }
}

/// Whether the seat was called once more.
pub(crate) fn is_called(calls: u64, found: u64) -> bool
    ensures { result ≡ (found == calls + 1) }
{
    found != 0 && found - 1 == calls
}

/// Returns the place of a seat that looked for a call.
pub(crate) fn place_after_seat_look(called: bool) -> Place
    ensures { result ≡ place_after_seat_look called }
{
    if called {
        Place::Due(Source::Called)
    } else {
        Place::Inner
    }
}

/// Returns how often the seat was called by now, if it found this in its place.
pub(crate) fn count_after_seat_look(calls: u64, found: u64) -> u64
    ensures { result ≡ count_after_seat_look calls (found == calls + 1) }
{
    if is_called(calls, found) {
        found
    } else {
        calls
    }
}
