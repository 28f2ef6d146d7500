ghost use Rattle.std.specs.Prelude.{◌≡◌, ◌+◌, ◌%◌, ◌^◌, ◌==◌, ◌<◌, ◌≤◌, ◌||◌, Some, false, IfOk, if◌then◌else◌, nat_le, slice_index_or};
ghost use Rattle.monk_floor.specs.View.{FloorView};
ghost use Rattle.monk_history.specs.Meaning.Events.{is_stay};
ghost use Rattle.monk_world.specs.Steps as becomes;
ghost use Rattle.monk_world.specs.{Update.update, Stands.opening_world};
ghost use Rattle.monk_world.specs.WorldViews.{Shows, ShowsKnown, world_on, state_in};
ghost use Rattle.monk_world.specs.Steps.{after_arrive, after_ticket_look, after_seat_look, after_floor_out};
ghost use Rattle.monk_world.specs.Steps.{after_floor_in, after_drop, after_ticket_grant, after_seat_grant};

use crate::answer::Answer;
use crate::home::Home;
use crate::place::Place;
use crate::source::Source;
use crate::words::WorldWords;
use monk_history::Next;
use std::alloc::{AllocError, Global};

impl WorldWords {
    /// Makes the words as they are before any step.
    pub fn make(alloc: Global, seats: u8) -> Result<WorldWords, AllocError>
        ensures shows { IfOk result
            (λ w. (f : FloorView) → state_in w f ≡ record { world = opening_world; known = λ j. false; floor = f }) }
        ensures seats { IfOk result (λ w. w.seats ≡ seats) }
    {
        Ok(WorldWords {
            seats,
            drawn: 0,
            unpassed: 0,
            ticket_places: vec![in alloc; 0; seats as usize]?,
            seat_places: vec![in alloc; 0; seats as usize]?,
            places: vec![in alloc; Place::Idle; seats as usize]?,
            counts: vec![in alloc; 0; seats as usize]?,
            known: vec![in alloc; false; seats as usize]?,
        })
    }

    /// Returns where a seat is.
    pub fn place(&self, seat: u8) -> Place
        requires { seat < self.now.seats }
        ensures { result ≡ (world_on self.now).place seat }
    {
        self.places[seat as usize]
    }

    /// Whether a seat knows that somebody waits for entry.
    pub fn knows(&self, seat: u8) -> bool
        requires { seat < self.now.seats }
        ensures { result ≡ slice_index_or self.now.known.items seat false }
    {
        self.known[seat as usize]
    }

    /// Whether the place of a ticket has that ticket: it was granted.
    pub fn is_ticket_granted(&self, ticket: u32) -> bool
        requires seats { 0 < self.now.seats }
        requires ticket { ticket < 2 ^ 31 }
        ensures { result ≡ ((world_on self.now).ticket_place (ticket % self.now.seats) == ticket + 1) }
    {
        let at = ticket as usize % self.seats as usize;
        self.ticket_places[at] == ticket + 1
    }

    /// Whether the seat was called once more than it has counted.
    pub fn is_called(&self, seat: u8) -> bool
        requires seat { seat < self.now.seats }
        requires count { (world_on self.now).count seat < 2 ^ 31 }
        ensures { result ≡ ((world_on self.now).seat_place seat == (world_on self.now).count seat + 1) }
    {
        self.seat_places[seat as usize] == self.counts[seat as usize] + 1
    }

    /// Draws a ticket. If the monitor was free, the seat has the right.
    pub fn arrive(&mut self, seat: u8) -> Answer
        requires seat { seat < self.old.seats }
        requires drawn { self.old.drawn < 2 ^ 31 }
        requires unpassed { self.old.unpassed ≤ self.old.drawn }
        ensures answer { result ≡ Answer.Arrived self.old.drawn self.old.unpassed }
        ensures shows { Shows self.old (after_arrive (world_on self.old) seat) self.new }
    {
        let ticket = self.drawn;
        let found = self.unpassed;
        self.drawn = ticket + 1;
        self.unpassed = found + 1;
        self.places[seat as usize] = place_after_arrive(ticket, found);
        Answer::Arrived(ticket, found)
    }

    /// Looks whether the place of a ticket has that ticket: it was granted.
    pub fn ticket_look(&mut self, seat: u8, ticket: u32) -> Answer
        requires seat { seat < self.old.seats }
        requires ticket { ticket < 2 ^ 31 }
        ensures answer { result ≡ Answer.Looked
            ((world_on self.old).ticket_place (ticket % self.old.seats) == ticket + 1) }
        ensures shows { Shows self.old
            (after_ticket_look (world_on self.old) seat ticket
            ((world_on self.old).ticket_place (ticket % self.old.seats) == ticket + 1)) self.new }
    {
        let found = self.is_ticket_granted(ticket);
        self.places[seat as usize] = place_after_ticket_look(ticket, found);
        Answer::Looked(found)
    }

    /// Looks whether the seat was called once more than it has counted.
    pub fn seat_look(&mut self, seat: u8) -> Answer
        requires seat { seat < self.old.seats }
        requires count { (world_on self.old).count seat < 2 ^ 31 }
        ensures answer { result ≡ Answer.Looked
            ((world_on self.old).seat_place seat == (world_on self.old).count seat + 1) }
        ensures shows { Shows self.old
            (after_seat_look (world_on self.old) seat
            ((world_on self.old).seat_place seat == (world_on self.old).count seat + 1)) self.new }
    {
        let count = self.counts[seat as usize];
        let found = self.is_called(seat);
        self.counts[seat as usize] = count_after_seat_look(count, found);
        self.places[seat as usize] = place_after_seat_look(found);
        Answer::Looked(found)
    }

    /// Looks for the active seat how many tickets are not passed on. From two on, it knows of somebody at the entry.
    pub fn peek(&mut self, seat: u8) -> Answer
        requires { seat < self.old.seats }
        ensures answer { result ≡ Answer.Found self.old.unpassed }
        ensures shows { ShowsKnown self.old (world_on self.old)
            (update (λ j. slice_index_or self.old.known.items j false) seat
            (slice_index_or self.old.known.items seat false || nat_le 2 self.old.unpassed)) self.new }
    {
        let knew = self.known[seat as usize];
        self.known[seat as usize] = known_after(knew, self.unpassed);
        Answer::Found(self.unpassed)
    }

    /// Gives the floor to the seat, which doesn't know yet of anybody at the entry.
    pub fn floor_out(&mut self, seat: u8, source: Source) -> Answer
        requires { seat < self.old.seats }
        ensures answer { result ≡ Answer.Now }
        ensures shows { ShowsKnown self.old (after_floor_out (world_on self.old) seat source)
            (update (λ j. slice_index_or self.old.known.items j false) seat false) self.new }
    {
        self.places[seat as usize] = Place::Active(source);
        self.known[seat as usize] = false;
        Answer::Now
    }

    /// Takes the floor home with a choice, unless the seat stays.
    pub fn floor_in(&mut self, seat: u8, next: Next, home: Home) -> Answer
        requires { seat < self.old.seats }
        ensures answer { result ≡ Answer.Chose next }
        ensures shows { Shows self.old
            (if is_stay (Some next) then world_on self.old else after_floor_in (world_on self.old) seat next home)
            self.new }
    {
        let place = self.places[seat as usize];
        self.places[seat as usize] = after_choice(place, next, home);
        Answer::Chose(next)
    }

    /// Takes the seat off the ticket word. Then the monitor is free, or the next ticket is to be granted.
    pub fn drop_ticket(&mut self, seat: u8, home: Home) -> Answer
        requires seat { seat < self.old.seats }
        requires some { 0 < self.old.unpassed }
        requires unpassed { self.old.unpassed ≤ self.old.drawn }
        requires drawn { self.old.drawn < 2 ^ 31 }
        ensures answer { result ≡ Answer.Found self.old.unpassed }
        ensures shows { Shows self.old (after_drop (world_on self.old) seat home) self.new }
    {
        let found = self.unpassed;
        self.unpassed = found - 1;
        self.places[seat as usize] = place_after_drop(self.drawn, found, home);
        Answer::Found(found)
    }

    /// Grants a ticket through its place.
    pub fn ticket_grant(&mut self, seat: u8, ticket: u32, home: Home) -> Answer
        requires seat { seat < self.old.seats }
        requires ticket { ticket < 2 ^ 31 }
        ensures answer { result ≡ Answer.GrantedTicket ticket }
        ensures shows { Shows self.old (after_ticket_grant self.old.seats (world_on self.old) seat ticket home)
            self.new }
    {
        self.ticket_places[ticket as usize % self.seats as usize] = ticket + 1;
        self.places[seat as usize] = Place::of_home(home);
        Answer::GrantedTicket(ticket)
    }

    /// Calls a seat through its place.
    pub fn seat_grant(&mut self, seat: u8, called: u8, home: Home) -> Answer
        requires seat { seat < self.old.seats }
        requires called { called < self.old.seats }
        requires calls { (world_on self.old).seat_place called < 2 ^ 31 }
        ensures answer { result ≡ Answer.GrantedSeat called }
        ensures shows { Shows self.old (after_seat_grant (world_on self.old) seat called home) self.new }
    {
        self.seat_places[called as usize] += 1;
        self.places[seat as usize] = Place::of_home(home);
        Answer::GrantedSeat(called)
    }
}

/// Returns where a seat is after it drew this ticket, with `found` tickets not passed on before.
fn place_after_arrive(ticket: u32, found: u32) -> Place
    ensures { result ≡ becomes.place_after_arrive ticket found }
{
    if found == 0 {
        Place::Due(Source::Free(ticket))
    } else {
        Place::Ticket(ticket)
    }
}

/// Returns where a seat is after it looked whether its ticket was granted.
fn place_after_ticket_look(ticket: u32, found: bool) -> Place
    ensures { result ≡ becomes.place_after_ticket_look ticket found }
{
    if found {
        Place::Due(Source::Granted(ticket))
    } else {
        Place::Ticket(ticket)
    }
}

/// Returns where a seat is after it looked whether it was called.
fn place_after_seat_look(found: bool) -> Place
    ensures { result ≡ becomes.place_after_seat_look found }
{
    if found {
        Place::Due(Source::Called)
    } else {
        Place::Inner
    }
}

/// Returns how often a seat saw itself called, after a look.
fn count_after_seat_look(count: u32, found: bool) -> u32
    requires { count < 2 ^ 31 }
    ensures { result ≡ becomes.count_after_seat_look count found }
{
    if found { count + 1 } else { count }
}

/// Returns where a seat is after it took itself off the ticket word. Of `drawn` tickets `found` were not passed on.
fn place_after_drop(drawn: u32, found: u32, home: Home) -> Place
    requires some { 0 < found }
    requires found { found ≤ drawn }
    requires drawn { drawn < 2 ^ 31 }
    ensures { result ≡ becomes.place_after_drop drawn found home }
{
    if found == 1 {
        Place::of_home(home)
    } else {
        Place::Passing(drawn - found + 1, home)
    }
}

/// Whether a seat knows of somebody at the entry, after it found `found` tickets not passed on.
fn known_after(knew: bool, found: u32) -> bool
    ensures { result ≡ (knew || nat_le 2 found) }
{
    knew || found >= 2
}

/// Returns where an active seat is after a choice.
fn after_choice(place: Place, next: Next, home: Home) -> Place
    ensures { result ≡ (if is_stay (Some next) then place else Place.Back next home) }
{
    match next {
        Next::Stay => place,
        Next::Entry | Next::Waiter(_) | Next::Signaller(_) | Next::Until(_) => {
            Place::Back(next, home)
        }
    }
}
