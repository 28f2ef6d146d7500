//! What a seat does at the table.
use monk_history::Event;
use std::collections::LinkedList;

/// A step of one seat, with what it found. It is for contracts: no value of it is made.
pub enum Deed {
    /// Step 1: draws this ticket (the first number). The second is how many were not passed on.
    Arrive(u32, u32),
    /// Step 2: looks at the place of its ticket, and finds its grant there or not.
    LookForTicket(bool),
    /// Step 3: looks at its own place, and finds its call there or not.
    LookForCall(bool),
    /// Step 4: while active, finds how many tickets are not passed on.
    Peek(u32),
    /// Step 5, out: the floor comes to it.
    FloorOut,
    /// Step 5, in: the floor goes home, with these new events.
    FloorIn(LinkedList<Event>),
    /// Step 6: passes on the ticket in use, by the ticket word. The number is how many were not passed on.
    Drop(u32),
    /// Step 7: grants this ticket.
    GrantTicket(u32),
    /// Step 8: calls this seat.
    CallSeat(u8),
    /// Two seats share what they have seen, by a step of each.
    Meet,
}
