//! The words of a hall's table, and one function for each kind of step on them. No other module can reach the words:
//! what the calls of the tokens do there is made of these functions. A step that grants returns what it granted, which
//! the caller has to wake.
ghost use Rattle.std.specs.Prelude.{◌≡◌, ℕ, ◌+◌, ◌<◌, ◌≤◌, [], ◌∷◌, Some, None, length, IfOk, IfSome};
ghost use Rattle.atomic_table.specs.Table.{Allows, Joins, Splits, opening, step};
ghost use Rattle.monk_world.specs.declared.place.Place.TheVariants.{Idle, Back};
ghost use Rattle.monk_world.specs.Places.{stage, ticket, ticketed_stage, due_stage, active_stage, inside_stage};
ghost use Rattle.monk_history.specs.declared.event.Next.{Next};
ghost use Rattle.monk_hall.specs.{Floors.Finds, Rule.setting_of, Schedules.IsReached};
ghost use Rattle.monk_hall.specs.Layout.{unpassed, ticket_word, seat_word, word_count};
ghost use Rattle.monk_hall.specs.Records.{IsOne, the, head, tail, first_view};
ghost use Rattle.monk_hall.specs.Tells.{TellsArrive, TellsTicketLook, TellsSeatLook, TellsPeek, TellsDrop, Returns};
ghost use Rattle.monk_hall.specs.Tells.{IsOfTable, IsSameSeat, TellsCompare};
ghost use Rattle.monk_hall.specs.Changes.{record_after_floor_out, record_after_floor_in, home_at, view_after_join};

pub(crate) mod alone;
mod grants;

use crate::boxed_floor::BoxedFloor;
use crate::places::TICKET;
use crate::plays::{
    ArriveStep, CompareStep, Deal, DropStep, FloorInStep, FloorOutStep, Meet, NeverStep, Part,
    PeekStep, SeatLookStep, TicketLookStep,
};
use crate::record::View;
use crate::rule::{HallTable, SharedTable, TableSeat};
use crate::setup::Setup;
use crate::sleepers::{Marked, Sleepers};
use crate::steps::alone::Alone;
use atomic_table::{Play, Refused, Table};
pub use grants::Granted;
pub(crate) use grants::{seat_grant, ticket_grant};
use monk_kinds::Kind;
use monk_object::Guarded;
use std::alloc::{AllocError, Global};
use std::marker::Model;
use std::snapshot::Snapshot;
use std::sync::Wait;

/// The table of a hall. Only this module can reach its words.
#[derive(Drop)]
pub(crate) struct Words<K: Kind, T: Guarded> {
    table: HallTable<K, T>,
    sleepers: Sleepers,
}

impl<K: Kind, T: Guarded> Words<K, T> {
    /// Lays out these words and this slot. The first seat has all records.
    pub(crate) fn new(
        alloc: Global,
        words: &[u64],
        slots: Vec<Option<BoxedFloor<K, T>>>,
        setup: &Setup<T>,
    ) -> Result<(Words<K, T>, First<K, T>), AllocError>
        requires { IsReached K.rules T.meaning
            (setting_of (T.state setup.now.opening.value) setup.now.seats setup.now.conds setup.now.budget)
            (opening words.now slots.items
            (first_view
            (setting_of (T.state setup.now.opening.value) setup.now.seats setup.now.conds setup.now.budget))) }
        ensures { IfOk result
            (λ t. (t.0.table.shared.table_id.words ≡ length words.now)
            × (t.0.table.shared.table_id.slots ≡ length slots.items)
            × (t.1.seat.table_id ≡ t.0.table.shared.table_id)
            × (t.1.seat.me ≡ (
              first_view
                  (setting_of (T.state setup.now.opening.value) setup.now.seats setup.now.conds setup.now.budget),
              [],
            ))
            × (t.0.table.shared.key ≡ setup.now)) }
    {
        let sleepers = Sleepers::none(alloc, words.len())?;
        match Table::new(alloc, words, slots, setup) {
            Ok((table, seat)) => Ok((Words { table, sleepers }, First { seat })),
            Err(Refused { slots: _ }) => Err(AllocError),
        }
    }

    /// Gives the next seat its record, out of the view that has them all. It is a load.
    pub(crate) fn deal(&self, first: &mut First<K, T>) -> TableSeat<K, T>
        requires { (first.old.seat.table_id ≡ self.now.table.shared.table_id)
            × (0 < self.now.table.shared.table_id.words)
            × Splits (IsReached K.rules T.meaning
            (setting_of (T.state self.now.table.shared.key.opening.value) self.now.table.shared.key.seats
            self.now.table.shared.key.conds self.now.table.shared.key.budget))
            first.old.seat.id first.old.seat.me.0 (tail first.old.seat.me.0) (head first.old.seat.me.0) }
        ensures { (first.new.seat.table_id ≡ first.old.seat.table_id)
            × (first.new.seat.id ≡ first.old.seat.id)
            × (first.new.seat.me ≡ (tail first.old.seat.me.0, first.old.seat.me.1))
            × (result.table_id ≡ first.old.seat.table_id) × (result.me ≡ (head first.old.seat.me.0, [])) }
    {
        self.table.shared.split_seat::<Deal>(&mut first.seat)
    }

    /// Brings two idle seats into one view. It is a load.
    pub(crate) fn join(&self, seat: &mut TableSeat<K, T>, other: TableSeat<K, T>)
        requires { (seat.old.table_id ≡ self.now.table.shared.table_id)
            × (other.table_id ≡ self.now.table.shared.table_id) × (other.me.1 ≡ [])
            × (0 < self.now.table.shared.table_id.words)
            × Joins (IsReached K.rules T.meaning
            (setting_of (T.state self.now.table.shared.key.opening.value) self.now.table.shared.key.seats
            self.now.table.shared.key.conds self.now.table.shared.key.budget))
            seat.old.id seat.old.me.0 other.id other.me.0 (view_after_join seat.old.me.0 other.me.0) [] }
        ensures { (seat.new.table_id ≡ seat.old.table_id) × (seat.new.id ≡ seat.old.id)
            × (seat.new.me ≡ (view_after_join seat.old.me.0 other.me.0, seat.old.me.1)) }
    {
        self.table.shared.join_seat::<Meet>(seat, other);
    }

    /// In one view, the two share what they have seen. It is a load.
    pub(crate) fn compare(&self, seat: &mut TableSeat<K, T>) -> u64
        requires { (seat.old.table_id ≡ self.now.table.shared.table_id)
            × (0 < self.now.table.shared.table_id.words)
            × Allows (IsReached K.rules T.meaning
            (setting_of (T.state self.now.table.shared.key.opening.value) self.now.table.shared.key.seats
            self.now.table.shared.key.conds self.now.table.shared.key.budget))
            self.now.table.shared.table_id.slots seat.old.id seat.old.me 0 (λ n. n)
            (TellsCompare K.rules T.meaning seat.old.me) }
        ensures { (seat.new.table_id ≡ seat.old.table_id) × (seat.new.id ≡ seat.old.id)
            × TellsCompare K.rules T.meaning seat.old.me result seat.new.me }
    {
        self.table.shared.load::<CompareStep>(seat, 0)
    }

    /// Then they part. It is a load.
    pub(crate) fn part(&self, seat: &mut TableSeat<K, T>) -> TableSeat<K, T>
        requires { (seat.old.table_id ≡ self.now.table.shared.table_id)
            × (0 < self.now.table.shared.table_id.words)
            × Splits (IsReached K.rules T.meaning
            (setting_of (T.state self.now.table.shared.key.opening.value) self.now.table.shared.key.seats
            self.now.table.shared.key.conds self.now.table.shared.key.budget))
            seat.old.id seat.old.me.0 (head seat.old.me.0) (tail seat.old.me.0) }
        ensures { (seat.new.table_id ≡ seat.old.table_id) × (seat.new.id ≡ seat.old.id)
            × (seat.new.me ≡ (head seat.old.me.0, seat.old.me.1)) × (result.table_id ≡ seat.old.table_id)
            × (result.me ≡ (tail seat.old.me.0, [])) }
    {
        self.table.shared.split_seat::<Part>(seat)
    }

    /// What two active seats of one table could do, if there were two.
    pub(crate) fn never(&self, a: &mut TableSeat<K, T>, b: &mut TableSeat<K, T>)
        requires tables { (a.old.table_id ≡ self.now.table.shared.table_id)
            × (b.old.table_id ≡ self.now.table.shared.table_id)
            × (0 < self.now.table.shared.table_id.words) }
        requires first { IsOne a.old.me.0 × (stage (the a.old.me.0).place ≡ active_stage) }
        requires second { IsOne b.old.me.0 × (stage (the b.old.me.0).place ≡ active_stage) }
        ensures { ⊥ }
    {
        let other = self.table.shared.split_seat::<Deal>(b);
        self.table.shared.join_seat::<Meet>(a, other);
        self.table.shared.load::<NeverStep>(a, 0);
    }

    /// What a waiting thread sees in its word. It is a load, and tells nothing.
    pub(crate) fn peek(&self, word: usize) -> u64
        requires { word < self.now.table.shared.table_id.words }
    {
        self.table.shared.peek(word)
    }

    /// Says that a thread is about to sleep on the word.
    pub(crate) fn mark(&self, word: usize) -> Marked
        ensures { result.word ≡ word }
    {
        self.sleepers.mark(word)
    }

    /// Sleeps on the marked word if its low 32 bits are `expected`, until a wake. It may return earlier. Only a mark
    /// that was set before lets a thread sleep.
    pub(crate) fn park<R: Wait>(&self, rt: &R, marked: Marked, expected: u32)
        requires { marked.word < self.now.table.shared.table_id.words }
    {
        self.table.shared.park(rt, marked.word(), expected);
        self.sleepers.clear(marked);
    }

    /// Wakes the thread that sleeps on the word, if the word's mark says that one may.
    #[inline(always)]
    fn wake_sleeper(&self, word: usize)
        requires { word < self.now.table.shared.table_id.words }
    {
        if self.sleepers.may_sleep(word) {
            self.table.shared.wake_one(word);
        }
    }
}

/// The first seat of a table, which has the records of all seats, until each seat gets its own.
#[derive(Drop)]
pub(crate) struct First<K: Kind, T: Guarded> {
    seat: TableSeat<K, T>,
}

/// What an arrival adds: one ticket drawn, and one more not passed on.
const ARRIVAL: u64 = TICKET + 1;

/// Returns the word that has the place of a ticket.
pub(crate) fn ticket_word(seats: u8, ticket: u32) -> usize
    requires { 0 < seats }
    ensures { result ≡ ticket_word seats ticket }
{
    2 * (ticket % seats as u32) as usize + 1
}

/// Returns the place of the ticket that follows the one with this place.
fn word_after(seats: u8, word: usize) -> usize
    requires { 0 < seats }
    ensures { result < word_count seats }
{
    let next = word.wrapping_add(2);
    if next < 2 * seats as usize { next } else { 1 }
}

/// Returns the word that has the place of a seat.
pub(crate) fn seat_word(seat: u8) -> usize
    ensures { result ≡ seat_word seat }
{
    2 * seat as usize + 2
}

/// Step 1: draws a ticket. Returns the ticket word as it was.
#[inline(always)]
pub(crate) fn arrive<K: Kind, T: Guarded>(words: &Words<K, T>, seat: &mut TableSeat<K, T>) -> u64
    requires table { IsOfTable seat.old words.now.table.shared.table_id words.now.table.shared.key.seats }
    requires idle { IsOne seat.old.me.0 × ((the seat.old.me.0).place ≡ Idle)
        × (length (the seat.old.me.0).mine + 2 ≤ (the seat.old.me.0).setting.budget) }
    ensures table { IsSameSeat seat.old seat.new }
    ensures step { TellsArrive seat.old.me result seat.new.me }
{
    let words = &words.table.shared;
    words.fetch_add::<ArriveStep>(seat, 0, ARRIVAL)
}

/// Step 2: looks at the place of its ticket. Returns what it found there.
#[inline(always)]
pub(crate) fn ticket_look<K: Kind, T: Guarded>(
    words: &Words<K, T>,
    seat: &mut TableSeat<K, T>,
    seats: u8,
    number: u32,
) -> u64
    requires table { IsOfTable seat.old words.now.table.shared.table_id words.now.table.shared.key.seats }
    requires seats { (seats ≡ words.now.table.shared.key.seats) × (0 < seats) }
    requires waits { IsOne seat.old.me.0 × (stage (the seat.old.me.0).place ≡ ticketed_stage)
        × (number ≡ ticket (the seat.old.me.0).place) }
    ensures table { IsSameSeat seat.old seat.new }
    ensures step { TellsTicketLook seat.old.me result seat.new.me }
{
    let words = &words.table.shared;
    let place = ticket_word(seats, number);
    words.load::<TicketLookStep>(seat, place)
}

/// Step 3: looks at its own place. Returns what it found there.
#[inline(always)]
pub(crate) fn seat_look<K: Kind, T: Guarded>(
    words: &Words<K, T>,
    seat: &mut TableSeat<K, T>,
    number: u8,
) -> u64
    requires table { IsOfTable seat.old words.now.table.shared.table_id words.now.table.shared.key.seats }
    requires near { number < words.now.table.shared.key.seats }
    requires parked { IsOne seat.old.me.0 × (stage (the seat.old.me.0).place ≡ inside_stage)
        × (number ≡ (the seat.old.me.0).seat) }
    ensures table { IsSameSeat seat.old seat.new }
    ensures step { TellsSeatLook seat.old.me result seat.new.me }
{
    let words = &words.table.shared;
    let place = seat_word(number);
    words.load::<SeatLookStep>(seat, place)
}

/// Step 4: looks at the ticket word while active. Returns what it found there.
#[inline(always)]
pub(crate) fn peek<K: Kind, T: Guarded>(words: &Words<K, T>, seat: &mut TableSeat<K, T>) -> u64
    requires table { IsOfTable seat.old words.now.table.shared.table_id words.now.table.shared.key.seats }
    requires active { IsOne seat.old.me.0 × (stage (the seat.old.me.0).place ≡ active_stage) }
    ensures table { IsSameSeat seat.old seat.new }
    ensures step { TellsPeek seat.old.me result seat.new.me }
{
    let words = &words.table.shared;
    words.load::<PeekStep>(seat, 0)
}

/// Step 4, by which a hall ends: the same look. Returns what `close` needs, if it found no ticket but the one in use.
pub(crate) fn peek_alone<K: Kind, T: Guarded>(
    words: &Words<K, T>,
    seat: &mut TableSeat<K, T>,
) -> Option<Alone<SharedTable<K, T>>>
    requires table { IsOfTable seat.old words.now.table.shared.table_id words.now.table.shared.key.seats }
    requires active { IsOne seat.old.me.0 × (stage (the seat.old.me.0).place ≡ active_stage) }
    ensures table { IsSameSeat seat.old seat.new }
    ensures step { (found : ℕ) × TellsPeek seat.old.me found seat.new.me
        × IfSome result (λ a. (a.found ≡ found) × (a.of.value ≡ words.now.table.shared))
        × (result ≡ None → 2 ≤ unpassed found) }
{
    let found = peek(words, seat);
    Alone::of(found, &words.table.shared)
}

/// Step 5, out: the floor comes to the seat that is due.
#[inline(always)]
pub(crate) fn floor_out<K: Kind, T: Guarded>(
    words: &Words<K, T>,
    seat: &mut TableSeat<K, T>,
) -> BoxedFloor<K, T>
    requires table { IsOfTable seat.old words.now.table.shared.table_id words.now.table.shared.key.seats }
    requires due { IsOne seat.old.me.0 × (seat.old.me.1 ≡ []) × (stage (the seat.old.me.0).place ≡ due_stage) }
    ensures table { IsSameSeat seat.old seat.new }
    ensures seat { seat.new.me ≡ (record_after_floor_out (the seat.old.me.0) result.history ∷ [], (0, None) ∷ []) }
    ensures finds { Finds K.rules T.meaning (the seat.old.me.0) result }
{
    let words = &words.table.shared;
    words.load::<FloorOutStep>(seat, 0);
    words.exchange(seat, 0, None).unwrap()
}

/// Step 5, in: the active seat takes the floor home, with the release that it has recorded.
#[inline(always)]
pub(crate) fn floor_in<K: Kind, T: Guarded>(
    words: &Words<K, T>,
    seat: &mut TableSeat<K, T>,
    floor: BoxedFloor<K, T>,
)
    requires table { IsOfTable seat.old words.now.table.shared.table_id words.now.table.shared.key.seats }
    requires active { IsOne seat.old.me.0 × (seat.old.me.1 ≡ (0, None) ∷ [])
        × (stage (the seat.old.me.0).place ≡ active_stage) }
    requires returns { Returns K.rules T.meaning (the seat.old.me.0) floor }
    ensures table { IsSameSeat seat.old seat.new }
    ensures step { seat.new.me ≡ (record_after_floor_in (the seat.old.me.0) floor.history ∷ [], []) }
{
    let words = &words.table.shared;
    let spare = words.exchange(seat, 0, Some(floor));
    match spare {
        None => {}
        // The slot is empty while the floor is out.
        Some(_) => unreachable!(),
    }
    words.load::<FloorInStep>(seat, 0);
}

/// Step 6: takes the seat off the ticket word. Returns the word as it was.
#[inline(always)]
pub(crate) fn drop_ticket<K: Kind, T: Guarded>(
    words: &Words<K, T>,
    seat: &mut TableSeat<K, T>,
) -> u64
    requires table { IsOfTable seat.old words.now.table.shared.table_id words.now.table.shared.key.seats }
    requires back { IsOne seat.old.me.0
        × ((the seat.old.me.0).place ≡ Back Next.Entry (home_at (the seat.old.me.0).place)) }
    ensures table { IsSameSeat seat.old seat.new }
    ensures step { TellsDrop seat.old.me result seat.new.me }
{
    let words = &words.table.shared;
    words.fetch_sub::<DropStep>(seat, 0, 1)
}
