ghost use Rattle.std.specs.Prelude.{◌≡◌, ℕ, ◌<◌, ◌+◌, ◌^◌, ◌==◌, false, true, ◌&&◌, ◌||◌, not, [], IfOk, length};
ghost use Rattle.std.specs.Prelude.{nat_lt, slice_index_or, if◌then◌else◌};
ghost use Rattle.std.specs.List.{list_all};
ghost use Rattle.monk_history.specs.Meaning.Events as events;
ghost use Rattle.monk_history.specs.Meaning.Counts as counts;
ghost use Rattle.monk_history.specs.Meaning.Turn as turns;
ghost use Rattle.monk_floor.specs.{Queues.IsMoved, Ready.HasRoomFor};

use crate::queues::Queues;
use monk_history::{Event, Next, Turn};
use std::alloc::{AllocError, Global};

/// Updates who is inside after an event.
#[inline(always)]
pub fn mark_inside(inside: &mut [bool], event: Event)
    requires { events.seat_of event < length inside.old }
    ensures marked { (j : ℕ)
        → slice_index_or inside.new j
        false ≡ (slice_index_or inside.old j false && not (turns.is_exit_of j event)) || turns.is_enter_of j event }
    ensures count { length inside.new ≡ length inside.old }
{
    match event {
        Event::Enter(seat, _) => inside[seat as usize] = true,
        Event::Leave(seat, _) | Event::SignalLeave(seat, ..) => inside[seat as usize] = false,
        Event::Act(..)
        | Event::Wait(..)
        | Event::Signal(..)
        | Event::Until(..)
        | Event::Resume(..)
        | Event::SignalAll(..)
        | Event::SignalWait(..) => {}
    }
}

/// Adds one to the count of a seat.
#[inline(always)]
pub fn count_one(counts: &mut [u32], seat: u8)
    requires within { seat < length counts.old }
    requires low { slice_index_or counts.old seat 0 < 2 ^ 25 }
    ensures counted { (j : ℕ)
        → slice_index_or counts.new j 0 ≡ slice_index_or counts.old j 0 + (if seat == j then 1 else 0) }
    ensures count { length counts.new ≡ length counts.old }
{
    counts[seat as usize] += 1;
}

/// Counts the seat that an event chose from a queue, if it did.
#[inline(always)]
fn grant(granted: &mut [u32], event: Event)
    requires named { list_all (λ j. nat_lt j (length granted.old)) (events.named_seat (events.next_of event)) ≡ true }
    requires low { (j : ℕ) → slice_index_or granted.old j 0 < 2 ^ 25 }
    ensures counted { (j : ℕ)
        → slice_index_or granted.new j 0 ≡ slice_index_or granted.old j 0 + (if counts.grants j event then 1 else 0) }
    ensures count { length granted.new ≡ length granted.old }
{
    match event.choice() {
        Some(Next::Waiter(seat)) | Some(Next::Signaller(seat)) | Some(Next::Until(seat)) => {
            count_one(granted, seat)
        }
        _ => {}
    }
}

/// Returns the number of enters after an event.
#[inline(always)]
fn entered_after(entered: u32, event: Event) -> u32
    requires { entered < 2 ^ 25 }
    ensures { result ≡ entered + (if counts.is_enter event then 1 else 0) }
{
    match event {
        Event::Enter(..) => entered + 1,
        _ => entered,
    }
}

/// What a floor keeps with its object and its history: the queues, the turn, who is inside, and how many events each
/// seat has made.
#[derive(Drop)]
pub struct Ledger {
    pub queues: Queues,
    pub turn: Turn,
    pub inside: Vec<bool>,
    pub spent: Vec<u32>,
    pub granted: Vec<u32>,
    pub entered: u32,
}

impl Ledger {
    ghost use Rattle.monk_floor.specs.Queues.{queue_at};

    /// Makes the ledger of no events.
    pub fn make(alloc: Global, seats: u8) -> Result<Ledger, AllocError>
        ensures conditions { IfOk result (λ l. (c : ℕ) → queue_at l.queues.conditions c ≡ []) }
        ensures waiters { IfOk result (λ l. l.queues.waiters ≡ []) }
        ensures signallers { IfOk result (λ l. l.queues.signallers ≡ []) }
        ensures untils { IfOk result (λ l. l.queues.untils ≡ []) }
        ensures turn { IfOk result (λ l. l.turn ≡ Turn.Open) }
        ensures inside { IfOk result (λ l. (j : ℕ) → slice_index_or l.inside.items j false ≡ false) }
        ensures spent { IfOk result (λ l. (j : ℕ) → slice_index_or l.spent.items j 0 ≡ 0) }
        ensures inside_seats { IfOk result (λ l. length l.inside.items ≡ seats) }
        ensures granted { IfOk result (λ l. (j : ℕ) → slice_index_or l.granted.items j 0 ≡ 0) }
        ensures entered { IfOk result (λ l. l.entered ≡ 0) }
        ensures granted_seats { IfOk result (λ l. length l.granted.items ≡ seats) }
        ensures spent_seats { IfOk result (λ l. length l.spent.items ≡ seats) }
    {
        Ok(Ledger {
            queues: Queues::new(),
            turn: Turn::Open,
            inside: vec![in alloc; false; seats as usize]?,
            spent: vec![in alloc; 0; seats as usize]?,
            granted: vec![in alloc; 0; seats as usize]?,
            entered: 0,
        })
    }

    /// Notes one more event.
    #[inline(always)]
    pub fn note(&mut self, event: Event)
        requires { HasRoomFor self.old.queues self.old.inside.items self.old.spent.items self.old.granted.items
            self.old.entered event }
        ensures queues { IsMoved self.old.queues event self.new.queues }
        ensures turn { self.new.turn ≡ turns.turn_by (events.seat_of event) (events.next_of event) }
        ensures inside { (j : ℕ)
            → slice_index_or self.new.inside.items j
            false ≡ (slice_index_or self.old.inside.items j false && not (turns.is_exit_of j event))
            || turns.is_enter_of j event }
        ensures spent { (j : ℕ) → slice_index_or self.new.spent.items j 0 ≡ slice_index_or self.old.spent.items j
            0 + (if events.seat_of event == j then 1 else 0) }
        ensures granted { (j : ℕ) → slice_index_or self.new.granted.items j 0 ≡ slice_index_or self.old.granted.items j
            0 + (if counts.grants j event then 1 else 0) }
        ensures entered { self.new.entered ≡ self.old.entered + (if counts.is_enter event then 1 else 0) }
        ensures granted_seats { length self.new.granted.items ≡ length self.old.granted.items }
        ensures inside_seats { length self.new.inside.items ≡ length self.old.inside.items }
        ensures spent_seats { length self.new.spent.items ≡ length self.old.spent.items }
    {
        self.queues.carry_out(event);
        self.turn = Turn::after(event);
        mark_inside(&mut self.inside, event);
        count_one(&mut self.spent, event.seat());
        grant(&mut self.granted, event);
        self.entered = entered_after(self.entered, event);
    }
}
