ghost use Rattle.std.specs.Prelude.{◌≡◌, ℕ, ◌<◌, ◌≤◌, ◌+◌, Some, [], ◌++◌, drop, filter, not, true};
ghost use Rattle.std.specs.Prelude.{slice_get, length, if◌then◌else◌};
ghost use Rattle.monk_history.specs.Meaning.Events as events;
ghost use Rattle.monk_history.specs.Meaning.{Signallers.is_empty, Signallers.takes_front, Untils.chooses};
ghost use Rattle.monk_floor.specs.Queues as lists;

use crate::links::Links;
use monk_history::{Event, MOST_CONDS, MOST_SEATS, Next};
use std::marker::Model;

// the numbers of the queues; the condition variables follow
const WAITERS: u8 = 0;

const SIGNALLERS: u8 = 1;

const UNTILS: u8 = 2;

/// Returns the number of a condition variable's queue.
fn condition(cond: u8) -> u8
    requires { cond < MOST_CONDS }
    ensures { result ≡ 3 + cond }
{
    cond + 3
}

/// The queues of a floor.
#[derive(Drop)]
pub struct Queues {
    links: Links,
    // for each seat the last predicate for which it waited
    predicates: [u8; MOST_SEATS as usize],
}

impl Model for Queues {
    ghost use Rattle.monk_floor.specs.Queues.{QueueLists, lists_of};

    ghost Value = { QueueLists };

    ghost view = { λ q. lists_of q.predicates q.links };
}

impl Queues {
    ghost use Rattle.monk_history.specs.Limits.{most_conds};
    ghost use Rattle.monk_history.specs.Meaning.Reasons.{is_condition};
    ghost use Rattle.monk_history.specs.Meaning.Waiters.{serves};
    ghost use Rattle.monk_history.specs.Meaning.Signallers.{signals};

    /// Returns queues with nobody in them.
    pub fn new() -> Queues
        ensures conditions { (c : ℕ) → lists.queue_at result.conditions c ≡ [] }
        ensures waiters { result.waiters ≡ [] }
        ensures signallers { result.signallers ≡ [] }
        ensures untils { result.untils ≡ [] }
    {
        Queues {
            links: Links::new(),
            predicates: [0; MOST_SEATS as usize],
        }
    }

    /// Returns how many waits-until there are. Constant time.
    pub fn untils(&self) -> u8
        ensures { result ≡ length self.now.untils }
    {
        self.links.len(UNTILS)
    }

    /// Returns the first of the waits-until: its seat and its predicate. Constant time.
    pub fn first_until(&self) -> Option<(u8, u8)>
        ensures { result ≡ slice_get self.now.untils 0 }
    {
        let seat = self.links.front(UNTILS)?;
        Some((seat, self.predicates[seat as usize]))
    }

    /// Returns the wait-until after that of a seat. Constant time.
    pub fn until_after(&self, seat: u8) -> Option<(u8, u8)>
        requires { 1 ≤ lists.times_in_waits seat self.now.untils }
        ensures { (i pred : ℕ) → slice_get self.now.untils i ≡ Some (seat, pred)
            → result ≡ slice_get self.now.untils (i + 1) }
    {
        let next = self.links.after(UNTILS, seat)?;
        Some((next, self.predicates[next as usize]))
    }

    /// Returns how many seats wait on a condition. Constant time.
    pub fn waiting(&self, cond: u8) -> u8
        requires { cond < MOST_CONDS }
        ensures { result ≡ length (lists.queue_at self.now.conditions cond) }
    {
        self.links.len(condition(cond))
    }

    /// Returns the front of a condition's queue. Constant time.
    pub fn front_of(&self, cond: u8) -> Option<u8>
        requires { cond < MOST_CONDS }
        ensures { result ≡ slice_get (lists.queue_at self.now.conditions cond) 0 }
    {
        self.links.front(condition(cond))
    }

    /// Whether nobody waits on a condition. Constant time.
    fn is_unwaited(&self, cond: u8) -> bool
        requires { cond < MOST_CONDS }
        ensures { result ≡ is_empty (lists.queue_at self.now.conditions cond) }
    {
        self.links.is_empty(condition(cond))
    }

    /// Whether an event signals a condition on which nobody waits. Constant time.
    #[inline(always)]
    pub fn finds_none(&self, event: Event) -> bool
        requires { is_condition most_conds (events.signals_on event) ≡ true }
        ensures { result ≡ lists.finds_none (lists.queue_at self.now.conditions) event }
    {
        match event {
            Event::Signal(_, cond, _) => self.is_unwaited(cond),
            _ => false,
        }
    }

    /// Returns the front of the waiter queue, with those in it that an event serves. Constant time.
    #[inline(always)]
    pub fn front_waiter(&self, event: Event) -> Option<u8>
        requires { is_condition most_conds (events.signals_on event) ≡ true }
        ensures { result ≡ slice_get (self.now.waiters ++ serves (lists.queue_at self.now.conditions) event) 0 }
    {
        match self.links.front(WAITERS) {
            Some(seat) => Some(seat),
            None => match event {
                Event::Signal(_, cond, _)
                | Event::SignalLeave(_, cond, _)
                | Event::SignalAll(_, cond)
                | Event::SignalWait(_, cond, ..) => self.front_of(cond),
                _ => None,
            },
        }
    }

    /// Returns the front of the signaller queue, with the caller of a served signal in it. Constant time.
    #[inline(always)]
    pub fn front_signaller(&self, event: Event) -> Option<u8>
        requires { is_condition most_conds (events.signals_on event) ≡ true }
        ensures { result ≡ slice_get (self.now.signallers ++ signals (lists.queue_at self.now.conditions) event) 0 }
    {
        match self.links.front(SIGNALLERS) {
            Some(seat) => Some(seat),
            None => match event {
                Event::Signal(seat, cond, _) => {
                    if self.is_unwaited(cond) {
                        None
                    } else {
                        Some(seat)
                    }
                }
                _ => None,
            },
        }
    }

    /// Carries out an event. Takes constant time. Only an event that chose a seat of the waits-until costs more:
    /// those before it.
    #[inline(always)]
    pub fn carry_out(&mut self, event: Event)
        requires seat { events.seat_of event < MOST_SEATS }
        requires waits_in_range { is_condition most_conds (events.waits_on event) ≡ true }
        requires signals_in_range { is_condition most_conds (events.signals_on event) ≡ true }
        requires apart { lists.in_lists (events.seat_of event) self.old ≡ 0 }
        ensures { lists.IsMoved self.old event self.new }
    {
        let none = self.finds_none(event);
        self.drop_chosen(event);
        self.join(event);
        self.settle(event, none);
    }

    /// Takes out the wait-until of the seat that an event chose, if it chose one.
    #[inline(always)]
    fn drop_chosen(&mut self, event: Event)
        ensures conditions { (c : ℕ) → lists.queue_at self.new.conditions c ≡ lists.queue_at self.old.conditions c }
        ensures waiters { self.new.waiters ≡ self.old.waiters }
        ensures signallers { self.new.signallers ≡ self.old.signallers }
        ensures untils { self.new.untils ≡ filter (λ w. not (chooses event w)) self.old.untils }
    {
        if let Some(seat) = chosen_until(event) {
            self.links.remove(UNTILS, seat);
        }
    }

    /// Moves the seats that an event puts into queues: its own, and those that it serves.
    #[inline(always)]
    fn join(&mut self, event: Event)
        requires seat { events.seat_of event < MOST_SEATS }
        requires waits_in_range { is_condition most_conds (events.waits_on event) ≡ true }
        requires signals_in_range { is_condition most_conds (events.signals_on event) ≡ true }
        requires apart { lists.in_lists (events.seat_of event) self.old ≡ 0 }
        ensures { lists.IsServed self.old event self.new }
    {
        match event {
            Event::Wait(seat, cond, _) => self.links.push(condition(cond), seat),
            Event::Signal(seat, cond, _) => {
                if !self.is_unwaited(cond) {
                    self.links.push(SIGNALLERS, seat);
                    self.links.pass(condition(cond), WAITERS);
                }
            }
            Event::SignalLeave(_, cond, _) => self.links.pass(condition(cond), WAITERS),
            Event::SignalAll(_, cond) => self.links.pass_all(condition(cond), WAITERS),
            Event::SignalWait(seat, cond, wait_cond, _) => {
                self.links.pass(condition(cond), WAITERS);
                self.links.push(condition(wait_cond), seat);
            }
            Event::Until(seat, pred, next) => {
                if !is_stay(next) {
                    self.predicates[seat as usize] = pred;
                    self.links.push(UNTILS, seat);
                }
            }
            Event::Enter(..) | Event::Act(..) | Event::Leave(..) | Event::Resume(..) => {}
        }
    }

    /// Takes the front that an event chose out of its queue. The event's seats are already in their queues.
    #[inline(always)]
    fn settle(&mut self, event: Event, none: bool)
        ensures conditions { (c : ℕ) → lists.queue_at self.new.conditions c ≡ lists.queue_at self.old.conditions c }
        ensures waiters { self.new.waiters
            ≡ drop (if events.is_waiter (events.next_of event) then 1 else 0) self.old.waiters }
        ensures signallers { self.new.signallers ≡ drop (if takes_front none event then 1 else 0) self.old.signallers }
        ensures untils { self.new.untils ≡ self.old.untils }
    {
        if takes_waiter(event) {
            self.links.pop(WAITERS);
        }
        if takes_front(event, none) {
            self.links.pop(SIGNALLERS);
        }
    }
}

/// Returns the seat of the waits-until that an event chose.
fn chosen_until(event: Event) -> Option<u8>
    ensures { result ≡ lists.chosen_until (events.next_of event) }
{
    match event.choice() {
        Some(Next::Until(seat)) => Some(seat),
        _ => None,
    }
}

/// Whether a choice is to stay.
fn is_stay(next: Next) -> bool
    ensures { result ≡ events.is_stay (Some next) }
{
    matches!(next, Next::Stay)
}

/// Whether an event takes the front of the waiter queue.
fn takes_waiter(event: Event) -> bool
    ensures { result ≡ events.is_waiter (events.next_of event) }
{
    matches!(event.choice(), Some(Next::Waiter(_)))
}

/// Whether an event takes the front of the signaller queue: it chose that, or it stays in a served signal.
fn takes_front(event: Event, none: bool) -> bool
    ensures { result ≡ takes_front none event }
{
    match event {
        Event::Signal(_, _, Next::Stay) => !none,
        _ => matches!(event.choice(), Some(Next::Signaller(_))),
    }
}
