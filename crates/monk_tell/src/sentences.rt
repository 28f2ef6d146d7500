//! Which sentence says why an event is not allowed.

ghost use Rattle.std.specs.Prelude.{◌≡◌, [], IfOk};
ghost use Rattle.monk_history.specs.Meaning.Events.{next_of, seat_of, via_of};
ghost use Rattle.monk_audit.specs.{Reasons.number_of, Replay.replay_situation};
ghost use Rattle.monk_tell.specs.Told.{condition_lists};
ghost use Rattle.monk_tell.specs.Cause.{behind_first, call_beyond, early_cause, has_to_stay, is_first, may_not_admit};
ghost use Rattle.monk_tell.specs.Cause.{may_not_continue, may_not_recall, may_not_stay, may_not_wake, no_entry};
ghost use Rattle.monk_tell.specs.Cause.{number_beyond, other_choice, other_reply, other_turn, out_of_turn, still_waits};

use crate::lines::Firsts;
use crate::queues::{Conditions, has};
use crate::why::{OutOfTurn, Precedence, Staying, Why};
use monk_audit::{Reason, Replay};
use monk_history::{Event, From3, Header, Next, Turn, Via};
use monk_kinds::{KindName, Mode, Rules};
use std::alloc::{AllocError, Global};

/// Returns which of the call's own numbers is out of range: its code, predicate or condition.
fn call_beyond(seats: u8, conds: u8, event: Event) -> Why
    ensures { result ≡ call_beyond seats conds event }
{
    match event {
        Event::Act(_, op, _) => Why::NoOperation(op.code),
        Event::Until(_, pred, _) => Why::NoPredicate(pred),
        Event::SignalWait(_, cond, other, _) => {
            Why::NoCondition(if cond >= conds { cond } else { other }, conds)
        }
        Event::Wait(_, cond, _)
        | Event::Signal(_, cond, _)
        | Event::SignalLeave(_, cond, _)
        | Event::SignalAll(_, cond) => Why::NoCondition(cond, conds),
        Event::Enter(seat, _) | Event::Leave(seat, _) | Event::Resume(seat, _) => {
            Why::NoSeat(seat, seats)
        }
    }
}

/// Returns the first number of an event that is out of range.
fn number_beyond(seats: u8, conds: u8, event: Event) -> Why
    ensures { result ≡ number_beyond seats conds event }
{
    let seat = event.seat();
    match event.choice() {
        _ if seat >= seats => Why::NoSeat(seat, seats),
        Some(Next::Waiter(chosen) | Next::Signaller(chosen) | Next::Until(chosen))
            if chosen >= seats => { Why::NoSeat(chosen, seats) }
        _ => call_beyond(seats, conds, event),
    }
}

/// Returns why it is not the seat's turn, by whose turn it is.
fn other_turn(turn: Turn, seat: u8) -> OutOfTurn
    ensures { result ≡ other_turn turn seat }
{
    match turn {
        Turn::Open => OutOfTurn::Open(seat),
        Turn::Due(other, queue) if other == seat => OutOfTurn::Resumes(seat, queue),
        Turn::Due(other, queue) => OutOfTurn::Due(seat, other, queue),
        Turn::Owned(other) if other == seat => OutOfTurn::Already(seat),
        Turn::Owned(other) => OutOfTurn::Active(seat, other),
    }
}

/// Returns why it is not the turn of the seat. `waits` is the condition on which it waits, if it waits on one.
fn out_of_turn(waits: Option<usize>, turn: Turn, seat: u8) -> OutOfTurn
    ensures { result ≡ out_of_turn waits turn seat }
{
    match waits {
        Some(cond) => OutOfTurn::Unsignalled(seat, cond),
        None => other_turn(turn, seat),
    }
}

/// Returns why the seat may not enter.
fn no_entry(inside: bool, event: Event) -> OutOfTurn
    ensures { result ≡ no_entry inside (via_of event) (seat_of event) }
{
    let seat = event.seat();
    match event {
        _ if inside => OutOfTurn::Inside(seat),
        Event::Enter(_, Via::Handed) => OutOfTurn::FirstOfAll(seat),
        _ => OutOfTurn::NotFree(seat),
    }
}

/// Returns why an event fails one of the first four tests.
pub(crate) fn early(
    alloc: Global,
    header: &Header,
    replay: &Replay,
    reason: Reason,
    event: Event,
) -> Result<Why, AllocError>
    ensures { IfOk result (λ w. w ≡ early_cause header.now.kind header.now.seats header.now.conds
        (replay_situation replay.now []) (number_of reason) event) }
{
    let seat = event.seat();
    match reason {
        Reason::Range => Ok(number_beyond(header.seats(), header.conds(), event)),
        Reason::Call => Ok(Why::Call(header.kind())),
        Reason::Turn => {
            let conditions = Conditions::of(alloc, replay, header.conds())?;
            Ok(Why::Turn(out_of_turn(conditions.of_seat(seat), replay.turn(), seat)))
        }
        Reason::Place | Reason::Reply | Reason::Choice => {
            Ok(Why::Turn(no_entry(replay.is_inside(seat), event)))
        }
    }
}

/// Returns why the reply of an act is wrong.
pub(crate) fn wrong_reply(reply: Option<u64>, event: Event) -> Why
    ensures { result ≡ other_reply reply event }
{
    match (reply, event) {
        (Some(right), Event::Act(_, _, wrong)) => Why::Reply(right, wrong),
        _ => Why::Stay(Staying::GivesUp(event.seat())),
    }
}

/// Returns why an event that has to stay may choose nothing else.
fn has_to_stay(event: Event) -> Staying
    ensures { result ≡ has_to_stay event }
{
    let seat = event.seat();
    match event {
        Event::Signal(_, cond, _) => Staying::NobodyWaits(cond, seat),
        Event::Until(_, pred, _) => Staying::HoldsAlready(pred, seat),
        _ => Staying::GivesUp(seat),
    }
}

/// Returns why the seat may not stay.
fn may_not_stay(kind: KindName, rules: Rules, firsts: Firsts, event: Event) -> Staying
    ensures { result ≡ may_not_stay kind rules firsts event }
{
    let seat = event.seat();
    match (event, firsts.signaller) {
        (Event::Signal(..), _) if rules.waiter > rules.signaller => Staying::MustYield(seat, kind),
        (Event::Signal(..), Some(first)) => Staying::StepsBehind(seat, first),
        _ => Staying::GivesUp(seat),
    }
}

/// Returns why entry may not be chosen: the first of those above it.
fn may_not_admit(kind: KindName, rules: Rules, firsts: Firsts, seat: u8) -> Why
    ensures { result ≡ may_not_admit kind rules seat firsts.waiter firsts.signaller firsts.ready }
{
    match (firsts.waiter, firsts.signaller) {
        (Some(_), Some(signaller)) if rules.signaller > rules.waiter => {
            if signaller == seat {
                Why::Stay(Staying::MustStay(seat, kind))
            } else {
                Why::Order(Precedence::SignallersBeforeEntry(signaller, kind))
            }
        }
        (Some(waiter), _) => Why::Order(Precedence::WaitersBeforeEntry(waiter, kind)),
        (None, Some(signaller)) => Why::Order(Precedence::SignallersBeforeEntry(signaller, kind)),
        (None, None) => match firsts.ready {
            Some(first) => Why::Order(Precedence::ReadyBeforeEntry(first, kind)),
            None => Why::Stay(Staying::GivesUp(seat)),
        },
    }
}

/// Whether the seat is the first.
fn is_first(seat: u8, first: Option<u8>) -> bool
    ensures { result ≡ is_first seat first }
{
    first == Some(seat)
}

/// Returns why a seat may not be chosen that is not the first of its queue.
fn behind_first(first: Option<u8>, chosen: u8, queue: From3) -> Why
    ensures { result ≡ behind_first first chosen queue }
{
    match first {
        Some(_) => Why::Order(Precedence::NotFirst(chosen, queue)),
        None => Why::Order(Precedence::NobodyIn(queue)),
    }
}

/// If the event chose a waiter that still waits on a condition, returns the condition.
pub(crate) fn still_waits(conditions: &Conditions, waiters: &[u8], event: Event) -> Option<usize>
    ensures { result ≡ still_waits (condition_lists conditions.now) waiters.now (next_of event) }
{
    match event.choice() {
        Some(Next::Waiter(chosen)) if !has(waiters, chosen) => conditions.of_seat(chosen),
        _ => None,
    }
}

/// Returns why the waiter may not be chosen. If nobody has signalled it, `waits` is its condition.
fn may_not_wake(kind: KindName, firsts: Firsts, waits: Option<usize>, seat: u8, chosen: u8) -> Why
    ensures { result ≡ may_not_wake kind firsts waits seat chosen }
{
    if !is_first(chosen, firsts.waiter) {
        return match waits {
            Some(cond) => Why::Turn(OutOfTurn::Unsignalled(chosen, cond)),
            None => behind_first(firsts.waiter, chosen, From3::Waiter),
        };
    }
    match firsts.signaller {
        Some(first) if first == seat => Why::Stay(Staying::MustStay(seat, kind)),
        Some(first) => Why::Order(Precedence::SignallersFirst(first, kind)),
        None => Why::Stay(Staying::GivesUp(seat)),
    }
}

/// Returns why the signaller may not be chosen.
fn may_not_recall(kind: KindName, rules: Rules, firsts: Firsts, seat: u8, chosen: u8) -> Why
    ensures { result ≡ may_not_recall kind rules firsts seat chosen }
{
    if !is_first(chosen, firsts.signaller) {
        return behind_first(firsts.signaller, chosen, From3::Signaller);
    }
    match firsts.waiter {
        Some(first) if rules.waiter > rules.signaller => {
            Why::Order(Precedence::WaitersFirst(first, kind))
        }
        _ if chosen == seat => Why::Stay(Staying::OwnSignal(seat)),
        _ => Why::Stay(Staying::GivesUp(seat)),
    }
}

/// Returns why the seat may not be chosen as one whose predicate holds.
fn may_not_continue(kind: KindName, rules: Rules, first: Option<u8>, chosen: u8) -> Why
    ensures { result ≡ may_not_continue kind rules first chosen }
{
    match (rules.mode, first) {
        (Mode::Automatic, Some(_)) => Why::Order(Precedence::NotReady(chosen)),
        (Mode::Automatic, None) => Why::Order(Precedence::NobodyReady),
        _ => Why::NoUntils(kind),
    }
}

/// Returns why an event may not choose what it chose. If it chose a waiter that nobody has
/// signalled, `waits` is that seat's condition.
pub(crate) fn wrong_choice(
    kind: KindName,
    rules: Rules,
    firsts: Firsts,
    waits: Option<usize>,
    stays: bool,
    event: Event,
) -> Why
    ensures { result ≡ other_choice kind rules firsts waits stays event }
{
    let seat = event.seat();
    match event.choice() {
        _ if stays => Why::Stay(has_to_stay(event)),
        None | Some(Next::Stay) => Why::Stay(may_not_stay(kind, rules, firsts, event)),
        Some(Next::Entry) => may_not_admit(kind, rules, firsts, seat),
        Some(Next::Waiter(chosen)) => may_not_wake(kind, firsts, waits, seat, chosen),
        Some(Next::Signaller(chosen)) => may_not_recall(kind, rules, firsts, seat, chosen),
        Some(Next::Until(chosen)) => may_not_continue(kind, rules, firsts.ready, chosen),
    }
}
