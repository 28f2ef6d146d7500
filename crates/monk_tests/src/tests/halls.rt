//! Halls at work in one thread, with each answer compared. Here are the calls that the tests share.
ghost use Rattle.std.specs.Prelude.{◌≡◌, ◌<◌, IfSome, IfOk};
ghost use Rattle.monk_hall.specs.Tokens.{AreOf};

mod client;
mod completeness;
mod conditions;
mod crowd;
mod ending;
mod entering;
mod later_calls;
mod modes;

use crate::tests::marks::from_here;
use monk_hall::{Active, After, Hall, Parked, Pass};
use monk_history::Event;
use monk_kinds::{Conditional, Explicit, Kind, NonBlocking, Pick};
use monk_object::{Buffer, Op};
use std::test::Fail;

const TAKE: Op = Op { code: 1, arg: 0 };

const PUT: Op = Op { code: 0, arg: 7 };

/// A hall over a buffer of size 1, with its passes.
fn hall<K: Kind>(
    rt: &HostRuntime,
    seats: u8,
    conds: u8,
    budget: u32,
) -> Result<(Hall<K, Buffer>, Vec<Pass<K, Buffer>>), Fail>
    ensures passes { IfOk result (λ r. AreOf r.0.id r.0.setting r.1.items) }
    ensures conds { IfOk result (λ r. r.0.setting.conds ≡ conds) }
{
    let buffer = Buffer::make(rt.alloc(), 1)?;
    Ok(Hall::make(rt.alloc(), buffer, seats, conds, budget)?)
}

/// Takes the last of the passes.
fn take<K: Kind>(
    hall: &Hall<K, Buffer>,
    passes: &mut Vec<Pass<K, Buffer>>,
) -> Result<Pass<K, Buffer>, Fail>
    requires { AreOf hall.now.id hall.now.setting passes.old.items }
    ensures pass { IfOk result (λ p. (p.hall ≡ hall.now.id) × (p.me.setting ≡ hall.now.setting)) }
    ensures rest { AreOf hall.now.id hall.now.setting passes.new.items }
{
    match passes.pop() {
        Some(pass) => Ok(pass),
        None => Err(Fail::new("every seat has a pass")),
    }
}

/// A hall of two seats over such a buffer, with their passes.
pub(super) fn two<K: Kind>(
    rt: &HostRuntime,
    conds: u8,
    budget: u32,
) -> Result<(Hall<K, Buffer>, Pass<K, Buffer>, Pass<K, Buffer>), Fail>
    ensures first { IfOk result (λ r. (r.1.hall ≡ r.0.id) × (r.1.me.setting ≡ r.0.setting)) }
    ensures second { IfOk result (λ r. (r.2.hall ≡ r.0.id) × (r.2.me.setting ≡ r.0.setting)) }
    ensures conds { IfOk result (λ r. r.0.setting.conds ≡ conds) }
{
    let (hall, mut passes) = hall::<K>(rt, 2, conds, budget)?;
    let second = take(&hall, &mut passes)?;
    let first = take(&hall, &mut passes)?;
    Ok((hall, first, second))
}

/// The same; from here on the test asks for no memory.
fn two_from_here<K: Kind>(
    rt: &HostRuntime,
    conds: u8,
    budget: u32,
) -> Result<(Hall<K, Buffer>, Pass<K, Buffer>, Pass<K, Buffer>), Fail>
    ensures first { IfOk result (λ r. (r.1.hall ≡ r.0.id) × (r.1.me.setting ≡ r.0.setting)) }
    ensures second { IfOk result (λ r. (r.2.hall ≡ r.0.id) × (r.2.me.setting ≡ r.0.setting)) }
    ensures conds { IfOk result (λ r. r.0.setting.conds ≡ conds) }
{
    let made = two::<K>(rt, conds, budget)?;
    from_here(rt)?;
    Ok(made)
}

/// A hall of three seats over such a buffer, with their passes; from here on the test asks for no memory.
fn three_from_here<K: Kind>(
    rt: &HostRuntime,
    conds: u8,
    budget: u32,
) -> Result<
    (
        Hall<K, Buffer>,
        Pass<K, Buffer>,
        Pass<K, Buffer>,
        Pass<K, Buffer>,
    ),
    Fail,
>
    ensures first { IfOk result (λ r. (r.1.hall ≡ r.0.id) × (r.1.me.setting ≡ r.0.setting)) }
    ensures second { IfOk result (λ r. (r.2.hall ≡ r.0.id) × (r.2.me.setting ≡ r.0.setting)) }
    ensures third { IfOk result (λ r. (r.3.hall ≡ r.0.id) × (r.3.me.setting ≡ r.0.setting)) }
    ensures conds { IfOk result (λ r. r.0.setting.conds ≡ conds) }
{
    let (hall, mut passes) = hall::<K>(rt, 3, conds, budget)?;
    let third = take(&hall, &mut passes)?;
    let second = take(&hall, &mut passes)?;
    let first = take(&hall, &mut passes)?;
    from_here(rt)?;
    Ok((hall, first, second, third))
}

/// Arrives, if the seat has enough left.
fn arrive<K: Kind>(hall: &Hall<K, Buffer>, pass: Pass<K, Buffer>) -> Option<Parked<K, Buffer>>
    requires { pass.hall ≡ hall.now.id }
    ensures { IfSome result (λ p. (p.hall ≡ hall.now.id) × (p.me.setting ≡ pass.me.setting)) }
{
    if pass.left() < 2 {
        return None;
    }
    Some(pass.arrive(hall))
}

/// Comes in, if it is the seat's turn. Else the seat is given up.
fn comes_in<K: Kind>(hall: &Hall<K, Buffer>, parked: Parked<K, Buffer>) -> Option<Active<K, Buffer>>
    requires { parked.hall ≡ hall.now.id }
    ensures { IfSome result (λ a. (a.hall ≡ hall.now.id) × (a.me.setting ≡ parked.me.setting)) }
{
    match parked.poll(hall) {
        Ok(active) => Some(active),
        Err(parked) => {
            parked.give_up();
            None
        }
    }
}

/// Comes in at once, if nobody is there.
fn enter<K: Kind>(hall: &Hall<K, Buffer>, pass: Pass<K, Buffer>) -> Option<Active<K, Buffer>>
    requires { pass.hall ≡ hall.now.id }
    ensures { IfSome result (λ a. (a.hall ≡ hall.now.id) × (a.me.setting ≡ pass.me.setting)) }
{
    comes_in(hall, arrive(hall, pass)?)
}

/// Carries an operation out, if the seat has enough left.
fn act<K: Kind>(active: &mut Active<K, Buffer>, op: Op) -> Option<u64>
    requires { op.code < 2 }
    ensures { (active.new.hall ≡ active.old.hall) × (active.new.me.setting ≡ active.old.me.setting) }
{
    if active.left() < 2 {
        return None;
    }
    Some(active.act(op))
}

/// Waits on a condition, if the seat has enough left.
fn wait<K: Conditional>(
    hall: &Hall<K, Buffer>,
    active: Active<K, Buffer>,
    cond: u8,
) -> Option<Parked<K, Buffer>>
    requires hall { active.hall ≡ hall.now.id }
    requires cond { cond < active.me.setting.conds }
    ensures { IfSome result (λ p. (p.hall ≡ hall.now.id) × (p.me.setting ≡ active.me.setting)) }
{
    if active.left() < 3 {
        active.leave(hall, Pick::Waiter);
        return None;
    }
    Some(active.wait(hall, cond, Pick::Waiter))
}

/// Signals a condition and parks, if the seat has enough left.
fn signal<K: Explicit>(
    hall: &Hall<K, Buffer>,
    active: Active<K, Buffer>,
    cond: u8,
) -> Option<Parked<K, Buffer>>
    requires hall { active.hall ≡ hall.now.id }
    requires cond { cond < active.me.setting.conds }
    ensures { IfSome result (λ p. p.hall ≡ hall.now.id) }
{
    if active.left() < 3 {
        active.leave(hall, Pick::Waiter);
        return None;
    }
    match active.signal(hall, cond, Pick::Waiter) {
        After::Parked(parked) => Some(parked),
        After::Active(active) => {
            active.leave(hall, Pick::Waiter);
            None
        }
    }
}

/// Signals a condition and stays, if the seat has enough left.
fn signal_stay<K: NonBlocking>(
    hall: &Hall<K, Buffer>,
    mut active: Active<K, Buffer>,
    cond: u8,
) -> Option<Active<K, Buffer>>
    requires hall { active.hall ≡ hall.now.id }
    requires cond { cond < active.me.setting.conds }
    ensures { IfSome result (λ a. a.hall ≡ hall.now.id) }
{
    if active.left() < 2 {
        active.leave(hall, Pick::Waiter);
        return None;
    }
    active.signal_stay(cond);
    Some(active)
}

/// Comes in and puts 7.
fn comes_in_and_puts<K: Kind>(
    hall: &Hall<K, Buffer>,
    pass: Pass<K, Buffer>,
) -> Option<Active<K, Buffer>>
    requires { pass.hall ≡ hall.now.id }
    ensures { IfSome result (λ a. (a.hall ≡ hall.now.id) × (a.me.setting ≡ pass.me.setting)) }
{
    let mut active = enter(hall, pass)?;
    if act(&mut active, PUT) != Some(1) {
        active.leave(hall, Pick::Waiter);
        return None;
    }
    Some(active)
}

/// Comes in and leaves. Returns whether the seat found this history.
fn comes_in_and_finds<K: Kind>(
    hall: &Hall<K, Buffer>,
    parked: Parked<K, Buffer>,
    history: &[Event],
) -> bool
    requires { parked.hall ≡ hall.now.id }
{
    let Some(active) = comes_in(hall, parked) else {
        return false;
    };
    let found = active.history() == history;
    active.leave(hall, Pick::Waiter);
    found
}

/// Whether a poll gives the seat back. It is then given up.
fn must_wait<K: Kind>(hall: &Hall<K, Buffer>, parked: Parked<K, Buffer>) -> bool
    requires { parked.hall ≡ hall.now.id }
{
    match parked.poll(hall) {
        Err(parked) => {
            parked.give_up();
            true
        }
        Ok(active) => {
            active.leave(hall, Pick::Waiter);
            false
        }
    }
}
