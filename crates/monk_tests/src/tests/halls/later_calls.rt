//! A signal to all, and a signal that is followed by a wait.
ghost use Rattle.std.specs.Prelude.{◌≡◌, ◌<◌, IfSome};

use crate::tests::halls::ending::ends;
use crate::tests::halls::{
    comes_in, comes_in_and_finds, enter, three_from_here, two_from_here, wait,
};
use crate::tests::marks::well_up_to_here;
use monk_hall::{Active, Hall, Parked, Pass};
use monk_history::{Event, From3, Next, Via};
use monk_kinds::{Conditional, Pick, Pir, Pnb};
use monk_object::Buffer;
use std::test::Fail;

/// Comes in and waits on the first condition.
fn waits<K: Conditional>(hall: &Hall<K, Buffer>, pass: Pass<K, Buffer>) -> Option<Parked<K, Buffer>>
    requires hall { pass.hall ≡ hall.now.id }
    requires cond { 0 < pass.me.setting.conds }
    ensures { IfSome result (λ p. (p.hall ≡ hall.now.id) × (p.me.setting ≡ pass.me.setting)) }
{
    wait(hall, enter(hall, pass)?, 0)
}

/// Signals all who wait on the first condition, and leaves. Returns how many they were.
fn wakes(hall: &Hall<Pnb, Buffer>, pass: Pass<Pnb, Buffer>) -> Option<u32>
    requires hall { pass.hall ≡ hall.now.id }
    requires cond { 0 < pass.me.setting.conds }
{
    let mut active = enter(hall, pass)?;
    let woken = if active.left() < 2 {
        None
    } else {
        Some(active.signal_all(0))
    };
    active.leave(hall, Pick::Waiter);
    woken
}

const WOKEN: [Event; 11] = [
    Event::Enter(0, Via::Free),
    Event::Wait(0, 0, Next::Entry),
    Event::Enter(1, Via::Free),
    Event::Wait(1, 0, Next::Entry),
    Event::Enter(2, Via::Free),
    Event::SignalAll(2, 0),
    Event::Leave(2, Next::Waiter(0)),
    Event::Resume(0, From3::Waiter),
    Event::Leave(0, Next::Waiter(1)),
    Event::Resume(1, From3::Waiter),
    Event::Leave(1, Next::Entry),
];

/// Two wait, and a third signals both. Each comes in when the one before it leaves.
fn wakes_both(
    hall: Hall<Pnb, Buffer>,
    first: Pass<Pnb, Buffer>,
    second: Pass<Pnb, Buffer>,
    third: Pass<Pnb, Buffer>,
) -> bool
    requires first { (first.hall ≡ hall.id) × (0 < first.me.setting.conds) }
    requires second { (second.hall ≡ hall.id) × (0 < second.me.setting.conds) }
    requires third { (third.hall ≡ hall.id) × (0 < third.me.setting.conds) }
{
    let Some(first) = waits(&hall, first) else {
        return false;
    };
    let Some(second) = waits(&hall, second) else {
        first.give_up();
        return false;
    };
    let both = wakes(&hall, third) == Some(2);
    let found = comes_in_and_finds(&hall, first, &WOKEN[..8]);
    match comes_in(&hall, second) {
        Some(active) => ends(hall, active, WOKEN.as_slice()) && both && found,
        None => false,
    }
}

#[test]
fn broadcast_wakes_all(rt: HostRuntime) -> Result<(), Fail> {
    let (hall, first, second, third) = three_from_here::<Pnb>(&rt, 1, 8)?;
    let well = wakes_both(hall, first, second, third);
    well_up_to_here(&rt, well)
}

/// Signals a condition and waits on another, if the seat has enough left.
fn passes_on(
    hall: &Hall<Pir, Buffer>,
    active: Active<Pir, Buffer>,
    cond: u8,
    wait_cond: u8,
) -> Option<Parked<Pir, Buffer>>
    requires hall { active.hall ≡ hall.now.id }
    requires cond { cond < active.me.setting.conds }
    requires wait_cond { wait_cond < active.me.setting.conds }
    ensures { IfSome result (λ p. (p.hall ≡ hall.now.id) × (p.me.setting ≡ active.me.setting)) }
{
    if active.left() < 3 {
        active.leave(hall, Pick::Waiter);
        return None;
    }
    Some(active.signal_wait(hall, cond, wait_cond, Pick::Waiter))
}

const PING_PONG: [Event; 10] = [
    Event::Enter(0, Via::Free),
    Event::Wait(0, 0, Next::Entry),
    Event::Enter(1, Via::Free),
    Event::SignalWait(1, 0, 1, Next::Waiter(0)),
    Event::Resume(0, From3::Waiter),
    Event::SignalWait(0, 1, 0, Next::Waiter(1)),
    Event::Resume(1, From3::Waiter),
    Event::SignalLeave(1, 0, Next::Waiter(0)),
    Event::Resume(0, From3::Waiter),
    Event::Leave(0, Next::Entry),
];

/// The second wakes the first and waits, the first wakes the second and waits.
fn pass_to_and_fro(
    hall: &Hall<Pir, Buffer>,
    first: Parked<Pir, Buffer>,
    second: Active<Pir, Buffer>,
) -> Option<Active<Pir, Buffer>>
    requires first { (first.hall ≡ hall.now.id) × (1 < first.me.setting.conds) }
    requires second { (second.hall ≡ hall.now.id) × (1 < second.me.setting.conds) }
    ensures { IfSome result (λ a. a.hall ≡ hall.now.id) }
{
    let Some(second) = passes_on(hall, second, 0, 1) else {
        first.give_up();
        return None;
    };
    let Some(active) = comes_in(hall, first) else {
        second.give_up();
        return None;
    };
    let Some(first) = passes_on(hall, active, 1, 0) else {
        second.give_up();
        return None;
    };
    let Some(active) = comes_in(hall, second) else {
        first.give_up();
        return None;
    };
    active.signal_leave(hall, 0, Pick::Waiter);
    comes_in(hall, first)
}

fn plays_ping_pong(
    hall: Hall<Pir, Buffer>,
    first: Pass<Pir, Buffer>,
    second: Pass<Pir, Buffer>,
) -> bool
    requires first { (first.hall ≡ hall.id) × (1 < first.me.setting.conds) }
    requires second { (second.hall ≡ hall.id) × (1 < second.me.setting.conds) }
{
    let Some(first) = waits(&hall, first) else {
        return false;
    };
    let Some(second) = enter(&hall, second) else {
        first.give_up();
        return false;
    };
    match pass_to_and_fro(&hall, first, second) {
        Some(active) => ends(hall, active, PING_PONG.as_slice()),
        None => false,
    }
}

#[test]
fn signal_wait_ping_pong(rt: HostRuntime) -> Result<(), Fail> {
    let (hall, first, second) = two_from_here::<Pir>(&rt, 2, 8)?;
    let well = plays_ping_pong(hall, first, second);
    well_up_to_here(&rt, well)
}
