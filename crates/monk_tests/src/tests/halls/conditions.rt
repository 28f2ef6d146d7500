//! Waits and signals: who goes on, by the priorities of the kind.
ghost use Rattle.std.specs.Prelude.{◌≡◌, ◌<◌, IfSome};

use crate::tests::halls::{
    PUT, TAKE, act, arrive, comes_in, comes_in_and_finds, comes_in_and_puts, enter, must_wait,
    signal, signal_stay, three_from_here, two_from_here, wait,
};
use crate::tests::marks::well_up_to_here;
use monk_hall::{Active, Hall, Parked, Pass};
use monk_history::{Event, From3, Next, Via};
use monk_kinds::{Conditional, Npnb, Pb, Pick, Pnb};
use monk_object::Buffer;
use std::test::Fail;

/// Finds nothing to take, and waits on condition 1.
fn takes_and_waits<K: Conditional>(
    hall: &Hall<K, Buffer>,
    pass: Pass<K, Buffer>,
) -> Option<Parked<K, Buffer>>
    requires hall { pass.hall ≡ hall.now.id }
    requires cond { 1 < pass.me.setting.conds }
    ensures { IfSome result (λ p. p.hall ≡ hall.now.id) }
{
    let mut active = enter(hall, pass)?;
    if act(&mut active, TAKE) != Some(0) {
        active.leave(hall, Pick::Waiter);
        return None;
    }
    wait(hall, active, 1)
}

/// Puts 7, and signals condition 1, on which one seat waits.
fn puts_and_signals(hall: &Hall<Pb, Buffer>, pass: Pass<Pb, Buffer>) -> Option<Parked<Pb, Buffer>>
    requires hall { pass.hall ≡ hall.now.id }
    requires cond { 1 < pass.me.setting.conds }
    ensures { IfSome result (λ p. p.hall ≡ hall.now.id) }
{
    let active = comes_in_and_puts(hall, pass)?;
    if active.waiting(1) != 1 {
        active.leave(hall, Pick::Waiter);
        return None;
    }
    signal(hall, active, 1)
}

/// Comes in, takes 7, and leaves.
fn comes_in_and_takes(hall: &Hall<Pb, Buffer>, parked: Parked<Pb, Buffer>) -> bool
    requires { parked.hall ≡ hall.now.id }
{
    let Some(mut active) = comes_in(hall, parked) else {
        return false;
    };
    let taken = act(&mut active, TAKE) == Some(8);
    active.leave(hall, Pick::Waiter);
    taken
}

const HOARE: [Event; 10] = [
    Event::Enter(0, Via::Free),
    Event::Act(0, TAKE, 0),
    Event::Wait(0, 1, Next::Entry),
    Event::Enter(1, Via::Free),
    Event::Act(1, PUT, 1),
    Event::Signal(1, 1, Next::Waiter(0)),
    Event::Resume(0, From3::Waiter),
    Event::Act(0, TAKE, 8),
    Event::Leave(0, Next::Signaller(1)),
    Event::Resume(1, From3::Signaller),
];

/// The signal hands over at once, and the signaller comes back before anybody from outside.
fn hands_over(hall: &Hall<Pb, Buffer>, first: Pass<Pb, Buffer>, second: Pass<Pb, Buffer>) -> bool
    requires first { (first.hall ≡ hall.now.id) × (1 < first.me.setting.conds) }
    requires second { (second.hall ≡ hall.now.id) × (1 < second.me.setting.conds) }
{
    let Some(waiting) = takes_and_waits(hall, first) else {
        return false;
    };
    let Some(signaller) = puts_and_signals(hall, second) else {
        waiting.give_up();
        return false;
    };
    let taken = comes_in_and_takes(hall, waiting);
    let found = comes_in_and_finds(hall, signaller, HOARE.as_slice());
    taken && found
}

#[test]
fn signal_hands_over(rt: HostRuntime) -> Result<(), Fail> {
    let (hall, first, second) = two_from_here::<Pb>(&rt, 2, 8)?;
    let well = hands_over(&hall, first, second);
    well_up_to_here(&rt, well)
}

/// Puts 7, signals condition 1, stays, and leaves.
fn puts_signals_and_leaves(
    hall: &Hall<Pnb, Buffer>,
    pass: Pass<Pnb, Buffer>,
) -> Option<Pass<Pnb, Buffer>>
    requires hall { pass.hall ≡ hall.now.id }
    requires cond { 1 < pass.me.setting.conds }
    ensures { IfSome result (λ p. p.hall ≡ hall.now.id) }
{
    let active = comes_in_and_puts(hall, pass)?;
    let active = signal_stay(hall, active, 1)?;
    Some(active.leave(hall, Pick::Waiter))
}

const STAYED: [Event; 10] = [
    Event::Enter(0, Via::Free),
    Event::Act(0, TAKE, 0),
    Event::Wait(0, 1, Next::Entry),
    Event::Enter(1, Via::Free),
    Event::Act(1, PUT, 1),
    Event::Signal(1, 1, Next::Stay),
    Event::Leave(1, Next::Waiter(0)),
    Event::Resume(0, From3::Waiter),
    Event::Leave(0, Next::Entry),
    Event::Enter(1, Via::Free),
];

/// The signaller goes on, and the waiter comes in once it has left.
fn goes_on_first(
    hall: &Hall<Pnb, Buffer>,
    first: Pass<Pnb, Buffer>,
    second: Pass<Pnb, Buffer>,
) -> bool
    requires first { (first.hall ≡ hall.now.id) × (1 < first.me.setting.conds) }
    requires second { (second.hall ≡ hall.now.id) × (1 < second.me.setting.conds) }
{
    let Some(waiting) = takes_and_waits(hall, first) else {
        return false;
    };
    let Some(signaller) = puts_signals_and_leaves(hall, second) else {
        waiting.give_up();
        return false;
    };
    let resumed = comes_in_and_finds(hall, waiting, &STAYED[..8]);
    let Some(again) = arrive(hall, signaller) else {
        return false;
    };
    let found = comes_in_and_finds(hall, again, STAYED.as_slice());
    resumed && found
}

#[test]
fn signaller_goes_on(rt: HostRuntime) -> Result<(), Fail> {
    let (hall, first, second) = two_from_here::<Pnb>(&rt, 2, 8)?;
    let well = goes_on_first(&hall, first, second);
    well_up_to_here(&rt, well)
}

/// Signals condition 0 and stays.
fn signals_and_stays(
    hall: &Hall<Npnb, Buffer>,
    pass: Pass<Npnb, Buffer>,
) -> Option<Active<Npnb, Buffer>>
    requires hall { pass.hall ≡ hall.now.id }
    requires cond { 0 < pass.me.setting.conds }
    ensures { IfSome result (λ a. a.hall ≡ hall.now.id) }
{
    let active = enter(hall, pass)?;
    signal_stay(hall, active, 0)
}

/// Entry and waiters tie, so by the wish for entry a ticket goes before a seat that was signalled.
fn barges(
    hall: &Hall<Npnb, Buffer>,
    first: Pass<Npnb, Buffer>,
    second: Pass<Npnb, Buffer>,
    third: Pass<Npnb, Buffer>,
) -> bool
    requires first { (first.hall ≡ hall.now.id) × (0 < first.me.setting.conds) }
    requires second { (second.hall ≡ hall.now.id) × (0 < second.me.setting.conds) }
    requires third { third.hall ≡ hall.now.id }
{
    let Some(active) = enter(hall, first) else {
        return false;
    };
    let Some(waiting) = wait(hall, active, 0) else {
        return false;
    };
    let Some(signaller) = signals_and_stays(hall, second) else {
        waiting.give_up();
        return false;
    };
    let Some(outside) = arrive(hall, third) else {
        signaller.leave(hall, Pick::Waiter);
        waiting.give_up();
        return false;
    };
    signaller.leave(hall, Pick::Entry);
    let waits = must_wait(hall, waiting);
    let history = [
        Event::Enter(0, Via::Free),
        Event::Wait(0, 0, Next::Entry),
        Event::Enter(1, Via::Free),
        Event::Signal(1, 0, Next::Stay),
        Event::Leave(1, Next::Entry),
        Event::Enter(2, Via::Handed),
    ];
    let entered = comes_in_and_finds(hall, outside, history.as_slice());
    waits && entered
}

#[test]
fn ticket_barges_past_a_waiter(rt: HostRuntime) -> Result<(), Fail> {
    let (hall, first, second, third) = three_from_here::<Npnb>(&rt, 1, 8)?;
    let well = barges(&hall, first, second, third);
    well_up_to_here(&rt, well)
}

/// If nobody has a ticket, though a third seat could, the same wish lets the waiter go on.
fn lets_the_waiter_in(
    hall: &Hall<Npnb, Buffer>,
    first: Pass<Npnb, Buffer>,
    second: Pass<Npnb, Buffer>,
) -> bool
    requires first { (first.hall ≡ hall.now.id) × (0 < first.me.setting.conds) }
    requires second { (second.hall ≡ hall.now.id) × (0 < second.me.setting.conds) }
{
    let Some(active) = enter(hall, first) else {
        return false;
    };
    let Some(waiting) = wait(hall, active, 0) else {
        return false;
    };
    let Some(signaller) = signals_and_stays(hall, second) else {
        waiting.give_up();
        return false;
    };
    signaller.leave(hall, Pick::Entry);
    let history = [
        Event::Enter(0, Via::Free),
        Event::Wait(0, 0, Next::Entry),
        Event::Enter(1, Via::Free),
        Event::Signal(1, 0, Next::Stay),
        Event::Leave(1, Next::Waiter(0)),
        Event::Resume(0, From3::Waiter),
    ];
    comes_in_and_finds(hall, waiting, history.as_slice())
}

#[test]
fn waiter_goes_on_where_nobody_has_a_ticket(rt: HostRuntime) -> Result<(), Fail> {
    let (hall, first, second, _third) = three_from_here::<Npnb>(&rt, 1, 8)?;
    let well = lets_the_waiter_in(&hall, first, second);
    well_up_to_here(&rt, well)
}
