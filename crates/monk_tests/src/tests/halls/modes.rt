//! A signal that leaves, and waits until a predicate holds.
ghost use Rattle.std.specs.Prelude.{◌≡◌, ◌<◌, IfSome};

use crate::tests::halls::{PUT, comes_in_and_finds, comes_in_and_puts, enter, two_from_here, wait};
use crate::tests::marks::well_up_to_here;
use monk_hall::{After, Hall, Parked, Pass};
use monk_history::{Event, From3, Next, Via};
use monk_kinds::{Automatic, Pick, Pir, Pis};
use monk_object::Buffer;
use std::test::Fail;

const RETURNED: [Event; 5] = [
    Event::Enter(0, Via::Free),
    Event::Wait(0, 0, Next::Entry),
    Event::Enter(1, Via::Free),
    Event::SignalLeave(1, 0, Next::Waiter(0)),
    Event::Resume(0, From3::Waiter),
];

/// The signaller leaves by its signal, and the waiter comes in.
fn leaves_by_a_signal(
    hall: &Hall<Pir, Buffer>,
    first: Pass<Pir, Buffer>,
    second: Pass<Pir, Buffer>,
) -> bool
    requires first { (first.hall ≡ hall.now.id) × (0 < first.me.setting.conds) }
    requires second { (second.hall ≡ hall.now.id) × (0 < second.me.setting.conds) }
{
    let Some(active) = enter(hall, first) else {
        return false;
    };
    let Some(waiting) = wait(hall, active, 0) else {
        return false;
    };
    let Some(active) = enter(hall, second) else {
        waiting.give_up();
        return false;
    };
    active.signal_leave(hall, 0, Pick::Waiter);
    comes_in_and_finds(hall, waiting, RETURNED.as_slice())
}

#[test]
fn signaller_leaves(rt: HostRuntime) -> Result<(), Fail> {
    let (hall, first, second) = two_from_here::<Pir>(&rt, 1, 8)?;
    let well = leaves_by_a_signal(&hall, first, second);
    well_up_to_here(&rt, well)
}

/// Waits until there is an item, if the seat has enough left and there is none.
fn waits_for_an_item<K: Automatic>(
    hall: &Hall<K, Buffer>,
    pass: Pass<K, Buffer>,
) -> Option<Parked<K, Buffer>>
    requires { pass.hall ≡ hall.now.id }
    ensures { IfSome result (λ p. p.hall ≡ hall.now.id) }
{
    let active = enter(hall, pass)?;
    if active.holds(1) || active.left() < 3 {
        active.leave(hall, Pick::Waiter);
        return None;
    }
    match active.until(hall, 1, Pick::Waiter) {
        After::Parked(parked) => Some(parked),
        After::Active(active) => {
            active.leave(hall, Pick::Waiter);
            None
        }
    }
}

const FOUND: [Event; 6] = [
    Event::Enter(0, Via::Free),
    Event::Until(0, 1, Next::Entry),
    Event::Enter(1, Via::Free),
    Event::Act(1, PUT, 1),
    Event::Leave(1, Next::Until(0)),
    Event::Resume(0, From3::Until),
];

/// Comes in once the other has put an item and left.
fn finds_its_item(
    hall: &Hall<Pis, Buffer>,
    first: Pass<Pis, Buffer>,
    second: Pass<Pis, Buffer>,
) -> bool
    requires first { first.hall ≡ hall.now.id }
    requires second { second.hall ≡ hall.now.id }
{
    let Some(waiting) = waits_for_an_item(hall, first) else {
        return false;
    };
    let Some(active) = comes_in_and_puts(hall, second) else {
        waiting.give_up();
        return false;
    };
    active.leave(hall, Pick::Waiter);
    comes_in_and_finds(hall, waiting, FOUND.as_slice())
}

#[test]
fn predicate_is_awaited(rt: HostRuntime) -> Result<(), Fail> {
    let (hall, first, second) = two_from_here::<Pis>(&rt, 0, 8)?;
    let well = finds_its_item(&hall, first, second);
    well_up_to_here(&rt, well)
}
