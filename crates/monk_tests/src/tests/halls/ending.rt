//! How a hall ends, and that nobody ends it while a seat waits.
ghost use Rattle.std.specs.Prelude.{◌≡◌, ◌<◌, IfSome};

use crate::tests::halls::{arrive, comes_in, enter, two_from_here, wait};
use crate::tests::marks::well_up_to_here;
use monk_hall::{Active, Busy, Hall, Pass, close, meet};
use monk_history::{Event, Next, Via};
use monk_kinds::{Kind, Pb, Pick};
use monk_object::Buffer;
use std::test::Fail;

/// The first can't end the hall while the second has a ticket; the second can.
fn ends_last(hall: Hall<Pb, Buffer>, first: Pass<Pb, Buffer>, second: Pass<Pb, Buffer>) -> bool
    requires first { first.hall ≡ hall.id }
    requires second { second.hall ≡ hall.id }
{
    let Some(one) = enter(&hall, first) else {
        return false;
    };
    let Some(two) = arrive(&hall, second) else {
        one.leave(&hall, Pick::Waiter);
        return false;
    };
    let Busy { hall, active } = match close(hall, one) {
        Ok(_) => {
            two.give_up();
            return false;
        }
        Err(busy) => busy,
    };
    let unchanged = active.history() == [Event::Enter(0, Via::Free)].as_slice();
    active.leave(&hall, Pick::Waiter);
    match comes_in(&hall, two) {
        Some(active) => ends(hall, active, HANDED.as_slice()) && unchanged,
        None => false,
    }
}

/// Ends the hall, and returns whether this is its history.
pub(super) fn ends<K: Kind>(
    hall: Hall<K, Buffer>,
    active: Active<K, Buffer>,
    history: &[Event],
) -> bool
    requires { active.hall ≡ hall.id }
{
    match close(hall, active) {
        Ok(closed) => closed.history.as_slice() == history,
        Err(Busy { hall, active }) => {
            active.leave(&hall, Pick::Waiter);
            false
        }
    }
}

const HANDED: [Event; 4] = [
    Event::Enter(0, Via::Free),
    Event::Leave(0, Next::Entry),
    Event::Enter(1, Via::Handed),
    Event::Leave(1, Next::Entry),
];

#[test]
fn last_ends_the_hall(rt: HostRuntime) -> Result<(), Fail> {
    let (hall, first, second) = two_from_here::<Pb>(&rt, 1, 8)?;
    let well = ends_last(hall, first, second);
    well_up_to_here(&rt, well)
}

/// Nobody ends a hall while a seat waits on a condition.
fn goes_on(hall: Hall<Pb, Buffer>, first: Pass<Pb, Buffer>, second: Pass<Pb, Buffer>) -> bool
    requires first { (first.hall ≡ hall.id) × (0 < first.me.setting.conds) }
    requires second { second.hall ≡ hall.id }
{
    let Some(active) = enter(&hall, first) else {
        return false;
    };
    let Some(waiting) = wait(&hall, active, 0) else {
        return false;
    };
    waiting.give_up();
    let Some(active) = enter(&hall, second) else {
        return false;
    };
    match close(hall, active) {
        Ok(_) => false,
        Err(Busy { hall, active }) => {
            active.leave(&hall, Pick::Waiter);
            true
        }
    }
}

#[test]
fn waiter_keeps_the_hall_open(rt: HostRuntime) -> Result<(), Fail> {
    let (hall, first, second) = two_from_here::<Pb>(&rt, 1, 8)?;
    let well = goes_on(hall, first, second);
    well_up_to_here(&rt, well)
}

/// Comes in and leaves.
pub(super) fn visit(hall: &Hall<Pb, Buffer>, pass: Pass<Pb, Buffer>) -> Option<Pass<Pb, Buffer>>
    requires { pass.hall ≡ hall.now.id }
    ensures { IfSome result (λ p. p.hall ≡ hall.now.id) }
{
    Some(enter(hall, pass)?.leave(hall, Pick::Waiter))
}

pub(super) const MET: [Event; 6] = [
    Event::Enter(0, Via::Free),
    Event::Leave(0, Next::Entry),
    Event::Enter(1, Via::Free),
    Event::Leave(1, Next::Entry),
    Event::Enter(0, Via::Free),
    Event::Leave(0, Next::Entry),
];

/// Two seats that have met go on as before, and one of them ends the hall.
fn meets_and_ends(hall: Hall<Pb, Buffer>, first: Pass<Pb, Buffer>, second: Pass<Pb, Buffer>) -> bool
    requires first { first.hall ≡ hall.id }
    requires second { second.hall ≡ hall.id }
{
    let Some(mut one) = visit(&hall, first) else {
        return false;
    };
    let Some(mut two) = visit(&hall, second) else {
        return false;
    };
    meet(&hall, &mut one, &mut two);
    let Some(parked) = arrive(&hall, one) else {
        return false;
    };
    let drawn = parked.ticket() == Some(2);
    match comes_in(&hall, parked) {
        Some(active) => ends(hall, active, MET.as_slice()) && drawn,
        None => false,
    }
}

#[test]
fn seats_that_met_go_on(rt: HostRuntime) -> Result<(), Fail> {
    let (hall, first, second) = two_from_here::<Pb>(&rt, 0, 8)?;
    let well = meets_and_ends(hall, first, second);
    well_up_to_here(&rt, well)
}
