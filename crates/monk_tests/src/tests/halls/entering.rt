//! Tickets, budgets, and who comes in after whom.
ghost use Rattle.std.specs.Prelude.{◌≡◌};

use crate::tests::halls::{PUT, TAKE, act, arrive, comes_in, enter, two_from_here};
use crate::tests::marks::well_up_to_here;
use monk_floor::MakeFault;
use monk_hall::{Hall, Parked, Pass};
use monk_history::{Event, Next, Via};
use monk_kinds::{Pb, Pick};
use monk_object::Buffer;
use std::sync::Wait;
use std::test::Fail;

/// The second draws a ticket while the first is active, and comes in once the first has left.
fn takes_over(hall: &Hall<Pb, Buffer>, first: Pass<Pb, Buffer>, second: Pass<Pb, Buffer>) -> bool
    requires first { first.hall ≡ hall.now.id }
    requires second { second.hall ≡ hall.now.id }
{
    let Some(mut one) = enter(hall, first) else {
        return false;
    };
    let Some(two) = arrive(hall, second) else {
        one.leave(hall, Pick::Waiter);
        return false;
    };
    let waits = two.ticket() == Some(1);
    let two = match two.poll(hall) {
        Err(parked) => parked,
        Ok(active) => {
            active.leave(hall, Pick::Waiter);
            one.leave(hall, Pick::Waiter);
            return false;
        }
    };
    let put = act(&mut one, PUT) == Some(1);
    one.leave(hall, Pick::Waiter);
    let taken = takes_seven(hall, two);
    waits && put && taken
}

/// Comes in after a seat that put 7, and takes it.
fn takes_seven(hall: &Hall<Pb, Buffer>, parked: Parked<Pb, Buffer>) -> bool
    requires { parked.hall ≡ hall.now.id }
{
    let Some(mut active) = comes_in(hall, parked) else {
        return false;
    };
    let history = [
        Event::Enter(0, Via::Free),
        Event::Act(0, PUT, 1),
        Event::Leave(0, Next::Entry),
        Event::Enter(1, Via::Handed),
    ];
    let seen = active.history() == history.as_slice();
    let taken = act(&mut active, TAKE) == Some(8);
    active.leave(hall, Pick::Waiter);
    seen && taken
}

#[test]
fn second_takes_over(rt: HostRuntime) -> Result<(), Fail> {
    let (hall, first, second) = two_from_here::<Pb>(&rt, 0, 8)?;
    let well = takes_over(&hall, first, second);
    well_up_to_here(&rt, well)
}

/// The second resumes once the first has left.
fn resumes<R: Wait>(
    rt: &R,
    hall: &Hall<Pb, Buffer>,
    first: Pass<Pb, Buffer>,
    second: Pass<Pb, Buffer>,
) -> bool
    requires first { first.hall ≡ hall.now.id }
    requires second { second.hall ≡ hall.now.id }
{
    let Some(one) = enter(hall, first) else {
        return false;
    };
    let Some(two) = arrive(hall, second) else {
        one.leave(hall, Pick::Waiter);
        return false;
    };
    one.leave(hall, Pick::Waiter);
    let active = two.resume(rt, hall);
    let history = [
        Event::Enter(0, Via::Free),
        Event::Leave(0, Next::Entry),
        Event::Enter(1, Via::Handed),
    ];
    let found = active.history() == history.as_slice();
    active.leave(hall, Pick::Waiter);
    found
}

#[test]
fn second_resumes(rt: HostRuntime) -> Result<(), Fail> {
    let (hall, first, second) = two_from_here::<Pb>(&rt, 0, 8)?;
    let well = resumes(&rt, &hall, first, second);
    well_up_to_here(&rt, well)
}

/// Whether a seat with a budget of two events has the right number left at each call of a visit.
fn comes_once(hall: &Hall<Pb, Buffer>, pass: Pass<Pb, Buffer>) -> bool
    requires { pass.hall ≡ hall.now.id }
{
    let before = pass.left();
    let Some(parked) = arrive(hall, pass) else {
        return false;
    };
    let drawn = parked.left();
    let Some(active) = comes_in(hall, parked) else {
        return false;
    };
    let inside = active.left();
    let after = active.leave(hall, Pick::Waiter).left();
    before == 2 && drawn == 2 && inside == 1 && after == 0
}

#[test]
fn budget_is_spent(rt: HostRuntime) -> Result<(), Fail> {
    let (hall, pass, _other) = two_from_here::<Pb>(&rt, 0, 2)?;
    let well = comes_once(&hall, pass);
    well_up_to_here(&rt, well)
}

/// Returns why a hall of these numbers isn't made, or nothing if it is.
fn refusal(rt: &HostRuntime, seats: u8, conds: u8, budget: u32) -> Result<Option<MakeFault>, Fail> {
    let buffer = Buffer::make(rt.alloc(), 1)?;
    match Hall::<Pb, Buffer>::make(rt.alloc(), buffer, seats, conds, budget) {
        Ok(_) => Ok(None),
        Err(fault) => Ok(Some(fault)),
    }
}

/// Seats, conditions and budgets, and the fault of a hall that is made of them, if any.
static REFUSALS: [(u8, u8, u32, Option<MakeFault>); 4] = [
    (33, 0, 8, Some(MakeFault::Seats)),
    (2, 9, 8, Some(MakeFault::Conds)),
    (2, 0, 1, Some(MakeFault::Budget)),
    (2, 0, 2, None),
];

#[test]
fn refuses_bad_numbers(rt: HostRuntime) -> Result<(), Fail> {
    for (seats, conds, budget, fault) in REFUSALS.iter() {
        assert!(rt; refusal(&rt, *seats, *conds, *budget)? == *fault);
    }
    Ok(())
}

/// Whether each of `times` polls gives the seat back. It is then given up.
fn polls_in_vain(hall: &Hall<Pb, Buffer>, mut parked: Parked<Pb, Buffer>, times: u32) -> bool
    requires { parked.hall ≡ hall.now.id }
{
    for _ in 0..times {
        parked = match parked.poll(hall) {
            Err(parked) => parked,
            Ok(active) => {
                active.leave(hall, Pick::Waiter);
                return false;
            }
        };
    }
    parked.give_up();
    true
}

/// The second gives up while the first is active, and nobody comes in after its ticket.
fn loses_a_ticket(
    hall: &Hall<Pb, Buffer>,
    first: Pass<Pb, Buffer>,
    second: Pass<Pb, Buffer>,
) -> bool
    requires first { first.hall ≡ hall.now.id }
    requires second { second.hall ≡ hall.now.id }
{
    let Some(one) = enter(hall, first) else {
        return false;
    };
    let Some(two) = arrive(hall, second) else {
        one.leave(hall, Pick::Waiter);
        return false;
    };
    two.give_up();
    let Some(three) = arrive(hall, one.leave(hall, Pick::Waiter)) else {
        return false;
    };
    let behind = three.ticket() == Some(2);
    let in_vain = polls_in_vain(hall, three, 1000);
    behind && in_vain
}

#[test]
fn lost_ticket_is_never_passed_on(rt: HostRuntime) -> Result<(), Fail> {
    let (hall, first, second) = two_from_here::<Pb>(&rt, 0, 8)?;
    let well = loses_a_ticket(&hall, first, second);
    well_up_to_here(&rt, well)
}
