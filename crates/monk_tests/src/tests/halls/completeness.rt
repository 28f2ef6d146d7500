//! A closed history holds what its seats did, and nothing else.
ghost use Rattle.std.specs.Prelude.{◌≡◌, IfSome};
ghost use Rattle.monk_hall.specs.Floors.{StartsWith};

use crate::tests::halls::ending::{MET, visit};
use crate::tests::halls::two_from_here;
use crate::tests::marks::well_up_to_here;
use monk_hall::{Busy, Closed, Hall, Pass, close, complete, meet};
use monk_kinds::{Pb, Pick};
use monk_object::Buffer;
use std::slice::from_ref;
use std::test::Fail;

/// Comes in by the ticket of that number, and ends the hall. The closed history begins with what the seat had seen.
fn ends_by_ticket(
    hall: Hall<Pb, Buffer>,
    pass: Pass<Pb, Buffer>,
    ticket: u32,
) -> Option<Closed<Buffer>>
    requires { pass.hall ≡ hall.id }
    ensures { IfSome result (λ c. StartsWith c.history.items pass.me.seen) }
{
    if pass.left() < 2 {
        return None;
    }
    let parked = pass.arrive(&hall);
    if parked.ticket() != Some(ticket) {
        parked.give_up();
        return None;
    }
    let active = match parked.poll(&hall) {
        Ok(active) => active,
        Err(parked) => {
            parked.give_up();
            return None;
        }
    };
    match close(hall, active) {
        Ok(closed) => Some(closed),
        Err(Busy { hall, active }) => {
            active.leave(&hall, Pick::Waiter);
            None
        }
    }
}

/// Two seats visit and meet, and the first ends the hall. Together they did all that was done. The first alone did not.
fn two_did_it_all(hall: Hall<Pb, Buffer>, first: Pass<Pb, Buffer>, second: Pass<Pb, Buffer>) -> bool
    requires first { first.hall ≡ hall.id }
    requires second { second.hall ≡ hall.id }
{
    let Some(mut one) = visit(&hall, first) else {
        return false;
    };
    let Some(mut two) = visit(&hall, second) else {
        return false;
    };
    let seat = one.seat();
    if seat == two.seat() {
        return false;
    }
    meet(&hall, &mut one, &mut two);
    let Some(closed) = ends_by_ticket(hall, one, 2) else {
        return false;
    };
    let history = closed.history.as_slice();
    let both = complete(history, seat, from_ref(&two));
    let alone = complete::<Pb, Buffer>(history, seat, &[]);
    history == MET.as_slice() && both && !alone
}

#[test]
fn closed_history_holds_two_seats_calls(rt: HostRuntime) -> Result<(), Fail> {
    let (hall, first, second) = two_from_here::<Pb>(&rt, 0, 8)?;
    let well = two_did_it_all(hall, first, second);
    well_up_to_here(&rt, well)
}

/// The second seat visits once more after they met. So the first doesn't know that the closed history begins with what
/// the second has seen, and can't ask whether it is complete.
fn second_goes_on(hall: Hall<Pb, Buffer>, first: Pass<Pb, Buffer>, second: Pass<Pb, Buffer>) -> bool
    requires first { first.hall ≡ hall.id }
    requires second { second.hall ≡ hall.id }
{
    let Some(mut one) = visit(&hall, first) else {
        return false;
    };
    let Some(mut two) = visit(&hall, second) else {
        return false;
    };
    meet(&hall, &mut one, &mut two);
    if visit(&hall, two).is_none() {
        return false;
    }
    let Some(closed) = ends_by_ticket(hall, one, 3) else {
        return false;
    };
    closed.history.len() == 8
}

#[test]
fn seat_that_goes_on_is_in_the_history(rt: HostRuntime) -> Result<(), Fail> {
    let (hall, first, second) = two_from_here::<Pb>(&rt, 0, 8)?;
    let well = second_goes_on(hall, first, second);
    well_up_to_here(&rt, well)
}
