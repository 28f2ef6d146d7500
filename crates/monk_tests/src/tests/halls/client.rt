//! What a caller can prove, from public contracts and laws alone.
ghost use Rattle.std.specs.Prelude.{◌≡◌, ◌<◌, IfSome};
ghost use Rattle.monk_tests.specs.Halls.{IsOneVisit, NoTwoAreActive};

use crate::tests::halls::{PUT, two_from_here};
use crate::tests::marks::well_up_to_here;
use monk_hall::laws::one_is_active;
use monk_hall::{Busy, Closed, Hall, Pass, close};
use monk_kinds::{Kind, Npnb, Pick};
use monk_object::{Buffer, Guarded, Op};
use std::test::Fail;

/// A seat comes in, does an operation and ends the hall. In the closed history its events are those that it had,
/// followed by its enter, its act and its leave.
fn visits_and_closes<K: Kind, T: Guarded>(
    hall: Hall<K, T>,
    pass: Pass<K, T>,
    op: Op,
) -> Option<Closed<T>>
    requires hall { pass.hall ≡ hall.id }
    requires code { op.code < T.CODES }
    ensures { IfSome result (λ c. IsOneVisit pass op c.history.items) }
{
    if pass.left() < 3 {
        return None;
    }
    let mut active = match pass.arrive(&hall).poll(&hall) {
        Ok(active) => active,
        Err(parked) => {
            parked.give_up();
            return None;
        }
    };
    active.act(op);
    match close(hall, active) {
        Ok(closed) => Some(closed),
        Err(Busy { hall, active }) => {
            active.leave(&hall, Pick::Waiter);
            None
        }
    }
}

/// No two seats are active in any state of a table under the rule.
fn no_two_are_active()
    ensures { NoTwoAreActive }
{
    one_is_active();
}

/// Whether the closed history of a visit has its three events, and nobody else's.
fn is_alone(hall: Hall<Npnb, Buffer>, pass: Pass<Npnb, Buffer>) -> bool
    requires { pass.hall ≡ hall.id }
{
    let closed = visits_and_closes(hall, pass, PUT);
    matches!(&closed, Some(closed) if closed.history.len() == 3)
}

#[test]
fn history_holds_the_callers_calls(rt: HostRuntime) -> Result<(), Fail> {
    no_two_are_active();
    let (hall, _other, pass) = two_from_here::<Npnb>(&rt, 0, 4)?;
    let well = is_alone(hall, pass);
    well_up_to_here(&rt, well)
}
