ghost use Rattle.std.specs.Prelude.{◌≡◌, ◌<◌, All, slice_get, true};
ghost use Rattle.monk_history.specs.Meaning.Events as events;
ghost use Rattle.monk_history.specs.Meaning.Paths as paths;
ghost use Rattle.monk_history.specs.Meaning.{Reasons.is_condition, Reasons.fits_object, Untils.ready_of};
ghost use Rattle.monk_history.specs.Limits.{most_conds};
ghost use Rattle.monk_floor.specs.{Queues.queue_at, Ready.stays_by};

use crate::queues::Queues;
use monk_history::{Event, From3, Next};
use monk_kinds::Pick;
use monk_object::Guarded;

/// Returns the first of the waits-until whose predicate holds. It judges each wait-until up to that one.
pub fn first_ready<T: Guarded>(object: &T, queues: &Queues) -> Option<u8>
    requires { All (λ w. w.1 < T.PREDICATES) queues.now.untils }
    ensures { result ≡ slice_get (ready_of T.meaning (T.state object.now) queues.now.untils) 0 }
{
    let mut wait = queues.first_until();
    for _ in 0..queues.untils() {
        let Some((seat, pred)) = wait else {
            return None;
        };
        if object.holds(pred) {
            return Some(seat);
        }
        wait = queues.until_after(seat);
    }
    None
}

/// Whether an event must stay. A signal on an empty condition must, and an until whose predicate holds.
pub fn must_stay<T: Guarded>(object: &T, queues: &Queues, event: Event) -> bool
    requires signals { is_condition most_conds (events.signals_on event) ≡ true }
    requires object { fits_object T.CODES T.PREDICATES event ≡ true }
    ensures { result ≡ stays_by T.meaning (queue_at queues.now.conditions) (T.state object.now) event }
{
    match event {
        Event::Signal(..) => queues.finds_none(event),
        Event::Until(_, pred, _) => object.holds(pred),
        _ => false,
    }
}

/// Returns the choice of that seat from that queue.
fn next_from(queue: From3, seat: u8) -> Next
    ensures { result ≡ paths.next_from queue seat }
{
    match queue {
        From3::Waiter => Next::Waiter(seat),
        From3::Signaller => Next::Signaller(seat),
        From3::Until => Next::Until(seat),
    }
}

/// Returns the choice if only one inner queue counts. It is given the front, and whether entry ties with the queue.
pub fn single_choice(
    queue: From3,
    ties: bool,
    front: Option<u8>,
    entry_known: bool,
    pick: Pick,
) -> Next
    ensures { result ≡ paths.single_choice queue ties front entry_known pick }
{
    match front {
        None => Next::Entry,
        Some(seat) => match pick {
            Pick::Entry if entry_known && ties => Next::Entry,
            _ => next_from(queue, seat),
        },
    }
}

/// Returns the choice of the front of the signaller queue. It is to stay if the front is the caller.
fn staying(front: u8, caller: u8) -> Next
    ensures { result ≡ paths.staying front caller }
{
    if front == caller {
        Next::Stay
    } else {
        Next::Signaller(front)
    }
}

/// Returns the choice if the waiter queue and the signaller queue have one priority. It is given their fronts, and
/// whether entry ties with them.
pub fn equal_choice(
    ties: bool,
    waiter: Option<u8>,
    signaller: Option<u8>,
    caller: u8,
    entry_known: bool,
    pick: Pick,
) -> Next
    ensures { result ≡ paths.equal_choice ties waiter signaller caller entry_known pick }
{
    match (waiter, signaller) {
        (None, None) => Next::Entry,
        (Some(seat), None) => single_choice(From3::Waiter, ties, Some(seat), entry_known, pick),
        (None, Some(front)) => match pick {
            Pick::Entry if entry_known && ties => Next::Entry,
            _ => staying(front, caller),
        },
        (Some(seat), Some(front)) => match pick {
            Pick::Entry if entry_known && ties => Next::Entry,
            Pick::Signaller => staying(front, caller),
            _ => Next::Waiter(seat),
        },
    }
}

/// Returns the choice of a signal that hands over to the seat that it serves.
pub fn served_choice(served: Option<u8>) -> Next
    ensures { result ≡ paths.served_choice served }
{
    match served {
        None => Next::Stay,
        Some(seat) => Next::Waiter(seat),
    }
}
