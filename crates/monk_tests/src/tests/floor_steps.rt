//! A floor driven through a worked history, by the general scheduler step and by the path of the mode. The auditor is
//! asked whether an event may come, since a floor doesn't test that.
ghost use Rattle.std.specs.Prelude.{IfOk, IsTrue};
ghost use Rattle.monk_tests.specs.FloorCalls.{IsRoom, IsAllowedOn, MayCome};

use super::marks::{from_here, well_up_to_here};
use monk_audit::{Verdict, audit};
use monk_floor::Floor;
use monk_history::laws::{allowed_may_be_called, seat_resumes};
use monk_history::{Event, Header};
use monk_kinds::{Automatic, Explicit, ImmediateReturn, Kind, NonBlocking, Pick};
use monk_object::{Buffer, ObjectName};
use std::test::Fail;

/// How many seats and conditions a floor has.
#[derive(Clone, Copy)]
pub(crate) struct Size {
    pub(crate) seats: u8,
    pub(crate) conds: u8,
}

/// How many items its buffer holds.
pub(crate) const ITEMS: u8 = 1;

/// A floor over a buffer of one item.
pub(crate) fn room<K: Kind>(rt: &HostRuntime, size: Size) -> Result<Floor<K, Buffer>, Fail>
    ensures { IfOk result (IsRoom size.seats size.conds ITEMS) }
{
    let buffer = Buffer::make(rt.alloc(), ITEMS)?;
    Ok(Floor::make(rt.alloc(), buffer, size.seats, size.conds, 16)?)
}

/// Whether the auditor finds this event allowed after the floor's history.
fn is_allowed<K: Kind>(
    rt: &HostRuntime,
    size: Size,
    floor: &Floor<K, Buffer>,
    event: Event,
) -> Result<bool, Fail>
    requires { IsRoom size.seats size.conds ITEMS floor.now }
    ensures { IfOk result (λ allowed. IsTrue allowed → IsAllowedOn K.rules floor.now event) }
{
    let Some(header) = Header::new(K::NAME, size.seats, size.conds, ObjectName::Buffer, ITEMS)
    else {
        return Ok(false);
    };
    let mut grown = Vec::from_slice(rt.alloc(), floor.history())?;
    grown.push(event)?;
    let events = grown.as_slice();
    if events.len() > 1 << 25 {
        return Ok(false);
    }
    match audit(rt.alloc(), &header, events)? {
        Verdict::Legal(count) => Ok(count as usize == events.len()),
        Verdict::Forbidden { .. } => Ok(false),
    }
}

/// Fails unless the event may come next, and one is left to its seat. From here on the test asks for no memory.
fn comes_next<K: Kind>(
    rt: &HostRuntime,
    size: Size,
    floor: &Floor<K, Buffer>,
    event: Event,
) -> Result<(), Fail>
    requires { IsRoom size.seats size.conds ITEMS floor.now }
    ensures { IfOk result (λ _. MayCome K.rules floor.now event) }
{
    let seat = event.seat();
    if seat >= size.seats || floor.left(seat) == 0 || !is_allowed(rt, size, floor, event)? {
        return Err("an event that may not come")?;
    }
    from_here(rt)
}

/// Makes the call of an event that chooses nobody, and says whether that very event came of it.
fn moves<K: Kind>(size: Size, floor: &mut Floor<K, Buffer>, event: Event) -> bool
    requires room { IsRoom size.seats size.conds ITEMS floor.old }
    requires may_come { MayCome K.rules floor.old event }
    ensures { IsRoom size.seats size.conds ITEMS floor.new }
{
    allowed_may_be_called();
    seat_resumes();
    match event {
        Event::Enter(seat, via) => {
            floor.enter(seat, via);
            true
        }
        Event::Act(seat, op, reply) => floor.act(seat, op) == reply,
        Event::Resume(seat, queue) => floor.resume(seat) == queue,
        _ => false,
    }
}

/// Makes the call of an event by the general scheduler step, and says whether that very event came of it.
fn calls_plainly<K: Kind>(
    size: Size,
    floor: &mut Floor<K, Buffer>,
    event: Event,
    pick: Pick,
) -> bool
    requires room { IsRoom size.seats size.conds ITEMS floor.old }
    requires may_come { MayCome K.rules floor.old event }
    ensures { IsRoom size.seats size.conds ITEMS floor.new }
{
    allowed_may_be_called();
    let known = pick == Pick::Entry;
    match event {
        Event::Leave(seat, next) => floor.plain_leave(seat, pick, known) == next,
        Event::Wait(seat, cond, next) => floor.plain_wait(seat, cond, pick, known) == next,
        Event::Signal(seat, cond, next) => floor.plain_signal(seat, cond, pick, known) == next,
        Event::SignalLeave(seat, cond, next) => {
            floor.plain_signal_leave(seat, cond, pick, known) == next
        }
        Event::Until(seat, pred, next) => floor.plain_until(seat, pred, pick, known) == next,
        Event::SignalAll(seat, cond) => {
            floor.plain_signal_all(seat, cond);
            true
        }
        Event::SignalWait(seat, cond, wait_cond, next) => {
            floor.plain_signal_wait(seat, cond, wait_cond, pick, known) == next
        }
        _ => moves(size, floor, event),
    }
}

/// Fails unless a new floor makes exactly these events.
pub(crate) fn runs_plainly<K: Kind>(
    rt: &HostRuntime,
    size: Size,
    events: &[Event],
    pick: Pick,
) -> Result<(), Fail> {
    let mut floor: Floor<K, Buffer> = room(rt, size)?;
    for event in events {
        comes_next(rt, size, &floor, *event)?;
        let came = calls_plainly(size, &mut floor, *event, pick);
        well_up_to_here(rt, came)?;
    }
    Ok(())
}

/// The same by the paths of a kind that has a signaller queue.
fn calls_explicitly<K: Explicit>(
    size: Size,
    floor: &mut Floor<K, Buffer>,
    event: Event,
    pick: Pick,
) -> bool
    requires room { IsRoom size.seats size.conds ITEMS floor.old }
    requires may_come { MayCome K.rules floor.old event }
    ensures { IsRoom size.seats size.conds ITEMS floor.new }
{
    allowed_may_be_called();
    let known = pick == Pick::Entry;
    match event {
        Event::Leave(seat, next) => floor.leave(seat, pick, known) == next,
        Event::Wait(seat, cond, next) => floor.wait(seat, cond, pick, known) == next,
        Event::Signal(seat, cond, next) => floor.signal(seat, cond, pick, known) == next,
        _ => moves(size, floor, event),
    }
}

/// Fails unless a floor makes exactly these events by those paths.
pub(crate) fn runs_explicitly<K: Explicit>(
    rt: &HostRuntime,
    size: Size,
    floor: &mut Floor<K, Buffer>,
    events: &[Event],
    pick: Pick,
) -> Result<(), Fail>
    requires { IsRoom size.seats size.conds ITEMS floor.old }
    ensures { IsRoom size.seats size.conds ITEMS floor.new }
{
    for event in events {
        comes_next(rt, size, floor, *event)?;
        let came = calls_explicitly(size, floor, *event, pick);
        well_up_to_here(rt, came)?;
    }
    Ok(())
}

/// The same for a kind whose signal to all is a call of its own.
fn calls_non_blocking<K: NonBlocking>(
    size: Size,
    floor: &mut Floor<K, Buffer>,
    event: Event,
    pick: Pick,
) -> bool
    requires room { IsRoom size.seats size.conds ITEMS floor.old }
    requires may_come { MayCome K.rules floor.old event }
    ensures { IsRoom size.seats size.conds ITEMS floor.new }
{
    if let Event::SignalAll(seat, cond) = event {
        allowed_may_be_called();
        floor.signal_all(seat, cond);
        return true;
    }
    calls_explicitly(size, floor, event, pick)
}

/// Fails unless a new floor makes exactly these events by those paths.
pub(crate) fn runs_non_blocking<K: NonBlocking>(
    rt: &HostRuntime,
    size: Size,
    events: &[Event],
    pick: Pick,
) -> Result<(), Fail> {
    let mut floor: Floor<K, Buffer> = room(rt, size)?;
    for event in events {
        comes_next(rt, size, &floor, *event)?;
        let came = calls_non_blocking(size, &mut floor, *event, pick);
        well_up_to_here(rt, came)?;
    }
    Ok(())
}

/// The same by the paths of immediate return.
fn calls_returning<K: ImmediateReturn>(
    size: Size,
    floor: &mut Floor<K, Buffer>,
    event: Event,
    pick: Pick,
) -> bool
    requires room { IsRoom size.seats size.conds ITEMS floor.old }
    requires may_come { MayCome K.rules floor.old event }
    ensures { IsRoom size.seats size.conds ITEMS floor.new }
{
    allowed_may_be_called();
    let known = pick == Pick::Entry;
    match event {
        Event::Leave(seat, next) => floor.leave(seat, pick, known) == next,
        Event::Wait(seat, cond, next) => floor.wait(seat, cond, pick, known) == next,
        Event::SignalLeave(seat, cond, next) => floor.signal_leave(seat, cond, pick, known) == next,
        Event::SignalWait(seat, cond, wait_cond, next) => {
            floor.signal_wait(seat, cond, wait_cond, pick, known) == next
        }
        _ => moves(size, floor, event),
    }
}

/// Fails unless a new floor makes exactly these events by those paths.
pub(crate) fn runs_returning<K: ImmediateReturn>(
    rt: &HostRuntime,
    size: Size,
    events: &[Event],
    pick: Pick,
) -> Result<(), Fail> {
    let mut floor: Floor<K, Buffer> = room(rt, size)?;
    for event in events {
        comes_next(rt, size, &floor, *event)?;
        let came = calls_returning(size, &mut floor, *event, pick);
        well_up_to_here(rt, came)?;
    }
    Ok(())
}

/// The same by the paths of automatic signalling.
fn calls_automatically<K: Automatic>(
    size: Size,
    floor: &mut Floor<K, Buffer>,
    event: Event,
    pick: Pick,
) -> bool
    requires room { IsRoom size.seats size.conds ITEMS floor.old }
    requires may_come { MayCome K.rules floor.old event }
    ensures { IsRoom size.seats size.conds ITEMS floor.new }
{
    allowed_may_be_called();
    let known = pick == Pick::Entry;
    match event {
        Event::Leave(seat, next) => floor.leave(seat, pick, known) == next,
        Event::Until(seat, pred, next) => floor.until(seat, pred, pick, known) == next,
        _ => moves(size, floor, event),
    }
}

/// Fails unless a new floor makes exactly these events by those paths.
pub(crate) fn runs_automatically<K: Automatic>(
    rt: &HostRuntime,
    size: Size,
    events: &[Event],
    pick: Pick,
) -> Result<(), Fail> {
    let mut floor: Floor<K, Buffer> = room(rt, size)?;
    for event in events {
        comes_next(rt, size, &floor, *event)?;
        let came = calls_automatically(size, &mut floor, *event, pick);
        well_up_to_here(rt, came)?;
    }
    Ok(())
}

/// The same for a new floor.
pub(crate) fn makes_explicitly<K: Explicit>(
    rt: &HostRuntime,
    size: Size,
    events: &[Event],
    pick: Pick,
) -> Result<(), Fail> {
    let mut floor: Floor<K, Buffer> = room(rt, size)?;
    runs_explicitly(rt, size, &mut floor, events, pick)
}
