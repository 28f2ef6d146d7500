//! Random legal calls on a floor, in one thread.

ghost use Rattle.std.specs.Prelude.{◌≡◌, ◌<◌, IfSome, not};
ghost use Rattle.monk_history.specs.Meaning.{Signallers.is_empty, Turn.turn};
ghost use Rattle.timed_calls.specs.Calls.{IsSameSize, OwnsTurn};

use crate::chance::Chance;
use anyhow::anyhow;
use monk_floor::Floor;
use monk_history::{Event, Turn, Via};
use monk_kinds::{Automatic, Explicit, Kind, Pb, Pis, Pnb};
use monk_object::{Buffer, Op};
use std::alloc::Global;

/// How many condition variables a floor has: the most that it can have.
const CONDS: u8 = 8;

/// The items of its buffer.
const SIZE: u8 = 8;

/// The events of each seat, and how many more calls a floor is asked for. So no seat runs out of events.
const CALLS: u32 = 1 << 18;

/// How many floors there are, one after another.
const FLOORS: u32 = 8;

/// Returns how many calls were recorded under the kind with so many seats.
pub fn calls_of(alloc: Global, kind: &str, seats: u8) -> anyhow::Result<u64> {
    if seats < 2 || seats > 32 {
        return Err(anyhow!("2 to 32 seats"));
    }
    let mut count = 0u64;
    for _ in 0..FLOORS {
        let calls = match kind {
            "PB" => explicit::<Pb>(alloc, seats)?,
            "PNB" => explicit::<Pnb>(alloc, seats)?,
            "PIS" => automatic::<Pis>(alloc, seats)?,
            _ => return Err(anyhow!("PB, PNB or PIS")),
        };
        count = count.wrapping_add(calls as u64);
    }
    Ok(count)
}

fn explicit<K: Explicit>(alloc: Global, seats: u8) -> anyhow::Result<usize> {
    let buffer = Buffer::make(alloc, SIZE)?;
    let mut floor: Floor<K, Buffer> = Floor::make(alloc, buffer, seats, CONDS, CALLS)?;
    drive_explicit(&mut floor, seats);
    Ok(floor.history().len())
}

fn automatic<K: Automatic>(alloc: Global, seats: u8) -> anyhow::Result<usize> {
    let buffer = Buffer::make(alloc, SIZE)?;
    let mut floor: Floor<K, Buffer> = Floor::make(alloc, buffer, seats, 0, CALLS)?;
    drive_automatic(&mut floor, seats);
    Ok(floor.history().len())
}

/// Returns whose turn it is after a history.
fn turn_of(history: &[Event]) -> Turn
    ensures { result ≡ turn history.now }
{
    match history.last() {
        None => Turn::Open,
        Some(event) => Turn::after(*event),
    }
}

fn has_begun(history: &[Event]) -> bool
    ensures { result ≡ not (is_empty history.now) }
{
    history.first().is_some()
}

/// Lets a seat that is outside enter an open monitor. Returns whether it did.
fn enter<K: Kind>(floor: &mut Floor<K, Buffer>, seat: u8) -> bool
    requires { seat < floor.old.seats }
    ensures { IsSameSize floor.old floor.new }
{
    let history = floor.history();
    if turn_of(history) != Turn::Open || floor.queued(seat) || floor.left(seat) == 0 {
        return false;
    }
    if has_begun(history) {
        floor.enter(seat, Via::Handed);
    } else {
        floor.enter(seat, Via::Free);
    }
    true
}

/// Lets the seat go on to which the turn is due.
fn resume<K: Kind>(floor: &mut Floor<K, Buffer>, seats: u8)
    requires { floor.old.seats ≡ seats }
    ensures { IsSameSize floor.old floor.new }
{
    if let Turn::Due(seat, _) = turn_of(floor.history()) {
        if seat < seats && floor.left(seat) > 0 {
            floor.resume(seat);
        }
    }
}

/// Returns the seat that has the turn and an event left, if there is one.
fn caller<K: Kind>(floor: &Floor<K, Buffer>, seats: u8) -> Option<u8>
    requires { floor.now.seats ≡ seats }
    ensures { IfSome result (OwnsTurn floor.now) }
{
    match turn_of(floor.history()) {
        Turn::Owned(seat) if seat < seats && floor.left(seat) > 0 => Some(seat),
        _ => None,
    }
}

/// Lets the first seat enter that can, from a random one on.
fn let_in<K: Kind>(floor: &mut Floor<K, Buffer>, chance: &mut Chance, seats: u8)
    requires seats { floor.old.seats ≡ seats }
    requires some { 0 < seats }
    ensures { IsSameSize floor.old floor.new }
{
    let first = chance.below(seats);
    for step in 0..seats {
        let seat = (u16::from(first) + u16::from(step)) % u16::from(seats);
        if enter(floor, seat as u8) {
            return;
        }
    }
}

/// Whether a seat would be left that may still come if one more were parked.
fn may_park<K: Kind>(floor: &Floor<K, Buffer>, seats: u8) -> bool
    requires { floor.now.seats ≡ seats }
{
    let mut parked = 1u8;
    for seat in 0..seats {
        if floor.queued(seat) {
            parked = parked.saturating_add(1);
        }
    }
    parked < seats
}

/// Makes an act or a leave of the seat that has the turn.
fn common<K: Kind>(floor: &mut Floor<K, Buffer>, chance: &mut Chance, seat: u8)
    requires { OwnsTurn floor.old seat }
    ensures { IsSameSize floor.old floor.new }
{
    let code = chance.below(3);
    if code < 2 {
        let arg = u32::from(chance.below(200));
        floor.act(seat, Op { code, arg });
    } else {
        floor.leave(seat, chance.pick(), false);
    }
}

/// Makes random calls on a floor of a kind with a signaller queue.
fn drive_explicit<K: Explicit>(floor: &mut Floor<K, Buffer>, seats: u8)
    requires seats { floor.old.seats ≡ seats }
    requires conds { floor.old.conds ≡ CONDS }
    requires some { 0 < seats }
{
    let mut chance = Chance::new();
    for _ in 0..CALLS {
        resume(floor, seats);
        let Some(seat) = caller(floor, seats) else {
            let_in(floor, &mut chance, seats);
            continue;
        };
        let cond = chance.below(CONDS);
        match chance.below(4) {
            0 if may_park(floor, seats) => {
                floor.wait(seat, cond, chance.pick(), false);
            }
            1 => {
                floor.signal(seat, cond, chance.pick(), false);
            }
            _ => common(floor, &mut chance, seat),
        }
    }
}

/// Makes random calls on a floor of an automatic kind.
fn drive_automatic<K: Automatic>(floor: &mut Floor<K, Buffer>, seats: u8)
    requires seats { floor.old.seats ≡ seats }
    requires some { 0 < seats }
{
    let mut chance = Chance::new();
    for _ in 0..CALLS {
        resume(floor, seats);
        let Some(seat) = caller(floor, seats) else {
            let_in(floor, &mut chance, seats);
            continue;
        };
        let pred = chance.below(2);
        match chance.below(3) {
            0 if may_park(floor, seats) => {
                floor.until(seat, pred, chance.pick(), false);
            }
            _ => common(floor, &mut chance, seat),
        }
    }
}
