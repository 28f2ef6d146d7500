//! Members at work in one thread. Nobody has to wait.
ghost use Rattle.std.specs.Prelude.{IfOk};
ghost use Rattle.monk_tests.specs.Passes.{AreSeats, IsSeat};

mod crowds;
pub(crate) mod gates;
mod later_members;
mod runs;

use monk_hall::{Hall, Pass};
use monk_history::{Event, Next, Via};
use monk_kinds::{Npnb, Pb, Pick, Pir};
use monk_object::{Book, Buffer, Guarded, Shop};
use monk_samples::{
    End, Style, barber_turn, put, read_begin, read_end, sit_and_cut, take, write_begin, write_end,
};
use std::alloc::Global;
use std::sync::Wait;
use std::test::Fail;

/// A hall of so many seats, with its passes.
fn hall<K: Style, T: Guarded>(
    alloc: Global,
    object: T,
    seats: u8,
    budget: u32,
) -> Result<(Hall<K, T>, Vec<Pass<K, T>>), Fail>
    ensures { IfOk result (λ r. AreSeats r.0.id r.1.items) }
{
    Ok(Hall::make(alloc, object, seats, 3, budget)?)
}

/// Takes the last of the passes.
fn last<K: Style, T: Guarded>(
    hall: &Hall<K, T>,
    passes: &mut Vec<Pass<K, T>>,
) -> Result<Pass<K, T>, Fail>
    requires { AreSeats hall.now.id passes.old.items }
    ensures pass { IfOk result (λ p. IsSeat hall.now.id p) }
    ensures rest { AreSeats hall.now.id passes.new.items }
{
    match passes.pop() {
        Some(pass) => Ok(pass),
        None => Err(Fail::new("every seat has a pass")),
    }
}

/// A hall of two seats, and their passes.
fn two<K: Style, T: Guarded>(
    rt: &HostRuntime,
    object: T,
    budget: u32,
) -> Result<(Hall<K, T>, Pass<K, T>, Pass<K, T>), Fail>
    ensures first { IfOk result (λ r. IsSeat r.0.id r.1) }
    ensures second { IfOk result (λ r. IsSeat r.0.id r.2) }
{
    let (hall, mut passes) = hall::<K, T>(rt.alloc(), object, 2, budget)?;
    let second = last(&hall, &mut passes)?;
    let first = last(&hall, &mut passes)?;
    Ok((hall, first, second))
}

#[test]
fn item_goes_through(rt: HostRuntime) -> Result<(), Fail> {
    let (hall, putter, taker) = two::<Pb, Buffer>(&rt, Buffer::make(rt.alloc(), 1)?, 8)?;
    let (_, is_put) = put(putter, &rt, &hall, 7);
    let (pass, item, is_taken) = take(taker, &rt, &hall);
    let are_done = is_put == End::Done && is_taken == End::Done;
    assert!(rt; are_done && item == Some(7) && pass.left() == 4);
    Ok(())
}

/// Comes in at once and leaves. Returns whether the seat found this history.
fn comes_in_and_finds<K: Style, T: Guarded>(
    pass: Pass<K, T>,
    hall: &Hall<K, T>,
    history: &[Event],
) -> bool
    requires { IsSeat hall.now.id pass }
{
    if pass.left() < 2 {
        return false;
    }
    match pass.arrive(hall).poll(hall) {
        Ok(active) => {
            let found = active.history() == history;
            active.leave(hall, Pick::Waiter);
            found
        }
        Err(parked) => {
            parked.give_up();
            false
        }
    }
}

/// A budget of two events suffices only to come and go, so nothing is put.
#[test]
fn tired_putter_leaves(rt: HostRuntime) -> Result<(), Fail> {
    let (hall, putter, other) = two::<Pb, Buffer>(&rt, Buffer::make(rt.alloc(), 1)?, 2)?;
    let (pass, end) = put(putter, &rt, &hall, 7);
    let is_tired = end == End::Tired && pass.left() == 0;
    let history = [
        Event::Enter(0, Via::Free),
        Event::Leave(0, Next::Entry),
        Event::Enter(1, Via::Free),
    ];
    let found = comes_in_and_finds(other, &hall, history.as_slice());
    assert!(rt; is_tired && found);
    Ok(())
}

/// Whether the seat reads the book, and ends.
fn reads<K: Style, R: Wait>(pass: Pass<K, Book>, rt: &R, hall: &Hall<K, Book>) -> bool
    requires { IsSeat hall.now.id pass }
{
    let (pass, begun) = read_begin(pass, rt, hall);
    let (_, ended) = read_end(pass, rt, hall);
    begun == End::Done && ended == End::Done
}

/// Whether the seat writes the book, and ends.
fn writes<K: Style, R: Wait>(pass: Pass<K, Book>, rt: &R, hall: &Hall<K, Book>) -> bool
    requires { IsSeat hall.now.id pass }
{
    let (pass, begun) = write_begin(pass, rt, hall);
    let (_, ended) = write_end(pass, rt, hall);
    begun == End::Done && ended == End::Done
}

#[test]
fn book_is_read_and_written(rt: HostRuntime) -> Result<(), Fail> {
    let (hall, reader, writer) = two::<Npnb, Book>(&rt, Book::make(1)?, 16)?;
    let is_read = reads(reader, &rt, &hall);
    let is_written = writes(writer, &rt, &hall);
    assert!(rt; is_read && is_written);
    Ok(())
}

/// The customer has sat down, and has too few events left to wait for the cut.
#[test]
fn barber_serves_a_tired_customer(rt: HostRuntime) -> Result<(), Fail> {
    let (hall, customer, barber) = two::<Pir, Shop>(&rt, Shop::make(1)?, 6)?;
    let (customer, end) = sit_and_cut(customer, &rt, &hall);
    let is_tired = end == End::Tired && customer.left() == 1;
    let (barber, end) = barber_turn(barber, &rt, &hall);
    assert!(rt; is_tired && end == End::Done && barber.left() == 0);
    Ok(())
}
