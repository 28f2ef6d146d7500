//! As many seats as a hall can have, all at once.
ghost use Rattle.std.specs.Prelude.{◌≡◌, All, IfSome};
ghost use Rattle.monk_hall.specs.Tokens.{AreOf};

use crate::tests::halls::{arrive, comes_in, enter, hall};
use monk_hall::{Hall, Parked, Pass};
use monk_kinds::{Pb, Pick};
use monk_object::Buffer;
use std::alloc::Global;
use std::collections::VecDeque;
use std::test::Fail;

const SEATS: u8 = 32;

/// Draws the ticket with the seat's own number, and finds that it must wait.
fn stand_in_line(hall: &Hall<Pb, Buffer>, pass: Pass<Pb, Buffer>) -> Option<Parked<Pb, Buffer>>
    requires { pass.hall ≡ hall.now.id }
    ensures { IfSome result (λ p. p.hall ≡ hall.now.id) }
{
    let parked = arrive(hall, pass)?;
    if parked.ticket() != Some(u32::from(parked.seat())) {
        parked.give_up();
        return None;
    }
    match parked.poll(hall) {
        Err(parked) => Some(parked),
        Ok(active) => {
            active.leave(hall, Pick::Waiter);
            None
        }
    }
}

/// These seats draw their tickets, one after the other.
fn line_up(
    alloc: Global,
    hall: &Hall<Pb, Buffer>,
    mut outside: VecDeque<Pass<Pb, Buffer>>,
) -> VecDeque<Parked<Pb, Buffer>>
    requires { AreOf hall.now.id hall.now.setting outside.items }
    ensures { All (λ p. p.hall ≡ hall.now.id) result.items }
{
    let mut line = VecDeque::new(alloc);
    while let Some(pass) = outside.pop_front() {
        if let Some(parked) = stand_in_line(hall, pass) {
            if let Err(refused) = line.push_back(parked) {
                refused.value.give_up();
            }
        }
    }
    line
}

/// Comes in after all seats of lower numbers have entered and left. Leaves with no event left.
fn comes_in_its_turn(hall: &Hall<Pb, Buffer>, parked: Parked<Pb, Buffer>) -> bool
    requires { parked.hall ≡ hall.now.id }
{
    let Some(active) = comes_in(hall, parked) else {
        return false;
    };
    let behind = active.history().len() == 2 * active.seat() as usize + 1;
    let left = active.leave(hall, Pick::Waiter).left();
    behind && left == 0
}

/// Whether those in the line come in one after the other.
fn file_in(hall: &Hall<Pb, Buffer>, mut line: VecDeque<Parked<Pb, Buffer>>) -> bool
    requires { All (λ p. p.hall ≡ hall.now.id) line.items }
{
    let mut well = true;
    while let Some(parked) = line.pop_front() {
        well &= comes_in_its_turn(hall, parked);
    }
    line.destroy_empty();
    well
}

/// All others arrive while the first is active. Then each comes in after the one before it.
fn all_come(alloc: Global, hall: &Hall<Pb, Buffer>, mut outside: VecDeque<Pass<Pb, Buffer>>) -> bool
    requires { AreOf hall.now.id hall.now.setting outside.items }
{
    let Some(first) = outside.pop_front() else {
        return false;
    };
    let Some(active) = enter(hall, first) else {
        return false;
    };
    let line = line_up(alloc, hall, outside);
    let full = line.len() == usize::from(SEATS) - 1;
    let left = active.leave(hall, Pick::Waiter).left();
    let well = file_in(hall, line);
    full && left == 0 && well
}

#[test]
fn each_of_many_comes_in_its_turn(rt: HostRuntime) -> Result<(), Fail> {
    let (hall, passes) = hall::<Pb>(&rt, SEATS, 0, 2)?;
    assert!(rt; all_come(rt.alloc(), &hall, VecDeque::from(passes)));
    Ok(())
}
