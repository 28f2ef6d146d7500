//! Worked histories of floors, and what a floor answers.
ghost use Rattle.monk_tests.specs.FloorCalls.{IsRoom};

mod stories;

use super::floor_steps::{ITEMS, Size, room, runs_explicitly};
use super::marks::{from_here, well_up_to_here};
use monk_floor::{Floor, MakeFault};
use monk_history::{Event, From3, Next, Via};
use monk_kinds::{Kind, Pb, Pick};
use monk_object::{Buffer, Guarded, Op};
use std::test::Fail;

const PUT: Op = Op { code: 0, arg: 7 };

const TAKE: Op = Op { code: 1, arg: 0 };

fn refusal(rt: &HostRuntime, seats: u8, conds: u8, budget: u32) -> Result<Option<MakeFault>, Fail> {
    let buffer = Buffer::make(rt.alloc(), 1)?;
    match Floor::<Pb, Buffer>::make(rt.alloc(), buffer, seats, conds, budget) {
        Ok(_) => Ok(None),
        Err(fault) => Ok(Some(fault)),
    }
}

/// Seats, conditions and budgets, and the fault of a floor that is made of them, if any.
static REFUSALS: [(u8, u8, u32, Option<MakeFault>); 6] = [
    (0, 9, 1, Some(MakeFault::Seats)),
    (33, 9, 1, Some(MakeFault::Seats)),
    (32, 9, 1, Some(MakeFault::Conds)),
    (32, 8, 1, Some(MakeFault::Budget)),
    (1, 0, 1_048_577, Some(MakeFault::Budget)),
    (32, 8, 2, None),
];

#[test]
fn refusals_in_order(rt: HostRuntime) -> Result<(), Fail> {
    for (seats, conds, budget, fault) in REFUSALS.iter() {
        assert!(rt; refusal(&rt, *seats, *conds, *budget)? == *fault);
    }
    Ok(())
}

const HOARE_HANDOVER: [Event; 11] = [
    Event::Enter(0, Via::Free),
    Event::Act(0, TAKE, 0),
    Event::Wait(0, 1, Next::Entry),
    Event::Enter(1, Via::Free),
    Event::Act(1, PUT, 1),
    Event::Signal(1, 1, Next::Waiter(0)),
    Event::Resume(0, From3::Waiter),
    Event::Act(0, TAKE, 8),
    Event::Leave(0, Next::Signaller(1)),
    Event::Resume(1, From3::Signaller),
    Event::Leave(1, Next::Entry),
];

const TWO_AND_TWO: Size = Size { seats: 2, conds: 2 };

/// How many events seat 0 has left, how many chose it, whether it is queued, and how many wait on condition 1.
fn looks<K: Kind>(floor: &Floor<K, Buffer>) -> (u32, u32, bool, u32)
    requires { IsRoom 2 2 ITEMS floor.now }
{
    (
        floor.left(0),
        floor.granted(0),
        floor.queued(0),
        floor.waiting(1),
    )
}

/// Whether the floor gives the right answers after each half of a hand-over.
fn is_handed_over(rt: &HostRuntime, floor: &mut Floor<Pb, Buffer>) -> Result<bool, Fail>
    requires { IsRoom 2 2 ITEMS floor.old }
{
    runs_explicitly(rt, TWO_AND_TWO, floor, &HOARE_HANDOVER[..5], Pick::Waiter)?;
    let signalled = looks(floor) == (13, 0, true, 1) && floor.holds(Buffer::HAS_ITEM);
    runs_explicitly(rt, TWO_AND_TWO, floor, &HOARE_HANDOVER[5..], Pick::Waiter)?;
    Ok(signalled && looks(floor) == (10, 1, false, 0) && floor.enters() == 2)
}

/// It closes with its buffer and history.
#[test]
fn what_a_floor_tells(rt: HostRuntime) -> Result<(), Fail> {
    let mut floor: Floor<Pb, Buffer> = room(&rt, TWO_AND_TWO)?;
    let told = is_handed_over(&rt, &mut floor)?;
    from_here(&rt)?;
    let (buffer, history) = floor.close();
    let closed = buffer.holds(Buffer::HAS_ROOM) && history.len() == HOARE_HANDOVER.len();
    well_up_to_here(&rt, told && closed)
}
