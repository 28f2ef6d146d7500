//! More threads than processors: most of them sleep, and each sleeper is woken.
ghost use Rattle.std.specs.Prelude.{IfSome};
ghost use Rattle.monk_tests.specs.Passes.{AreSeats, IsSeat};

use crate::tests::samples::hall;
use monk_hall::{Hall, Pass};
use monk_kinds::{Npnb, Pb};
use monk_object::Buffer;
use monk_samples::{End, Style, put, take};
use std::alloc::AllocError;
use std::sync::Wait;
use std::test::Fail;
use std::thread;
use std::thread::Threads;

/// How many events each seat may make. It waits again and again under some kinds.
const BUDGET: u32 = 100_000;

/// How many threads meet.
static CROWDS: [u8; 4] = [17, 24, 31, 32];

/// Takes an item if its seat is even, and else puts one.
fn trades<K: Style, R: Wait>(
    pass: Pass<K, Buffer>,
    rt: &R,
    hall: &Hall<K, Buffer>,
) -> Option<Pass<K, Buffer>>
    requires { IsSeat hall.now.id pass }
    ensures { IfSome result (λ p. IsSeat hall.now.id p) }
{
    let (pass, end) = if pass.seat() % 2 == 0 {
        let (pass, _, end) = take(pass, rt, hall);
        (pass, end)
    } else {
        put(pass, rt, hall, 7)
    };
    match end {
        End::Done => Some(pass),
        End::Tired | End::Late => None,
    }
}

/// Whether a seat of so many does its work. Each taker takes as many items as there are putters, and each putter puts
/// as many as there are takers.
fn works<K: Style, R: Wait>(
    mut pass: Pass<K, Buffer>,
    rt: &R,
    hall: &Hall<K, Buffer>,
    seats: u8,
) -> bool
    requires { IsSeat hall.now.id pass }
{
    let putters = seats / 2;
    let times = if pass.seat() % 2 == 0 {
        putters
    } else {
        seats - putters
    };
    for _ in 0..times {
        match trades(pass, rt, hall) {
            Some(back) => pass = back,
            None => return false,
        }
    }
    true
}

/// Whether each seat does its work, in a thread of its own.
fn all_work<K: Style, R: Threads + Wait + Sync>(
    rt: &R,
    hall: &Hall<K, Buffer>,
    passes: Vec<Pass<K, Buffer>>,
    seats: u8,
) -> Result<bool, AllocError>
    requires { AreSeats hall.now.id passes.items }
{
    let work = |pass: Pass<K, Buffer>| -> bool
        requires { IsSeat hall.now.id pass }
    { works(pass, rt, hall, seats) };
    let worked = thread::map_vec(rt, passes, &work)?;
    Ok(worked.iter().all(|worked| *worked))
}

/// Whether such a crowd trades over a buffer with room for one item.
fn trade<K: Style, R: Threads + Wait + Sync + AllocGlobal>(
    rt: &R,
    seats: u8,
) -> Result<bool, Fail> {
    let buffer = Buffer::make(rt.alloc(), 1)?;
    let (hall, passes) = hall::<K, Buffer>(rt.alloc(), buffer, seats, BUDGET)?;
    Ok(all_work(rt, &hall, passes, seats)?)
}

#[test]
fn crowds_trade(rt: HostRuntime) -> Result<(), Fail> {
    for seats in CROWDS.iter() {
        assert!(rt; trade::<Pb, _>(&rt, *seats)? && trade::<Npnb, _>(&rt, *seats)?);
    }
    Ok(())
}
