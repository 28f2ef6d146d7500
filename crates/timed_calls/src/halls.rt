//! Visits to a hall by one thread. One kind of visit arrives, polls and leaves. The other arrives, resumes, acts and
//! leaves.

ghost use Rattle.std.specs.Prelude.{◌≡◌, IfSome};

use anyhow::anyhow;
use monk_hall::{Hall, Pass};
use monk_kinds::{Pick, Pnb};
use monk_object::{Flags, Op};
use std::alloc::Global;
use std::rt::Clock;
use std::sync::Wait;
use std::time::Instant;

/// The most events of a seat that a hall can have.
const BUDGET: u32 = 1 << 20;

/// How many chunks are timed. The least counts: a visit's time while nothing disturbs its thread.
const CHUNKS: u32 = 150;

/// The visits of a chunk.
const VISITS: u32 = 2000;

/// The halls, one after another. All but the first write to memory that was used before.
const HALLS: u32 = 3;

/// The events of a visit with an act.
const MOST_EVENTS: u32 = 3;

/// What a visit does.
#[derive(Clone, Copy)]
enum Way {
    Poll,
    Act,
}

/// Makes one visit. Returns none if the seat has too few events left, or if the monitor isn't free.
fn visit<R: Wait>(
    rt: &R,
    hall: &Hall<Pnb, Flags>,
    pass: Pass<Pnb, Flags>,
    way: Way,
) -> Option<Pass<Pnb, Flags>>
    requires { pass.hall ≡ hall.now.id }
    ensures { IfSome result (λ p. p.hall ≡ hall.now.id) }
{
    if pass.left() <= MOST_EVENTS {
        return None;
    }
    let parked = pass.arrive(hall);
    match way {
        Way::Poll => match parked.poll(hall) {
            Ok(active) => Some(active.leave(hall, Pick::Waiter)),
            Err(parked) => {
                parked.give_up();
                None
            }
        },
        Way::Act => {
            let mut active = parked.resume(rt, hall);
            if active.left() > 1 {
                active.act(Op { code: 0, arg: 1 });
            }
            Some(active.leave(hall, Pick::Waiter))
        }
    }
}

/// Makes a chunk of visits.
fn visits<R: Wait>(
    rt: &R,
    hall: &Hall<Pnb, Flags>,
    first: Pass<Pnb, Flags>,
    way: Way,
) -> Option<Pass<Pnb, Flags>>
    requires { first.hall ≡ hall.now.id }
    ensures { IfSome result (λ p. p.hall ≡ hall.now.id) }
{
    let mut pass = first;
    for _ in 0..VISITS {
        pass = visit(rt, hall, pass, way)?;
    }
    Some(pass)
}

/// Returns the least nanoseconds of a chunk of visits.
fn least<R: Clock + Wait>(
    rt: &R,
    hall: &Hall<Pnb, Flags>,
    first: Pass<Pnb, Flags>,
    way: Way,
) -> anyhow::Result<u64>
    requires { first.hall ≡ hall.now.id }
{
    let mut pass = first;
    let mut best = u64::MAX;
    for _ in 0..CHUNKS {
        let start = Instant::now(rt)?;
        let Some(next) = visits(rt, hall, pass, way) else {
            return Err(anyhow!("no visit"));
        };
        pass = next;
        let took = u64::from(start.elapsed(rt)?.subsec_nanos());
        if took < best {
            best = took;
        }
    }
    Ok(best)
}

/// Returns the least time of the chunks of one hall after another.
fn least_of_halls<R: Clock + Wait>(rt: &R, alloc: Global, way: Way) -> anyhow::Result<u64> {
    let mut best = u64::MAX;
    for _ in 0..HALLS {
        let (hall, mut passes) = Hall::<Pnb, Flags>::make(alloc, Flags::make(1)?, 1, 0, BUDGET)?;
        let Some(pass) = passes.pop() else {
            return Err(anyhow!("no pass"));
        };
        let took = least(rt, &hall, pass, way)?;
        if took < best {
            best = took;
        }
    }
    Ok(best)
}

/// How many visits are made in each of the two ways.
pub const MADE: u32 = HALLS * CHUNKS * VISITS;

/// Returns the least nanoseconds of a visit that polls, and of one that acts.
pub fn least_of_both<R: Clock + Wait>(rt: &R, alloc: Global) -> anyhow::Result<(u64, u64)> {
    let poll = least_of_halls(rt, alloc, Way::Poll)? / VISITS as u64;
    let act = least_of_halls(rt, alloc, Way::Act)? / VISITS as u64;
    Ok((poll, act))
}
