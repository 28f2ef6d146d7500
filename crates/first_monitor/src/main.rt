//! Your first monitor: two threads share a buffer, and an auditor judges what they did.
//!
//! A hall is a monitor for running threads. It guards an object, here a buffer of one item, and has a seat for each
//! thread. A thread holds its seat by a pass. `put` and `take` go in by the pass, wait until they can do their work,
//! and give it back. When the threads have ended, a pass comes in once more and closes the hall. This gives the
//! history of all that was done.
#![tactic(auto)]

ghost use Rattle.std.specs.Prelude.{◌≡◌, ℕ, IfOk, [], ◌∷◌};
ghost use Rattle.monk_audit.specs.declared.verdict.Verdict.TheVariants.{Legal};
ghost use Rattle.monk_hall.specs.Rule.{setting_of};
ghost use Rattle.monk_history.specs.Text.{heading};

use anyhow::anyhow;
use monk_audit::{Verdict, audit};
use monk_hall::{Busy, Hall, Pass, close};
use monk_history::{Device, Header, write};
use monk_kinds::{KindName, Pb, Pick};
use monk_object::{Buffer, ObjectName};
use monk_samples::{put, take};
use std::alloc::Global;
use std::rt::Env;
use std::{env, io, thread};

/// How many items the buffer holds.
const SIZE: u8 = 1;

/// The threads that may come in: the putter's, the taker's, and a spare one that reads the history.
const SEATS: u8 = 3;

/// What a thread can wait for: that there is room, and that an item is there.
const CONDITIONS: u8 = 2;

/// How many events each seat may make.
const BUDGET: u32 = 64;

fn main(rt: HostRuntime) -> anyhow::Result<()> {
    let alloc = rt.alloc();
    let buffer = Buffer::make(alloc, SIZE)?;
    let (mut hall, mut passes) = Hall::<Pb, Buffer>::make(
        alloc, buffer, SEATS, CONDITIONS, BUDGET,
    )?;
    hall.find_processors(&rt);
    // There is a pass for each seat.
    let (Some(spare), Some(taker), Some(putter)) = (passes.pop(), passes.pop(), passes.pop()) else {
        unreachable!()
    };
    let ((pass, _), (_, item, _)) = thread::join(
        &rt,
        || put(putter, &rt, &hall, 7),
        || take(taker, &rt, &hall),
    );
    let item = item.ok_or_else(|| anyhow!("the buffer gave no item"))?;
    if asks_for_history(&rt)? {
        return history_written(&rt, &hall, spare);
    }
    println!(rt; "item {item}")?;
    match audited(alloc, hall, pass)? {
        Verdict::Legal(_) => println!(rt; "legal")?,
        // What `audited` ensures is that this can't be.
        Verdict::Forbidden { .. } => unreachable!(),
    }
    Ok(())
}

/// Closes the hall by this pass, and audits its history under the same kind: it is legal, whatever the threads did.
fn audited(alloc: Global, hall: Hall<Pb, Buffer>, pass: Pass<Pb, Buffer>) -> anyhow::Result<Verdict>
    requires hall { pass.hall ≡ hall.id }
    requires setting { pass.me.setting ≡ setting_of (1 ∷ []) 3 2 64 }
    ensures { IfOk result (λ v. (n : ℕ) × (v ≡ Legal n)) }
{
    // To come in and to leave are two events.
    if pass.left() < 2 {
        return Err(anyhow!("tired"));
    }
    // A seat that is inside or waits can't be dropped: it leaves, or gives up its place.
    let active = match pass.arrive(&hall).poll(&hall) {
        Ok(active) => active,
        Err(parked) => {
            parked.give_up();
            return Err(anyhow!("late"));
        }
    };
    let closed = match close(hall, active) {
        Ok(closed) => closed,
        Err(Busy { hall, active }) => {
            active.leave(&hall, Pick::Entry);
            return Err(anyhow!("busy"));
        }
    };
    Ok(audit(alloc, &header(), &closed.history)?)
}

/// What the text of a history of this hall begins with: the kind, and the numbers that the hall was made with.
fn header() -> Header
    ensures { result ≡ heading 1 KindName.Pb 3 2 ObjectName.Buffer 1 }
{
    let header = Header::new(KindName::Pb, SEATS, CONDITIONS, ObjectName::Buffer, SIZE);
    let Some(header) = header else { unreachable!() };
    header
}

/// Whether a word follows the program's name.
fn asks_for_history(rt: &(impl Env + AllocGlobal)) -> anyhow::Result<bool> {
    Ok(env::args(rt)?.len() > 1)
}

/// Comes in by a spare pass, writes the history up to now, and leaves. The others may go on, or may all wait for ever.
fn history_written(
    rt: &impl Print,
    hall: &Hall<Pb, Buffer>,
    spare: Pass<Pb, Buffer>,
) -> anyhow::Result<()>
    requires { spare.hall ≡ hall.now.id }
{
    if spare.left() < 2 {
        return Err(anyhow!("tired"));
    }
    let active = match spare.arrive(hall).poll(hall) {
        Ok(active) => active,
        // Somebody has the monitor, and never lets it go if the hall hangs.
        Err(parked) => {
            parked.give_up();
            return Err(anyhow!("late"));
        }
    };
    let mut out = Device::new(io::writer(rt));
    // A text of version 2 has every event.
    let told = write(&header().upgraded(), active.history(), &mut out);
    active.leave(hall, Pick::Entry);
    Ok(told?)
}
