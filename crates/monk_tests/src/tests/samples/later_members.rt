//! The members that use a signal to all, and a signal that is followed by a wait.
ghost use Rattle.std.specs.Prelude.{◌≡◌, ◌≤◌};
ghost use Rattle.monk_tests.specs.Passes.{IsSeat};

use crate::tests::halls;
use crate::tests::samples::{reads, two};
use monk_hall::{Hall, Pass};
use monk_kinds::{Npir, Pnb};
use monk_object::{Book, Buffer};
use monk_samples::{End, put_wait, take, write_begin, write_end_all};
use std::sync::Wait;
use std::test::Fail;
use std::thread;

/// How often one item goes from thread to thread.
const TIMES: u32 = 1000;

/// Whether a taker gets the item.
fn takes_seven<R: Wait>(pass: Pass<Npir, Buffer>, rt: &R, hall: &Hall<Npir, Buffer>) -> bool
    requires hall { pass.hall ≡ hall.now.id }
    requires conds { 2 ≤ pass.me.setting.conds }
{
    let (_, item, end) = take(pass, rt, hall);
    item == Some(7) && end == End::Done
}

/// Whether a putter puts the item, and comes back once it was taken.
fn puts_seven<R: Wait>(pass: Pass<Npir, Buffer>, rt: &R, hall: &Hall<Npir, Buffer>) -> bool
    requires hall { pass.hall ≡ hall.now.id }
    requires conds { 2 ≤ pass.me.setting.conds }
{
    let (_, end) = put_wait(pass, rt, hall, 7);
    end == End::Done
}

#[test]
fn putter_waits_for_the_taker(rt: HostRuntime) -> Result<(), Fail> {
    for _ in 0..TIMES {
        let (hall, putter, taker) = halls::two::<Npir>(&rt, 2, 8)?;
        let done = thread::join(
            &rt,
            || takes_seven(taker, &rt, &hall),
            || puts_seven(putter, &rt, &hall),
        );
        assert!(rt; done == (true, true));
    }
    Ok(())
}

/// Whether the seat writes the book, and wakes all when it ends.
fn writes_and_wakes<R: Wait>(pass: Pass<Pnb, Book>, rt: &R, hall: &Hall<Pnb, Book>) -> bool
    requires { IsSeat hall.now.id pass }
{
    let (pass, begun) = write_begin(pass, rt, hall);
    let (_, ended) = write_end_all(pass, rt, hall);
    begun == End::Done && ended == End::Done
}

/// If nobody waits, it ends as a plain write does.
#[test]
fn writer_wakes_all(rt: HostRuntime) -> Result<(), Fail> {
    let (hall, reader, writer) = two::<Pnb, Book>(&rt, Book::make(1)?, 16)?;
    let is_written = writes_and_wakes(writer, &rt, &hall);
    let is_read = reads(reader, &rt, &hall);
    assert!(rt; is_written && is_read);
    Ok(())
}
