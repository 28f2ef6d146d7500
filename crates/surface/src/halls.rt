//! The hall: how it is made, its tokens, and how it ends.
ghost use Rattle.std.specs.Prelude.{◌≡◌, ◌+◌, ◌<◌, ◌≤◌, length};
ghost use Rattle.monk_hall.specs.Complete.{AreApart, HaveSeenPart};

use monk_floor::MakeFault;
use monk_hall::{Active, After, Busy, Closed, Hall, Parked, Pass, close, complete, meet};
use monk_history::Event;
use monk_kinds::Kind;
use monk_object::{Guarded, Op};
use std::alloc::Global;
use std::sync::Wait;

pub fn make<K: Kind, T: Guarded>(
    alloc: Global,
    object: T,
    seats: u8,
    conds: u8,
    budget: u32,
) -> Result<(Hall<K, T>, Vec<Pass<K, T>>), MakeFault> {
    Hall::make(alloc, object, seats, conds, budget)
}

pub fn arrive<K: Kind, T: Guarded>(pass: Pass<K, T>, hall: &Hall<K, T>) -> Parked<K, T>
    requires hall { pass.hall ≡ hall.now.id }
    requires left { length pass.me.mine + 2 ≤ pass.me.setting.budget }
{
    pass.arrive(hall)
}

pub fn poll<K: Kind, T: Guarded>(
    parked: Parked<K, T>,
    hall: &Hall<K, T>,
) -> Result<Active<K, T>, Parked<K, T>>
    requires { parked.hall ≡ hall.now.id }
{
    parked.poll(hall)
}

/// This is the only call that waits.
pub fn resume<K: Kind, T: Guarded, R: Wait>(
    parked: Parked<K, T>,
    rt: &R,
    hall: &Hall<K, T>,
) -> Active<K, T>
    requires { parked.hall ≡ hall.now.id }
{
    parked.resume(rt, hall)
}

pub fn ticket<K: Kind, T: Guarded>(parked: &Parked<K, T>) -> Option<u32> {
    parked.ticket()
}

pub fn give_up<K: Kind, T: Guarded>(parked: Parked<K, T>) {
    parked.give_up();
}

pub fn act<K: Kind, T: Guarded>(active: &mut Active<K, T>, op: Op) -> u64
    requires code { op.code < T.CODES }
    requires left { length active.old.me.mine + 2 ≤ active.old.me.setting.budget }
{
    active.act(op)
}

pub fn holds<K: Kind, T: Guarded>(active: &Active<K, T>, pred: u8) -> bool
    requires { pred < T.PREDICATES }
{
    active.holds(pred)
}

pub fn waiting<K: Kind, T: Guarded>(active: &Active<K, T>, cond: u8) -> u32
    requires { cond < active.now.me.setting.conds }
{
    active.waiting(cond)
}

pub fn history<K: Kind, T: Guarded>(active: &Active<K, T>) -> &[Event] {
    active.history()
}

/// The seat of each token, and how many events it has left.
pub fn numbers_of_pass<K: Kind, T: Guarded>(pass: &Pass<K, T>) -> (u8, u32) {
    (pass.seat(), pass.left())
}

pub fn numbers_of_parked<K: Kind, T: Guarded>(parked: &Parked<K, T>) -> (u8, u32) {
    (parked.seat(), parked.left())
}

pub fn numbers_of_active<K: Kind, T: Guarded>(active: &Active<K, T>) -> (u8, u32) {
    (active.seat(), active.left())
}

pub fn parts_of_after<K: Kind, T: Guarded>(
    after: After<K, T>,
) -> Result<Active<K, T>, Parked<K, T>> {
    match after {
        After::Active(active) => Ok(active),
        After::Parked(parked) => Err(parked),
    }
}

pub fn meet_each_other<K: Kind, T: Guarded>(
    hall: &Hall<K, T>,
    a: &mut Pass<K, T>,
    b: &mut Pass<K, T>,
)
    requires { (a.old.hall ≡ hall.now.id) × (b.old.hall ≡ hall.now.id) }
{
    meet(hall, a, b);
}

pub fn close_hall<K: Kind, T: Guarded>(
    hall: Hall<K, T>,
    active: Active<K, T>,
) -> Result<Closed<T>, Busy<K, T>>
    requires { active.hall ≡ hall.id }
{
    close(hall, active)
}

pub fn parts_of_closed<T: Guarded>(closed: Closed<T>) -> (T, Vec<Event>) {
    let Closed { object, history } = closed;
    (object, history)
}

pub fn parts_of_busy<K: Kind, T: Guarded>(busy: Busy<K, T>) -> (Hall<K, T>, Active<K, T>) {
    let Busy { hall, active } = busy;
    (hall, active)
}

pub fn is_complete<K: Kind, T: Guarded>(history: &[Event], seat: u8, passes: &[Pass<K, T>]) -> bool
    requires apart { AreApart seat passes.now }
    requires seen { HaveSeenPart history.now passes.now }
{
    complete(history, seat, passes)
}

/// A hall and a pass may be dropped. No other token may.
pub fn may_be_dropped<K: Kind, T: Guarded>() {
    is_droppable::<Hall<K, T>>();
    is_droppable::<Pass<K, T>>();
}

pub fn is_droppable<D: Drop>() {}
