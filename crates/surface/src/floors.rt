//! The floor: how it is made, and the calls that are the same for every kind.
ghost use Rattle.std.specs.Prelude.{◌<◌};
ghost use Rattle.monk_history.specs.Meaning.{Counts.left_of, Turn.turn};
ghost use Rattle.monk_floor.specs.{Due.IsDueTo, Releases.MayCallOn};

use monk_floor::{Floor, MakeFault};
use monk_history::{Event, From3, Via};
use monk_kinds::Kind;
use monk_object::{Guarded, Op};
use std::alloc::Global;

pub fn make<K: Kind, T: Guarded>(
    alloc: Global,
    object: T,
    seats: u8,
    conds: u8,
    budget: u32,
) -> Result<Floor<K, T>, MakeFault> {
    Floor::make(alloc, object, seats, conds, budget)
}

pub fn enter<K: Kind, T: Guarded>(floor: &mut Floor<K, T>, seat: u8, via: Via)
    requires call { MayCallOn K.rules T.meaning floor.old (Event.Enter seat via) }
    requires left { 0 < left_of floor.old.budget floor.old.history seat }
{
    floor.enter(seat, via);
}

pub fn resume<K: Kind, T: Guarded>(floor: &mut Floor<K, T>, seat: u8) -> From3
    requires seat { seat < floor.old.seats }
    requires due { IsDueTo seat (turn floor.old.history) }
    requires left { 0 < left_of floor.old.budget floor.old.history seat }
{
    floor.resume(seat)
}

pub fn act<K: Kind, T: Guarded>(floor: &mut Floor<K, T>, seat: u8, op: Op) -> u64
    requires call { MayCallOn K.rules T.meaning floor.old (Event.Act seat op 0) }
    requires left { 0 < left_of floor.old.budget floor.old.history seat }
{
    floor.act(seat, op)
}

pub fn holds<K: Kind, T: Guarded>(floor: &Floor<K, T>, pred: u8) -> bool
    requires { pred < T.PREDICATES }
{
    floor.holds(pred)
}

pub fn waiting<K: Kind, T: Guarded>(floor: &Floor<K, T>, cond: u8) -> u32
    requires { cond < floor.now.conds }
{
    floor.waiting(cond)
}

pub fn left<K: Kind, T: Guarded>(floor: &Floor<K, T>, seat: u8) -> u32
    requires { seat < floor.now.seats }
{
    floor.left(seat)
}

pub fn history<K: Kind, T: Guarded>(floor: &Floor<K, T>) -> &[Event] {
    floor.history()
}

pub fn granted<K: Kind, T: Guarded>(floor: &Floor<K, T>, seat: u8) -> u32
    requires { seat < floor.now.seats }
{
    floor.granted(seat)
}

pub fn enters<K: Kind, T: Guarded>(floor: &Floor<K, T>) -> u32 {
    floor.enters()
}

pub fn queued<K: Kind, T: Guarded>(floor: &Floor<K, T>, seat: u8) -> bool
    requires { seat < floor.now.seats }
{
    floor.queued(seat)
}

pub fn close<K: Kind, T: Guarded>(floor: Floor<K, T>) -> (T, Vec<Event>) {
    floor.close()
}
