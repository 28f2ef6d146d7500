//! The floor's releases by the general scheduler step, for any kind.
ghost use Rattle.std.specs.Prelude.{◌<◌};
ghost use Rattle.monk_history.specs.Meaning.Counts.{left_of};
ghost use Rattle.monk_floor.specs.Releases.{MayCallOn};

use monk_floor::Floor;
use monk_history::{Event, Next};
use monk_kinds::{Kind, Pick};
use monk_object::Guarded;

pub fn plain_leave<K: Kind, T: Guarded>(
    floor: &mut Floor<K, T>,
    seat: u8,
    pick: Pick,
    entry_known: bool,
) -> Next
    requires call { MayCallOn K.rules T.meaning floor.old (Event.Leave seat Next.Stay) }
    requires left { 0 < left_of floor.old.budget floor.old.history seat }
{
    floor.plain_leave(seat, pick, entry_known)
}

pub fn plain_wait<K: Kind, T: Guarded>(
    floor: &mut Floor<K, T>,
    seat: u8,
    cond: u8,
    pick: Pick,
    entry_known: bool,
) -> Next
    requires call { MayCallOn K.rules T.meaning floor.old (Event.Wait seat cond Next.Stay) }
    requires left { 0 < left_of floor.old.budget floor.old.history seat }
{
    floor.plain_wait(seat, cond, pick, entry_known)
}

pub fn plain_signal<K: Kind, T: Guarded>(
    floor: &mut Floor<K, T>,
    seat: u8,
    cond: u8,
    pick: Pick,
    entry_known: bool,
) -> Next
    requires call { MayCallOn K.rules T.meaning floor.old (Event.Signal seat cond Next.Stay) }
    requires left { 0 < left_of floor.old.budget floor.old.history seat }
{
    floor.plain_signal(seat, cond, pick, entry_known)
}

pub fn plain_signal_leave<K: Kind, T: Guarded>(
    floor: &mut Floor<K, T>,
    seat: u8,
    cond: u8,
    pick: Pick,
    entry_known: bool,
) -> Next
    requires call { MayCallOn K.rules T.meaning floor.old (Event.SignalLeave seat cond Next.Stay) }
    requires left { 0 < left_of floor.old.budget floor.old.history seat }
{
    floor.plain_signal_leave(seat, cond, pick, entry_known)
}

pub fn plain_until<K: Kind, T: Guarded>(
    floor: &mut Floor<K, T>,
    seat: u8,
    pred: u8,
    pick: Pick,
    entry_known: bool,
) -> Next
    requires call { MayCallOn K.rules T.meaning floor.old (Event.Until seat pred Next.Stay) }
    requires left { 0 < left_of floor.old.budget floor.old.history seat }
{
    floor.plain_until(seat, pred, pick, entry_known)
}

/// Returns how many it served.
pub fn plain_signal_all<K: Kind, T: Guarded>(floor: &mut Floor<K, T>, seat: u8, cond: u8) -> u32
    requires call { MayCallOn K.rules T.meaning floor.old (Event.SignalAll seat cond) }
    requires left { 0 < left_of floor.old.budget floor.old.history seat }
{
    floor.plain_signal_all(seat, cond)
}

pub fn plain_signal_wait<K: Kind, T: Guarded>(
    floor: &mut Floor<K, T>,
    seat: u8,
    cond: u8,
    wait_cond: u8,
    pick: Pick,
    entry_known: bool,
) -> Next
    requires call { MayCallOn K.rules T.meaning floor.old (Event.SignalWait seat cond wait_cond Next.Stay) }
    requires left { 0 < left_of floor.old.budget floor.old.history seat }
{
    floor.plain_signal_wait(seat, cond, wait_cond, pick, entry_known)
}
