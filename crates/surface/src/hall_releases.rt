//! The calls by which an active seat lets another one in. A kind has the calls of its families.
ghost use Rattle.std.specs.Prelude.{◌≡◌, ◌+◌, ◌<◌, ◌≤◌, length};

use monk_hall::{Active, After, Hall, Parked, Pass};
use monk_kinds::{Automatic, Conditional, Explicit, ImmediateReturn, Kind, NonBlocking, Pick};
use monk_object::Guarded;

pub fn leave<K: Kind, T: Guarded>(active: Active<K, T>, hall: &Hall<K, T>, pick: Pick) -> Pass<K, T>
    requires { active.hall ≡ hall.now.id }
{
    active.leave(hall, pick)
}

pub fn wait<K: Conditional, T: Guarded>(
    active: Active<K, T>,
    hall: &Hall<K, T>,
    cond: u8,
    pick: Pick,
) -> Parked<K, T>
    requires hall { active.hall ≡ hall.now.id }
    requires cond { cond < active.me.setting.conds }
    requires left { length active.me.mine + 3 ≤ active.me.setting.budget }
{
    active.wait(hall, cond, pick)
}

pub fn signal<K: Explicit, T: Guarded>(
    active: Active<K, T>,
    hall: &Hall<K, T>,
    cond: u8,
    pick: Pick,
) -> After<K, T>
    requires hall { active.hall ≡ hall.now.id }
    requires cond { cond < active.me.setting.conds }
    requires left { length active.me.mine + 3 ≤ active.me.setting.budget }
{
    active.signal(hall, cond, pick)
}

pub fn signal_stay<K: NonBlocking, T: Guarded>(active: &mut Active<K, T>, cond: u8)
    requires cond { cond < active.old.me.setting.conds }
    requires left { length active.old.me.mine + 2 ≤ active.old.me.setting.budget }
{
    active.signal_stay(cond);
}

/// Returns how many it served.
pub fn signal_all<K: NonBlocking, T: Guarded>(active: &mut Active<K, T>, cond: u8) -> u32
    requires cond { cond < active.old.me.setting.conds }
    requires left { length active.old.me.mine + 2 ≤ active.old.me.setting.budget }
{
    active.signal_all(cond)
}

pub fn signal_leave<K: ImmediateReturn, T: Guarded>(
    active: Active<K, T>,
    hall: &Hall<K, T>,
    cond: u8,
    pick: Pick,
) -> Pass<K, T>
    requires hall { active.hall ≡ hall.now.id }
    requires cond { cond < active.me.setting.conds }
{
    active.signal_leave(hall, cond, pick)
}

pub fn signal_wait<K: ImmediateReturn, T: Guarded>(
    active: Active<K, T>,
    hall: &Hall<K, T>,
    cond: u8,
    wait_cond: u8,
    pick: Pick,
) -> Parked<K, T>
    requires hall { active.hall ≡ hall.now.id }
    requires cond { cond < active.me.setting.conds }
    requires wait_cond { wait_cond < active.me.setting.conds }
    requires left { length active.me.mine + 3 ≤ active.me.setting.budget }
{
    active.signal_wait(hall, cond, wait_cond, pick)
}

pub fn until<K: Automatic, T: Guarded>(
    active: Active<K, T>,
    hall: &Hall<K, T>,
    pred: u8,
    pick: Pick,
) -> After<K, T>
    requires hall { active.hall ≡ hall.now.id }
    requires pred { pred < T.PREDICATES }
    requires left { length active.me.mine + 3 ≤ active.me.setting.budget }
{
    active.until(hall, pred, pick)
}
