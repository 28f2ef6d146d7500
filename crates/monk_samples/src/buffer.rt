//! A bounded buffer: one task puts items, another takes them.
ghost use Rattle.std.specs.Prelude.{◌≡◌, ◌+◌, ◌^◌, ◌<◌, ◌≤◌, IsSome, [], ◌∷◌};
ghost use Rattle.std.specs.Option.{option_to_list};
ghost use Rattle.monk_object.specs.{Buffer.buffer_meaning, Laws.items_taken};
ghost use Rattle.monk_history.specs.Meaning.Acts.{acts_in};
ghost use Rattle.monk_samples.specs.{Styles.Offers, Trails.events_in, Visits.HasVisited};
ghost use Rattle.monk_samples.specs.Members.{puts, puts_and_waits, puts_by, takes, takes_by};

use crate::end::End;
use crate::haste::act_and_finish_in_haste;
use crate::manner::Manner;
use crate::style::Style;
use crate::styles::passing::signal_wait_and_leave;
use crate::visit::{Visit, act_and_finish, act_when};
use monk_hall::{Hall, Pass};
use monk_kinds::ImmediateReturn;
use monk_object::{Buffer, Guarded, Op};
use std::sync::Wait;

/// The condition on which seats wait until there is room for an item.
const NOT_FULL: u8 = 0;

/// The condition on which seats wait until an item is there.
const NOT_EMPTY: u8 = 1;

/// A take.
const TAKE: Op = Op {
    code: Buffer::TAKE,
    arg: 0,
};

/// What a taker does between coming in and going out.
const TAKE_VISIT: Visit = Visit {
    cond: NOT_EMPTY,
    pred: Buffer::HAS_ITEM,
    op: TAKE,
    next: NOT_FULL,
};

/// Puts an item into the buffer, when there is room, and lets a taker go on.
pub fn put<K: Style, R: Wait>(
    pass: Pass<K, Buffer>,
    rt: &R,
    hall: &Hall<K, Buffer>,
    item: u32,
) -> (Pass<K, Buffer>, End)
    requires hall { pass.hall ≡ hall.now.id }
    requires conds { Offers K.rules pass.me.setting.conds 2 }
    ensures { HasVisited K.rules buffer_meaning pass (puts item ∷ []) result.0 result.1 }
{
    put_into(pass, rt, hall, item)
}

/// Puts an item into an object with the meaning of a buffer.
pub(crate) fn put_into<K: Style, T: Guarded, R: Wait>(
    pass: Pass<K, T>,
    rt: &R,
    hall: &Hall<K, T>,
    item: u32,
) -> (Pass<K, T>, End)
    requires buffer { T.meaning ≡ buffer_meaning }
    requires hall { pass.hall ≡ hall.now.id }
    requires conds { Offers K.rules pass.me.setting.conds 2 }
    ensures { HasVisited K.rules T.meaning pass (puts item ∷ []) result.0 result.1 }
{
    let put = Op {
        code: Buffer::PUT,
        arg: item,
    };
    let put = Visit {
        cond: NOT_FULL,
        pred: Buffer::HAS_ROOM,
        op: put,
        next: NOT_EMPTY,
    };
    act_and_finish(pass, rt, hall, put)
}

/// Puts an item into the buffer, when there is room. Then, by one call, it lets a taker go on and waits until there
/// is room again. It is for kinds of immediate return. It comes back when a taker, or another putter on its way out,
/// signals that there is room.
pub fn put_wait<K: Style + ImmediateReturn, R: Wait>(
    pass: Pass<K, Buffer>,
    rt: &R,
    hall: &Hall<K, Buffer>,
    item: u32,
) -> (Pass<K, Buffer>, End)
    requires hall { pass.hall ≡ hall.now.id }
    requires conds { 2 ≤ pass.me.setting.conds }
    ensures { HasVisited K.rules buffer_meaning pass (puts_and_waits item ∷ []) result.0 result.1 }
{
    let put = Op {
        code: Buffer::PUT,
        arg: item,
    };
    match act_when(pass, rt, hall, NOT_FULL, Buffer::HAS_ROOM, put) {
        Ok((active, _)) => signal_wait_and_leave(active, rt, hall, NOT_EMPTY, NOT_FULL),
        Err(pass) => (pass, End::Tired),
    }
}

/// Takes the oldest item out of the buffer, when one is there, and lets a putter go on. Returns the item if, and only
/// if, it took one: always on `Done`, and on `Tired` if it became tired only after the take.
pub fn take<K: Style, R: Wait>(
    pass: Pass<K, Buffer>,
    rt: &R,
    hall: &Hall<K, Buffer>,
) -> (Pass<K, Buffer>, Option<u32>, End)
    requires hall { pass.hall ≡ hall.now.id }
    requires conds { Offers K.rules pass.me.setting.conds 2 }
    ensures visited { (visit : HasVisited K.rules buffer_meaning pass (takes ∷ []) result.0 result.2)
        × (items_taken (acts_in (events_in visit.calls)) ≡ option_to_list result.1) }
    ensures done { result.2 ≡ End.Done → IsSome result.1 }
{
    match act_when(pass, rt, hall, NOT_EMPTY, Buffer::HAS_ITEM, TAKE) {
        Ok((active, reply)) => {
            let (pass, end) = K::finish(active, rt, hall, NOT_FULL);
            (pass, Some(item_of(reply)), end)
        }
        Err(pass) => (pass, None, End::Tired),
    }
}

/// Takes the oldest item out of an object with the meaning of a buffer, for a caller who doesn't look at it.
pub(crate) fn take_from<K: Style, T: Guarded, R: Wait>(
    pass: Pass<K, T>,
    rt: &R,
    hall: &Hall<K, T>,
) -> (Pass<K, T>, End)
    requires buffer { T.meaning ≡ buffer_meaning }
    requires hall { pass.hall ≡ hall.now.id }
    requires conds { Offers K.rules pass.me.setting.conds 2 }
    ensures { HasVisited K.rules T.meaning pass (takes ∷ []) result.0 result.1 }
{
    act_and_finish(pass, rt, hall, TAKE_VISIT)
}

/// Puts an item in haste into an object with the meaning of a buffer, and lets a taker go on. It looks for room once,
/// and comes again if the put was refused.
pub(crate) fn put_hastily<K: Style, T: Guarded, R: Wait>(
    pass: Pass<K, T>,
    rt: &R,
    hall: &Hall<K, T>,
    item: u32,
) -> (Pass<K, T>, End)
    requires buffer { T.meaning ≡ buffer_meaning }
    requires hall { pass.hall ≡ hall.now.id }
    requires conds { Offers K.rules pass.me.setting.conds 2 }
    ensures { HasVisited K.rules T.meaning pass (puts_by Manner.Hasty item ∷ []) result.0 result.1 }
{
    let put = Op {
        code: Buffer::PUT,
        arg: item,
    };
    let visit = Visit {
        cond: NOT_FULL,
        pred: Buffer::HAS_ROOM,
        op: put,
        next: NOT_EMPTY,
    };
    act_and_finish_in_haste(pass, rt, hall, visit)
}

/// Takes the oldest item in haste out of an object with the meaning of a buffer, and lets a putter go on. It looks
/// for an item once, and comes again if the take was refused.
pub(crate) fn take_hastily<K: Style, T: Guarded, R: Wait>(
    pass: Pass<K, T>,
    rt: &R,
    hall: &Hall<K, T>,
) -> (Pass<K, T>, End)
    requires buffer { T.meaning ≡ buffer_meaning }
    requires hall { pass.hall ≡ hall.now.id }
    requires conds { Offers K.rules pass.me.setting.conds 2 }
    ensures { HasVisited K.rules T.meaning pass (takes_by Manner.Hasty ∷ []) result.0 result.1 }
{
    act_and_finish_in_haste(pass, rt, hall, TAKE_VISIT)
}

/// Returns the item that a take took out, by the buffer's reply.
fn item_of(reply: u64) -> u32
    requires done { 0 < reply }
    requires within { reply ≤ 2 ^ 32 }
    ensures { reply ≡ result + 1 }
{
    (reply - 1) as u32
}
