//! What members share: coming in, pausing while a predicate is false, an operation, and going out. If the seat has
//! too few events left for one of these, that returns the pass, and the seat is outside the monitor.
ghost use Rattle.std.specs.Prelude.{◌≡◌, ◌+◌, ◌<◌, ◌≤◌, true, [], ◌∷◌, Some, None, IfOk, MatchResult, length};
ghost use Rattle.monk_history.specs.Meaning.Monitor.{data_of};
ghost use Rattle.monk_floor.specs.View.{monitor_of};
ghost use Rattle.monk_samples.specs.{Styles.Offers, Trails.HasCalled, Trails.inside, Trails.outside};
ghost use Rattle.monk_samples.specs.Visits.{HasActed, HasPausedUntil, HasStayedOut, IsTiredFor, IsTiredWithin};
ghost use Rattle.monk_samples.specs.Visits.{HasVisited, Promises, always, guard, when};

use crate::end::End;
use crate::style::Style;
use monk_hall::{Active, Hall, Pass};
use monk_kinds::{Kind, Pick};
use monk_object::{Guarded, Op};
use std::sync::Wait;

/// What a member does between coming in and going out.
#[derive(Clone, Copy)]
pub(crate) struct Visit {
    /// The condition on which it waits.
    pub(crate) cond: u8,
    /// The predicate until which it waits.
    pub(crate) pred: u8,
    /// Its operation.
    pub(crate) op: Op,
    /// The condition on which it lets a seat go on.
    pub(crate) next: u8,
}

/// Comes in.
pub(crate) fn come_in<K: Kind, T: Guarded, R: Wait>(
    pass: Pass<K, T>,
    rt: &R,
    hall: &Hall<K, T>,
) -> Result<Active<K, T>, Pass<K, T>>
    requires { pass.hall ≡ hall.now.id }
    ensures came { MatchResult result (λ a. HasCalled (outside pass) (inside a) [])
        (λ q. HasStayedOut K.rules T.meaning pass q) }
    ensures room { IfOk result (λ _. length pass.me.mine + 2 ≤ pass.me.setting.budget) }
{
    if pass.left() < 2 {
        return Err(pass);
    }
    Ok(pass.arrive(hall).resume(rt, hall))
}

/// Pauses while the predicate is false.
pub(crate) fn pause_until<K: Style, T: Guarded, R: Wait>(
    active: Active<K, T>,
    rt: &R,
    hall: &Hall<K, T>,
    cond: u8,
    pred: u8,
) -> Result<Active<K, T>, Pass<K, T>>
    requires hall { active.hall ≡ hall.now.id }
    requires cond { Offers K.rules active.me.setting.conds (cond + 1) }
    requires pred { pred < T.PREDICATES }
    ensures { MatchResult result
        (λ a. HasPausedUntil K.rules T.meaning (inside active) (Some (guard cond pred)) a
        × (T.meaning.holds (data_of (monitor_of K.rules T.meaning a.floor) a.floor.history) pred ≡ true))
        (λ q. IsTiredWithin K.rules T.meaning active (Some (guard cond pred)) q) }
{
    let mut active = active;
    while !active.holds(pred) {
        match K::pause(active, rt, hall, cond, pred) {
            Ok(back) => active = back,
            Err(pass) => return Err(pass),
        }
    }
    Ok(active)
}

/// Does an operation, and returns its reply.
pub(crate) fn act<K: Kind, T: Guarded>(
    active: Active<K, T>,
    hall: &Hall<K, T>,
    op: Op,
) -> Result<(Active<K, T>, u64), Pass<K, T>>
    requires hall { active.hall ≡ hall.now.id }
    requires code { op.code < T.CODES }
    ensures acted { MatchResult result (λ r. HasActed K.rules T.meaning (inside active) None op r.1 r.0
        × (r.1 ≡ T.meaning.reply (data_of (monitor_of K.rules T.meaning active.floor) active.floor.history) op))
        (λ q. IsTiredWithin K.rules T.meaning active None q) }
    ensures within { IfOk result (λ r. r.1 ≤ T.greatest_reply) }
{
    let mut active = active;
    if active.left() < 2 {
        return Err(active.leave(hall, Pick::Waiter));
    }
    let reply = active.act(op);
    Ok((active, reply))
}

/// Comes in, and does an operation at once.
pub(crate) fn act_now<K: Kind, T: Guarded, R: Wait>(
    pass: Pass<K, T>,
    rt: &R,
    hall: &Hall<K, T>,
    op: Op,
) -> Result<(Active<K, T>, u64), Pass<K, T>>
    requires hall { pass.hall ≡ hall.now.id }
    requires code { op.code < T.CODES }
    ensures { MatchResult result (λ r. HasActed K.rules T.meaning (outside pass) None op r.1 r.0)
        (λ q. IsTiredFor K.rules T.meaning pass None q) }
{
    match come_in(pass, rt, hall) {
        Ok(active) => act(active, hall, op),
        Err(pass) => Err(pass),
    }
}

/// Comes in, and pauses while the predicate is false.
fn come_in_when<K: Style, T: Guarded, R: Wait>(
    pass: Pass<K, T>,
    rt: &R,
    hall: &Hall<K, T>,
    cond: u8,
    pred: u8,
) -> Result<Active<K, T>, Pass<K, T>>
    requires hall { pass.hall ≡ hall.now.id }
    requires cond { Offers K.rules pass.me.setting.conds (cond + 1) }
    requires pred { pred < T.PREDICATES }
    ensures { MatchResult result
        (λ a. HasPausedUntil K.rules T.meaning (outside pass) (Some (guard cond pred)) a
        × (T.meaning.holds (data_of (monitor_of K.rules T.meaning a.floor) a.floor.history) pred ≡ true))
        (λ q. IsTiredFor K.rules T.meaning pass (Some (guard cond pred)) q) }
{
    match come_in(pass, rt, hall) {
        Ok(active) => pause_until(active, rt, hall, cond, pred),
        Err(pass) => Err(pass),
    }
}

/// Comes in, pauses while the predicate is false, and does an operation, which isn't refused then.
pub(crate) fn act_when<K: Style, T: Guarded, R: Wait>(
    pass: Pass<K, T>,
    rt: &R,
    hall: &Hall<K, T>,
    cond: u8,
    pred: u8,
    op: Op,
) -> Result<(Active<K, T>, u64), Pass<K, T>>
    requires hall { pass.hall ≡ hall.now.id }
    requires cond { Offers K.rules pass.me.setting.conds (cond + 1) }
    requires pred { pred < T.PREDICATES }
    requires code { op.code < T.CODES }
    requires promise { Promises T.meaning pred op }
    ensures acted { MatchResult result
        (λ r. HasActed K.rules T.meaning (outside pass) (Some (guard cond pred)) op r.1 r.0 × (0 < r.1))
        (λ q. IsTiredFor K.rules T.meaning pass (Some (guard cond pred)) q) }
    ensures within { IfOk result (λ r. r.1 ≤ T.greatest_reply) }
{
    match come_in_when(pass, rt, hall, cond, pred) {
        Ok(active) => act(active, hall, op),
        Err(pass) => Err(pass),
    }
}

/// Comes in, pauses while the predicate is false, and does its operation, which isn't refused then. On its way out it
/// lets a seat of the condition `next` go on.
pub(crate) fn act_and_finish<K: Style, T: Guarded, R: Wait>(
    pass: Pass<K, T>,
    rt: &R,
    hall: &Hall<K, T>,
    visit: Visit,
) -> (Pass<K, T>, End)
    requires hall { pass.hall ≡ hall.now.id }
    requires cond { Offers K.rules pass.me.setting.conds (visit.cond + 1) }
    requires pred { visit.pred < T.PREDICATES }
    requires code { visit.op.code < T.CODES }
    requires promise { Promises T.meaning visit.pred visit.op }
    requires next { Offers K.rules pass.me.setting.conds (visit.next + 1) }
    ensures { HasVisited K.rules T.meaning pass
        (when visit.cond visit.pred visit.op (always visit.next) ∷ []) result.0 result.1 }
{
    match act_when(pass, rt, hall, visit.cond, visit.pred, visit.op) {
        Ok((active, _)) => K::finish(active, rt, hall, visit.next),
        Err(pass) => (pass, End::Tired),
    }
}
