//! Visits in haste: an `if` in place of a `while`. Under some kinds that is right. Under others, what a seat waited
//! for may be gone when it goes on.
ghost use Rattle.std.specs.Prelude.{◌≡◌, ◌+◌, ◌<◌, ◌≤◌, false, [], ◌∷◌, Some, IfOk, IfErr, MatchResult, length};
ghost use Rattle.monk_history.specs.Meaning.Events.{has_conditions};
ghost use Rattle.monk_samples.specs.{Styles.HoldsByKind, Styles.Offers, Trails.inside, Trails.outside};
ghost use Rattle.monk_samples.specs.Visits.{HasActedInHaste, HasLooked, HasMissed, HasTried, HasVisited, IsTiredFor};
ghost use Rattle.monk_samples.specs.Visits.{IsTiredWithin, Promises, always, hastily, hasty_guard};

use crate::end::End;
use crate::style::Style;
use crate::visit::{Visit, act, come_in};
use monk_hall::{Active, Hall, Pass};
use monk_kinds::Pick;
use monk_object::{Guarded, Op};
use std::sync::Wait;
use std::thread;

/// How often a hasty seat lets other threads run before it goes out.
const TURNS_INSIDE: u8 = 8;

/// Pauses once, if the predicate is false.
fn pause_once<K: Style, T: Guarded, R: Wait>(
    active: Active<K, T>,
    rt: &R,
    hall: &Hall<K, T>,
    cond: u8,
    pred: u8,
) -> Result<Active<K, T>, Pass<K, T>>
    requires hall { active.hall ≡ hall.now.id }
    requires cond { Offers K.rules active.me.setting.conds (cond + 1) }
    requires pred { pred < T.PREDICATES }
    ensures paused { MatchResult result
        (λ a. HasLooked K.rules T.meaning (inside active) cond pred a)
        (λ q. IsTiredWithin K.rules T.meaning active (Some (hasty_guard cond pred)) q) }
    ensures holds { IfOk result (λ a. HoldsByKind K.rules T.meaning pred a) }
{
    if active.holds(pred) {
        return Ok(active);
    }
    K::pause_by(active, rt, hall, cond, pred, Pick::Entry)
}

/// Comes in, pauses once if the predicate is false, and then asks for the operation, whatever holds.
fn act_in_haste<K: Style, T: Guarded, R: Wait>(
    pass: Pass<K, T>,
    rt: &R,
    hall: &Hall<K, T>,
    cond: u8,
    pred: u8,
    op: Op,
) -> Result<(Active<K, T>, u64), Pass<K, T>>
    requires hall { pass.hall ≡ hall.now.id }
    requires cond { Offers K.rules pass.me.setting.conds (cond + 1) }
    requires pred { pred < T.PREDICATES }
    requires code { op.code < T.CODES }
    requires promise { Promises T.meaning pred op }
    ensures acted { MatchResult result
        (λ r. HasActedInHaste K.rules T.meaning (outside pass) cond pred op r.1 r.0)
        (λ q. IsTiredFor K.rules T.meaning pass (Some (hasty_guard cond pred)) q) }
    ensures done { IfOk result (λ r. has_conditions K.rules.mode ≡ false → 0 < r.1) }
    ensures room { IfOk result (λ _. length pass.me.mine + 2 ≤ pass.me.setting.budget) }
{
    let active = match come_in(pass, rt, hall) {
        Ok(active) => active,
        Err(pass) => return Err(pass),
    };
    match pause_once(active, rt, hall, cond, pred) {
        Ok(active) => act(active, hall, op),
        Err(pass) => Err(pass),
    }
}

/// Lets other threads run, so that callers come to the entry while the seat is inside.
fn let_callers_come() {
    for _ in 0..TURNS_INSIDE {
        thread::yield_now();
    }
}

/// Tries a visit once. Returns only the pass if the operation was refused; then it has left without a signal.
fn try_once<K: Style, T: Guarded, R: Wait>(
    pass: Pass<K, T>,
    rt: &R,
    hall: &Hall<K, T>,
    visit: Visit,
) -> Result<(Pass<K, T>, End), Pass<K, T>>
    requires hall { pass.hall ≡ hall.now.id }
    requires cond { Offers K.rules pass.me.setting.conds (visit.cond + 1) }
    requires pred { visit.pred < T.PREDICATES }
    requires code { visit.op.code < T.CODES }
    requires promise { Promises T.meaning visit.pred visit.op }
    requires next { Offers K.rules pass.me.setting.conds (visit.next + 1) }
    ensures tried { MatchResult result
        (λ r. HasTried K.rules T.meaning pass
        (hastily visit.cond visit.pred visit.op (always visit.next)) r.0 r.1)
        (λ q. HasMissed K.rules T.meaning pass
        (hastily visit.cond visit.pred visit.op (always visit.next)) 1 q) }
    ensures room { IfErr result (λ q. length pass.me.mine + 2 ≤ pass.me.setting.budget) }
{
    let (active, reply) = match act_in_haste(pass, rt, hall, visit.cond, visit.pred, visit.op) {
        Ok(acted) => acted,
        Err(pass) => return Ok((pass, End::Tired)),
    };
    let_callers_come();
    if reply == 0 {
        return Err(active.leave(hall, Pick::Entry));
    }
    Ok(K::finish_by(active, rt, hall, visit.next, Pick::Entry))
}

/// Comes in, pauses once if the predicate is false, does its operation, and on its way out lets a seat of the
/// condition `next` go on. If the operation was refused, it leaves and comes again. Each of its releases wishes for
/// entry.
pub(crate) fn act_and_finish_in_haste<K: Style, T: Guarded, R: Wait>(
    pass: Pass<K, T>,
    rt: &R,
    hall: &Hall<K, T>,
    visit: Visit,
) -> (Pass<K, T>, End)
    requires hall { pass.hall ≡ hall.now.id }
    requires cond { Offers K.rules pass.me.setting.conds (visit.cond + 1) }
    requires pred { visit.pred < T.PREDICATES }
    requires code { visit.op.code < T.CODES }
    requires promise { Promises T.meaning visit.pred visit.op }
    requires next { Offers K.rules pass.me.setting.conds (visit.next + 1) }
    ensures { HasVisited K.rules T.meaning pass
        (hastily visit.cond visit.pred visit.op (always visit.next) ∷ []) result.0 result.1 }
{
    let mut pass = pass;
    loop {
        match try_once(pass, rt, hall, visit) {
            Ok(done) => return done,
            Err(back) => pass = back,
        }
    }
}
