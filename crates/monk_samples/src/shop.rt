//! A barber's shop. A customer comes in, sits, has its hair cut and departs. The barber calls one customer after the
//! other. Each makes two visits to the shop's monitor.
ghost use Rattle.std.specs.Prelude.{◌≡◌, [], ◌∷◌};
ghost use Rattle.monk_object.specs.Shop.{shop_meaning};
ghost use Rattle.monk_samples.specs.{Styles.Offers, Visits.HasVisited};
ghost use Rattle.monk_samples.specs.Members.{sits, departs, calls, finishes};

use crate::end::End;
use crate::style::Style;
use crate::visit::{Visit, act_and_finish, act_now};
use monk_hall::{Hall, Pass};
use monk_object::{Guarded, Op, Shop};
use std::sync::Wait;

/// The condition on which customers wait until a seat is free.
const SEAT_FREE: u8 = 0;

/// The condition on which the barber waits until a customer may be called.
const CUSTOMER_SITS: u8 = 1;

/// The condition on which customers wait until a cut is done.
const CUT_DONE: u8 = 2;

/// A customer sits down.
const SIT: Op = Op {
    code: Shop::SIT,
    arg: 0,
};

/// A customer departs.
const DEPART: Op = Op {
    code: Shop::DEPART,
    arg: 0,
};

/// The barber calls a customer.
const CALL: Op = Op {
    code: Shop::CALL,
    arg: 0,
};

/// The barber finishes a cut.
const FINISH: Op = Op {
    code: Shop::FINISH,
    arg: 0,
};

/// Has its hair cut: sits down when a seat is free, and departs when its hair is cut. Customers are counted and not
/// told apart, so the first that comes takes the cut that is done.
pub fn sit_and_cut<K: Style, R: Wait>(
    pass: Pass<K, Shop>,
    rt: &R,
    hall: &Hall<K, Shop>,
) -> (Pass<K, Shop>, End)
    requires hall { pass.hall ≡ hall.now.id }
    requires conds { Offers K.rules pass.me.setting.conds 3 }
    ensures { HasVisited K.rules shop_meaning pass (sits ∷ departs ∷ []) result.0 result.1 }
{
    have_cut(pass, rt, hall)
}

/// Has its hair cut in an object with the meaning of a shop.
pub(crate) fn have_cut<K: Style, T: Guarded, R: Wait>(
    pass: Pass<K, T>,
    rt: &R,
    hall: &Hall<K, T>,
) -> (Pass<K, T>, End)
    requires shop { T.meaning ≡ shop_meaning }
    requires hall { pass.hall ≡ hall.now.id }
    requires conds { Offers K.rules pass.me.setting.conds 3 }
    ensures { HasVisited K.rules T.meaning pass (sits ∷ departs ∷ []) result.0 result.1 }
{
    let sit = Visit {
        cond: SEAT_FREE,
        pred: Shop::HAS_SEAT,
        op: SIT,
        next: CUSTOMER_SITS,
    };
    let depart = Visit {
        cond: CUT_DONE,
        pred: Shop::IS_DONE,
        op: DEPART,
        next: CUSTOMER_SITS,
    };
    let (pass, end) = act_and_finish(pass, rt, hall, sit);
    match end {
        End::Done => act_and_finish(pass, rt, hall, depart),
        _ => (pass, end),
    }
}

/// Makes a turn of the barber. He calls the next customer when one sits and the chair is empty, and finishes the cut.
/// Nothing promises that the cut is his to finish, so the reply of that act may be 0.
pub fn barber_turn<K: Style, R: Wait>(
    pass: Pass<K, Shop>,
    rt: &R,
    hall: &Hall<K, Shop>,
) -> (Pass<K, Shop>, End)
    requires hall { pass.hall ≡ hall.now.id }
    requires conds { Offers K.rules pass.me.setting.conds 3 }
    ensures { HasVisited K.rules shop_meaning pass (calls ∷ finishes ∷ []) result.0 result.1 }
{
    take_turn(pass, rt, hall)
}

/// Makes a turn of the barber in an object with the meaning of a shop.
pub(crate) fn take_turn<K: Style, T: Guarded, R: Wait>(
    pass: Pass<K, T>,
    rt: &R,
    hall: &Hall<K, T>,
) -> (Pass<K, T>, End)
    requires shop { T.meaning ≡ shop_meaning }
    requires hall { pass.hall ≡ hall.now.id }
    requires conds { Offers K.rules pass.me.setting.conds 3 }
    ensures { HasVisited K.rules T.meaning pass (calls ∷ finishes ∷ []) result.0 result.1 }
{
    let visit = Visit {
        cond: CUSTOMER_SITS,
        pred: Shop::CAN_CALL,
        op: CALL,
        next: SEAT_FREE,
    };
    let (pass, end) = act_and_finish(pass, rt, hall, visit);
    match end {
        End::Done => finish_cut(pass, rt, hall),
        _ => (pass, end),
    }
}

/// Makes the barber's second visit.
fn finish_cut<K: Style, T: Guarded, R: Wait>(
    pass: Pass<K, T>,
    rt: &R,
    hall: &Hall<K, T>,
) -> (Pass<K, T>, End)
    requires shop { T.meaning ≡ shop_meaning }
    requires hall { pass.hall ≡ hall.now.id }
    requires conds { Offers K.rules pass.me.setting.conds 3 }
    ensures { HasVisited K.rules T.meaning pass (finishes ∷ []) result.0 result.1 }
{
    match act_now(pass, rt, hall, FINISH) {
        Ok((active, _)) => K::finish(active, rt, hall, CUT_DONE),
        Err(pass) => (pass, End::Tired),
    }
}
