//! The members of the samples, and the styles by which they pause and go out.
ghost use Rattle.std.specs.Prelude.{◌≡◌, ◌+◌, ◌≤◌};
ghost use Rattle.monk_samples.specs.Styles.{MayFinish, MayPause, Offers};

use monk_hall::{Active, Hall, Pass};
use monk_kinds::{ImmediateReturn, Kind, NonBlocking};
use monk_object::{Book, Buffer, Guarded, Shop};
use monk_samples::{
    End, Style, barber_turn, put, put_wait, read_begin, read_end, sit_and_cut, take, write_begin,
    write_end, write_end_all,
};
use std::sync::Wait;

/// The three ends.
pub fn end_number(end: End) -> u8 {
    match end {
        End::Done => 1,
        End::Tired => 2,
        End::Late => 3,
    }
}

pub fn put_item<K: Style, R: Wait>(
    pass: Pass<K, Buffer>,
    rt: &R,
    hall: &Hall<K, Buffer>,
    item: u32,
) -> (Pass<K, Buffer>, End)
    requires hall { pass.hall ≡ hall.now.id }
    requires conds { Offers K.rules pass.me.setting.conds 2 }
{
    put(pass, rt, hall, item)
}

pub fn take_item<K: Style, R: Wait>(
    pass: Pass<K, Buffer>,
    rt: &R,
    hall: &Hall<K, Buffer>,
) -> (Pass<K, Buffer>, Option<u32>, End)
    requires hall { pass.hall ≡ hall.now.id }
    requires conds { Offers K.rules pass.me.setting.conds 2 }
{
    take(pass, rt, hall)
}

pub fn begin_to_read<K: Style, R: Wait>(
    pass: Pass<K, Book>,
    rt: &R,
    hall: &Hall<K, Book>,
) -> (Pass<K, Book>, End)
    requires hall { pass.hall ≡ hall.now.id }
    requires conds { Offers K.rules pass.me.setting.conds 2 }
{
    read_begin(pass, rt, hall)
}

pub fn end_to_read<K: Style, R: Wait>(
    pass: Pass<K, Book>,
    rt: &R,
    hall: &Hall<K, Book>,
) -> (Pass<K, Book>, End)
    requires hall { pass.hall ≡ hall.now.id }
    requires conds { Offers K.rules pass.me.setting.conds 2 }
{
    read_end(pass, rt, hall)
}

pub fn begin_to_write<K: Style, R: Wait>(
    pass: Pass<K, Book>,
    rt: &R,
    hall: &Hall<K, Book>,
) -> (Pass<K, Book>, End)
    requires hall { pass.hall ≡ hall.now.id }
    requires conds { Offers K.rules pass.me.setting.conds 2 }
{
    write_begin(pass, rt, hall)
}

pub fn end_to_write<K: Style, R: Wait>(
    pass: Pass<K, Book>,
    rt: &R,
    hall: &Hall<K, Book>,
) -> (Pass<K, Book>, End)
    requires hall { pass.hall ≡ hall.now.id }
    requires conds { Offers K.rules pass.me.setting.conds 2 }
{
    write_end(pass, rt, hall)
}

pub fn end_to_write_for_all<K: Style + NonBlocking, R: Wait>(
    pass: Pass<K, Book>,
    rt: &R,
    hall: &Hall<K, Book>,
) -> (Pass<K, Book>, End)
    requires hall { pass.hall ≡ hall.now.id }
    requires conds { 2 ≤ pass.me.setting.conds }
{
    write_end_all(pass, rt, hall)
}

pub fn put_and_wait<K: Style + ImmediateReturn, R: Wait>(
    pass: Pass<K, Buffer>,
    rt: &R,
    hall: &Hall<K, Buffer>,
    item: u32,
) -> (Pass<K, Buffer>, End)
    requires hall { pass.hall ≡ hall.now.id }
    requires conds { 2 ≤ pass.me.setting.conds }
{
    put_wait(pass, rt, hall, item)
}

pub fn have_a_cut<K: Style, R: Wait>(
    pass: Pass<K, Shop>,
    rt: &R,
    hall: &Hall<K, Shop>,
) -> (Pass<K, Shop>, End)
    requires hall { pass.hall ≡ hall.now.id }
    requires conds { Offers K.rules pass.me.setting.conds 3 }
{
    sit_and_cut(pass, rt, hall)
}

pub fn cut_somebody<K: Style, R: Wait>(
    pass: Pass<K, Shop>,
    rt: &R,
    hall: &Hall<K, Shop>,
) -> (Pass<K, Shop>, End)
    requires hall { pass.hall ≡ hall.now.id }
    requires conds { Offers K.rules pass.me.setting.conds 3 }
{
    barber_turn(pass, rt, hall)
}

pub fn pause<K: Style, T: Guarded, R: Wait>(
    active: Active<K, T>,
    rt: &R,
    hall: &Hall<K, T>,
    cond: u8,
    pred: u8,
) -> Result<Active<K, T>, Pass<K, T>>
    requires { MayPause K.rules hall.now.id active cond T.PREDICATES pred }
{
    K::pause(active, rt, hall, cond, pred)
}

pub fn finish<K: Style, T: Guarded, R: Wait>(
    active: Active<K, T>,
    rt: &R,
    hall: &Hall<K, T>,
    cond: u8,
) -> (Pass<K, T>, End)
    requires { MayFinish K.rules hall.now.id active cond }
{
    K::finish(active, rt, hall, cond)
}

pub fn waits<K: Style, T: Guarded>(active: &Active<K, T>, cond: u8) -> bool
    requires { Offers K.rules active.now.me.setting.conds (cond + 1) }
{
    K::waits(active, cond)
}

pub fn has_style<K: Style>() {
    is_kind::<K>();
}

pub fn is_kind<K: Kind>() {}
