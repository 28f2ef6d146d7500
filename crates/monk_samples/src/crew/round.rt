//! What a seat of a run does in a round, by the sample. The object may have any type with the meaning of the sample's
//! object. So the threads of a run are the same for every sample.
ghost use Rattle.std.specs.Prelude.{◌≡◌, ℕ, [], ◌∷◌};
ghost use Rattle.monk_object.specs.{Book.book_meaning, Buffer.buffer_meaning, Names.meaning_named, Shop.shop_meaning};
ghost use Rattle.monk_samples.specs.declared.sample.Sample.TheVariants as sample;
ghost use Rattle.monk_samples.specs.{Crews.IsOf, Crews.IsReady, Samples.sample_object, Visits.HasVisited};
ghost use Rattle.monk_samples.specs.Members.{begins_to_read, begins_to_write, ends_to_read, ends_to_write};
ghost use Rattle.monk_samples.specs.Rounds.{round_of, visits_of};

use crate::book::{begin_read, begin_write, end_read, end_write};
use crate::buffer::{put_hastily, put_into, take_from, take_hastily};
use crate::end::End;
use crate::manner::Manner;
use crate::rota::Rota;
use crate::sample::Sample;
use crate::shop::{have_cut, take_turn};
use crate::style::Style;
use monk_hall::{Hall, Pass};
use monk_object::Guarded;
use std::sync::Wait;
use std::thread;

/// A prime: the rounds of each seat go through its remainders in another order.
const STRIDE: u32 = 251;

/// How often a hasty seat lets others run before a visit is less than this.
const MOST_TURNS: u32 = 101;

/// Makes the visits of a seat in one round.
pub(crate) fn do_round<K: Style, T: Guarded, R: Wait>(
    pass: Pass<K, T>,
    rt: &R,
    hall: &Hall<K, T>,
    rota: Rota,
    round: u32,
) -> (Pass<K, T>, End)
    requires ready { IsReady K.rules hall.now pass }
    requires object { T.meaning ≡ meaning_named (sample_object rota.scenario.sample) }
    ensures back { IsOf hall.now result.0 }
    ensures visited { HasVisited K.rules T.meaning pass
        (round_of rota.scenario K.rules pass.me.setting rota.seats pass.me.seat round) result.0 result.1 }
{
    match rota.scenario.sample {
        Sample::Buffer => trade(pass, rt, hall, rota, round),
        Sample::Book => use_book(pass, rt, hall, rota),
        Sample::Shop => visit_shop(pass, rt, hall, rota),
    }
}

/// Makes a round of a buffer. Half of the seats put the items 1 to `rounds`, and as many seats take as often.
fn trade<K: Style, T: Guarded, R: Wait>(
    pass: Pass<K, T>,
    rt: &R,
    hall: &Hall<K, T>,
    rota: Rota,
    round: u32,
) -> (Pass<K, T>, End)
    requires ready { IsReady K.rules hall.now pass }
    requires object { T.meaning ≡ buffer_meaning }
    ensures back { IsOf hall.now result.0 }
    ensures visited { HasVisited K.rules T.meaning pass
        (visits_of sample.Buffer rota.scenario.manner K.rules pass.me.setting rota.seats pass.me.seat round)
        result.0 result.1 }
{
    match rota.scenario.manner {
        Manner::Patient => trade_patiently(pass, rt, hall, rota, round),
        Manner::Hasty => trade_hastily(pass, rt, hall, rota, round),
    }
}

/// As `trade`; each visit pauses while its predicate is false.
fn trade_patiently<K: Style, T: Guarded, R: Wait>(
    pass: Pass<K, T>,
    rt: &R,
    hall: &Hall<K, T>,
    rota: Rota,
    round: u32,
) -> (Pass<K, T>, End)
    requires ready { IsReady K.rules hall.now pass }
    requires object { T.meaning ≡ buffer_meaning }
    ensures back { IsOf hall.now result.0 }
    ensures visited { HasVisited K.rules T.meaning pass
        (visits_of sample.Buffer Manner.Patient K.rules pass.me.setting rota.seats pass.me.seat round)
        result.0 result.1 }
{
    let seat = pass.seat();
    if seat < rota.seats / 2 {
        put_into(pass, rt, hall, round)
    } else {
        take_from(pass, rt, hall)
    }
}

/// As `trade`, in haste.
fn trade_hastily<K: Style, T: Guarded, R: Wait>(
    pass: Pass<K, T>,
    rt: &R,
    hall: &Hall<K, T>,
    rota: Rota,
    round: u32,
) -> (Pass<K, T>, End)
    requires ready { IsReady K.rules hall.now pass }
    requires object { T.meaning ≡ buffer_meaning }
    ensures back { IsOf hall.now result.0 }
    ensures visited { HasVisited K.rules T.meaning pass
        (visits_of sample.Buffer Manner.Hasty K.rules pass.me.setting rota.seats pass.me.seat round)
        result.0 result.1 }
{
    let seat = pass.seat();
    let_others_run(seat, round);
    if seat < rota.seats / 2 {
        put_hastily(pass, rt, hall, round)
    } else {
        take_hastily(pass, rt, hall)
    }
}

/// Half of the seats read the book, and as many write in it. The visits are the same in each round.
fn use_book<K: Style, T: Guarded, R: Wait>(
    pass: Pass<K, T>,
    rt: &R,
    hall: &Hall<K, T>,
    rota: Rota,
) -> (Pass<K, T>, End)
    requires ready { IsReady K.rules hall.now pass }
    requires object { T.meaning ≡ book_meaning }
    ensures back { IsOf hall.now result.0 }
    ensures visited { (round : ℕ) → HasVisited K.rules T.meaning pass
        (visits_of sample.Book rota.scenario.manner K.rules pass.me.setting rota.seats pass.me.seat round)
        result.0 result.1 }
{
    let seat = pass.seat();
    if seat < rota.seats / 2 {
        read(pass, rt, hall)
    } else {
        write(pass, rt, hall)
    }
}

/// The first seat is the barber, and every other a customer. The visits are the same in each round.
fn visit_shop<K: Style, T: Guarded, R: Wait>(
    pass: Pass<K, T>,
    rt: &R,
    hall: &Hall<K, T>,
    rota: Rota,
) -> (Pass<K, T>, End)
    requires ready { IsReady K.rules hall.now pass }
    requires object { T.meaning ≡ shop_meaning }
    ensures back { IsOf hall.now result.0 }
    ensures visited { (round : ℕ) → HasVisited K.rules T.meaning pass
        (visits_of sample.Shop rota.scenario.manner K.rules pass.me.setting rota.seats pass.me.seat round)
        result.0 result.1 }
{
    let seat = pass.seat();
    if seat == 0 {
        take_turn(pass, rt, hall)
    } else {
        have_cut(pass, rt, hall)
    }
}

/// Reads the book once.
fn read<K: Style, T: Guarded, R: Wait>(
    pass: Pass<K, T>,
    rt: &R,
    hall: &Hall<K, T>,
) -> (Pass<K, T>, End)
    requires book { T.meaning ≡ book_meaning }
    requires ready { IsReady K.rules hall.now pass }
    ensures back { IsOf hall.now result.0 }
    ensures visited { HasVisited K.rules T.meaning pass
        (begins_to_read ∷ ends_to_read K.rules pass.me.setting ∷ []) result.0 result.1 }
{
    let (pass, end) = begin_read(pass, rt, hall);
    match end {
        End::Done => end_read(pass, rt, hall),
        _ => (pass, end),
    }
}

/// Writes in the book once.
fn write<K: Style, T: Guarded, R: Wait>(
    pass: Pass<K, T>,
    rt: &R,
    hall: &Hall<K, T>,
) -> (Pass<K, T>, End)
    requires book { T.meaning ≡ book_meaning }
    requires ready { IsReady K.rules hall.now pass }
    ensures back { IsOf hall.now result.0 }
    ensures visited { HasVisited K.rules T.meaning pass
        (begins_to_write ∷ ends_to_write K.rules ∷ []) result.0 result.1 }
{
    let (pass, end) = begin_write(pass, rt, hall);
    match end {
        End::Done => end_write(pass, rt, hall),
        _ => (pass, end),
    }
}

/// Lets other threads run, for a while that differs between seats and between rounds. So the seats of a hasty run
/// don't fall into step, and meet in many orders.
fn let_others_run(seat: u8, round: u32) {
    let turns = (round % STRIDE * (u32::from(seat) + 1)) % STRIDE % MOST_TURNS;
    for _ in 0..turns {
        thread::yield_now();
    }
}
