//! The totals of a run, read from its history.
ghost use Rattle.std.specs.Prelude.{◌≡◌, ◌≤◌, ◌<◌, ◌^◌, ◌↔◌, true, IfSome, length, position, sum, if◌then◌else◌};
ghost use Rattle.monk_object.specs.Laws.{items_put, items_taken};
ghost use Rattle.monk_object.specs.Runs.{times_done};
ghost use Rattle.monk_history.specs.Meaning.Acts.{act_of, is_refused_act};
ghost use Rattle.monk_samples.specs.Samples.{KeepsLaw};
ghost use Rattle.monk_samples.specs.Totals.{HasEnded, count_done, first_missed, missed_in, refusals_in, sum_put, sum_taken, totals_of};

use crate::sample::Sample;
use monk_history::Event;
use monk_object::{Book, Buffer, Shop};

/// Returns the totals of a run of that sample. It makes one pass over the history for each.
pub(crate) fn totals_of(sample: Sample, history: &[Event]) -> [u64; 4]
    requires few { length history.now ≤ 2 ^ 26 }
    requires law { (size : _) × (state : _) × KeepsLaw sample size state history.now }
    ensures { result ≡ totals_of sample history.now }
{
    match sample {
        Sample::Buffer => [
            times(history, Buffer::PUT),
            items_put(history),
            times(history, Buffer::TAKE),
            items_taken(history),
        ],
        Sample::Book => [
            times(history, Book::START_READ),
            times(history, Book::END_READ),
            times(history, Book::START_WRITE),
            times(history, Book::END_WRITE),
        ],
        Sample::Shop => [
            times(history, Shop::SIT),
            times(history, Shop::CALL),
            times(history, Shop::FINISH),
            times(history, Shop::DEPART),
        ],
    }
}

/// Whether everything that a run has to end was ended. For a book this is each read and each write that was begun.
pub(crate) fn has_ended(sample: Sample, history: &[Event]) -> bool
    ensures { (result ≡ true) ↔ HasEnded sample history.now }
{
    match sample {
        Sample::Book => {
            times(history, Book::END_READ) == times(history, Book::START_READ)
                && times(history, Book::END_WRITE) == times(history, Book::START_WRITE)
        }
        _ => true,
    }
}

/// Returns how often the operation of that code was done.
fn times(history: &[Event], code: u8) -> u64
    ensures { result ≡ count_done code history.now }
{
    let mut count = 0;
    for event in history {
        if is_done(event, code) {
            count += 1;
        }
    }
    count
}

/// Returns how many acts were refused.
pub(crate) fn missed_in(history: &[Event]) -> u64
    ensures { result ≡ missed_in history.now }
{
    let mut count = 0;
    for event in history {
        if is_refused(event) {
            count += 1;
        }
    }
    count
}

/// Returns the step of the first act that was refused, counted from 1.
pub(crate) fn first_missed(history: &[Event]) -> Option<u32>
    requires few { length history.now ≤ 2 ^ 26 }
    ensures { result ≡ first_missed history.now }
{
    match first_refused(history) {
        Some(place) => Some(place as u32 + 1),
        None => None,
    }
}

/// Returns the place of the first act that was refused.
fn first_refused(history: &[Event]) -> Option<usize>
    ensures is { result ≡ position is_refused_act history.now }
    ensures within { IfSome result (λ place. place < length history.now) }
{
    history.iter().position(|event| is_refused(event))
}

/// Returns the sum of the items that were put.
fn items_put(history: &[Event]) -> u64
    requires { length history.now ≤ 2 ^ 26 }
    ensures { result ≡ sum_put history.now }
{
    let mut sum = 0;
    for event in history {
        sum += item_put(event);
    }
    sum
}

/// Returns the sum of the items that were taken.
fn items_taken(history: &[Event]) -> u64
    requires { sum_taken history.now < 2 ^ 64 }
    ensures { result ≡ sum_taken history.now }
{
    let mut sum = 0;
    for event in history {
        sum += item_taken(event);
    }
    sum
}

/// Whether it is an act of that code that was done.
fn is_done(event: &Event, code: u8) -> bool
    ensures { times_done code (act_of event.now) ≡ (if result then 1 else 0) }
{
    match *event {
        Event::Act(_, op, reply) => op.code == code && reply > 0,
        _ => false,
    }
}

/// Whether it is an act that was refused.
fn is_refused(event: &Event) -> bool
    ensures counts { refusals_in (act_of event.now) ≡ (if result then 1 else 0) }
    ensures is { result ≡ is_refused_act event.now }
{
    event.is_refused()
}

/// Returns the item that it put, or 0.
fn item_put(event: &Event) -> u64
    ensures item { result ≡ sum (items_put (act_of event.now)) }
    ensures low { result < 2 ^ 32 }
{
    match *event {
        Event::Act(_, op, reply) if op.code == Buffer::PUT && reply > 0 => u64::from(op.arg),
        _ => 0,
    }
}

/// Returns the item that it took, or 0.
fn item_taken(event: &Event) -> u64
    ensures { result ≡ sum (items_taken (act_of event.now)) }
{
    match *event {
        Event::Act(_, op, reply) if op.code == Buffer::TAKE && reply > 0 => reply - 1,
        _ => 0,
    }
}
