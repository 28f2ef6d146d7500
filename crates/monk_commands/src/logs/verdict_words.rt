//! The first words of a finding: whether the log fits, and how its program ends.

ghost use Rattle.std.specs.Prelude.{◌≡◌, IfOk, if◌then◌else◌, string_bytes};
ghost use Rattle.monk_commands.specs.LogFound as found;

use crate::logs::finding::Finding;
use monk_judge::{Blame, Holder, Misfit};
use std::alloc::{AllocError, Global};

/// The number in the file of the line with index 0. The header is line 1.
const FIRST: usize = 2;

/// Returns the number in the file of the line with that index after the header.
pub(crate) fn number(index: usize) -> usize
    ensures { result ≡ found.number index }
{
    index.saturating_add(FIRST)
}

/// Returns the first words, or the others.
fn either(is_first: bool, first: &'static str, other: &'static str) -> &'static str
    ensures { result.now ≡ (if is_first then first.now else other.now) }
{
    if is_first { first } else { other }
}

/// Returns what follows the number of spurious wake-ups.
fn wake_up_words(many: u64) -> &'static str
    ensures { result.now ≡ found.wake_up_words many }
{
    either(many == 1, " spurious wake-up", " spurious wake-ups")
}

/// Returns the number of spurious wake-ups, with the line of the first.
fn wake_ups(alloc: Global, many: u64, first: usize) -> Result<String, AllocError>
    ensures { IfOk result (λ text. string_bytes text ≡ found.wake_ups many first) }
{
    let (words, line) = (wake_up_words(many), number(first));
    Ok(format!(in alloc; "{many}{words}, first at {line}")?)
}

/// Returns the same after these words, if there are some.
fn spurious_words(
    alloc: Global,
    front: &str,
    many: u64,
    first: Option<usize>,
) -> Result<String, AllocError>
    ensures { IfOk result (λ text. string_bytes text ≡ found.spurious_words front.now many first) }
{
    match first {
        None => Ok(String::new(alloc)),
        Some(first) => {
            let wake_ups = wake_ups(alloc, many, first)?;
            Ok(format!(in alloc; "{front}{wake_ups}")?)
        }
    }
}

/// Returns who holds the lock at the end.
fn busy_words(alloc: Global, has_ended: bool, holder: Holder) -> Result<String, AllocError>
    ensures { IfOk result (λ text. string_bytes text ≡ found.busy_words has_ended holder) }
{
    let front = either(has_ended, "; busy at the end", "; busy");
    let (seat, line) = (holder.seat, number(holder.since));
    Ok(format!(in alloc; "{front}, seat {seat} holds the lock since {line}")?)
}

/// Returns how a log with this number of seats ends, if nobody holds the lock.
fn idle_words(alloc: Global, seats: u8, asleep: u8, woken: u8) -> Result<String, AllocError>
    ensures { IfOk result (λ text. string_bytes text ≡ found.idle_words seats asleep woken) }
{
    if woken > 0 {
        Ok(format!(in alloc; "; owed, {woken} woken and not back")?)
    } else if asleep == 0 {
        String::from_str(alloc, "; free")
    } else if asleep == seats {
        Ok(format!(in alloc; "; dead, all {asleep} sleep")?)
    } else {
        let words = either(asleep == 1, " sleeps", " sleep");
        Ok(format!(in alloc; "; open, {asleep}{words}")?)
    }
}

fn end_words(alloc: Global, finding: &Finding) -> Result<String, AllocError>
    ensures { IfOk result (λ text. string_bytes text ≡ found.end_words finding.now.report.holder finding.now) }
{
    let report = &finding.report;
    match report.holder {
        Some(holder) => busy_words(alloc, finding.has_ended, holder),
        None => idle_words(alloc, finding.seats, report.asleep, report.woken),
    }
}

/// Says that a log fits, and how its program ends.
fn fitting_words(alloc: Global, finding: &Finding) -> Result<String, AllocError>
    ensures { IfOk result (λ text. string_bytes text ≡ found.fitting_words finding.now) }
{
    let tally = &finding.report.tally;
    let wake_ups = spurious_words(alloc, " with ", tally.spurious, tally.first_spurious)?;
    let end = end_words(alloc, finding)?;
    Ok(format!(in alloc; "fits{wake_ups}{end}")?)
}

/// Returns a sentence about a seat.
fn about(alloc: Global, seat: u8, words: &str) -> Result<String, AllocError>
    ensures { IfOk result (λ text. string_bytes text ≡ found.about seat words.now) }
{
    Ok(format!(in alloc; "seat {seat}{words}")?)
}

/// Says that a seat takes the lock which another holds.
fn held_words(alloc: Global, seat: u8, holder: Option<Holder>) -> Result<String, AllocError>
    ensures { IfOk result (λ text. string_bytes text ≡ found.held_words seat holder) }
{
    match holder {
        None => about(alloc, seat, " takes the lock that another seat holds"),
        Some(holder) => {
            let (other, line) = (holder.seat, number(holder.since));
            Ok(format!(in alloc;
                "seat {seat} takes the lock, but seat {other} holds it since {line}"
            )?)
        }
    }
}

/// Says what is wrong with a line of that seat.
fn blame_words(
    alloc: Global,
    why: Blame,
    seat: u8,
    holder: Option<Holder>,
) -> Result<String, AllocError>
    ensures { IfOk result (λ text. string_bytes text ≡ found.blame_words why seat holder) }
{
    match why {
        Blame::Range => {
            String::from_str(alloc, "the header has no such seat, condition or code")
        }
        Blame::Call => String::from_str(alloc, "until is no call of a mutex"),
        Blame::Held => held_words(alloc, seat, holder),
        Blame::NoLock => about(alloc, seat, " does this without the lock"),
        Blame::Asleep => about(
            alloc,
            seat,
            " comes in, but it has not come back from its wait",
        ),
        Blame::Awake => about(alloc, seat, " comes back, but it does not wait"),
        Blame::Reply => about(alloc, seat, " relied on what no longer held"),
    }
}

/// Says that a log misfits. How its program ends isn't said, because it went on.
fn misfit_words(alloc: Global, misfit: Misfit, finding: &Finding) -> Result<String, AllocError>
    ensures { IfOk result (λ text. string_bytes text ≡ found.misfit_words misfit finding.now) }
{
    let (report, tally) = (&finding.report, &finding.report.tally);
    let (line, word) = (number(misfit.line), misfit.why.text());
    let words = blame_words(alloc, misfit.why, finding.wrong_seat, report.holder)?;
    let wake_ups = spurious_words(alloc, "; ", tally.spurious, tally.first_spurious)?;
    Ok(format!(in alloc; "misfit at {line}: {word}, {words}{wake_ups}")?)
}

/// Says whether the log fits.
pub(crate) fn verdict_words(alloc: Global, finding: &Finding) -> Result<String, AllocError>
    ensures { IfOk result (λ text. string_bytes text ≡ found.verdict_words finding.now.report.misfit finding.now) }
{
    match finding.report.misfit {
        None => fitting_words(alloc, finding),
        Some(misfit) => misfit_words(alloc, misfit, finding),
    }
}
