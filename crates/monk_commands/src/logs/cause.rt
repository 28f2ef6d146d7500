//! What led to a misfit or to a bad end, for an explanation.

use crate::logs::finding::Finding;
use crate::logs::lines_told::LinesTold;
use crate::logs::trail::{Trail, WokenBy};
use crate::logs::trails::Trails;
use crate::logs::verdict_words::number;
use monk_judge::{Blame, Misfit};
use monk_logs::{LogLine, Subject, last_line};
use std::alloc::AllocError;

/// Writes the lines to look at, each with a sentence.
pub(crate) fn put_cause(
    told: &mut LinesTold<'_>,
    trails: &Trails,
    finding: &Finding,
) -> Result<(), AllocError> {
    match finding.report.misfit {
        Some(misfit) => put_misfit(told, trails.of(finding.wrong_seat), finding, misfit),
        None => put_end(told, finding),
    }
}

/// Writes the line that misfits, and what led to it.
fn put_misfit(
    told: &mut LinesTold<'_>,
    trail: Trail,
    finding: &Finding,
    misfit: Misfit,
) -> Result<(), AllocError> {
    told.put(Some(misfit.line), misfit.why.sentence())?;
    match misfit.why {
        Blame::Reply => put_reliance(told, finding.wrong_seat, trail),
        Blame::Held => told.put(finding.held_since(), "the lock is held since here"),
        Blame::Asleep => told.put(
            trail.waited,
            "it waits here, and no line tells that it is back",
        ),
        Blame::NoLock | Blame::Awake => {
            let last = last_before(told.lines, finding.wrong_seat, misfit.line);
            told.put(last, "this is the last that it did before")
        }
        Blame::Range | Blame::Call => Ok(()),
    }
}

/// Writes why a seat's act has another reply: it relied on what it tested before its wait, or before it came in.
fn put_reliance(told: &mut LinesTold<'_>, seat: u8, trail: Trail) -> Result<(), AllocError> {
    match (trail.since, trail.woken, trail.waited) {
        (None, _, _) => Ok(()),
        (Some(back), Some(by), _) => put_woken(told, seat, back, by),
        (back, None, Some(_)) => told.put(
            back,
            "the seat came back here though nobody sent a signal; it has to test again",
        ),
        (back, None, None) => told.put(
            back,
            "the seat came in here; it tested before it had the lock, or not at all",
        ),
    }
}

/// Writes who woke the seat, and who came in before it was back.
fn put_woken(
    told: &mut LinesTold<'_>,
    seat: u8,
    back: usize,
    by: WokenBy,
) -> Result<(), AllocError> {
    told.put(Some(back), "the seat came back here, and didn't test again")?;
    told.put(Some(by.line), "this woke it")?;
    let between = taken_between(told.lines, seat, by.line, back);
    if between.is_some() {
        return told.put(
            between,
            "this seat came in between, so what was signalled could change: `if` where `while` is needed",
        );
    }
    let (page, from, to) = (&mut told.page, number(by.line), number(back));
    writeln!(
        page,
        "nobody came in between lines {from} and {to}: the signal came though nothing was there for the seat"
    )
}

/// Returns the last line of the seat before that line. Lines are counted from 0 here, and from 1 by `last_line`.
fn last_before(lines: &[LogLine], seat: u8, line: usize) -> Option<usize> {
    let end = line.min(lines.len());
    last_line(&lines[..end], Subject::Seat(seat))?.checked_sub(1)
}

/// Returns the first line between these two with which another seat takes the lock.
fn taken_between(lines: &[LogLine], seat: u8, from: usize, to: usize) -> Option<usize> {
    for (index, line) in lines.iter().enumerate() {
        let takes_lock = matches!(
            *line,
            LogLine::Enter(_) | LogLine::Resume(_) | LogLine::Lapse(_)
        );
        if index > from && index < to && takes_lock && line.seat() != seat {
            return Some(index);
        }
    }
    None
}

/// Writes what to look at in a log that fits.
fn put_end(told: &mut LinesTold<'_>, finding: &Finding) -> Result<(), AllocError> {
    let (report, tally) = (&finding.report, &finding.report.tally);
    told.put(
        report.missed,
        "the lock is let go, and what a sleeper waits for holds, but nobody was signalled",
    )?;
    told.put(
        finding.held_since(),
        "this visit has no end: if the program hangs, an unlock is missing",
    )?;
    told.put(
        tally.last_unheard,
        "this is the last signal that found nobody; if a thread sleeps for ever, it may have come too early",
    )?;
    told.put(
        finding.crossed_at(),
        "this signal came without the lock, between a thread's test and its wait: the thread can sleep for ever",
    )?;
    if !finding.never_waits_again() {
        return Ok(());
    }
    told.put(
        tally.first_not_again,
        "a thread that waits there too came and went before this one was back, and it didn't wait again: is its test an `if`?",
    )
}
