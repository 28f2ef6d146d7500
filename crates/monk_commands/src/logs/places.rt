//! Where each seat is, for an explanation.

use crate::logs::lines_told::LinesTold;
use crate::logs::trail::Trail;
use crate::logs::trails::Trails;
use crate::logs::verdict_words::number;
use monk_judge::Place;
use std::alloc::AllocError;

/// Writes a row for each seat: where it is, and since when.
pub(crate) fn put_places(told: &mut LinesTold<'_>, trails: &Trails) -> Result<(), AllocError> {
    for (seat, trail) in trails.all().iter().enumerate() {
        let page = &mut told.page;
        write!(page, "seat {seat}: ")?;
        put_place(page, *trail)?;
        if let Some(since) = trail.since {
            write!(page, " since line {}", number(since))?;
            told.put_place(since)?;
        }
        let page = &mut told.page;
        put_signals(page, *trail)?;
        page.push_str("\n")?;
    }
    Ok(())
}

/// Writes where it is, and who woke it.
fn put_place(page: &mut String, trail: Trail) -> Result<(), AllocError> {
    match (trail.place, trail.woken) {
        (Place::Outside, _) => page.push_str("outside"),
        (Place::Active, _) => page.push_str("holds the lock"),
        (Place::Waiting(cond), _) => write!(page, "sleeps on condition {cond}"),
        (Place::Woken(_), Some(by)) => write!(page, "woken by seat {}, and not back", by.seat),
        (Place::Woken(_), None) => {
            page.push_str("woke though nobody sent a signal, and isn't back; it waits")
        }
        (Place::RanOut(_), _) => page.push_str("its time ran out, and it isn't back; it waits"),
    }
}

/// Writes how many signals came to the condition on which it sleeps.
fn put_signals(page: &mut String, trail: Trail) -> Result<(), AllocError> {
    match (trail.place, trail.signals) {
        (Place::Waiting(_), 0) => page.push_str("; no signal came there since"),
        (Place::Waiting(_), 1) => page.push_str("; one signal came there since, and woke another"),
        (Place::Waiting(_), many) => {
            write!(page, "; {many} signals came there since, and woke others")
        }
        _ => Ok(()),
    }
}
