//! Bars: the times of the seats in their places.

use super::Canvas;
use super::layout::{COLUMN, LEFT, column_at, lane_at};
use super::legend::OUTSIDE;
use crate::scene::{handed, lane_of};
use monk_tell::SeatPlace;
use std::alloc::{AllocError, Global};

/// Returns the class that has the look of the place in the style.
fn class_of(place: SeatPlace) -> &'static str {
    match place {
        SeatPlace::Outside => OUTSIDE,
        SeatPlace::Active => "active",
        SeatPlace::Condition(_) => "condition",
        SeatPlace::Waiter => "waiter",
        SeatPlace::Signaller => "signaller",
        SeatPlace::Until(_) => "until",
    }
}

/// Whether a seat is in the same place as before. A seat that waits until a predicate holds is
/// still there after it is chosen.
fn stays(before: SeatPlace, then: SeatPlace) -> bool {
    before == then || matches!((before, then), (SeatPlace::Until(_), SeatPlace::Until(_)))
}

/// A seat's time in one place, up to now.
#[derive(Clone, Copy)]
struct Stay {
    seat: u8,
    place: SeatPlace,
    from: u64,
}

impl Canvas<'_> {
    /// Writes the bars of all seats.
    pub(super) fn put_bars(&mut self, alloc: Global) -> Result<(), AllocError> {
        let (scene, layout) = (self.scene, self.layout);
        let mut stays_now: Vec<Stay> = (0..layout.seats)
            .map(|seat| Stay {
                seat,
                place: scene.place(0, seat),
                from: LEFT,
            })
            .collect(alloc)?;
        for column in 0..scene.allowed() {
            if let Some(seat) = handed(scene.events.get(column).copied()) {
                // Its wait at the entry is drawn one column wide.
                let x = column_at(column);
                let from = x.saturating_sub(COLUMN).max(LEFT);
                self.put_bar("entry", lane_of(seat, layout.seats), from, x)?;
            }
            self.put_ended(&mut stays_now, column)?;
        }
        for stay in &stays_now {
            self.put_stay(*stay, layout.end())?;
        }
        Ok(())
    }

    /// Writes the bars that end in the column, because their seats come to another place.
    fn put_ended(&mut self, stays_now: &mut Vec<Stay>, column: usize) -> Result<(), AllocError> {
        let from = column_at(column);
        for stay in stays_now.iter_mut() {
            let seat = stay.seat;
            let place = self.scene.place(column.saturating_add(1), seat);
            if !stays(stay.place, place) {
                self.put_stay(*stay, from)?;
                *stay = Stay { seat, place, from };
            }
        }
        Ok(())
    }

    /// Writes the bar of a seat's stay, up to `to`.
    fn put_stay(&mut self, stay: Stay, to: u64) -> Result<(), AllocError> {
        let Stay { seat, place, from } = stay;
        self.put_bar(class_of(place), seat, from, to)?;
        self.put_what(place, seat, from, to)
    }

    /// Writes a bar of the class. A time outside is not drawn.
    fn put_bar(
        &mut self,
        class: &'static str,
        lane: u8,
        from: u64,
        to: u64,
    ) -> Result<(), AllocError> {
        self.note(class)?;
        if class == OUTSIDE {
            return Ok(());
        }
        let (top, width) = (lane_at(lane).saturating_sub(9), to.saturating_sub(from));
        write!(
            self.page,
            "<rect class=\"{class}\" x=\"{from}\" y=\"{top}\" width=\"{width}\" height=\"18\" rx=\"4\"/>\n"
        )
    }

    /// Writes the condition or the predicate that is waited for, after the arrow that may begin
    /// with the bar, and before the next column.
    fn put_what(
        &mut self,
        place: SeatPlace,
        lane: u8,
        from: u64,
        to: u64,
    ) -> Result<(), AllocError> {
        let width = to.saturating_sub(from);
        let behind = if width < COLUMN { width / 2 } else { 60 };
        let (x, y) = (from.saturating_add(behind), lane_at(lane) + 4);
        let (sign, number) = match place {
            SeatPlace::Condition(cond) => ("c", cond),
            SeatPlace::Until(Some(pred)) => ("p", usize::from(pred)),
            _ => return Ok(()),
        };
        write!(
            self.page,
            "<text class=\"what\" x=\"{x}\" y=\"{y}\">{sign}{number}</text>\n"
        )
    }
}
