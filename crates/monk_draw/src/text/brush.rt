//! The strips of a picture, line by line.

use super::column::{Column, GAP};
use super::fault::put_fault;
use super::lane::Lane;
use super::signs::{Signs, put_padded, put_times};
use super::strip::{Strip, strips};
use crate::label::plural;
use crate::scene::{Scene, lane_of};
use monk_history::Header;
use std::alloc::{AllocError, Global};

/// The title of the line with the numbers of the steps.
const STEPS: &str = "step";

/// An arrow from the lane of a release to that of the seat that goes on.
#[derive(Clone, Copy)]
struct Arrow {
    from: u8,
    to: u8,
}

impl Arrow {
    /// Whether it crosses the lane.
    fn crosses(self, lane: u8) -> bool {
        self.from.min(self.to) < lane && lane < self.from.max(self.to)
    }
}

/// Draws the strips of a scene.
#[derive(Clone, Copy)]
pub(crate) struct Brush<'a> {
    pub(crate) alloc: Global,
    pub(crate) scene: &'a Scene,
    pub(crate) columns: &'a [Column],
    pub(crate) lanes: &'a [Lane],
    pub(crate) seats: u8,
    pub(crate) signs: &'static Signs,
}

/// Writes the line, without the blanks at its end.
fn put_line(page: &mut String, line: &str) -> Result<(), AllocError> {
    page.push_str(line.trim_end())?;
    page.push_str("\n")
}

impl Brush<'_> {
    /// Returns the width of the titles of the lanes, with a blank after them.
    fn margin(self) -> usize {
        let titles = self.lanes.iter().map(|lane| lane.title.len());
        titles
            .fold(STEPS.len(), |widest, title| widest.max(title))
            .saturating_add(1)
    }

    /// Writes the heading and the strips of a picture of that width, and why the last event is forbidden, if it is.
    pub(crate) fn put_picture(
        self,
        page: &mut String,
        header: &Header,
        width: usize,
        reason: &str,
    ) -> Result<(), AllocError> {
        self.put_heading(page, header)?;
        for strip in strips(self.alloc, self.columns, self.room(width))? {
            self.put_strip(page, strip)?;
            if self.scene.is_forbidden(strip.last.saturating_sub(1)) {
                put_fault(page, self.column_at(strip), width, reason)?;
            }
        }
        Ok(())
    }

    /// Returns how much room a strip of that width has for its columns.
    fn room(self, width: usize) -> usize {
        width.saturating_sub(self.margin()).saturating_sub(GAP)
    }

    /// Returns where the words of a strip's last event begin.
    fn column_at(self, strip: Strip) -> usize {
        let mut at = self.margin().saturating_add(GAP);
        for index in strip.first..strip.last.saturating_sub(1) {
            at = at.saturating_add(self.width(index)).saturating_add(GAP);
        }
        at
    }

    fn width(self, index: usize) -> usize {
        self.columns.get(index).map_or(0, |column| column.width)
    }

    /// Writes what the picture shows: the kind, the events, and how many seats have no lane.
    fn put_heading(self, page: &mut String, header: &Header) -> Result<(), AllocError> {
        let (kind, count) = (header.kind(), self.columns.len());
        let (kind, before) = (kind.as_str(), self.scene.before);
        if before == 0 {
            write!(page, "{kind}, {count} event{}", plural(count))?;
        } else {
            let (first, last) = (before.saturating_add(1), before.saturating_add(count));
            write!(page, "{kind}, events {first} to {last}")?;
        }
        self.put_idle(page)?;
        page.push_str("\n")
    }

    fn put_idle(self, page: &mut String) -> Result<(), AllocError> {
        let there = self
            .lanes
            .iter()
            .filter(|lane| lane.number < self.seats)
            .count();
        let idle = usize::from(self.seats).saturating_sub(there);
        if idle == 0 {
            return Ok(());
        }
        let what = if self.scene.before == 0 {
            "never came"
        } else {
            "outside"
        };
        write!(page, ", {idle} seat{} {what}", plural(idle))
    }

    /// Writes a strip, with a blank line before each but the first.
    fn put_strip(self, page: &mut String, strip: Strip) -> Result<(), AllocError> {
        if strip.first > 0 {
            page.push_str("\n")?;
        }
        self.put_steps(page, strip)?;
        for lane in self.lanes {
            self.put_lane(page, lane, strip)?;
        }
        Ok(())
    }

    /// Writes the numbers of the steps.
    fn put_steps(self, page: &mut String, strip: Strip) -> Result<(), AllocError> {
        let mut line = String::new(self.alloc);
        put_padded(&mut line, STEPS, self.margin())?;
        for index in strip.first..strip.last {
            if let Some(column) = self.columns.get(index) {
                put_times(&mut line, " ", GAP)?;
                put_padded(&mut line, column.number.as_str(), column.width)?;
            }
        }
        put_line(page, line.as_str())
    }

    /// Writes the line of a lane.
    fn put_lane(self, page: &mut String, lane: &Lane, strip: Strip) -> Result<(), AllocError> {
        let mut line = String::new(self.alloc);
        put_padded(&mut line, lane.title.as_str(), self.margin())?;
        for index in strip.first..strip.last {
            self.put_gap(&mut line, lane.number, index)?;
            self.put_cell(&mut line, lane.number, index)?;
        }
        self.put_end(&mut line, lane.number, strip.last)?;
        put_line(page, line.as_str())
    }

    /// Returns the lane of an event that is shown.
    fn lane_at(self, index: usize) -> Option<u8> {
        let event = self.scene.events.get(index)?;
        Some(lane_of(event.seat(), self.seats))
    }

    /// Returns the arrow that leads to an event, or out of the picture after the last. None stays
    /// in its lane.
    fn arrow_to(self, index: usize) -> Option<Arrow> {
        let before = index.checked_sub(1)?;
        let from = self.lane_at(before)?;
        let to = lane_of(self.scene.arrow(before)?, self.seats);
        if from == to || self.scene.is_forbidden(before) {
            return None;
        }
        Some(Arrow { from, to })
    }

    /// Returns what fills a lane before an event.
    fn fill(self, lane: u8, index: usize) -> &'static str {
        self.signs.fill(self.scene.place(index, lane))
    }

    /// Writes what is before an event, or after the last: the part of the arrow that leads there.
    fn put_gap(self, line: &mut String, lane: u8, index: usize) -> Result<(), AllocError> {
        let fill = self.fill(lane, index);
        let last = if self.lane_at(index) == Some(lane) {
            " "
        } else {
            fill
        };
        let mut signs = [fill, fill, last];
        if let Some(arrow) = self.arrow_to(index) {
            let is_down = arrow.from < arrow.to;
            let (tail, head) = if is_down {
                self.signs.down
            } else {
                self.signs.up
            };
            if lane == arrow.from {
                signs = [self.signs.along, tail, last];
            } else if lane == arrow.to {
                signs = [fill, head, self.signs.along];
            } else if arrow.crosses(lane) {
                signs = [fill, self.signs.through, last];
            }
        }
        for sign in signs {
            line.push_str(sign)?;
        }
        Ok(())
    }

    /// Writes the words of an event in its own lane, and how the seat waits in any other lane.
    fn put_cell(self, line: &mut String, lane: u8, index: usize) -> Result<(), AllocError> {
        if self.lane_at(index) != Some(lane) {
            return put_times(line, self.fill(lane, index), self.width(index));
        }
        let Some(column) = self.columns.get(index) else {
            return Ok(());
        };
        line.push_str(column.words.as_str())?;
        let rest = column.width.saturating_sub(column.words.len());
        if rest > 0 {
            line.push_str(" ")?;
            put_times(line, self.fill(lane, index.saturating_add(1)), rest - 1)?;
        }
        Ok(())
    }

    /// Writes what is after the last event of a strip: the arrow that leads out of the picture, or
    /// the beginning of one that goes on in the next strip.
    fn put_end(self, line: &mut String, lane: u8, index: usize) -> Result<(), AllocError> {
        if index >= self.columns.len() {
            return self.put_gap(line, lane, index);
        }
        let leaves = matches!(self.arrow_to(index), Some(arrow) if arrow.from == lane);
        let sign = if leaves {
            self.signs.along
        } else {
            self.fill(lane, index)
        };
        put_times(line, sign, GAP)
    }
}
