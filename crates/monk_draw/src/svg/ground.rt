//! The ground of a picture: the heading, a line for each column, a rail for each lane. A wide
//! picture also repeats the numbers of the seats, for a reader who sees only a part of it.

use super::Canvas;
use super::layout::{LANE, LEFT, column_at, lane_at, left_of};
use super::style::STYLE;
use crate::label::plural;
use monk_history::Header;
use std::alloc::AllocError;

/// The most columns that can all be seen at once.
const NARROW: usize = 20;
/// A wide picture repeats the numbers of the seats at each column whose number this divides.
const EACH: usize = 10;

impl Canvas<'_> {
    /// Writes the ground of the picture.
    pub(super) fn put_ground(&mut self, header: &Header) -> Result<(), AllocError> {
        let (width, height) = (self.layout.width(), self.layout.height());
        write!(
            self.page,
            "<svg xmlns=\"http://www.w3.org/2000/svg\" role=\"img\" viewBox=\"0 0 {width} {height}\" \
            width=\"{width}\" height=\"{height}\">\n<title>The history of a monitor</title>\n"
        )?;
        self.page.push_str(STYLE)?;
        self.put_heading(header)?;
        self.put_columns()?;
        self.put_lanes()
    }

    /// Writes what the history is of: its kind, its seats, its conditions and its object.
    fn put_heading(&mut self, header: &Header) -> Result<(), AllocError> {
        let (kind, object, size) = (header.kind(), header.object(), header.size());
        let (seats, conds) = (header.seats(), header.conds());
        let (more_seats, more_conds) = (plural(usize::from(seats)), plural(usize::from(conds)));
        let (kind, object) = (kind.as_str(), object.as_str());
        write!(
            self.page,
            "<rect class=\"background\" width=\"100%\" height=\"100%\"/>\n\
            <text class=\"head\" x=\"16\" y=\"28\">{kind}</text>\n\
            <text class=\"soft\" x=\"{LEFT}\" y=\"28\">{seats} seat{more_seats}, \
            {conds} condition{more_conds}, {object} of {size}</text>\n"
        )
    }

    /// Writes a thin line for each column.
    fn put_columns(&mut self) -> Result<(), AllocError> {
        let foot = self.layout.base().saturating_sub(LANE / 2);
        for column in 0..self.layout.columns {
            let x = column_at(column);
            write!(
                self.page,
                "<line class=\"grid\" x1=\"{x}\" x2=\"{x}\" y1=\"68\" y2=\"{foot}\"/>\n"
            )?;
        }
        Ok(())
    }

    /// Writes a rail for each lane, with its seat.
    fn put_lanes(&mut self) -> Result<(), AllocError> {
        let end = self.layout.end();
        for lane in 0..self.layout.lanes {
            let y = lane_at(lane);
            let base = y + 4;
            write!(
                self.page,
                "<line class=\"rail\" x1=\"{LEFT}\" x2=\"{end}\" y1=\"{y}\" y2=\"{y}\"/>\n\
                <text x=\"16\" y=\"{base}\">"
            )?;
            if lane < self.layout.seats {
                write!(self.page, "seat {lane}</text>\n")?;
            } else {
                self.page.push_str("no seat</text>\n")?;
            }
        }
        Ok(())
    }

    /// Repeats the numbers of the seats at each tenth column of a wide picture.
    pub(super) fn put_tags(&mut self) -> Result<(), AllocError> {
        let columns = self.layout.columns;
        for column in 1..columns {
            if columns > NARROW && column % EACH == 0 {
                self.put_tags_at(left_of(column))?;
            }
        }
        Ok(())
    }

    /// Writes the number of each seat at the left edge of a column.
    fn put_tags_at(&mut self, x: u64) -> Result<(), AllocError> {
        for seat in 0..self.layout.seats {
            let y = lane_at(seat) + 4;
            write!(
                self.page,
                "<text class=\"tag\" x=\"{x}\" y=\"{y}\">{seat}</text>\n"
            )?;
        }
        Ok(())
    }
}
