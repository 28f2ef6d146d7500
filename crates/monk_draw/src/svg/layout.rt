//! The places of what is drawn, in pixels.

ghost use Rattle.std.specs.Prelude.{◌≤◌, ◌^◌};

use crate::scene::Scene;
use monk_history::Header;

/// The distance between the middles of two columns.
pub(crate) const COLUMN: u64 = 76;
/// The distance between the middles of two lanes.
pub(crate) const LANE: u64 = 62;
/// The left edge of the first column.
pub(crate) const LEFT: u64 = 84;
/// Columns from this number on lie on top of each other. A window has far fewer.
const MOST_COLUMNS: usize = 1_000_000;
/// The middle of the first lane.
const FIRST_LANE: u64 = 107;
/// The least width of a picture. Its heading and its legend need as much.
const LEAST_WIDTH: u64 = 760;
/// The room at the right of the lanes, and again at the right of the picture.
const MARGIN: u64 = 16;

/// The size of a picture.
#[derive(Clone, Copy)]
pub(crate) struct Layout {
    /// The number of seats.
    pub(crate) seats: u8,
    /// The number of columns: one for each event.
    pub(crate) columns: usize,
    /// The number of lanes: one for each seat, and one more if the last event's seat doesn't exist.
    pub(crate) lanes: u8,
}

impl Layout {
    pub(crate) fn of(header: &Header, scene: &Scene) -> Layout {
        let seats = header.seats();
        let lanes = match scene.events.last().copied() {
            Some(event) if event.seat() >= seats => seats.saturating_add(1),
            _ => seats,
        };
        Layout {
            seats,
            columns: scene.events.len(),
            lanes,
        }
    }

    /// Returns where the lanes end, a little after the last column.
    pub(crate) fn end(self) -> u64
        ensures { result ≤ 2 ^ 41 }
    {
        left_of(self.columns) + MARGIN
    }

    pub(crate) fn width(self) -> u64 {
        (self.end() + MARGIN).max(LEAST_WIDTH)
    }

    pub(crate) fn height(self) -> u64 {
        self.base() + 70
    }

    /// Returns the line below the last lane.
    pub(crate) fn base(self) -> u64
        ensures { result ≤ 2 ^ 20 }
    {
        lane_at(self.lanes)
    }
}

/// Returns the left edge of a column, numbered from 0.
pub(crate) fn left_of(column: usize) -> u64
    ensures { result ≤ 2 ^ 40 }
{
    LEFT + COLUMN * column.min(MOST_COLUMNS) as u64
}

/// Returns the middle of a column, numbered from 0.
pub(crate) fn column_at(column: usize) -> u64
    ensures { result ≤ 2 ^ 41 }
{
    left_of(column) + COLUMN / 2
}

/// Returns the middle of a lane, numbered from 0.
pub(crate) fn lane_at(lane: u8) -> u64
    ensures { result ≤ 2 ^ 20 }
{
    FIRST_LANE + LANE * u64::from(lane)
}
