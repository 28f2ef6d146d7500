//! The signs of which the lines of a picture are made.

use monk_tell::SeatPlace;
use std::alloc::AllocError;

/// The signs of a picture, each one column wide.
#[derive(Clone, Copy)]
pub(crate) struct Signs {
    condition: &'static str,
    waiter: &'static str,
    signaller: &'static str,
    /// The part of an arrow along a lane, and the part across one.
    pub(crate) along: &'static str,
    pub(crate) through: &'static str,
    /// The corners at which an arrow that leads down leaves its first lane, and reaches its last.
    pub(crate) down: (&'static str, &'static str),
    /// The same corners for an arrow that leads up.
    pub(crate) up: (&'static str, &'static str),
}

static UNICODE: Signs = Signs {
    condition: "∙",
    waiter: "╌",
    signaller: "═",
    along: "─",
    through: "│",
    down: ("┐", "└"),
    up: ("┘", "┌"),
};

static ASCII: Signs = Signs {
    condition: ".",
    waiter: "~",
    signaller: "=",
    along: "-",
    through: "|",
    down: ("+", "+"),
    up: ("+", "+"),
};

impl Signs {
    pub(crate) fn of(is_ascii: bool) -> &'static Signs {
        if is_ascii { &ASCII } else { &UNICODE }
    }

    /// Returns what fills the line of a seat in that place.
    pub(crate) fn fill(&self, place: SeatPlace) -> &'static str {
        match place {
            SeatPlace::Outside | SeatPlace::Active => " ",
            SeatPlace::Condition(_) | SeatPlace::Until(_) => self.condition,
            SeatPlace::Waiter => self.waiter,
            SeatPlace::Signaller => self.signaller,
        }
    }
}

/// Writes the sign `times` times.
pub(crate) fn put_times(line: &mut String, sign: &str, times: usize) -> Result<(), AllocError> {
    for _ in 0..times {
        line.push_str(sign)?;
    }
    Ok(())
}

/// Writes a text of ASCII, and blanks up to that width.
pub(crate) fn put_padded(line: &mut String, text: &str, width: usize) -> Result<(), AllocError> {
    line.push_str(text)?;
    put_times(line, " ", width.saturating_sub(text.len()))
}
