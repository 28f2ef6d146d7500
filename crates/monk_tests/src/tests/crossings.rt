//! Seats that a signal crossed on their way to sleep.

use monk_logs::LogLine::{Broadcast, Enter, Lapse, Leave, Resume, Signal, Wait};
use monk_logs::{Crossed, LINE_SEATS, LogLine, find_crossed};
use std::test::Fail;

/// Each seat sleeps.
const ALL: [bool; LINE_SEATS] = [true; LINE_SEATS];

/// A log, and the seats in it that were crossed.
struct Row {
    name: &'static str,
    lines: &'static [LogLine],
    crossed: Option<Crossed>,
}

static ROWS: [Row; 9] = [
    Row {
        name: "between a test and its wait",
        lines: &[Enter(0), Signal(1, 0), Wait(0, 0)],
        crossed: Some(Crossed { seats: 1, line: 2 }),
    },
    Row {
        name: "before the visit",
        lines: &[Signal(1, 0), Enter(0), Wait(0, 0)],
        crossed: None,
    },
    Row {
        name: "on another condition",
        lines: &[Enter(0), Signal(1, 1), Wait(0, 0)],
        crossed: None,
    },
    Row {
        name: "by the seat itself",
        lines: &[Enter(0), Signal(0, 0), Wait(0, 0)],
        crossed: None,
    },
    Row {
        name: "before a wake-up",
        lines: &[
            Enter(0),
            Signal(1, 0),
            Wait(0, 0),
            Signal(1, 0),
            Resume(0),
            Wait(0, 0),
        ],
        crossed: None,
    },
    Row {
        name: "behind a wake-up",
        lines: &[
            Enter(0),
            Wait(0, 0),
            Signal(1, 0),
            Resume(0),
            Broadcast(1, 0),
            Wait(0, 0),
        ],
        crossed: Some(Crossed { seats: 1, line: 5 }),
    },
    Row {
        name: "a seat that came back",
        lines: &[Enter(0), Signal(1, 0), Wait(0, 0), Lapse(0), Leave(0)],
        crossed: None,
    },
    Row {
        name: "two seats",
        lines: &[
            Enter(0),
            Signal(2, 0),
            Broadcast(2, 0),
            Wait(0, 0),
            Enter(1),
            Signal(2, 1),
            Wait(1, 1),
        ],
        crossed: Some(Crossed { seats: 2, line: 6 }),
    },
    Row {
        name: "no line",
        lines: &[],
        crossed: None,
    },
];

#[test]
fn seats_that_a_signal_crossed_are_found() -> Result<(), Fail> {
    for row in ROWS.iter() {
        if find_crossed(row.lines, &ALL) != row.crossed {
            return Err(Fail::new(row.name));
        }
    }
    Ok(())
}
