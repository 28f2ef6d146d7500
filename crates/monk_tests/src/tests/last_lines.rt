//! The last line of a log about a seat or a condition.

use monk_logs::LogLine::{Act, Broadcast, Enter, Lapse, Leave, Resume, Signal, Until, Wait};
use monk_logs::{LogLine, Subject, last_line};
use monk_object::Op;
use std::test::Fail;

static LINES: [LogLine; 9] = [
    Enter(0),
    Wait(0, 1),
    Enter(1),
    Act(1, Op { code: 0, arg: 7 }, 1),
    Signal(1, 1),
    Broadcast(1, 2),
    Leave(1),
    Resume(0),
    Until(254, 1),
];

/// A seat or a condition, and the number of its last line.
type Row = (&'static str, Subject, Option<usize>);

static ROWS: [Row; 8] = [
    ("a seat that goes on", Subject::Seat(0), Some(8)),
    ("a seat that left", Subject::Seat(1), Some(7)),
    ("a seat without a line", Subject::Seat(2), None),
    ("a seat in the last line", Subject::Seat(254), Some(9)),
    (
        "a condition that nobody signals",
        Subject::Condition(0),
        None,
    ),
    ("a signal to one", Subject::Condition(1), Some(5)),
    ("a signal to all", Subject::Condition(2), Some(6)),
    ("another condition", Subject::Condition(255), None),
];

#[test]
fn last_lines_are_found() -> Result<(), Fail> {
    for (name, subject, number) in ROWS.iter() {
        if last_line(&LINES, *subject) != *number {
            return Err(Fail::new(name));
        }
    }
    if last_line(&[], Subject::Seat(0)).is_some() {
        return Err(Fail::new("of no line"));
    }
    Ok(())
}

/// Each kind of line, by a seat of its own.
static OF_EACH_SEAT: [LogLine; 9] = [
    Enter(0),
    Resume(1),
    Lapse(2),
    Leave(3),
    Wait(4, 0),
    Signal(5, 0),
    Broadcast(6, 0),
    Until(7, 0),
    Act(8, Op { code: 0, arg: 0 }, 0),
];

#[test]
fn each_line_has_its_seat() -> Result<(), Fail> {
    for (seat, line) in OF_EACH_SEAT.iter().enumerate() {
        if usize::from(line.seat()) != seat {
            return Err(Fail::new("another seat"));
        }
    }
    Ok(())
}
