//! Logs read from their text, without a list of their lines.

use monk_logs::{LogLine, LogLines};
use monk_object::{ObjectName, Op};
use std::test::Fail;

/// Each kind of line as recorders write it, with numbers of one and two digits.
const SHORT: &[u8] =
    b"log 1 32 8 shop 1\nenter 0\nresume 10\nlapse 1\nleave 31\nwait 3 7\nsignal 4 0\nbroadcast 15 1\nuntil 6 2\nact 7 1 4294967295 9999999999\nenter 9\n";

const GREATEST: Op = Op {
    code: 1,
    arg: u32::MAX,
};

const SHORT_LINES: [LogLine; 10] = [
    LogLine::Enter(0),
    LogLine::Resume(10),
    LogLine::Lapse(1),
    LogLine::Leave(31),
    LogLine::Wait(3, 7),
    LogLine::Signal(4, 0),
    LogLine::Broadcast(15, 1),
    LogLine::Until(6, 2),
    LogLine::Act(7, GREATEST, 9_999_999_999),
    LogLine::Enter(9),
];

/// Whether these are all the lines, and then there is none, however often one asks.
fn are(lines: &mut LogLines<'_>, want: &[LogLine]) -> bool {
    for line in want {
        if lines.next() != Some(*line) {
            return false;
        }
    }
    lines.next().is_none() && lines.next().is_none()
}

#[test]
fn lines_of_a_text(rt: HostRuntime) -> Result<(), Fail> {
    let mut lines = LogLines::check(SHORT)?;
    let header = lines.header();
    let is_header = header.object() == ObjectName::Shop
        && (header.seats(), header.conds(), header.size()) == (32, 8, 1);
    assert!(rt; is_header && are(&mut lines, &SHORT_LINES));
    Ok(())
}

#[test]
fn lines_once_more(rt: HostRuntime) -> Result<(), Fail> {
    let mut lines = LogLines::check(SHORT)?;
    let first = lines.next();
    let mut again = lines.again();
    let second = Some(LogLine::Resume(10));
    let are_both = again.next() == second && lines.next() == second;
    assert!(rt; first == Some(LogLine::Enter(0)) && are_both);
    Ok(())
}
