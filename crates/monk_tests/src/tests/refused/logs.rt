use super::begins;
use monk_completion::{Completion, complete};
use monk_judge::{WaitsFor, judge_log, run_of_log};
use monk_kinds::KindName;
use monk_logs::{LogHeader, LogLine, read_log};
use monk_object::{Buffer, ObjectName};
use std::test::Fail;

/// Seventeen lines, so that the list of them grows several times.
const LONG: &[u8] =
    b"log 1 2 1 buffer 1\nenter 0\nleave 0\nenter 0\nleave 0\nenter 0\nleave 0\nenter 0\nleave 0\nenter 0\nleave 0\nenter 0\nleave 0\nenter 0\nleave 0\nenter 0\nleave 0\nenter 0\n";

pub(super) fn log(rt: &HostRuntime) -> Result<bool, Fail> {
    begins(rt, "log")?;
    let (header, lines) = read_log(rt.alloc(), LONG)?;
    let is_whole = lines.len() == 17 && lines.last() == Some(&LogLine::Enter(0));
    Ok(header.seats() == 2 && is_whole)
}

/// Two seats wait on two conditions, and a third signals both and goes out.
const LINES: [LogLine; 10] = [
    LogLine::Enter(0),
    LogLine::Wait(0, 0),
    LogLine::Enter(1),
    LogLine::Wait(1, 1),
    LogLine::Enter(2),
    LogLine::Signal(2, 0),
    LogLine::Signal(2, 1),
    LogLine::Leave(2),
    LogLine::Resume(0),
    LogLine::Leave(0),
];

/// The header of a log of three seats and two conditions over a buffer.
fn header() -> Result<LogHeader, Fail> {
    match LogHeader::new(3, 2, ObjectName::Buffer, 1) {
        Some(header) => Ok(header),
        None => Err(Fail::new("no header")),
    }
}

/// Both signalled seats are counted, and no item is there for those who wait on condition 1.
pub(super) fn are_judged(rt: &HostRuntime) -> Result<bool, Fail> {
    begins(rt, "judged")?;
    let means = [WaitsFor { cond: 1, pred: 1 }];
    let buffer = Buffer::make(rt.alloc(), 1)?;
    let report = judge_log(rt.alloc(), 3, 2, buffer, &LINES, &means)?;
    begins(rt, "run")?;
    let buffer = Buffer::make(rt.alloc(), 1)?;
    let run = run_of_log(rt.alloc(), 3, 2, buffer, &LINES)?;
    let is_run = run.misfit.is_none() && run.steps.len() == LINES.len();
    Ok(report.misfit.is_none() && report.tally.served == 2 && report.woken == 1 && is_run)
}

/// The lines are completed to as many events.
pub(super) fn are_completed(rt: &HostRuntime) -> Result<bool, Fail> {
    let header = header()?;
    begins(rt, "completed")?;
    let found = complete(rt.alloc(), &header, &LINES, KindName::Npnb)?;
    Ok(matches!(&found, Completion::History(events) if events.len() == 10))
}
