//! A log, judged over the object that its header names.

ghost use Rattle.std.specs.Prelude.{IfOk};
ghost use Rattle.monk_commands.specs.{LogFound.IsReportOf, RunText.IsRunOfLog};

use crate::logs::fitting_log::FittingLog;
use crate::objects::{book, buffer, flags, shop};
use monk_judge::{Report, Run, WaitsFor, judge_log, run_of_log};
use monk_object::ObjectName;
use std::alloc::{AllocError, Global};

/// Returns what the log shows of its program.
pub(crate) fn report(
    alloc: Global,
    means: &[WaitsFor],
    log: FittingLog<'_>,
) -> Result<Report, AllocError>
    ensures { IfOk result (λ r. IsReportOf means.now log.entry.header.now log.entry.lines.now r) }
{
    let FittingLog { header, lines } = log;
    let (seats, conds, size) = (header.seats(), header.conds(), header.size());
    match header.object() {
        ObjectName::Buffer => judge_log(alloc, seats, conds, buffer(alloc, size)?, lines, means),
        ObjectName::Book => judge_log(alloc, seats, conds, book(size), lines, means),
        ObjectName::Shop => judge_log(alloc, seats, conds, shop(size), lines, means),
        ObjectName::Flags => judge_log(alloc, seats, conds, flags(size), lines, means),
    }
}

/// Returns a run that tells the log, up to the line that misfits.
pub(crate) fn run(alloc: Global, log: FittingLog<'_>) -> Result<Run, AllocError>
    ensures { IfOk result (λ run. IsRunOfLog log.entry.header.now log.entry.lines.now run) }
{
    let FittingLog { header, lines } = log;
    let (seats, conds, size) = (header.seats(), header.conds(), header.size());
    match header.object() {
        ObjectName::Buffer => run_of_log(alloc, seats, conds, buffer(alloc, size)?, lines),
        ObjectName::Book => run_of_log(alloc, seats, conds, book(size), lines),
        ObjectName::Shop => run_of_log(alloc, seats, conds, shop(size), lines),
        ObjectName::Flags => run_of_log(alloc, seats, conds, flags(size), lines),
    }
}
