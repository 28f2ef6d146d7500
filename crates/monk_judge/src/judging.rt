//! Judges a whole log.

ghost use Rattle.std.specs.Prelude.{◌≡◌, ◌<◌, ◌≤◌, IfOk, IfSome, length};
ghost use Rattle.monk_history.specs.Limits.{most_lines};
ghost use Rattle.monk_judge.specs.{Ends.AreEnds, Hints.AreWaiters, Holding.holder_by, Shown.setting_of, Shown.state_of};
ghost use Rattle.monk_judge.specs.{Reports.IsReport, Reports.IsTaken, Reports.fitting, Run.opening, Run.setting};

use crate::ahead::look_ahead;
use crate::holder::{Holder, last_taking};
use crate::judge::Judge;
use crate::misfit::Misfit;
use crate::missed::Missed;
use crate::overtaking::Hints;
use crate::passed::Passed;
use crate::report::Report;
use crate::tally::Tally;
use crate::wait_end::WaitEnd;
use crate::waiters::Waiters;
use crate::waits_for::WaitsFor;
use monk_logs::{LogLine, find_crossed};
use monk_object::Guarded;
use std::alloc::{AllocError, Global};

/// Judges the lines of a log of a program whose mutex guards the object, as `monk_logs::read_log`
/// reads them, at most 2^25. `seats` and `conds` are those of its header. `means` says what the waiters on a condition
/// wait for; a condition or a predicate that there isn't is never missed.
///
/// # Errors
///
/// A request for memory was refused. It takes 8 bytes for each line, a few for each seat, and 64 KiB.
///
/// # Cost
///
/// Each line is read three times: from the last to the first, to find how waits end, for who waits
/// on what, and from the first on. It looks over the seats, and a `leave` or `wait` does so for each
/// of `means`. At the end the lines are read once more, for signals that came too early.
pub fn judge_log<T: Guarded>(
    alloc: Global,
    seats: u8,
    conds: u8,
    object: T,
    lines: &[LogLine],
    means: &[WaitsFor],
) -> Result<Report, AllocError>
    requires { length lines.now ≤ most_lines }
    // The misfit is exact. The counts are those of a run of the lines before it, and no run of
    // these lines has fewer wake-ups that nobody sent.
    ensures { IfOk result
        (λ r. IsReport (setting seats conds T.meaning) (T.state object) lines.now means.now r) }
{
    let ends = look_ahead(alloc, lines)?;
    let waiters = Waiters::of(alloc, lines)?;
    let mut judge = Judge::opening(alloc, seats, conds, object)?;
    let (seen, misfit) = take_lines(&mut judge, lines, &ends, means, &waiters);
    let told = fitting(misfit, lines);
    Ok(Report {
        misfit,
        tally: Tally {
            overtaken: seen.hints.many,
            again: seen.hints.again,
            first_not_again: seen.hints.first_not_again,
            ..seen.tally
        },
        holder: holder(judge.lock(), last_taking(told)),
        asleep: judge.asleep(),
        woken: judge.woken(),
        missed: seen.missed.line,
        crossed: find_crossed(told, &judge.sleepers()),
    })
}

/// What was seen in the lines so far.
#[derive(Drop)]
struct Seen {
    tally: Tally,
    missed: Missed,
    passed: Passed,
    hints: Hints,
}

/// Takes the lines, up to the first that can't follow. `ends` says how a wait in each line would end.
fn take_lines<T: Guarded>(
    judge: &mut Judge<T>,
    lines: &[LogLine],
    ends: &[WaitEnd],
    means: &[WaitsFor],
    waiters: &Waiters,
) -> (Seen, Option<Misfit>)
    requires opening { state_of judge.old ≡ opening judge.old.data_now }
    requires seats { length judge.old.ends ≡ length judge.old.places }
    requires ends { AreEnds ends.now lines.now }
    requires waiters { AreWaiters lines.now waiters.now.table.items }
    requires few { length lines.now ≤ most_lines }
    requires few_seats { length judge.old.places < 256 }
    ensures { IsTaken (setting_of judge.old T.meaning) judge.old.data_now lines.now means.now
        result.1 result.0.tally result.0.missed.line result.0.hints judge.new }
{
    let mut seen = Seen {
        tally: Tally::NOTHING,
        missed: Missed::NOTHING,
        passed: Passed::nobody(),
        hints: Hints::NONE,
    };
    for (index, line) in lines.iter().enumerate() {
        match judge.line(*line, ends[index]) {
            Ok(told) => seen.tally.line(index, told),
            Err(why) => return (seen, Some(Misfit { line: index, why })),
        }
        seen.missed.look_at(judge, means, index, *line);
        let on = seen.passed.look_at(judge.places(), waiters, *line);
        seen.hints = seen.hints.go_on(*line).come_back(*line, index, on);
    }
    (seen, None)
}

/// Returns the lines before the misfit.
fn fitting(misfit: Option<Misfit>, lines: &[LogLine]) -> &[LogLine]
    requires { IfSome misfit (λ f. f.line ≤ length lines.now) }
    ensures { result.now ≡ fitting misfit lines.now }
{
    match misfit {
        Some(found) => &lines[..found.line],
        None => lines,
    }
}

/// Returns who has the lock. `since` is the line in which a thread last took it.
fn holder(lock: Option<u8>, since: Option<usize>) -> Option<Holder>
    ensures { result ≡ holder_by lock since }
{
    match (lock, since) {
        (Some(seat), Some(since)) => Some(Holder { seat, since }),
        (_, _) => None,
    }
}
