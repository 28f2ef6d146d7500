//! The run that a log tells.

ghost use Rattle.std.specs.Prelude.{◌≡◌, ◌≤◌, ◌++◌, ◌∷◌, [], None, IfOk, OnOk, length};
ghost use Rattle.monk_object.specs.Object.{Object};
ghost use Rattle.monk_history.specs.Limits.{most_lines};
ghost use Rattle.monk_logs.specs.declared.text.line.LogLine.TheVariants.{Wait};
ghost use Rattle.monk_judge.specs.{Judged.running_out, Reports.IsRunOf, Run.opening, Run.setting};
ghost use Rattle.monk_judge.specs.{declared.step.Step.TheVariants.Tells, Steps.resume_steps, Steps.woken_by};
ghost use Rattle.monk_judge.specs.Ends.{AreEnds, runs_out};
ghost use Rattle.monk_judge.specs.Shown.{Shown, Takes, own_steps, setting_of, state_of};

use crate::ahead::look_ahead;
use crate::judge::Judge;
use crate::misfit::Misfit;
use crate::run::Run;
use crate::step::Step;
use crate::told::Told;
use crate::wait_end::WaitEnd;
use monk_logs::LogLine;
use monk_object::Guarded;
use std::alloc::{AllocError, Global};

/// Returns a run, as [`judge_log`](crate::judge_log) counts over one. It tells the lines before the misfit, and no run
/// of them has fewer wake-ups that nobody sent. There may be at most 2^25 lines.
///
/// # Errors
///
/// A request for memory was refused. It takes memory for each step of the run, and 8 bytes for each line.
pub fn run_of_log<T: Guarded>(
    alloc: Global,
    seats: u8,
    conds: u8,
    object: T,
    lines: &[LogLine],
) -> Result<Run, AllocError>
    requires { length lines.now ≤ most_lines }
    // The misfit is exact. The steps are a run of the lines before it, and no run of these lines
    // has fewer wake-ups that nobody sent.
    ensures { IfOk result
        (λ r. IsRunOf (setting seats conds T.meaning) (T.state object) lines.now
        r.misfit r.steps.items) }
{
    let ends = look_ahead(alloc, lines)?;
    let mut judge = Judge::opening(alloc, seats, conds, object)?;
    let mut steps = Vec::new(alloc);
    let misfit = take_steps(&mut judge, lines, &ends, &mut steps)?;
    Ok(Run { steps, misfit })
}

/// Takes the lines, up to the first that can't follow, and writes down the steps.
fn take_steps<T: Guarded>(
    judge: &mut Judge<T>,
    lines: &[LogLine],
    ends: &[WaitEnd],
    steps: &mut Vec<Step>,
) -> Result<Option<Misfit>, AllocError>
    requires opening { state_of judge.old ≡ opening judge.old.data_now }
    requires seats { length judge.old.ends ≡ length judge.old.places }
    requires ends { AreEnds ends.now lines.now }
    requires nothing { steps.old.items ≡ [] }
    ensures { IfOk result
        (λ r. IsRunOf (setting_of judge.old T.meaning) judge.old.data_now lines.now
        r steps.new.items) }
{
    for (index, line) in lines.iter().enumerate() {
        match judge.line(*line, ends[index]) {
            Ok(told) => push_steps(steps, *line, ends[index], told)?,
            Err(why) => return Ok(Some(Misfit { line: index, why })),
        }
    }
    Ok(None)
}

/// Writes down the steps of a line that told `told`. `end` is how a wait of its seat there would end.
fn push_steps(
    steps: &mut Vec<Step>,
    line: LogLine,
    end: WaitEnd,
    told: Told,
) -> Result<(), AllocError>
    ensures { OnOk result ((o : Object) (v new : Shown) → Takes o v new line end told
        → steps.new.items ≡ steps.old.items ++ own_steps v line end told) }
{
    if let LogLine::Resume(seat) = line {
        return push_resume(steps, seat, told);
    }
    if let LogLine::Wait(seat, cond) = line {
        return push_wait(steps, seat, cond, end);
    }
    steps.push(Step::Tells(line, woken_by(line, told)))?;
    Ok(())
}

/// Returns the seat that the line woke, if it is a signal. `told` is what it told.
fn woken_by(line: LogLine, told: Told) -> Option<u8>
    ensures { result ≡ woken_by line told }
{
    match line {
        LogLine::Signal(..) => told.whom(),
        LogLine::Enter(_)
        | LogLine::Resume(_)
        | LogLine::Lapse(_)
        | LogLine::Leave(_)
        | LogLine::Wait(..)
        | LogLine::Broadcast(..)
        | LogLine::Until(..)
        | LogLine::Act(..) => None,
    }
}

/// Writes down the steps of a thread that comes back.
fn push_resume(steps: &mut Vec<Step>, seat: u8, told: Told) -> Result<(), AllocError>
    ensures { OnOk result (steps.new.items ≡ steps.old.items ++ resume_steps seat told) }
{
    if told == Told::Spurious {
        steps.push(Step::WakesUnasked(seat))?;
    }
    steps.push(Step::Tells(LogLine::Resume(seat), None))?;
    Ok(())
}

/// Writes down the steps of a wait. `end` is how it ends.
fn push_wait(steps: &mut Vec<Step>, seat: u8, cond: u8, end: WaitEnd) -> Result<(), AllocError>
    ensures { OnOk result (steps.new.items ≡ steps.old.items
        ++ Tells (Wait seat cond) None ∷ running_out seat (runs_out end)) }
{
    steps.push(Step::Tells(LogLine::Wait(seat, cond), None))?;
    if end == WaitEnd::RunsOut {
        steps.push(Step::RunsOut(seat))?;
    }
    Ok(())
}
