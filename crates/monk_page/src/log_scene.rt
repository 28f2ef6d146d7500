//! The scene of a run that tells a log.

ghost use Rattle.std.specs.Prelude.{◌≡◌, ◌≤◌, ◌++◌, IfOk, OnOk, length, map};
ghost use Rattle.monk_draw.specs.Scene.{row_of, scene_of};
ghost use Rattle.monk_judge.specs.{Run.IsRun, Run.opening, Run.setting, Shown.setting_of, Shown.state_of};
ghost use Rattle.monk_page.specs.LogScene as scene;

use crate::log_data::lead;
use monk_draw::{Scene, Span};
use monk_history::{Event, From3, Next, Via};
use monk_judge::{Judge, Place, Step};
use monk_logs::{LogHeader, LogLine};
use monk_object::Listed;
use monk_tell::SeatPlace;
use std::alloc::{AllocError, Global};

/// Returns a line of a log as an event of a history, to draw it. A line that lets the lock go is
/// drawn as if the entry queue went on, and a signal as if its caller stayed.
fn line_event(line: LogLine) -> Event
    ensures { result ≡ scene.line_event line }
{
    match line {
        LogLine::Enter(seat) | LogLine::Lapse(seat) => Event::Enter(seat, Via::Free),
        LogLine::Resume(seat) => Event::Resume(seat, From3::Waiter),
        LogLine::Leave(seat) => Event::Leave(seat, Next::Entry),
        LogLine::Wait(seat, cond) => Event::Wait(seat, cond, Next::Entry),
        LogLine::Signal(seat, cond) => Event::Signal(seat, cond, Next::Stay),
        LogLine::Broadcast(seat, cond) => Event::SignalAll(seat, cond),
        LogLine::Until(seat, pred) => Event::Until(seat, pred, Next::Entry),
        LogLine::Act(seat, op, reply) => Event::Act(seat, op, reply),
    }
}

/// Returns the events by which these lines are drawn.
fn line_events(alloc: Global, lines: &[LogLine]) -> Result<Vec<Event>, AllocError>
    ensures { IfOk result (λ events. events.items ≡ map scene.line_event lines.now) }
{
    lines.iter().map(|line| line_event(*line)).collect(alloc)
}

fn seat_place(place: Place) -> SeatPlace
    ensures { result ≡ scene.seat_place place }
{
    match place {
        Place::Outside => SeatPlace::Outside,
        Place::Active => SeatPlace::Active,
        Place::Waiting(cond) | Place::RanOut(cond) => SeatPlace::Condition(cond as usize),
        Place::Woken(_) => SeatPlace::Waiter,
    }
}

fn row<T: Listed>(alloc: Global, judge: &Judge<T>) -> Result<Vec<SeatPlace>, AllocError>
    ensures { IfOk result (λ v. v.items ≡ scene.row (length judge.now.places) (state_of judge.now)) }
{
    judge
        .places()
        .iter()
        .map(|place| seat_place(*place))
        .collect(alloc)
}

/// Adds where the threads are after the step, if it tells a line.
fn put_row<T: Listed>(
    alloc: Global,
    rows: &mut Vec<Vec<SeatPlace>>,
    judge: &Judge<T>,
    step: Step,
) -> Result<(), AllocError>
    ensures { OnOk result (map row_of rows.new.items ≡ map row_of rows.old.items
        ++ scene.rows_behind (length judge.now.places) (step, state_of judge.now)) }
{
    match step {
        Step::Tells(..) => rows.push(row(alloc, judge)?)?,
        Step::RunsOut(_) | Step::WakesUnasked(_) => {}
    }
    Ok(())
}

/// Returns where the threads are before the steps, and after each of their lines.
fn rows<T: Listed>(
    alloc: Global,
    judge: &mut Judge<T>,
    steps: &[Step],
) -> Result<Vec<Vec<SeatPlace>>, AllocError>
    requires { IsRun (setting_of judge.old T.meaning) (state_of judge.old) steps.now }
    ensures { IfOk result (λ v. map row_of v.items
        ≡ scene.rows (setting_of judge.old T.meaning) (state_of judge.old) steps.now) }
{
    let mut rows = Vec::with_capacity(alloc, steps.len())?;
    rows.push(row(alloc, judge)?)?;
    for step in steps {
        judge.follow(*step);
        put_row(alloc, &mut rows, judge, *step)?;
    }
    Ok(rows)
}

/// Returns the scene of a run. `lines` are those that are drawn, up to the one that misfits.
///
/// `object` is the object that the lock guards, in its opening state. `span` says which lines are shown.
///
/// # Errors
///
/// A request for memory was refused.
///
/// # Cost
///
/// One pass over the steps of the run, and for each line that is shown one over the threads.
pub fn run_scene<T: Listed>(
    alloc: Global,
    header: &LogHeader,
    object: T,
    steps: &[Step],
    lines: &[LogLine],
    span: Span,
) -> Result<Scene, AllocError>
    requires run { IsRun (setting header.now.seats header.now.conds T.meaning) (opening (T.state object)) steps.now }
    requires order { span.before ≤ span.last }
    requires last { span.last ≤ length lines.now }
    ensures { IfOk result (λ s. scene_of s ≡ scene.run_scene (setting header.now.seats header.now.conds T.meaning)
        (opening (T.state object)) steps.now lines.now span.before span.last) }
{
    let mut judge = Judge::opening(alloc, header.seats(), header.conds(), object)?;
    let shown = lead(&mut judge, steps, span);
    let rows = rows(alloc, &mut judge, shown)?;
    let events = line_events(alloc, &lines[span.before..span.last])?;
    Scene::new(alloc, span.before, rows, &events)
}
