//! Judges events when their lines are read, each after those before it.

ghost use Rattle.std.specs.Prelude.{◌≡◌, ◌≢◌, ◌≤◌, ◌^◌, List, ℕ, Err, true, IfOk, IfErr, OnOk};
ghost use Rattle.monk_kinds.specs.Names.{rules_named};
ghost use Rattle.monk_object.specs.Object.{Object};
ghost use Rattle.monk_history.specs.Meaning.{Monitor.monitor, Step.opening_situation};
ghost use Rattle.monk_history.specs.Text.{Faults.memory, Lines.is_unended};
ghost use Rattle.monk_audit.specs.{Reading.read_through, Replay.replay_situation};
ghost use Rattle.monk_audit.specs.Pieces.{events_from, found_from, verdict_from_here, IsCarried, IsCourseStep};
ghost use Rattle.monk_audit.specs.Pieces.{IsFaulty, IsSoundCourse};

use crate::kinds::rules_by_name;
use crate::replay::Replay;
use crate::verdict::Verdict;
use monk_history::lines::PieceLines;
use monk_history::{Event, Header, MOST_EVENTS, ReadFault};
use monk_kinds::Rules;
use monk_object::Guarded;
use std::alloc::{AllocError, Global};

/// The state of an audit, apart from the object. The lines so far were read, and their events are legal.
#[derive(Drop)]
pub(crate) struct Course {
    pub header: Header,
    pub rules: Rules,
    pub replay: Replay,
    pub count: u32,
}

impl Course {
    /// Returns the course after the header, before any event.
    pub fn new(alloc: Global, header: Header) -> Result<Course, AllocError>
        ensures header { IfOk result (λ c. c.header ≡ header) }
        ensures rules { IfOk result (λ c. c.rules ≡ rules_named header.kind) }
        ensures count { IfOk result (λ c. c.count ≡ 0) }
        ensures opening { IfOk result
            (λ c. (o : Object) (state : List ℕ)
            → replay_situation c.replay state ≡ opening_situation
            (monitor (rules_named header.kind) header.seats header.conds o state)) }
        ensures sound { IfOk result (λ c. (predicates : ℕ) → IsSoundCourse predicates c) }
    {
        let replay = Replay::new(alloc, header.seats(), header.conds())?;
        Ok(Course {
            header,
            rules: rules_by_name(header.kind()),
            replay,
            count: 0,
        })
    }
}

/// Judges the events whose lines end in the bytes, up to the first that is not allowed. Returns the
/// verdict on that event, if there is one, and what follows the last line that was read.
pub(crate) fn judge_lines<'a, T: Guarded>(
    course: &mut Course,
    object: &mut T,
    bytes: &'a [u8],
) -> Result<(Option<Verdict>, &'a [u8]), ReadFault>
    requires { IsSoundCourse T.PREDICATES course.old }
    ensures step { IfOk result
        (λ r. IsCourseStep r.0 bytes.entry.now r.1.now
        (verdict_from_here T.meaning course.old (T.state object.old))
        (verdict_from_here T.meaning course.new (T.state object.new))
        (λ v. found_from v course.new.header course.new.count)) }
    ensures sound { OnOk result (IsSoundCourse T.PREDICATES course.new) }
    ensures fault { IfErr result
        (λ f. f ≢ memory → IsFaulty (verdict_from_here T.meaning course.old (T.state object.old)) bytes.entry.now f) }
{
    let rules = course.rules;
    let header = course.header;
    let conds = header.conds();
    let mut count = course.count;
    let mut lines = PieceLines::of(bytes, count + 2, MOST_EVENTS - count);
    loop {
        // One match, with no `?` before it: so the event stays where the reader has put it.
        let event = match lines.next_for::<Header, Event, T>(&header) {
            Ok(Some(event)) => event,
            Ok(None) => {
                course.count = count;
                return Ok((None, lines.rest()));
            }
            Err(fault) => return Err(fault),
        };
        count += 1;
        let found = course
            .replay
            .judge::<T, Course>(rules, object, conds, event)?;
        if let Some(reason) = found {
            course.count = count;
            let verdict = Verdict::Forbidden {
                step: count,
                reason: reason.number(),
            };
            return Ok((Some(verdict), lines.rest()));
        }
    }
}

/// Reads the events whose lines end in the bytes, and keeps none. Returns what follows the last of them.
pub(crate) fn read_lines<'a>(
    header: &Header,
    count: &mut u32,
    bytes: &'a [u8],
) -> Result<&'a [u8], ReadFault>
    requires { count.old ≤ 2 ^ 25 }
    ensures step { IfOk result
        (λ rest. IsCarried (λ x. read_through (events_from header.now count.old x)) bytes.entry.now
        (λ x. read_through (events_from header.now count.new x)) rest.now) }
    ensures ended { IfOk result (λ rest. is_unended rest.now ≡ true) }
    ensures few { OnOk result (count.new ≤ 2 ^ 25) }
    ensures fault { IfErr result (λ f. IsFaulty
        (λ x. read_through (events_from header.now count.old x)) bytes.entry.now f) }
{
    let mut lines = PieceLines::of(bytes, *count + 2, MOST_EVENTS - *count);
    loop {
        let event: Option<Event> = lines.next(header)?;
        if event.is_none() {
            *count = MOST_EVENTS - lines.room();
            return Ok(lines.rest());
        }
    }
}
