//! What a picture shows.

ghost use Rattle.std.specs.Prelude.{◌≡◌, ◌<◌, ◌≤◌, ◌^◌, IfOk, IsErrOf, length, map, slice_get};
ghost use Rattle.monk_object.specs.Names.{most};
ghost use Rattle.monk_tell.specs.{Steps.step_of, Told.forbidden_step, Told.standing_of};
ghost use Rattle.monk_draw.specs.Scene.{arrows_below, goes_on, handed, history_scene, places_below, row_of, scene_of};
ghost use Rattle.monk_draw.specs.Scene.{window_scene};

use crate::span::{Span, showable};
use crate::window::Window;
use monk_audit::{AuditFault, Verdict};
use monk_history::{Event, Header, Next, Via};
use monk_tell::{SeatPlace, Standing, Step, forbidden_step, tell_steps};
use std::alloc::{AllocError, Global};

/// What a picture shows: some events, who goes on after each of them, and where each seat is between them.
#[derive(Debug, Drop)]
pub struct Scene {
    /// The number of events before those that are shown.
    pub before: usize,
    /// Where each seat is, by its number: before the first event that is shown, and after each one
    /// that is allowed. If the last event is forbidden, there is no place after it.
    pub places: Vec<Vec<SeatPlace>>,
    /// The events that are shown.
    pub events: Vec<Event>,
    /// For each event, the seat that goes on by it.
    pub arrows: Vec<Option<u8>>,
}

impl Scene {
    /// Returns the scene of these events, with where each seat is between them.
    ///
    /// # Errors
    ///
    /// `AllocError` if a request for memory was refused.
    pub fn new(
        alloc: Global,
        before: usize,
        places: Vec<Vec<SeatPlace>>,
        shown: &[Event],
    ) -> Result<Scene, AllocError>
        ensures { IfOk result (λ s. scene_of s ≡ record {
          before = before;
          places = map row_of places.items;
          events = shown.now;
          arrows = arrows_below shown.now (length shown.now);
        }) }
    {
        Ok(Scene {
            before,
            places,
            events: shown.to_vec(alloc)?,
            arrows: arrows(alloc, shown)?,
        })
    }

    /// Returns the scene of a history with that verdict. It shows events up to the forbidden one, or up to the end:
    /// those of the window, or without a window the last [`MOST_SHOWN`](crate::MOST_SHOWN). If the window begins
    /// after all of them ([`is_behind`](crate::is_behind)), no event is shown.
    ///
    /// # Errors
    ///
    /// [`AuditFault::Object`] only if the size is above the object's greatest.
    /// [`AuditFault::Memory`] if a request for memory was refused.
    ///
    /// # Cost
    ///
    /// The cost of [`tell_steps`] and of [`history_scene`].
    pub fn of_history(
        alloc: Global,
        header: &Header,
        events: &[Event],
        window: Option<Window>,
        verdict: Verdict,
    ) -> Result<Scene, AuditFault>
        requires { length events.now ≤ 2 ^ 25 }
        ensures scene { IfOk result
            (λ s. scene_of s ≡ window_scene header.now events.now window (forbidden_step verdict)) }
        ensures object { IsErrOf result AuditFault.Object → most header.now.object < header.now.size }
    {
        let span = Span::of(window, showable(forbidden_step(verdict), events.len()));
        let steps = tell_steps(alloc, header, events, span.before, span.last)?;
        let shown = &events[span.before..span.last];
        Ok(history_scene(alloc, header.seats(), &steps, span.before, shown)?)
    }

    /// Returns how many of the events are allowed: all, or all but the last.
    pub(crate) fn allowed(&self) -> usize {
        self.places.len().saturating_sub(1)
    }

    /// Whether the event with that index is forbidden.
    pub(crate) fn is_forbidden(&self, index: usize) -> bool {
        self.allowed() <= index && index < self.events.len()
    }

    /// Whether the event with that index is an act that is allowed and that the object refused.
    pub(crate) fn is_refused(&self, index: usize) -> bool {
        let event = self.events.get(index);
        event.is_some_and(|event| event.is_refused()) && !self.is_forbidden(index)
    }

    /// Returns the number of the step with that index.
    pub(crate) fn step(&self, index: usize) -> usize {
        self.before.saturating_add(index).saturating_add(1)
    }

    /// Returns where the seat is after the first `many` events that are allowed, or after all of them.
    pub(crate) fn place(&self, many: usize, seat: u8) -> SeatPlace {
        let row = self.places.get(many.min(self.allowed()));
        let place = row.and_then(|row| row.get(usize::from(seat)).copied());
        place.unwrap_or(SeatPlace::Outside)
    }

    /// Returns the seat that goes on by the event with that index.
    pub(crate) fn arrow(&self, index: usize) -> Option<u8> {
        self.arrows.get(index).copied().flatten()
    }
}

/// Returns the lane of a seat: its number, or the lane after all seats if there is no such seat.
pub(crate) fn lane_of(seat: u8, seats: u8) -> u8 {
    seat.min(seats)
}

/// Returns who comes in by the event because it was handed the monitor.
pub(crate) fn handed(event: Option<Event>) -> Option<u8>
    ensures { result ≡ handed event }
{
    match event {
        Some(Event::Enter(seat, Via::Handed)) => Some(seat),
        _ => None,
    }
}

/// Returns the seat that goes on after the event: the one that it chose, or the one that comes in
/// by the next event because it was handed the monitor.
fn goes_on(event: Option<Event>, after: Option<Event>) -> Option<u8>
    ensures { result ≡ goes_on event after }
{
    match event?.choice()? {
        Next::Waiter(seat) | Next::Signaller(seat) | Next::Until(seat) => Some(seat),
        Next::Entry => handed(after),
        Next::Stay => None,
    }
}

fn event_at(events: &[Event], index: usize) -> Option<Event>
    ensures { result ≡ slice_get events.now index }
{
    events.get(index).copied()
}

/// Returns who goes on after each of the events.
fn arrows(alloc: Global, events: &[Event]) -> Result<Vec<Option<u8>>, AllocError>
    ensures { IfOk result (λ v. v.items ≡ arrows_below events.now (length events.now)) }
{
    (0..events.len())
        .map(|column| goes_on(event_at(events, column), event_at(events, column + 1)))
        .collect(alloc)
}

/// Returns where each seat below that number is.
fn places(alloc: Global, standing: &Standing, seats: u8) -> Result<Vec<SeatPlace>, AllocError>
    ensures { IfOk result (λ v. v.items ≡ places_below (standing_of standing.now) seats) }
{
    (0..seats)
        .map(|seat| SeatPlace::in_standing(standing, seat))
        .collect(alloc)
}

/// Returns where each seat is after each of the steps.
fn places_after(alloc: Global, seats: u8, steps: &[Step]) -> Result<Vec<Vec<SeatPlace>>, AllocError>
    ensures { IfOk result
        (λ v. map row_of v.items ≡ map (λ s. places_below (standing_of s.standing) seats) steps.now) }
{
    let mut rows = Vec::with_capacity(alloc, steps.len())?;
    for step in steps {
        rows.push(places(alloc, &step.standing, seats)?)?;
    }
    Ok(rows)
}

/// Returns the scene of a history, from its steps after the first `before` events
/// ([`monk_tell::tell_steps`]). `shown` are the events that are shown.
///
/// # Errors
///
/// `AllocError` if a request for memory was refused.
///
/// # Cost
///
/// For each step, one pass over the queues for each seat. Memory: two bytes for each step and seat.
#[tactic(auto, using(crate::proofs::SceneLaws::rows_told))]
pub fn history_scene(
    alloc: Global,
    seats: u8,
    steps: &[Step],
    before: usize,
    shown: &[Event],
) -> Result<Scene, AllocError>
    ensures { IfOk result
        (λ s. scene_of s ≡ history_scene seats (map step_of steps.now) before shown.now) }
{
    let places = places_after(alloc, seats, steps)?;
    Scene::new(alloc, before, places, shown)
}
