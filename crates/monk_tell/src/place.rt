//! Where a seat is.

ghost use Rattle.std.specs.Prelude.{◌≡◌, ◌==◌, Some, option_map};
ghost use Rattle.std.specs.List.{find};
ghost use Rattle.monk_tell.specs.Place.{condition_of, in_queues, is_in, place_in, place_text, until_of};
ghost use Rattle.monk_tell.specs.declared.lists.{SeatList.SeatList, Waits.Waits};
ghost use Rattle.monk_tell.specs.Told.{condition_lists, queues_of, standing_of};

use crate::lists::{SeatList, Waits};
use crate::queues::{Conditions, QueueLists, has};
use crate::standing::Standing;
use monk_history::{From3, Turn};
use std::fmt;

/// Where a seat is. Printed as the queue in which it waits, with a space before it: ` condition 1`.
/// If it waits in none, nothing is printed.
#[derive(Clone, Copy, Debug, PartialEq, Eq)]
pub enum SeatPlace {
    /// Outside the monitor, or in none of its queues.
    Outside,
    /// Inside, and active.
    Active,
    /// Inside, waiting on the condition.
    Condition(usize),
    /// Inside, in the waiter queue, or chosen from it.
    Waiter,
    /// Inside, in the signaller queue, or chosen from it.
    Signaller,
    /// Inside, waiting until the predicate holds; `None` if the seat was chosen, because it holds.
    Until(Option<u8>),
}

impl SeatPlace {
    /// Returns where the seat is in that state of the monitor.
    pub fn in_standing(standing: &Standing, seat: u8) -> SeatPlace
        ensures { result ≡ place_in (standing_of standing.now) seat }
    {
        match standing.turn {
            Turn::Due(chosen, From3::Waiter) if chosen == seat => SeatPlace::Waiter,
            Turn::Due(chosen, From3::Signaller) if chosen == seat => SeatPlace::Signaller,
            Turn::Due(chosen, From3::Until) if chosen == seat => SeatPlace::Until(None),
            Turn::Owned(owner) if owner == seat => SeatPlace::Active,
            _ => SeatPlace::in_queues(&standing.queues, seat),
        }
    }

    /// Returns where the seat is in the queues.
    pub fn in_queues(queues: &QueueLists, seat: u8) -> SeatPlace
        ensures { result ≡ in_queues (queues_of queues.now) seat }
    {
        if let Some(cond) = condition_of(&queues.conditions, seat) {
            SeatPlace::Condition(cond)
        } else if is_in(&queues.waiters, seat) {
            SeatPlace::Waiter
        } else if is_in(&queues.signallers, seat) {
            SeatPlace::Signaller
        } else {
            match until_of(&queues.untils, seat) {
                Some(pred) => SeatPlace::Until(Some(pred)),
                None => SeatPlace::Outside,
            }
        }
    }
}

/// Returns the condition on which the seat waits.
fn condition_of(conditions: &Option<Conditions>, seat: u8) -> Option<usize>
    ensures { result ≡ condition_of (option_map condition_lists conditions.now) seat }
{
    match conditions {
        Some(conditions) => conditions.of_seat(seat),
        None => None,
    }
}

/// Whether the seat is in the queue, if the kind has that queue.
fn is_in(queue: &Option<SeatList>, seat: u8) -> bool
    ensures { result ≡ is_in (option_map (λ (s : SeatList). s.0.items) queue.now) seat }
{
    match queue {
        Some(queue) => has(&queue.0, seat),
        None => false,
    }
}

/// Returns the predicate until which the seat waits.
fn until_of(untils: &Option<Waits>, seat: u8) -> Option<u8>
    ensures { result ≡ until_of (option_map (λ (w : Waits). w.0.items) untils.now) seat }
{
    match untils {
        Some(untils) => first_wait(&untils.0, seat),
        None => None,
    }
}

fn first_wait(untils: &[(u8, u8)], seat: u8) -> Option<u8>
    ensures { result ≡ option_map (λ w. w.1) (find (λ w. w.0 == seat) untils.now) }
{
    untils.iter().find(|wait| wait.0 == seat).map(|wait| wait.1)
}

impl fmt::Display for SeatPlace {
    ghost output = { λ p. Some (place_text p) };

    fn fmt<W: fmt::Write>(&self, f: &mut fmt::Formatter<W>) -> fmt::Result {
        match *self {
            SeatPlace::Outside | SeatPlace::Active | SeatPlace::Until(None) => Ok(()),
            SeatPlace::Condition(cond) => write!(f, " condition {cond}"),
            SeatPlace::Waiter => write!(f, " waiter"),
            SeatPlace::Signaller => write!(f, " signaller"),
            SeatPlace::Until(Some(pred)) => write!(f, " until {pred}"),
        }
    }
}
