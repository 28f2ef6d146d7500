//! The queues that the kind of a monitor has inside.

ghost use Rattle.std.specs.Prelude.{◌≡◌, ◌<◌, [], All, IfOk};
ghost use Rattle.std.specs.List.{position};
ghost use Rattle.monk_audit.specs.Replay.{has, replay_situation};
ghost use Rattle.monk_tell.specs.{Cause.conditions_below, Cause.waits_at, declared.lists.SeatList.SeatList};
ghost use Rattle.monk_tell.specs.Told.{condition_lists, queues_of, queues_shown};

use crate::lines::{inner_queues, queue_at, ready_seats};
use crate::lists::{SeatList, Waits};
use monk_audit::Replay;
use monk_kinds::Mode;
use monk_object::Guarded;
use std::alloc::{AllocError, Global};
use std::fmt;

/// Whether the seat is in the queue.
pub(crate) fn has(queue: &[u8], seat: u8) -> bool
    ensures { result ≡ has seat queue.now }
{
    queue.contains(&seat)
}

/// The queues of the conditions, each with its number.
#[derive(Debug, Drop)]
pub struct Conditions(pub Vec<SeatList>);

impl Conditions {
    /// Returns the queues of a monitor with `conds` conditions.
    #[tactic(auto, using(crate::proofs::LineLaws::conditions_more))]
    pub(crate) fn of(alloc: Global, replay: &Replay, conds: u8) -> Result<Conditions, AllocError>
        ensures { IfOk result (λ c. condition_lists c ≡ conditions_below (replay_situation replay.now []).condition
            conds) }
    {
        let mut queues = Vec::new(alloc);
        for cond in 0..conds {
            queues.push(SeatList(queue_at(alloc, replay, cond)?))?;
        }
        Ok(Conditions(queues))
    }

    /// Returns the condition on which the seat waits.
    pub(crate) fn of_seat(&self, seat: u8) -> Option<usize>
        ensures { result ≡ waits_at (condition_lists self.now) seat }
    {
        first_with(&self.0, seat)
    }
}

/// Returns the number of the first queue that has the seat.
fn first_with(queues: &[SeatList], seat: u8) -> Option<usize>
    ensures { result ≡ position (λ (q : SeatList). has seat q.0.items) queues.now }
{
    queues.iter().position(|queue| has(&queue.0, seat))
}

/// Prints a line for each condition: `condition 1: 0 2`.
impl fmt::Display for Conditions {
    fn fmt<W: fmt::Write>(&self, f: &mut fmt::Formatter<W>) -> fmt::Result {
        for (cond, seats) in self.0.iter().enumerate() {
            write!(f, "condition {cond}:{seats}\n")?;
        }
        Ok(())
    }
}

/// The queues inside a monitor that its kind has, front first.
#[derive(Debug, Drop)]
pub struct QueueLists {
    /// The seats that wait on each condition, unless the kind is automatic.
    pub conditions: Option<Conditions>,
    /// The waiter queue, unless the kind is automatic.
    pub waiters: Option<SeatList>,
    /// The signaller queue, if the kind has one.
    pub signallers: Option<SeatList>,
    /// The seats that wait until a predicate holds, if the kind is automatic.
    pub untils: Option<Waits>,
    /// The seats among them whose predicate holds.
    pub ready: Option<SeatList>,
}

impl QueueLists {
    /// Returns the queues of a monitor of that mode with `conds` conditions. Time and memory by their length.
    ///
    /// # Errors
    ///
    /// `AllocError` if a request for memory was refused.
    pub fn of<T: Guarded>(
        alloc: Global,
        mode: Mode,
        conds: u8,
        replay: &Replay,
        object: &T,
    ) -> Result<QueueLists, AllocError>
        requires { All (λ w. w.1 < T.PREDICATES) (replay_situation replay.now (T.state object.now)).untils }
        ensures { IfOk result
            (λ q. queues_of q ≡ queues_shown mode conds T.meaning (replay_situation replay.now (T.state object.now))) }
    {
        let (waiters, signallers, untils) = inner_queues(alloc, replay)?;
        if mode == Mode::Automatic {
            let ready = ready_seats(alloc, object, &untils)?;
            return Ok(QueueLists {
                conditions: None,
                waiters: None,
                signallers: None,
                untils: Some(Waits(untils)),
                ready: Some(SeatList(ready)),
            });
        }
        let conditions = Conditions::of(alloc, replay, conds)?;
        let signallers = match mode {
            Mode::ImmediateReturn => None,
            _ => Some(SeatList(signallers)),
        };
        Ok(QueueLists {
            conditions: Some(conditions),
            waiters: Some(SeatList(waiters)),
            signallers,
            untils: None,
            ready: None,
        })
    }
}

/// Prints a line for each queue.
impl fmt::Display for QueueLists {
    fn fmt<W: fmt::Write>(&self, f: &mut fmt::Formatter<W>) -> fmt::Result {
        if let Some(conditions) = &self.conditions {
            write!(f, "{conditions}")?;
        }
        if let Some(waiters) = &self.waiters {
            write!(f, "waiter:{waiters}\n")?;
        }
        if let Some(signallers) = &self.signallers {
            write!(f, "signaller:{signallers}\n")?;
        }
        if let (Some(untils), Some(ready)) = (&self.untils, &self.ready) {
            write!(f, "until:{untils}\nready:{ready}\n")?;
        }
        Ok(())
    }
}
