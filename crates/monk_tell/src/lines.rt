//! The queues that a release chooses from.

ghost use Rattle.std.specs.Prelude.{◌≡◌, ◌<◌, [], true, All, IfOk};
ghost use Rattle.monk_history.specs.Meaning.Choice as choice;
ghost use Rattle.monk_history.specs.Meaning.{Reasons.fits_object, Untils.ready_of, Waiters.serves};
ghost use Rattle.monk_history.specs.Meaning.Signallers.{is_empty, signals};
ghost use Rattle.monk_audit.specs.Replay.{replay_situation};
ghost use Rattle.monk_tell.specs.{Cause.firsts_of, Told.lines_of};

use monk_audit::Replay;
use monk_history::Event;
use monk_object::Guarded;
use std::alloc::{AllocError, Global};

/// The first seat of each queue that a release chooses from.
#[derive(Clone, Copy)]
pub(crate) struct Firsts {
    /// The first waiter.
    pub(crate) waiter: Option<u8>,
    /// The first signaller.
    pub(crate) signaller: Option<u8>,
    /// The first seat whose predicate holds.
    pub(crate) ready: Option<u8>,
}

/// The queues that a release chooses from, after its own moves.
#[derive(Drop)]
pub(crate) struct Lines {
    pub(crate) waiters: Vec<u8>,
    pub(crate) signallers: Vec<u8>,
    pub(crate) ready: Vec<u8>,
}

impl Lines {
    /// Returns the first seat of each.
    pub(crate) fn firsts(&self) -> Firsts
        ensures { result ≡ firsts_of (lines_of self.now) }
    {
        Firsts {
            waiter: self.waiters.first().copied(),
            signaller: self.signallers.first().copied(),
            ready: self.ready.first().copied(),
        }
    }
}

/// Returns the seats whose predicate holds, in order of the waits.
pub(crate) fn ready_seats<T: Guarded>(
    alloc: Global,
    object: &T,
    untils: &[(u8, u8)],
) -> Result<Vec<u8>, AllocError>
    requires { All (λ w. w.1 < T.PREDICATES) untils.now }
    ensures { IfOk result (λ v. v.items ≡ ready_of T.meaning (T.state object.now) untils.now) }
{
    let mut ready = Vec::new(alloc);
    for wait in untils {
        if object.holds(wait.1) {
            ready.push(wait.0)?;
        }
    }
    Ok(ready)
}

/// Returns the waiter queue, the signaller queue, and the seats that wait until a predicate holds, each with it.
pub(crate) fn inner_queues(
    alloc: Global,
    replay: &Replay,
) -> Result<(Vec<u8>, Vec<u8>, Vec<(u8, u8)>), AllocError>
    ensures waiters { IfOk result (λ q. q.0.items ≡ (replay_situation replay.now []).waiters) }
    ensures signallers { IfOk result (λ q. q.1.items ≡ (replay_situation replay.now []).signallers) }
    ensures untils { IfOk result (λ q. q.2.items ≡ (replay_situation replay.now []).untils) }
{
    let (waiters, signallers) = (replay.waiters(alloc)?, replay.signallers(alloc)?);
    Ok((waiters, signallers, replay.untils(alloc)?))
}

/// Returns the seats that wait on the condition.
pub(crate) fn queue_at(alloc: Global, replay: &Replay, cond: u8) -> Result<Vec<u8>, AllocError>
    ensures { IfOk result (λ v. v.items ≡ (replay_situation replay.now []).condition cond) }
{
    replay.condition(alloc, cond)
}

/// Whether nobody waits on the condition.
#[tactic(auto, using(crate::proofs::LineLaws::empty_if_none_first))]
fn is_empty_at(replay: &Replay, cond: u8) -> bool
    ensures { result ≡ is_empty ((replay_situation replay.now []).condition cond) }
{
    replay.first_at(cond).is_none()
}

/// Returns the seats that the event serves.
fn served(alloc: Global, replay: &Replay, event: Event) -> Result<Vec<u8>, AllocError>
    ensures { IfOk result (λ v. v.items ≡ serves (replay_situation replay.now []).condition event) }
{
    match event {
        Event::Signal(_, cond, _)
        | Event::SignalLeave(_, cond, _)
        | Event::SignalWait(_, cond, ..) => {
            let mut queue = queue_at(alloc, replay, cond)?;
            queue.truncate(1);
            Ok(queue)
        }
        Event::SignalAll(_, cond) => queue_at(alloc, replay, cond),
        _ => Ok(Vec::new(alloc)),
    }
}

/// Returns the seat that steps back by the event, unless nobody waits on its condition.
fn stepping_back(alloc: Global, replay: &Replay, event: Event) -> Result<Vec<u8>, AllocError>
    ensures { IfOk result (λ v. v.items ≡ signals (replay_situation replay.now []).condition event) }
{
    match event {
        Event::Signal(seat, cond, _) if !is_empty_at(replay, cond) => Ok(vec![in alloc; seat]?),
        _ => Ok(Vec::new(alloc)),
    }
}

/// Whether the event must stay.
pub(crate) fn must_stay<T: Guarded>(replay: &Replay, object: &T, event: Event) -> bool
    requires { fits_object T.CODES T.PREDICATES event ≡ true }
    ensures { result ≡ choice.must_stay T.meaning (replay_situation replay.now (T.state object.now)) event }
{
    match event {
        Event::Signal(_, cond, _) => is_empty_at(replay, cond),
        Event::Until(_, pred, _) => object.holds(pred),
        _ => false,
    }
}

/// Returns the queues that the event chooses from.
pub(crate) fn line_up<T: Guarded>(
    alloc: Global,
    replay: &Replay,
    object: &T,
    event: Event,
) -> Result<Lines, AllocError>
    requires { All (λ w. w.1 < T.PREDICATES) (replay_situation replay.now (T.state object.now)).untils }
    ensures { IfOk result
        (λ l. lines_of l ≡ choice.queues_at T.meaning (replay_situation replay.now (T.state object.now)) event) }
{
    let (mut waiters, mut signallers, untils) = inner_queues(alloc, replay)?;
    waiters.extend_from_slice(&served(alloc, replay, event)?)?;
    signallers.extend_from_slice(&stepping_back(alloc, replay, event)?)?;
    let ready = ready_seats(alloc, object, &untils)?;
    Ok(Lines {
        waiters,
        signallers,
        ready,
    })
}
