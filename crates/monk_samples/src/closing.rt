//! How a run ends: its passes meet, and the first seat comes in once more and closes the hall.
ghost use Rattle.std.specs.Prelude.{◌≡◌, ◌≢◌, ◌↔◌, ◌∷◌, ◌<◌, All, AllPairs, IfErr, IfOk, length, true};
ghost use Rattle.monk_hall.specs.{Complete.AreApart, Complete.HaveSeenPart, Floors.StartsWith};
ghost use Rattle.monk_samples.specs.declared.crew_fault.CrewFault.TheVariants as crew;
ghost use Rattle.monk_samples.specs.{Crews.IsOf, Crews.IsClosed, Totals.HasEnded};
ghost use Rattle.monk_samples.specs.Wholes.{AreSame, HoldsOperationsOf, IsFaultOfClosing, IsLeftBy, IsWhole};

use crate::crew_fault::CrewFault;
use crate::heading::header_of;
use crate::rota::Rota;
use crate::totals::has_ended;
use monk_hall::{Busy, Hall, Pass, close, complete, meet};
use monk_history::{Event, writable};
use monk_kinds::{Kind, Pick};
use monk_object::Guarded;
use std::alloc::Global;
use std::sync::Wait;

/// Returns the first of these passes, and the others in order. The first has met each of the others.
fn meet_all<K: Kind, T: Guarded>(
    alloc: Global,
    hall: &Hall<K, T>,
    passes: Vec<Pass<K, T>>,
) -> Result<(Pass<K, T>, Vec<Pass<K, T>>), CrewFault>
    requires of { All (IsOf hall.now) passes.items }
    requires some { 0 < length passes.items }
    ensures same { IfOk result (λ r. AreSame passes.items (r.0 ∷ r.1.items)) }
    ensures seen { IfOk result (λ r. All (λ p. StartsWith r.0.me.seen p.me.seen) r.1.items) }
    ensures had_seen { IfOk result (λ r. All (λ p. StartsWith r.0.me.seen p.me.seen) passes.items) }
    ensures fault { IfErr result (λ e. e ≡ crew.Memory) }
{
    let mut others = Vec::with_capacity(alloc, passes.len())?;
    let mut passes = passes.into_iter();
    let Some(mut first) = passes.next() else {
        // There is at least one pass.
        unreachable!();
    };
    for pass in passes {
        let mut pass = pass;
        meet(hall, &mut first, &mut pass);
        others.push(pass)?;
    }
    Ok((first, others))
}

/// Lets the first seat come in once more and close the hall. Returns the history if it holds what these seats did and
/// nothing else, if all its events are in the first version, and if each read and write of a book was ended.
pub(crate) fn close_by<K: Kind, T: Guarded, R: Wait>(
    rt: &R,
    alloc: Global,
    rota: Rota,
    hall: Hall<K, T>,
    passes: Vec<Pass<K, T>>,
) -> Result<Vec<Event>, CrewFault>
    requires of { All (IsOf hall) passes.items }
    requires some { 0 < length passes.items }
    requires apart { AllPairs (λ p q. p.me.seat ≢ q.me.seat) passes.items }
    ensures closed { IfOk result (λ v. IsClosed K.rules T.meaning hall.setting v.items) }
    ensures whole { IfOk result (λ v. HoldsOperationsOf v.items passes.items) }
    ensures left { IfOk result (λ v. IsLeftBy v.items passes.items) }
    ensures ended { IfOk result (λ v. HasEnded rota.scenario.sample v.items) }
    ensures fault { IfErr result (IsFaultOfClosing K.rules T.meaning rota.scenario.sample passes.items) }
{
    let (first, others) = meet_all(alloc, &hall, passes)?;
    if first.left() < 2 {
        return Err(CrewFault::Tired);
    }
    let seat = first.seat();
    let active = first.arrive(&hall).resume(rt, &hall);
    match close(hall, active) {
        Ok(closed) => {
            if !is_whole(rota, &closed.history, seat, &others) {
                return Err(CrewFault::Busy);
            }
            Ok(closed.history)
        }
        Err(Busy { hall, active }) => {
            active.leave(&hall, Pick::Waiter);
            Err(CrewFault::Busy)
        }
    }
}

/// Whether the history holds what this seat and these others did and nothing else, all its events are in the first
/// version, and each read and write of a book was ended.
fn is_whole<K: Kind, T: Guarded>(
    rota: Rota,
    history: &[Event],
    seat: u8,
    others: &[Pass<K, T>],
) -> bool
    requires apart { AreApart seat others.now }
    requires seen { HaveSeenPart history.now others.now }
    ensures { (result ≡ true) ↔ IsWhole rota.scenario.sample history.now seat others.now }
{
    let header = header_of::<K>(rota);
    complete(history, seat, others)
        && writable(&header, history)
        && has_ended(rota.scenario.sample, history)
}
