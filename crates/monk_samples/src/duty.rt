ghost use Rattle.std.specs.Prelude.{◌≡◌, IfSome};
ghost use Rattle.monk_samples.specs.{Crews.IsOf, Rounds.HasServed};

use crate::end::End;
use crate::gate::Gate;
use crate::rota::Rota;
use crate::worker::Worker;
use monk_hall::{Hall, Pass};
use monk_kinds::Kind;
use monk_object::Guarded;
use std::snapshot::Snapshot;
use std::thread::{Promise, PromisedHandle};

/// What a worker promises: if it has begun, the pass that it returns is of its hall, and its seat has served by its
/// rota.
#[derive(Drop)]
pub(crate) struct Duty<K: Kind, T: Guarded, G: Gate> {
    pub(crate) hall: Snapshot<Hall<K, T>>,
    pub(crate) gate: Snapshot<G>,
    pub(crate) pass: Snapshot<Pass<K, T>>,
    pub(crate) rota: Snapshot<Rota>,
}

impl<K: Kind, T: Guarded, G: Gate> Duty<K, T, G> {
    /// Returns what this worker promises.
    pub(crate) fn of<R>(worker: &Worker<'_, K, T, R, G>) -> Self
        ensures hall { result.hall.value ≡ worker.now.hall.now }
        ensures gate { result.gate.value ≡ worker.now.gate.now }
        ensures pass { result.pass.value ≡ worker.now.pass }
        ensures rota { result.rota.value ≡ worker.now.rota }
    {
        Duty {
            hall: Snapshot::of(worker.hall),
            gate: Snapshot::of(worker.gate),
            pass: Snapshot::of(&worker.pass),
            rota: Snapshot::of(&worker.rota),
        }
    }
}

impl<K: Kind, T: Guarded, G: Gate> Promise<Option<(Pass<K, T>, End)>> for Duty<K, T, G> {
    ghost kept_by = { λ p back. IfSome back (λ r. IsOf p.hall.value r.0
        × HasServed K.rules T.meaning (G.answers p.gate.value) p.rota.value.scenario p.rota.value.seats
        p.rota.value.rounds
        p.pass.value r.0 r.1) };
}

/// The thread of a worker. It returns `None` if the worker never began.
pub(crate) type Shift<K, T, G> = PromisedHandle<Option<(Pass<K, T>, End)>, Duty<K, T, G>>;
