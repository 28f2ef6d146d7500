//! The threads of a run, whatever its object: each seat works its rounds in its own thread.
ghost use Rattle.std.specs.Prelude.{◌≡◌, All, IfErr, IfOk, IfSome, map};
ghost use Rattle.monk_object.specs.Names.{meaning_named};
ghost use Rattle.monk_samples.specs.declared.crew_fault.CrewFault.TheVariants as crew;
ghost use Rattle.monk_samples.specs.{Crews.AreReady, Crews.IsOf, Crews.IsReady, Ends.HaveServed, Ends.IsFaultOfCrew};
ghost use Rattle.monk_samples.specs.{Ends.IsWantOfRoom, Rounds.HasServed, Samples.sample_object};

use crate::crew::round::do_round;
use crate::crew::{join_all, part_idle, with_idle, workers};
use crate::crew_fault::CrewFault;
use crate::duty::{Duty, Shift};
use crate::end::End;
use crate::gate::Gate;
use crate::rota::Rota;
use crate::style::Style;
use crate::worker::Worker;
use monk_hall::{Hall, Pass};
use monk_object::Guarded;
use std::alloc::Global;
use std::sync::Wait;
use std::sync::atomic::{AtomicU8, Ordering};
use std::thread;
use std::thread::{Scope, Threads};

/// The value of the start word until all workers are there.
const HOLD: u8 = 0;

/// The value by which they begin.
const BEGIN: u8 = 1;

/// The value by which they go home, because not all could be started.
const GO_HOME: u8 = 2;

/// Makes every seat work its rounds, each in its own thread. Returns their passes in order.
pub(crate) fn work_all<K: Style, T: Guarded, R: Threads + Wait + Sync, G: Gate>(
    rt: &R,
    alloc: Global,
    hall: &Hall<K, T>,
    passes: Vec<Pass<K, T>>,
    gate: &G,
    rota: Rota,
) -> Result<Vec<Pass<K, T>>, CrewFault>
    requires ready { AreReady K.rules hall.now passes.items }
    requires object { T.meaning ≡ meaning_named (sample_object rota.scenario.sample) }
    ensures served { IfOk result (λ v. HaveServed K.rules T.meaning
        (G.answers gate.now) rota.scenario rota.seats rota.rounds
        hall.now passes.items v.items) }
    ensures fault { IfErr result (IsFaultOfCrew K.rules T.meaning
        (G.answers gate.now) rota.scenario rota.seats rota.rounds
        passes.items) }
{
    let (working, idle) = part_idle(passes, rota);
    let start = AtomicU8::new(HOLD);
    let workers = workers(rt, hall, gate, &start, working, rota)?;
    let back = thread::scope(
        thread::scope_env(),
        rt,
        |scope| -> Result<Vec<Pass<K, T>>, CrewFault>
            requires each { All (λ w. ((w.hall.now ≡ hall.now) × IsReady K.rules hall.now w.pass)
                × (w.gate.now ≡ gate.now) × (w.rota ≡ rota)) workers.items }
            requires object { T.meaning ≡ meaning_named (sample_object rota.scenario.sample) }
            ensures served { IfOk result (λ v. HaveServed K.rules T.meaning (G.answers gate.entry.now) rota.scenario
                rota.seats rota.rounds hall.entry.now (map (λ w. w.pass) workers.entry.items) v.items) }
            ensures fault { IfErr result (IsFaultOfCrew K.rules T.meaning (G.answers gate.entry.now) rota.scenario
                rota.seats rota.rounds (map (λ w. w.pass) workers.entry.items)) }
        {
            let crew = start_all(scope, alloc, hall, gate, rota, workers);
            let word = if crew.is_ok() { BEGIN } else { GO_HOME };
            start.store(word, Ordering::SeqCst);
            join_all(alloc, rt, hall, gate, rota, crew?)
        },
    )?;
    with_idle(back, idle)
}

/// Starts a thread for each worker. None begins before the start word says so.
fn start_all<'s, E, K: Style, T: Guarded, R: Wait + Sync, G: Gate>(
    scope: &Scope<'s, E>,
    alloc: Global,
    hall: &Hall<K, T>,
    gate: &G,
    rota: Rota,
    workers: Vec<Worker<'s, K, T, R, G>>,
) -> Result<Vec<Shift<K, T, G>>, CrewFault>
    requires each { All (λ w. ((w.hall.now ≡ hall.now) × IsReady K.rules hall.now w.pass)
        × (w.gate.now ≡ gate.now) × (w.rota ≡ rota)) workers.items }
    requires object { T.meaning ≡ meaning_named (sample_object rota.scenario.sample) }
    ensures each { IfOk result (λ v. All (λ s. (s.promise.hall.value ≡ hall.now) × (s.promise.gate.value ≡ gate.now)
        × (s.promise.rota.value ≡ rota)) v.items) }
    ensures passes { IfOk result (λ v. map (λ s. s.promise.pass.value) v.items
        ≡ map (λ w. w.pass) workers.entry.items) }
    ensures fault { IfErr result IsWantOfRoom }
{
    let mut crew = Vec::with_capacity(alloc, workers.len())?;
    for worker in workers {
        crew.push(start(scope, worker)?)?;
    }
    Ok(crew)
}

/// Starts the thread of one worker.
fn start<'s, E, K: Style, T: Guarded, R: Wait + Sync, G: Gate>(
    scope: &Scope<'s, E>,
    worker: Worker<'s, K, T, R, G>,
) -> Result<Shift<K, T, G>, CrewFault>
    requires ready { IsReady K.rules worker.hall.now worker.pass }
    requires object { T.meaning ≡ meaning_named (sample_object worker.rota.scenario.sample) }
    ensures hall { IfOk result (λ s. s.promise.hall.value ≡ worker.entry.hall.now) }
    ensures gate { IfOk result (λ s. s.promise.gate.value ≡ worker.entry.gate.now) }
    ensures pass { IfOk result (λ s. s.promise.pass.value ≡ worker.entry.pass) }
    ensures rota { IfOk result (λ s. s.promise.rota.value ≡ worker.entry.rota) }
    ensures fault { IfErr result (λ e. e ≡ crew.Thread) }
{
    let promise = Duty::of(&worker);
    let started = scope.spawn_with(
        promise,
        move || -> Option<(Pass<K, T>, End)>
            requires ready { IsReady K.rules worker.hall.now worker.pass }
            requires object { T.meaning ≡ meaning_named (sample_object worker.rota.scenario.sample) }
            ensures { IfSome result (λ r. IsOf worker.entry.hall.now r.0
                × HasServed K.rules T.meaning (G.answers worker.entry.gate.now) worker.entry.rota.scenario
                worker.entry.rota.seats worker.entry.rota.rounds worker.entry.pass r.0 r.1) }
        {
            if !may_begin(worker.rt, worker.start) {
                return None;
            }
            Some(work(worker))
        },
    );
    match started {
        Ok(shift) => Ok(shift),
        Err(_) => Err(CrewFault::Thread),
    }
}

/// Waits until the start word says whether to begin.
fn may_begin<R: Wait>(rt: &R, start: &AtomicU8) -> bool {
    for _ in rt.forever() {
        match start.load(Ordering::SeqCst) {
            HOLD => thread::yield_now(),
            word => return word == BEGIN,
        }
    }
    // The loop ends only by its `return`.
    unreachable!()
}

/// Works all rounds of a seat, and asks the gate before each.
fn work<K: Style, T: Guarded, R: Wait, G: Gate>(worker: Worker<'_, K, T, R, G>) -> (Pass<K, T>, End)
    requires ready { IsReady K.rules worker.hall.now worker.pass }
    requires object { T.meaning ≡ meaning_named (sample_object worker.rota.scenario.sample) }
    ensures back { IsOf worker.entry.hall.now result.0 }
    ensures served { HasServed K.rules T.meaning (G.answers worker.entry.gate.now) worker.entry.rota.scenario
        worker.entry.rota.seats worker.entry.rota.rounds worker.entry.pass result.0 result.1 }
{
    let Worker {
        mut pass,
        rt,
        hall,
        gate,
        rota,
        start: _,
    } = worker;
    let seat = pass.seat();
    for done in 0..rota.rounds_of(seat) {
        let round = done + 1;
        if !gate.pass(seat, round) {
            return (pass, End::Late);
        }
        let (back, end) = do_round(pass, rt, hall, rota, round);
        match end {
            End::Done => pass = back,
            _ => return (back, end),
        }
    }
    (pass, End::Done)
}
