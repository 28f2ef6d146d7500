//! The workers of a run, whatever its object.
ghost use Rattle.std.specs.Prelude.{◌≡◌, ◌++◌, All, IfErr, IfOk, IfSome, map, option_to_list};
ghost use Rattle.monk_samples.specs.declared.crew_fault.CrewFault.TheVariants as crew;
ghost use Rattle.monk_samples.specs.{Crews.AreReady, Crews.IsReady, Ends.HaveServed, Ends.IsFaultOfCrew};
ghost use Rattle.monk_samples.specs.{Faults.fault_after, Faults.fault_of, Rounds.rounds_of};

use crate::crew_fault::CrewFault;
use crate::duty::Shift;
use crate::end::End;
use crate::gate::Gate;
use crate::rota::Rota;
use crate::worker::Worker;
use monk_hall::{Hall, Pass};
use monk_kinds::Kind;
use monk_object::Guarded;
use std::alloc::Global;
use std::sync::atomic::AtomicU8;
use std::thread::Threads;

mod round;
mod threads;

pub(crate) use threads::work_all;

/// Returns the seats that have rounds to work, in order, and the last seat if it has none.
pub(crate) fn part_idle<K: Kind, T: Guarded>(
    passes: Vec<Pass<K, T>>,
    rota: Rota,
) -> (Vec<Pass<K, T>>, Option<Pass<K, T>>)
    ensures all { passes.items ≡ result.0.items ++ option_to_list result.1 }
    ensures idle { IfSome result.1 (λ p. rounds_of rota.scenario.sample rota.seats rota.rounds p.me.seat ≡ 0) }
{
    let mut working = passes;
    let idle = match working.last() {
        Some(last) if rota.rounds_of(last.seat()) == 0 => working.pop(),
        _ => None,
    };
    (working, idle)
}

/// Returns the passes of the workers, and after them that of the seat that was idle, if there is one.
pub(crate) fn with_idle<K: Kind, T: Guarded>(
    passes: Vec<Pass<K, T>>,
    idle: Option<Pass<K, T>>,
) -> Result<Vec<Pass<K, T>>, CrewFault>
    ensures all { IfOk result (λ v. v.items ≡ passes.items ++ option_to_list idle) }
    ensures fault { IfErr result (λ e. e ≡ crew.Memory) }
{
    let mut all = passes;
    if let Some(pass) = idle {
        all.push(pass)?;
    }
    Ok(all)
}

/// Makes a worker for each of these seats, in order.
pub(crate) fn workers<'a, K: Kind, T: Guarded, R, G>(
    rt: &'a R,
    hall: &'a Hall<K, T>,
    gate: &'a G,
    start: &'a AtomicU8,
    passes: Vec<Pass<K, T>>,
    rota: Rota,
) -> Result<Vec<Worker<'a, K, T, R, G>>, CrewFault>
    requires { AreReady K.rules hall.now passes.items }
    ensures each { IfOk result (λ v. All (λ w. ((w.hall.now ≡ hall.now) × IsReady K.rules hall.now w.pass)
        × (w.gate.now ≡ gate.now) × (w.rota ≡ rota)) v.items) }
    ensures passes { IfOk result (λ v. map (λ w. w.pass) v.items ≡ passes.items) }
    ensures fault { IfErr result (λ e. e ≡ crew.Memory) }
{
    let mut workers = Vec::with_capacity(*passes.allocator(), passes.len())?;
    for pass in passes {
        workers.push(Worker {
            pass,
            rt,
            hall,
            gate,
            rota,
            start,
        })?;
    }
    Ok(workers)
}

/// Waits for all workers. Returns their passes in order, or the fault of the first that did not end well.
pub(crate) fn join_all<K: Kind, T: Guarded, R: Threads, G: Gate>(
    alloc: Global,
    rt: &R,
    hall: &Hall<K, T>,
    gate: &G,
    rota: Rota,
    crew: Vec<Shift<K, T, G>>,
) -> Result<Vec<Pass<K, T>>, CrewFault>
    requires { All (λ s. (s.promise.hall.value ≡ hall.now) × (s.promise.gate.value ≡ gate.now)
        × (s.promise.rota.value ≡ rota))
        crew.items }
    ensures served { IfOk result (λ v. HaveServed K.rules T.meaning
        (G.answers gate.now) rota.scenario rota.seats rota.rounds
        hall.now (map (λ s. s.promise.pass.value) crew.items) v.items) }
    ensures fault { IfErr result (IsFaultOfCrew K.rules T.meaning
        (G.answers gate.now) rota.scenario rota.seats rota.rounds
        (map (λ s. s.promise.pass.value) crew.items)) }
{
    let mut passes = Vec::with_capacity(alloc, crew.len() + 1)?;
    let mut fault = None;
    for shift in crew {
        // A worker goes home only if not all could be started.
        let Some((pass, end)) = shift.join(rt) else {
            return Err(CrewFault::Thread);
        };
        passes.push(pass)?;
        fault = fault_after(fault, end);
    }
    match fault {
        None => Ok(passes),
        Some(fault) => Err(fault),
    }
}

/// Returns the fault that an end is, if it is one.
fn fault_of(end: End) -> Option<CrewFault>
    ensures { result ≡ fault_of end }
{
    match end {
        End::Done => None,
        End::Tired => Some(CrewFault::Tired),
        End::Late => Some(CrewFault::Late),
    }
}

/// Returns the first fault: the earlier one if there is one, and otherwise that of the end after it.
fn fault_after(fault: Option<CrewFault>, end: End) -> Option<CrewFault>
    ensures { result ≡ fault_after fault end }
{
    match fault {
        None => fault_of(end),
        Some(fault) => Some(fault),
    }
}
