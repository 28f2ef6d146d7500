//! A run: a hall over the object of a sample, with a thread for each seat that works, closed when all have ended.
ghost use Rattle.std.specs.Prelude.{◌≡◌, ◌↔◌, ◌⊎◌, ◌<◌, ◌≤◌, ◌^◌, IfErr, IfOk, OnOk, IsErrOf, false, length};
ghost use Rattle.monk_object.specs.Names.{meaning_named, opening_named};
ghost use Rattle.monk_history.specs.Meaning.Events.{has_conditions};
ghost use Rattle.monk_hall.specs.{Records.first_view, Rule.setting_of, Tokens.tokens};
ghost use Rattle.monk_samples.specs.declared.crew_fault.CrewFault.TheVariants as crew;
ghost use Rattle.monk_samples.specs.declared.sample.Sample.TheVariants as sample;
ghost use Rattle.monk_samples.specs.{Crews.AreReady, Faults.run_fault_of};
ghost use Rattle.monk_samples.specs.Samples.{IsHistoryOf, IsInRange, IsOutcome, budget_of, conds_of, in_haste};
ghost use Rattle.monk_samples.specs.Samples.{patiently, sample_object, size_in};
ghost use Rattle.monk_samples.specs.Totals.{HasTotals, RefusesNothing, first_missed, missed_in};
ghost use Rattle.monk_samples.specs.Runs.{HasLeft, HasLeftHistory, IsFaultOfRun};

use crate::closing::close_by;
use crate::crew::work_all;
use crate::crew_fault::CrewFault;
use crate::gate::Gate;
use crate::hasty_outcome::HastyOutcome;
use crate::heading::{conds_of, header_of};
use crate::limits::{LEAST_RUN_SEATS, MOST_ROUNDS, MOST_RUN_SEATS};
use crate::manner::Manner;
use crate::outcome::Outcome;
use crate::rota::Rota;
use crate::run_fault::RunFault;
use crate::sample::Sample;
use crate::scenario::Scenario;
use crate::style::Style;
use crate::totals::{first_missed, missed_in, totals_of};
use monk_floor::MakeFault;
use monk_hall::{Hall, Pass};
use monk_history::Event;
use monk_kinds::Kind;
use monk_object::{Book, Buffer, Guarded, ObjectFault, Shop};
use std::alloc::Global;
use std::sync::Wait;
use std::thread::Threads;

/// Runs a sample under the kind K with 2 to 16 seats, and reads the totals from its history. Each seat works for 1 to
/// 1000 rounds in its own thread.
///
/// For a buffer half of the seats put and as many take; for a book, half read and as many write. With an odd number
/// of seats the last one stays idle. In a shop the first seat is the barber, who has a turn for each visit of the
/// other seats. No worker begins before all are there, and none waits for another to end before it begins. When all
/// have ended, every other pass meets the first seat's. That seat comes in once more and closes the hall.
///
/// # Errors
///
/// `Range` if a number is out of range; then nothing is started. `Memory` if a request for memory was refused.
/// `Thread` if a thread was not started; then no worker has begun. `Tired` or `Late` is the end of the lowest seat
/// that did not end well. `Tired` also if the first seat has too few events left to come in once more. `Busy` if the
/// hall can't be closed, or its history isn't whole: it holds more than these seats did, has an event that the first
/// version lacks, or a read or a write of a book was not ended. (No member leaves such a history; that isn't proved.) A
/// worker that ends early may leave others waiting for good: then this does not return.
///
/// # Cost
///
/// Memory for the budgets of all seats, `64 + rounds * (40 + 32 * seats)` events each, at once. Four passes over
/// the history for the totals, two when the hall is closed, and up to four more for a book.
pub fn run<K: Style, R: Threads + Wait + Sync, G: Gate>(
    rt: &R,
    alloc: Global,
    sample: Sample,
    seats: u8,
    rounds: u32,
    gate: &G,
) -> Result<Outcome, RunFault>
    ensures outcome { IfOk result (λ o. IsOutcome K.NAME (patiently sample) seats o.header o.history.items o.totals) }
    // It returns `Range` if, and only if, a number is out of range.
    ensures range { IsErrOf result RunFault.Range ↔ ((seats < 2) ⊎ (16 < seats) ⊎ (rounds < 1) ⊎ (1000 < rounds)) }
    ensures in_range { OnOk result (IsInRange seats rounds) }
    // Each seat has served to its end, let in by the gate to each of its rounds, and the history is what they have
    // left. Or the fault says why there is no outcome.
    ensures served { IfOk result (λ o. HasLeft K.rules (G.answers gate.now) (patiently sample) seats rounds
        o.history.items) }
    ensures fault { IfErr result (IsFaultOfRun K.rules (G.answers gate.now) (patiently sample) seats rounds) }
    // The totals follow from the seats and the rounds, whatever the kind and the schedule.
    ensures totals { IfOk result (λ o. HasTotals sample seats rounds o.totals) }
    // A buffer whose seats look again refuses nothing.
    ensures none_refused { IfOk result (λ o. sample ≡ Sample.Buffer → missed_in o.history.items ≡ 0) }
{
    let scenario = Scenario {
        sample,
        manner: Manner::Patient,
    };
    run_by::<K, R, G>(rt, alloc, scenario, seats, rounds, gate)
}

/// Runs a buffer of one place in haste, with an `if` in place of a `while`. A seat looks at its predicate once, then
/// acts, whatever holds, and comes again if its act was refused. Its releases wish for entry. So under some kinds an
/// item is gone when the seat that was signalled goes on. The rest, also the cost but for two passes more, is as for
/// [`run`] of a buffer.
///
/// # Errors
///
/// Those of [`run`].
pub fn run_hasty<K: Style, R: Threads + Wait + Sync, G: Gate>(
    rt: &R,
    alloc: Global,
    seats: u8,
    rounds: u32,
    gate: &G,
) -> Result<HastyOutcome, RunFault>
    ensures outcome { IfOk result (λ o. IsOutcome K.NAME in_haste seats o.header o.history.items o.totals) }
    ensures range { IsErrOf result RunFault.Range ↔ ((seats < 2) ⊎ (16 < seats) ⊎ (rounds < 1) ⊎ (1000 < rounds)) }
    ensures in_range { OnOk result (IsInRange seats rounds) }
    ensures served { IfOk result (λ o. HasLeft K.rules (G.answers gate.now) in_haste seats rounds o.history.items) }
    ensures fault { IfErr result (IsFaultOfRun K.rules (G.answers gate.now) in_haste seats rounds) }
    ensures totals { IfOk result (λ o. HasTotals Sample.Buffer seats rounds o.totals) }
    // How many of its acts were refused, and the step of the first.
    ensures missed { IfOk result (λ o. o.missed ≡ missed_in o.history.items) }
    ensures first { IfOk result (λ o. o.first ≡ first_missed o.history.items) }
    // Under an automatic kind nobody comes between, so no act is refused.
    ensures none_missed { IfOk result (λ o. has_conditions K.rules.mode ≡ false → o.missed ≡ 0) }
{
    let scenario = Scenario {
        sample: Sample::Buffer,
        manner: Manner::Hasty,
    };
    match run_by::<K, R, G>(rt, alloc, scenario, seats, rounds, gate) {
        Ok(outcome) => Ok(with_misses(outcome)),
        Err(fault) => Err(fault),
    }
}

/// Runs what the scenario says.
fn run_by<K: Style, R: Threads + Wait + Sync, G: Gate>(
    rt: &R,
    alloc: Global,
    scenario: Scenario,
    seats: u8,
    rounds: u32,
    gate: &G,
) -> Result<Outcome, RunFault>
    ensures outcome { IfOk result (λ o. IsOutcome K.NAME scenario seats o.header o.history.items o.totals) }
    ensures range { IsErrOf result RunFault.Range ↔ ((seats < 2) ⊎ (16 < seats) ⊎ (rounds < 1) ⊎ (1000 < rounds)) }
    ensures in_range { OnOk result (IsInRange seats rounds) }
    ensures served { IfOk result (λ o. HasLeft K.rules (G.answers gate.now) scenario seats rounds o.history.items) }
    ensures fault { IfErr result (IsFaultOfRun K.rules (G.answers gate.now) scenario seats rounds) }
    ensures totals { IfOk result (λ o. HasTotals scenario.sample seats rounds o.totals) }
    ensures missed { IfOk result (λ o. RefusesNothing K.rules scenario o.history.items) }
{
    if !(LEAST_RUN_SEATS..=MOST_RUN_SEATS).contains(&seats)
        || !(1..=MOST_ROUNDS).contains(&rounds)
    {
        return Err(RunFault::Range);
    }
    let rota = Rota {
        scenario,
        seats,
        rounds,
    };
    match run_named::<K, R, G>(rt, alloc, rota, gate) {
        Ok(history) => Ok(outcome::<K>(rota, history)),
        Err(fault) => Err(fault.of_run()),
    }
}

/// Returns the outcome of a run in haste, with what its history says of the acts that were refused.
fn with_misses(outcome: Outcome) -> HastyOutcome
    requires { length outcome.history.items ≤ 2 ^ 24 }
    ensures missed { result.missed ≡ missed_in outcome.history.items }
    ensures first { result.first ≡ first_missed outcome.history.items }
    ensures totals { result.totals ≡ outcome.totals }
    ensures header { result.header ≡ outcome.header }
    ensures history { result.history.items ≡ outcome.history.items }
{
    let Outcome {
        totals,
        header,
        history,
    } = outcome;
    HastyOutcome {
        totals,
        missed: missed_in(&history),
        first: first_missed(&history),
        header,
        history,
    }
}

/// Makes a run over the object of its sample. Returns its history.
fn run_named<K: Style, R: Threads + Wait + Sync, G: Gate>(
    rt: &R,
    alloc: Global,
    rota: Rota,
    gate: &G,
) -> Result<Vec<Event>, CrewFault>
    ensures left { IfOk result (λ v. HasLeftHistory K.rules
        (G.answers gate.now) rota.scenario rota.seats rota.rounds v.items) }
    ensures fault { IfErr result (λ e. IsFaultOfRun K.rules (G.answers gate.now) rota.scenario rota.seats rota.rounds
        (run_fault_of e)) }
{
    match rota.scenario.sample {
        Sample::Buffer => run_buffer::<K, R, G>(rt, alloc, rota, gate),
        Sample::Book => run_book::<K, R, G>(rt, alloc, rota, gate),
        Sample::Shop => run_shop::<K, R, G>(rt, alloc, rota, gate),
    }
}

/// Makes a run over a buffer. Returns its history.
fn run_buffer<K: Style, R: Threads + Wait + Sync, G: Gate>(
    rt: &R,
    alloc: Global,
    rota: Rota,
    gate: &G,
) -> Result<Vec<Event>, CrewFault>
    requires { rota.scenario.sample ≡ sample.Buffer }
    ensures left { IfOk result (λ v. HasLeftHistory K.rules
        (G.answers gate.now) rota.scenario rota.seats rota.rounds v.items) }
    ensures fault { IfErr result (λ e. IsFaultOfRun K.rules (G.answers gate.now) rota.scenario rota.seats rota.rounds
        (run_fault_of e)) }
{
    let buffer = match Buffer::make(alloc, rota.scenario.size()) {
        Ok(buffer) => buffer,
        Err(ObjectFault::Memory) => return Err(CrewFault::Memory),
        // The size is within the object's greatest.
        Err(ObjectFault::Size) => unreachable!(),
    };
    run_over::<K, Buffer, R, G>(rt, alloc, rota, gate, buffer)
}

/// Makes a run over a book. Returns its history.
fn run_book<K: Style, R: Threads + Wait + Sync, G: Gate>(
    rt: &R,
    alloc: Global,
    rota: Rota,
    gate: &G,
) -> Result<Vec<Event>, CrewFault>
    requires { rota.scenario.sample ≡ sample.Book }
    ensures left { IfOk result (λ v. HasLeftHistory K.rules
        (G.answers gate.now) rota.scenario rota.seats rota.rounds v.items) }
    ensures fault { IfErr result (λ e. IsFaultOfRun K.rules (G.answers gate.now) rota.scenario rota.seats rota.rounds
        (run_fault_of e)) }
{
    let Ok(book) = Book::make(rota.scenario.size()) else {
        // The size is within the object's greatest.
        unreachable!();
    };
    run_over::<K, Book, R, G>(rt, alloc, rota, gate, book)
}

/// Makes a run over a shop. Returns its history.
fn run_shop<K: Style, R: Threads + Wait + Sync, G: Gate>(
    rt: &R,
    alloc: Global,
    rota: Rota,
    gate: &G,
) -> Result<Vec<Event>, CrewFault>
    requires { rota.scenario.sample ≡ sample.Shop }
    ensures left { IfOk result (λ v. HasLeftHistory K.rules
        (G.answers gate.now) rota.scenario rota.seats rota.rounds v.items) }
    ensures fault { IfErr result (λ e. IsFaultOfRun K.rules (G.answers gate.now) rota.scenario rota.seats rota.rounds
        (run_fault_of e)) }
{
    let Ok(shop) = Shop::make(rota.scenario.size()) else {
        // The size is within the object's greatest.
        unreachable!();
    };
    run_over::<K, Shop, R, G>(rt, alloc, rota, gate, shop)
}

/// Makes a run over this object. Returns its history.
fn run_over<K: Style, T: Guarded, R: Threads + Wait + Sync, G: Gate>(
    rt: &R,
    alloc: Global,
    rota: Rota,
    gate: &G,
    object: T,
) -> Result<Vec<Event>, CrewFault>
    requires object { T.meaning ≡ meaning_named (sample_object rota.scenario.sample) }
    requires opening { T.state object ≡ opening_named (sample_object rota.scenario.sample)
        (size_in rota.scenario.manner) }
    ensures left { IfOk result (λ v. HasLeftHistory K.rules
        (G.answers gate.now) rota.scenario rota.seats rota.rounds v.items) }
    ensures fault { IfErr result (λ e. IsFaultOfRun K.rules (G.answers gate.now) rota.scenario rota.seats rota.rounds
        (run_fault_of e)) }
{
    let (hall, passes) = open::<K, T, R>(rt, alloc, object, rota)?;
    let passes = work_all(rt, alloc, &hall, passes, gate, rota)?;
    close_by(rt, alloc, rota, hall, passes)
}

/// Makes a hall for the run, and returns it with all its passes.
fn open<K: Kind, T: Guarded, R: Threads>(
    rt: &R,
    alloc: Global,
    object: T,
    rota: Rota,
) -> Result<(Hall<K, T>, Vec<Pass<K, T>>), CrewFault>
    ensures setting { IfOk result
        (λ r. r.0.setting ≡ setting_of (T.state object) rota.seats (conds_of K.rules)
        (budget_of rota.seats rota.rounds)) }
    ensures passes { IfOk result (λ r. r.1.items ≡ tokens r.0.id (first_view r.0.setting)) }
    ensures ready { IfOk result (λ r. AreReady K.rules r.0 r.1.items) }
    ensures fault { IfErr result (λ e. e ≡ crew.Memory) }
{
    let budget = 64 + rota.rounds * (40 + 32 * u32::from(rota.seats));
    match Hall::make(alloc, object, rota.seats, conds_of::<K>(), budget) {
        Ok((mut hall, passes)) => {
            hall.find_processors(rt);
            Ok((hall, passes))
        }
        Err(MakeFault::Memory) => Err(CrewFault::Memory),
        // The numbers are in range.
        Err(_) => unreachable!(),
    }
}

/// Returns what the run with this history leaves.
fn outcome<K: Kind>(rota: Rota, history: Vec<Event>) -> Outcome
    requires { IsHistoryOf K.rules rota.scenario rota.seats rota.rounds history.items }
    ensures outcome { IsOutcome K.NAME rota.scenario rota.seats result.header result.history.items result.totals }
    ensures totals { HasTotals rota.scenario.sample rota.seats rota.rounds result.totals }
    ensures same { history.items ≡ result.history.items }
{
    let totals = totals_of(rota.scenario.sample, &history);
    Outcome {
        totals,
        header: header_of::<K>(rota),
        history,
    }
}
