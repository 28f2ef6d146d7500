//! The stream of a hasty run: a buffer with an `if` in place of a `while`, and the acts that came too late.

ghost use Rattle.std.specs.Prelude.{◌≡◌, ◌⊎◌, false, true, IfErr, IfOk, IsErrOf, string_bytes};
ghost use Rattle.std.specs.Io.KnownBytes.{Appends};
ghost use Rattle.monk_history.specs.Text.{HasText, text, Device.inner_of, Device.has_failed};
ghost use Rattle.monk_kinds.specs.Names.{rules_named};
ghost use Rattle.monk_samples.specs.{Runs.IsFaultOfRun, Totals.first_missed, Totals.missed_in};
ghost use Rattle.monk_samples.specs.Samples.{IsInRange, IsOutcome, in_haste};
ghost use Rattle.monk_commands.specs.Ran.{HasServed, IsHastyAnswer, IsUnstarted, first_line, hasty_text, lets_in};

use crate::answer::put;
use crate::crew::Crew;
use crate::fault::StreamFault;
use crate::recording::put_history;
use crate::running::{audited, ended, rows};
use monk_history::Device;
use monk_kinds::{KindName, Npb, Npir, Npis, Npnb, Npqb, Pb, Pir, Pis, Pnb, Pqb};
use monk_samples::{HastyOutcome, OpenGate, RunFault, Sample, run_hasty};
use std::alloc::{AllocError, Global};
use std::io::Write;
use std::sync::Wait;
use std::thread::Threads;

/// Runs a buffer in haste under the named kind, with a gate that is always open.
fn hasty_named<R: Threads + Wait + Sync>(
    rt: &R,
    alloc: Global,
    kind: KindName,
    seats: u8,
    rounds: u32,
) -> Result<HastyOutcome, RunFault>
    requires { IsInRange seats rounds }
    ensures served { IfOk result (λ o. HasServed kind in_haste Sample.Buffer seats rounds o.header
        o.history.items o.totals) }
    ensures in_range { IsErrOf result RunFault.Range → ⊥ }
    ensures missed { IfOk result (λ o. o.missed ≡ missed_in o.history.items) }
    ensures first { IfOk result (λ o. o.first ≡ first_missed o.history.items) }
    ensures fault { IfErr result (IsFaultOfRun (rules_named kind) lets_in in_haste seats rounds) }
{
    let gate = OpenGate;
    match kind {
        KindName::Pb => run_hasty::<Pb, R, OpenGate>(rt, alloc, seats, rounds, &gate),
        KindName::Npb => run_hasty::<Npb, R, OpenGate>(rt, alloc, seats, rounds, &gate),
        KindName::Pnb => run_hasty::<Pnb, R, OpenGate>(rt, alloc, seats, rounds, &gate),
        KindName::Npnb => run_hasty::<Npnb, R, OpenGate>(rt, alloc, seats, rounds, &gate),
        KindName::Pqb => run_hasty::<Pqb, R, OpenGate>(rt, alloc, seats, rounds, &gate),
        KindName::Npqb => run_hasty::<Npqb, R, OpenGate>(rt, alloc, seats, rounds, &gate),
        KindName::Pir => run_hasty::<Pir, R, OpenGate>(rt, alloc, seats, rounds, &gate),
        KindName::Npir => run_hasty::<Npir, R, OpenGate>(rt, alloc, seats, rounds, &gate),
        KindName::Pis => run_hasty::<Pis, R, OpenGate>(rt, alloc, seats, rounds, &gate),
        KindName::Npis => run_hasty::<Npis, R, OpenGate>(rt, alloc, seats, rounds, &gate),
    }
}

/// Returns the lines of a legal run in haste.
fn told(alloc: Global, outcome: &HastyOutcome) -> Result<String, AllocError>
    ensures { IfOk result (λ text. string_bytes text
        ≡ hasty_text outcome.now.totals outcome.now.missed outcome.now.first) }
{
    let rows = rows(alloc, Sample::Buffer, &outcome.totals)?;
    let first = told_first(alloc, outcome.first)?;
    let missed = outcome.missed;
    Ok(format!(in alloc; "{rows}missed {missed}\n{first}legal\n")?)
}

/// Returns the line with the step of the first act that was refused, or `first none`.
fn told_first(alloc: Global, first: Option<u32>) -> Result<String, AllocError>
    ensures { IfOk result (λ text. string_bytes text ≡ first_line first) }
{
    match first {
        Some(step) => Ok(format!(in alloc; "first {step}\n")?),
        None => String::from_str(alloc, "first none\n"),
    }
}

/// Writes the history of a hasty run into the file, and then the lines of the run to the writer.
fn put_hasty<F: Write, W: Write>(
    alloc: Global,
    outcome: &HastyOutcome,
    file: &mut Device<F>,
    writer: &mut Device<W>,
) -> Result<u8, StreamFault>
    requires files { has_failed file.old ≡ false }
    requires works { has_failed writer.old ≡ false }
    requires outcome { (k : _) × (seats : _) × IsOutcome k in_haste seats outcome.now.header
        outcome.now.history.items outcome.now.totals }
    ensures zero { IfOk result (λ status. status ≡ 0) }
    ensures has_text { IfOk result (λ _. HasText outcome.now.header outcome.now.history.items) }
    ensures filed { IfOk result (λ _. Appends (F.contents (inner_of file.old)) (F.contents (inner_of file.new))
        (text outcome.now.header outcome.now.history.items)) }
    ensures told { IfOk result (λ _. Appends (W.contents (inner_of writer.old)) (W.contents (inner_of writer.new))
        (hasty_text outcome.now.totals outcome.now.missed outcome.now.first)) }
    ensures file { IsErrOf result StreamFault.File → (has_failed writer.new ≡ true)
        ⊎ ((writer.new ≡ writer.old) × (has_failed file.new ≡ true)) }
    ensures memory { IsErrOf result StreamFault.Memory → (writer.new ≡ writer.old) × (file.new ≡ file.old) }
{
    let text = told(alloc, outcome)?;
    let answer = audited(alloc, &outcome.header, &outcome.history, text)?;
    match put_history(&outcome.header, &outcome.history, file) {
        Ok(()) => put(&answer, writer),
        Err(fault) => Err(fault),
    }
}

/// Runs a buffer in haste under the kind ([`run_hasty`]). 2 to 16 seats work for 1 to 1000 rounds each, in threads of
/// their own. After an audit has found the history legal, its text goes into the file, in version 1. Then lines about
/// it go to the writer, with status 0.
///
/// The lines are `put N SUM` and `taken N SUM`, as for a buffer; `missed N`, how many acts were refused;
/// `first STEP`, the step of the first of them, or `first none`; and `legal`. If the run ends as `Tired`, `Late` or
/// `Busy`, the line `tired`, `late` or `busy` is written with status 1, and nothing goes into the file.
///
/// # Errors
///
/// [`StreamFault::File`] if a thread was not started or the file failed, and then the writer gets nothing; or if the
/// writer failed. [`StreamFault::Memory`] if a request for memory was refused, and then nothing is written.
///
/// # Cost
///
/// The cost of [`run_hasty`], of one audit, and one more pass over the history. The text takes no memory.
pub fn hasty_stream<R: Threads + Wait + Sync, F: Write, W: Write>(
    rt: &R,
    alloc: Global,
    crew: Crew,
    file: &mut Device<F>,
    writer: &mut Device<W>,
) -> Result<u8, StreamFault>
    requires in_range { IsInRange crew.seats crew.rounds }
    requires files { has_failed file.old ≡ false }
    requires works { has_failed writer.old ≡ false }

    // The file gets the text of the legal history that a hasty run of this kind left. The lines are about it.
    ensures answer { IfOk result
        (λ status. IsHastyAnswer crew.kind crew.seats crew.rounds status
        (Appends (F.contents (inner_of file.old)) (F.contents (inner_of file.new)))
        (Appends (W.contents (inner_of writer.old)) (W.contents (inner_of writer.new)))) }
    // Either the writer has failed; or it is unchanged, and the file has failed or a thread was not started.
    ensures file { IsErrOf result StreamFault.File → (has_failed writer.new ≡ true)
        ⊎ ((writer.new ≡ writer.old) × ((has_failed file.new ≡ true)
        ⊎ ((file.new ≡ file.old) × IsUnstarted crew.kind in_haste crew.seats crew.rounds))) }
    ensures memory { IsErrOf result StreamFault.Memory → (writer.new ≡ writer.old) × (file.new ≡ file.old) }
{
    match hasty_named(rt, alloc, crew.kind, crew.seats, crew.rounds) {
        Ok(outcome) => put_hasty(alloc, &outcome, file, writer),
        Err(fault) => put(&ended(alloc, fault)?, writer),
    }
}
