//! The stream of a run: a sample at work in threads, an audit of what it left, and its totals.

ghost use Rattle.std.specs.Prelude.{◌≡◌, ◌≢◌, ◌≤◌, ◌^◌, ◌⊎◌, ◌↔◌, false, true, IfErr, IfOk, IsErrOf, Some, length, string_bytes};
ghost use Rattle.std.specs.Io.KnownBytes.{Appends};
ghost use Rattle.monk_object.specs.Names.{most};
ghost use Rattle.monk_history.specs.Meaning.{Legal.IsLegal, Named.named_monitor};
ghost use Rattle.monk_history.specs.Text.Device.{inner_of, has_failed};
ghost use Rattle.monk_kinds.specs.Names.{rules_named};
ghost use Rattle.monk_samples.specs.{Runs.IsFaultOfRun, Samples.IsInRange, Samples.IsOutcome, Samples.patiently};
ghost use Rattle.monk_commands.specs.Ran.{HasServed, IsRunAnswer, IsUnstarted, end_word, lets_in, rows_text};
ghost use Rattle.monk_commands.specs.Ran.{totals_text};

use crate::answer::{LineAnswer, put, verdict_answer};
use crate::fault::StreamFault;
use monk_audit::{AuditFault, Verdict, audit};
use monk_history::{Device, Event, Header};
use monk_kinds::{KindName, Npb, Npir, Npis, Npnb, Npqb, Pb, Pir, Pis, Pnb, Pqb};
use monk_samples::{OpenGate, Outcome, RunFault, Sample, run};
use std::alloc::{AllocError, Global};
use std::io::Write;
use std::sync::Wait;
use std::thread::Threads;

/// Runs the sample under the named kind, with a gate that is always open.
pub(crate) fn run_named<R: Threads + Wait + Sync>(
    rt: &R,
    alloc: Global,
    kind: KindName,
    sample: Sample,
    seats: u8,
    rounds: u32,
) -> Result<Outcome, RunFault>
    requires { IsInRange seats rounds }
    ensures served { IfOk result (λ o. HasServed kind (patiently sample) sample seats rounds o.header
        o.history.items o.totals) }
    ensures in_range { IsErrOf result RunFault.Range → ⊥ }
    ensures fault { IfErr result (IsFaultOfRun (rules_named kind) lets_in (patiently sample) seats rounds) }
{
    let gate = OpenGate;
    match kind {
        KindName::Pb => run::<Pb, R, OpenGate>(rt, alloc, sample, seats, rounds, &gate),
        KindName::Npb => run::<Npb, R, OpenGate>(rt, alloc, sample, seats, rounds, &gate),
        KindName::Pnb => run::<Pnb, R, OpenGate>(rt, alloc, sample, seats, rounds, &gate),
        KindName::Npnb => run::<Npnb, R, OpenGate>(rt, alloc, sample, seats, rounds, &gate),
        KindName::Pqb => run::<Pqb, R, OpenGate>(rt, alloc, sample, seats, rounds, &gate),
        KindName::Npqb => run::<Npqb, R, OpenGate>(rt, alloc, sample, seats, rounds, &gate),
        KindName::Pir => run::<Pir, R, OpenGate>(rt, alloc, sample, seats, rounds, &gate),
        KindName::Npir => run::<Npir, R, OpenGate>(rt, alloc, sample, seats, rounds, &gate),
        KindName::Pis => run::<Pis, R, OpenGate>(rt, alloc, sample, seats, rounds, &gate),
        KindName::Npis => run::<Npis, R, OpenGate>(rt, alloc, sample, seats, rounds, &gate),
    }
}

/// Returns the answer that a run's history is legal, with this text. An audit of it says so.
pub(crate) fn audited(
    alloc: Global,
    header: &Header,
    history: &[Event],
    text: String,
) -> Result<LineAnswer, AllocError>
    requires legal { IsLegal (named_monitor header.now) history.now }
    requires few { length history.now ≤ 2 ^ 24 }
    requires size { header.now.size ≤ most header.now.object }
    ensures answer { IfOk result (λ a. (a.status ≡ 0) × (string_bytes a.text ≡ string_bytes text)) }
{
    match audit(alloc, header, history) {
        Ok(Verdict::Legal(_)) => Ok(LineAnswer { status: 0, text }),
        Ok(Verdict::Forbidden { step, reason }) => {
            verdict_answer(alloc, Verdict::Forbidden { step, reason })
        }
        Err(AuditFault::Memory) => Err(AllocError),
        // The size isn't above the object's greatest.
        Err(AuditFault::Object) => unreachable!(),
    }
}

/// Returns the answer to a run that left this: its totals, after its history was found legal.
fn audited_run(alloc: Global, sample: Sample, outcome: &Outcome) -> Result<LineAnswer, AllocError>
    requires { (k : _) × IsOutcome k (patiently sample) outcome.now.header.seats outcome.now.header
        outcome.now.history.items outcome.now.totals }
    ensures answer { IfOk result (λ a. (a.status ≡ 0) × (string_bytes a.text ≡ totals_text sample outcome.now.totals)) }
{
    let rows = rows(alloc, sample, &outcome.totals)?;
    let text = format!(in alloc; "{rows}legal\n")?;
    audited(alloc, &outcome.header, &outcome.history, text)
}

pub(crate) fn rows(alloc: Global, sample: Sample, totals: &[u64; 4]) -> Result<String, AllocError>
    ensures { IfOk result (λ text. string_bytes text ≡ rows_text sample totals.now) }
{
    let [a, b, c, d] = *totals;
    match sample {
        Sample::Buffer => Ok(format!(in alloc; "put {a} {b}\ntaken {c} {d}\n")?),
        Sample::Book => Ok(format!(in alloc; "reads {a} {b}\nwrites {c} {d}\n")?),
        Sample::Shop => {
            Ok(format!(in alloc; "sat {a}\ncalled {b}\nfinished {c}\ndeparted {d}\n")?)
        }
    }
}

/// Returns the answer to a run that ended in this way, without an outcome.
pub(crate) fn ended(alloc: Global, fault: RunFault) -> Result<LineAnswer, StreamFault>
    requires { fault ≢ RunFault.Range }
    ensures answer { IfOk result (λ a. (a.status ≡ 1) × (end_word fault ≡ Some (string_bytes a.text))) }
    ensures file { IsErrOf result StreamFault.File ↔ (fault ≡ RunFault.Thread) }
{
    let word = match fault {
        RunFault::Tired => "tired\n",
        RunFault::Late => "late\n",
        RunFault::Busy => "busy\n",
        RunFault::Memory => return Err(StreamFault::Memory),
        RunFault::Thread => return Err(StreamFault::File),
        // The seats and rounds were in range.
        RunFault::Range => unreachable!(),
    };
    let text = String::from_str(alloc, word)?;
    Ok(LineAnswer { status: 1, text })
}

/// Runs the sample under the kind, and writes its totals with status 0, after its history was audited and found
/// legal. 2 to 16 seats work for 1 to 1000 rounds each, in threads of their own.
///
/// For a buffer the totals are the lines `put N SUM` and `taken N SUM`. For a book they are `reads BEGUN ENDED` and
/// `writes BEGUN ENDED`. For a shop they are `sat N`, `called N`, `finished N` and `departed N`. The line `legal`
/// ends them. If [`run`] ends as `Tired`, `Late` or `Busy`, `tired`, `late` or `busy` is written with status 1.
///
/// # Errors
///
/// [`StreamFault::File`] if a thread was not started, or the writer failed. [`StreamFault::Memory`] if a request for
/// memory was refused. The writer has changed only if it failed.
///
/// # Cost
///
/// The cost of [`run`], and of one [`audit`].
pub fn run_stream<R: Threads + Wait + Sync, W: Write>(
    rt: &R,
    alloc: Global,
    kind: KindName,
    sample: Sample,
    seats: u8,
    rounds: u32,
    writer: &mut Device<W>,
) -> Result<u8, StreamFault>
    requires in_range { IsInRange seats rounds }
    requires works { has_failed writer.old ≡ false }

    // The totals that are written are those of a legal history of this kind and sample, in which the sample's law
    // holds.
    ensures answer { IfOk result
        (λ status. IsRunAnswer kind sample seats rounds status
        (Appends (W.contents (inner_of writer.old)) (W.contents (inner_of writer.new)))) }
    // Either the writer has failed, or it is unchanged and a thread was not started.
    ensures file { IsErrOf result StreamFault.File → (has_failed writer.new ≡ true)
        ⊎ ((writer.new ≡ writer.old) × IsUnstarted kind (patiently sample) seats rounds) }
    ensures memory { IsErrOf result StreamFault.Memory → writer.new ≡ writer.old }
{
    let answer = match run_named(rt, alloc, kind, sample, seats, rounds) {
        Ok(outcome) => audited_run(alloc, sample, &outcome)?,
        Err(fault) => ended(alloc, fault)?,
    };
    put(&answer, writer)
}
