//! The stream of a recorded run: a sample at work in threads, and the text of the history that it left.

ghost use Rattle.std.specs.Prelude.{◌≡◌, ◌⊎◌, false, true, Err, IfOk, IsErrOf, IsTrue, OnErr};
ghost use Rattle.std.specs.Io.KnownBytes.{Appends};
ghost use Rattle.monk_history.specs.Text.{HasText, is_writable, text, Device.inner_of, Device.has_failed};
ghost use Rattle.monk_samples.specs.Samples.{IsInRange, patiently};
ghost use Rattle.monk_commands.specs.Ran.{IsRecordAnswer, IsUnstarted};

use crate::answer::put;
use crate::crew::Crew;
use crate::fault::StreamFault;
use crate::running::{ended, run_named};
use monk_history::{Device, Event, Header, write};
use monk_samples::Sample;
use std::alloc::Global;
use std::io::Write;
use std::sync::Wait;
use std::thread::Threads;

/// Writes the text of a history.
pub(crate) fn put_history<W: Write>(
    header: &Header,
    history: &[Event],
    writer: &mut Device<W>,
) -> Result<(), StreamFault>
    requires works { has_failed writer.old ≡ false }
    requires writable { IsTrue (is_writable header.now history.now) }
    ensures has_text { IfOk result (λ _. HasText header.now history.now) }
    ensures told { IfOk result
        (λ _. Appends (W.contents (inner_of writer.old)) (W.contents (inner_of writer.new))
        (text header.now history.now)) }
    ensures fails { OnErr result ((result ≡ Err StreamFault.File) × (has_failed writer.new ≡ true)) }
{
    match write(header, history, writer) {
        Ok(()) => Ok(()),
        Err(_) => Err(StreamFault::File),
    }
}

/// Runs the sample under the kind, and writes the text of the history that it left, in version 1, with status 0. 2
/// to 16 seats work for 1 to 1000 rounds each, in threads of their own. An audit finds the history legal.
///
/// If [`run`](monk_samples::run) ends as `Tired`, `Late` or `Busy`, only the line `tired`, `late` or `busy` is
/// written, with status 1.
///
/// # Errors
///
/// The errors of [`run_stream`](crate::run_stream).
///
/// # Cost
///
/// The cost of [`run`](monk_samples::run), and one pass over the history. The text takes no memory.
pub fn record_stream<R: Threads + Wait + Sync, W: Write>(
    rt: &R,
    alloc: Global,
    sample: Sample,
    crew: Crew,
    writer: &mut Device<W>,
) -> Result<u8, StreamFault>
    requires in_range { IsInRange crew.seats crew.rounds }
    requires works { has_failed writer.old ≡ false }

    // With status 0 the text is that of a legal history that a run of this kind and sample left.
    ensures answer { IfOk result
        (λ status. IsRecordAnswer crew.kind sample crew.seats crew.rounds status
        (Appends (W.contents (inner_of writer.old)) (W.contents (inner_of writer.new)))) }
    // Either the writer has failed, or it is unchanged and a thread was not started.
    ensures file { IsErrOf result StreamFault.File → (has_failed writer.new ≡ true)
        ⊎ ((writer.new ≡ writer.old) × IsUnstarted crew.kind (patiently sample) crew.seats crew.rounds) }
    ensures memory { IsErrOf result StreamFault.Memory → writer.new ≡ writer.old }
{
    match run_named(rt, alloc, crew.kind, sample, crew.seats, crew.rounds) {
        Ok(outcome) => match put_history(&outcome.header, &outcome.history, writer) {
            Ok(()) => Ok(0),
            Err(fault) => Err(fault),
        },
        Err(fault) => put(&ended(alloc, fault)?, writer),
    }
}
