//! The line that answers an input, and its status.

ghost use Rattle.std.specs.Prelude.{◌≡◌, ◌≢◌, ◌≤◌, ℕ, List, false, true, IfOk, OnErr, Err, string_bytes};
ghost use Rattle.std.specs.Io.KnownBytes.{Appends};
ghost use Rattle.monk_history.specs.Text.{Device.inner_of, Device.has_failed, Faults.memory, Lines.Gives};
ghost use Rattle.monk_audit.specs.Reading.{same, text_verdict};
ghost use Rattle.monk_commands.specs.Answer.{answer_of, behind, verdict_answer, fault_word, too_big, unreadable};

use crate::fault::StreamFault;
use monk_audit::{TextVerdict, Verdict};
use monk_history::{Device, ReadFault};
use std::alloc::{AllocError, Global};
use std::io::Write;

/// A command's answer to an input.
#[derive(Drop)]
pub struct LineAnswer {
    /// The exit status, 0 to 2.
    pub status: u8,
    /// What is written on standard output.
    pub text: String,
    pub ghost in_range: { status ≤ 2 },
}

/// Returns the answer for what was found in a text: its verdict, or why there is none.
pub(crate) fn answer_to(
    alloc: Global,
    found: Result<TextVerdict, ReadFault>,
) -> Result<LineAnswer, AllocError>
    ensures { (input : List ℕ) → Gives same found (text_verdict input) → IfOk result
        (λ a. (a.status ≡ (answer_of input).status) × (string_bytes a.text ≡ (answer_of input).text)) }
{
    match found {
        Ok(TextVerdict::Judged(verdict)) => verdict_answer(alloc, verdict),
        Ok(TextVerdict::TooBig) => too_big(alloc),
        Err(fault) => unreadable(alloc, fault),
    }
}

/// Returns the answer to a text with a fault. If the fault is want of memory, there is none.
pub(crate) fn unreadable(alloc: Global, fault: ReadFault) -> Result<LineAnswer, AllocError>
    ensures { IfOk result
        (λ a. (fault ≢ memory) × (a.status ≡ (unreadable fault).status)
        × (string_bytes a.text ≡ (unreadable fault).text)) }
{
    if fault.number == ReadFault::MEMORY {
        return Err(AllocError);
    }
    let word = fault_word(fault.number);
    let text = format!(in alloc; "unreadable {} {} {word}\n", fault.line, fault.number)?;
    Ok(LineAnswer { status: 2, text })
}

pub(crate) fn too_big(alloc: Global) -> Result<LineAnswer, AllocError>
    ensures { IfOk result (λ a. (a.status ≡ too_big.status) × (string_bytes a.text ≡ too_big.text)) }
{
    let text = String::from_str(alloc, "object\n")?;
    Ok(LineAnswer { status: 2, text })
}

/// Writes the line of the answer, and returns its status.
pub(crate) fn put<W: Write>(answer: &LineAnswer, writer: &mut Device<W>) -> Result<u8, StreamFault>
    requires { has_failed writer.old ≡ false }
    ensures line { IfOk result
        (λ status. (status ≡ answer.now.status)
        × Appends (W.contents (inner_of writer.old)) (W.contents (inner_of writer.new))
        (string_bytes answer.now.text)) }
    ensures fails { OnErr result ((result ≡ Err StreamFault.File) × (has_failed writer.new ≡ true)) }
{
    match writer.write_all(answer.text.as_bytes()) {
        Ok(()) => Ok(answer.status),
        Err(_) => Err(StreamFault::File),
    }
}

fn fault_word(number: u8) -> &'static str
    ensures { result.now ≡ fault_word number }
{
    match number {
        ReadFault::HEADER => "header",
        ReadFault::WORD => "word",
        ReadFault::NUMBER => "number",
        ReadFault::END => "end",
        _ => "long",
    }
}

pub(crate) fn verdict_answer(alloc: Global, verdict: Verdict) -> Result<LineAnswer, AllocError>
    ensures { IfOk result (λ a. let j = verdict_answer verdict in
        (a.status ≡ j.status) × (string_bytes a.text ≡ j.text)) }
{
    let text = format!(in alloc; "{verdict}\n")?;
    let status = match verdict {
        Verdict::Legal(_) => 0,
        Verdict::Forbidden { .. } => 1,
    };
    Ok(LineAnswer { status, text })
}

/// Returns the answer if the events that are asked for begin after the last that can be shown.
pub(crate) fn behind(alloc: Global, last: usize) -> Result<LineAnswer, AllocError>
    ensures { IfOk result (λ a. (a.status ≡ (behind last).status) × (string_bytes a.text ≡ (behind last).text)) }
{
    let text = format!(in alloc; "window {last}\n")?;
    Ok(LineAnswer { status: 2, text })
}
