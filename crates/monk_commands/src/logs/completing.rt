//! A run that tells a log, or why there is none.

ghost use Rattle.std.specs.Prelude.{◌≡◌, ◌≤◌, ◌^◌, length, IfOk, string_bytes};
ghost use Rattle.monk_commands.specs.RunText.{IsRunAnswer, IsRunGiven, IsRunGivenTo, misfit_line};

use crate::answer::{LineAnswer, too_big, unreadable};
use crate::logs::fitting_log::FittingLog;
use crate::logs::judging::run;
use crate::logs::run_text::run_text;
use crate::logs::verdict_words::number;
use monk_judge::{Misfit, Run};
use monk_logs::{LogHeader, LogLine, read_log};
use std::alloc::{AllocError, Global};

fn misfit_line(alloc: Global, misfit: Misfit) -> Result<String, AllocError>
    ensures { IfOk result (λ text. string_bytes text ≡ misfit_line misfit) }
{
    let (line, word) = (number(misfit.line), misfit.why.text());
    Ok(format!(in alloc; "misfit at {line}: {word}\n")?)
}

fn given(alloc: Global, header: &LogHeader, run: &Run) -> Result<LineAnswer, AllocError>
    ensures { IfOk result (λ a. IsRunGiven header.now run.now a.status (string_bytes a.text)) }
{
    match run.misfit {
        None => Ok(LineAnswer {
            status: 0,
            text: run_text(alloc, header, &run.steps)?,
        }),
        Some(misfit) => Ok(LineAnswer {
            status: 1,
            text: misfit_line(alloc, misfit)?,
        }),
    }
}

fn answer_to_log(
    alloc: Global,
    header: &LogHeader,
    lines: &[LogLine],
) -> Result<LineAnswer, AllocError>
    requires few { length lines.now ≤ 2 ^ 25 }
    ensures { IfOk result (λ a. IsRunGivenTo (header.now, lines.now) a.status (string_bytes a.text)) }
{
    if header.size() > header.object().greatest_size() {
        return too_big(alloc);
    }
    let run = run(alloc, FittingLog { header, lines })?;
    Ok(given(alloc, header, &run)?)
}

/// Returns a run that tells the text of a log, or why there is none. See [`Task::Complete`](crate::Task::Complete).
/// It fails only for want of memory.
pub fn run_answer(alloc: Global, bytes: &[u8]) -> Result<LineAnswer, AllocError>
    ensures { IfOk result (λ a. IsRunAnswer bytes.now a.status (string_bytes a.text)) }
{
    match read_log(alloc, bytes) {
        Ok((header, lines)) => answer_to_log(alloc, &header, &lines),
        Err(fault) => unreadable(alloc, fault),
    }
}
