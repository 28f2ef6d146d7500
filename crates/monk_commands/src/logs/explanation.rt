//! A finding in sentences.

ghost use Rattle.std.specs.Prelude.{IfOk, string_bytes};
ghost use Rattle.monk_commands.specs.{LogAnswered.BeginsWith, LogFound.finding_line};

use crate::logs::cause::put_cause;
use crate::logs::finding::Finding;
use crate::logs::finding_line::finding_line;
use crate::logs::fitting_log::FittingLog;
use crate::logs::judging::run;
use crate::logs::lines_told::LinesTold;
use crate::logs::places::put_places;
use crate::logs::sites::Sites;
use crate::logs::trails::Trails;
use std::alloc::{AllocError, Global};

/// Returns the line of the finding, followed by sentences. They name the line that misfits and those that led to it,
/// or what is wrong at the end. Last comes where each seat is, and since when.
pub(crate) fn explanation(
    alloc: Global,
    beside: &[u8],
    log: FittingLog<'_>,
    finding: &Finding,
) -> Result<String, AllocError>
    ensures { IfOk result (λ text. BeginsWith (finding_line finding.now) (string_bytes text)) }
{
    let mut text = finding_line(alloc, finding)?;
    let sentences = sentences(alloc, beside, log, finding)?;
    text.push_str(sentences.as_str())?;
    Ok(text)
}

fn sentences(
    alloc: Global,
    beside: &[u8],
    log: FittingLog<'_>,
    finding: &Finding,
) -> Result<String, AllocError> {
    let run = run(alloc, log)?;
    let trails = Trails::behind(alloc, log.header.seats(), &run.steps)?;
    let mut told = LinesTold {
        page: String::new(alloc),
        lines: log.lines,
        sites: Sites::in_file(beside),
    };
    put_cause(&mut told, &trails, finding)?;
    put_places(&mut told, &trails)?;
    Ok(told.page)
}
