//! The picture or the page of a log: of a run that tells it, up to the line that misfits.

ghost use Rattle.std.specs.Prelude.{◌≡◌, ◌≤◌, ◌^◌, IfOk, length, string_bytes};
ghost use Rattle.monk_object.specs.Names.{most};
ghost use Rattle.monk_commands.specs.LogDrawn as drawn;

use crate::answer::{LineAnswer, behind, too_big, unreadable};
use crate::completing::header_of;
use crate::logs::fitting_log::FittingLog;
use crate::logs::judging::run;
use crate::logs::paging::{page_around, scene};
use crate::logs::verdict_words::number;
use crate::show::Show;
use monk_draw::{Picture, Span, Window, is_behind};
use monk_judge::{Misfit, Run};
use monk_kinds::KindName;
use monk_logs::{LogHeader, LogLine, read_log};
use monk_page::ShownRun;
use std::alloc::{AllocError, Global};

/// Returns the lines that are drawn: those up to the one that misfits.
fn drawn_lines(misfit: Option<Misfit>, lines: &[LogLine]) -> &[LogLine]
    ensures { result.now ≡ drawn.drawn_lines misfit lines.now }
{
    match misfit {
        None => lines,
        Some(misfit) => lines.get(..misfit.line.saturating_add(1)).unwrap_or(lines),
    }
}

/// Returns what the picture says about the line that misfits, if one does.
fn reason(alloc: Global, misfit: Option<Misfit>) -> Result<String, AllocError> {
    match misfit {
        None => Ok(String::new(alloc)),
        Some(misfit) => {
            let (line, word) = (number(misfit.line), misfit.why.text());
            Ok(format!(in alloc; "{word}, line {line} of the file")?)
        }
    }
}

/// Returns the picture of a run, or the page with it.
fn shown(
    alloc: Global,
    show: Show<'_>,
    window: Option<Window>,
    header: &LogHeader,
    run: &Run,
    lines: &[LogLine],
) -> Result<LineAnswer, AllocError>
    requires size { header.now.size ≤ most header.now.object }
    requires run { drawn.HasRun header.now run.now }
    ensures status { IfOk result (λ a. a.status ≡ drawn.status_of run.now.misfit) }
    ensures text { IfOk result
        (λ a. drawn.IsRunShownAs show.entry window header.now run.now lines.now (string_bytes a.text)) }
{
    let span = Span::of(window, lines.len());
    let scene = scene(alloc, header, run, lines, span)?;
    let heading = header_of(KindName::Npnb, header);
    let form = match show {
        Show::Picture(form) => form,
        Show::Page => Picture::Svg,
    };
    let picture = form.of_scene(alloc, &heading, &scene, &reason(alloc, run.misfit)?)?;
    let text = match show {
        Show::Picture(_) => picture,
        Show::Page => {
            let shown = ShownRun { run, lines, span };
            page_around(alloc, picture.as_str(), header, shown)?
        }
    };
    Ok(LineAnswer {
        status: status(run.misfit),
        text,
    })
}

/// Returns the exit status: 1 if the log misfits.
fn status(misfit: Option<Misfit>) -> u8
    ensures { result ≡ drawn.status_of misfit }
{
    match misfit {
        None => 0,
        Some(_) => 1,
    }
}

/// Returns the same, if the lines that are asked for begin with one that is drawn.
fn shown_if_there(
    alloc: Global,
    show: Show<'_>,
    window: Option<Window>,
    header: &LogHeader,
    run: &Run,
    lines: &[LogLine],
) -> Result<LineAnswer, AllocError>
    requires size { header.now.size ≤ most header.now.object }
    requires run { drawn.HasRun header.now run.now }
    ensures { IfOk result
        (λ a. drawn.IsRunShown show.entry window header.now run.now lines.now a.status (string_bytes a.text)) }
{
    if is_behind(window, lines.len()) {
        return behind(alloc, lines.len());
    }
    shown(alloc, show, window, header, run, lines)
}

/// Returns the answer to a log that was read.
fn answer_to_read(
    alloc: Global,
    show: Show<'_>,
    window: Option<Window>,
    header: &LogHeader,
    lines: &[LogLine],
) -> Result<LineAnswer, AllocError>
    requires few { length lines.now ≤ 2 ^ 25 }
    ensures { IfOk result
        (λ a. drawn.IsLogShown show.entry window (header.now, lines.now) a.status (string_bytes a.text)) }
{
    if header.size() > header.object().greatest_size() {
        return too_big(alloc);
    }
    let run = run(alloc, FittingLog { header, lines })?;
    let drawn = drawn_lines(run.misfit, lines);
    shown_if_there(alloc, show, window, header, &run, drawn)
}

/// Returns the picture or the page of a log, from its text, or why there is none. It has a column for each line up
/// to the one that misfits. See [`Task::Draw`](crate::Task::Draw). It fails only for want of memory.
pub fn show_log(
    alloc: Global,
    show: Show<'_>,
    window: Option<Window>,
    bytes: &[u8],
) -> Result<LineAnswer, AllocError>
    ensures { IfOk result
        (λ a. drawn.IsLogShowing show.entry window bytes.now a.status (string_bytes a.text)) }
{
    match read_log(alloc, bytes) {
        Ok((header, lines)) => answer_to_read(alloc, show, window, &header, &lines),
        Err(fault) => unreadable(alloc, fault),
    }
}
