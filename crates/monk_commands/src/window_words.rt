//! What the words of `draw` and of `page` ask for.

ghost use Rattle.std.specs.Prelude.{IfOk, codes};
ghost use Rattle.clap.specs.Words.{found_of, rows_of};
ghost use Rattle.monk_commands.specs.Request.{IsRead, IsWindowIn};

use crate::found_words::{file_of, files_of, is_set, number_of};
use crate::request::{Line, LineFault};
use clap::ArgMatches;
use monk_draw::{TextLayout, Window};
use std::alloc::Global;

/// How many histories a page has at most.
const MOST_PAGED: usize = 4;

/// Returns the events that are asked for, if any are.
///
/// # Errors
///
/// [`LineFault::Words`] with the words of a [`WindowFault`](monk_draw::WindowFault), in one line.
/// [`LineFault::Memory`] if a request for memory was refused.
fn window_of(alloc: Global, matches: &ArgMatches<'_>) -> Result<Option<Window>, LineFault>
    ensures { IfOk result (λ window. IsWindowIn window (rows_of (found_of matches.now))) }
{
    let from = number_of(alloc, matches, "from")?;
    let to = number_of(alloc, matches, "to")?;
    match Window::asked(from, to) {
        Ok(window) => Ok(window),
        Err(fault) => Err(LineFault::Words(format!(in alloc; "error: {fault}")?)),
    }
}

pub(crate) fn line_to_draw(alloc: Global, matches: &ArgMatches<'_>) -> Result<Line, LineFault>
    ensures { IfOk result (λ l. IsRead (codes "draw") l (rows_of (found_of matches.now))) }
{
    let file = file_of(alloc, matches)?;
    let window = window_of(alloc, matches)?;
    let width = number_of(alloc, matches, "width")?;
    let is_ascii = is_set(matches, "ascii");
    if is_set(matches, "text") {
        let width = width.unwrap_or(TextLayout::USUAL_WIDTH);
        return Ok(Line::DrawText(file, window, TextLayout { width, is_ascii }));
    }
    if is_ascii || width.is_some() {
        let text = "error: --width and --ascii are for --text";
        return Err(LineFault::Words(String::from_str(alloc, text)?));
    }
    Ok(Line::Draw(file, window))
}

pub(crate) fn line_to_page(alloc: Global, matches: &ArgMatches<'_>) -> Result<Line, LineFault>
    ensures { IfOk result (λ l. IsRead (codes "page") l (rows_of (found_of matches.now))) }
{
    let files = files_of(alloc, matches)?;
    let window = window_of(alloc, matches)?;
    if files.len() > MOST_PAGED {
        let text = "error: a page has at most four histories";
        return Err(LineFault::Words(String::from_str(alloc, text)?));
    }
    Ok(Line::Page(files, window))
}
