//! Pages of files, each with what the file beside it says.

ghost use Rattle.std.specs.Prelude.{◌≡◌, false};
ghost use Rattle.monk_history.specs.Text.Device.{has_failed};

use crate::told::{Unmade, told_beside, unread};
use crate::{STANDARD_INPUT, UNREADABLE, WORDS, from_file, from_standard_input, tell_hint};
use monk_commands::{Paged, StreamFault, Task, pages_stream};
use monk_draw::Window;
use monk_history::Device;
use monk_page::NOTHING_TOLD;
use std::alloc::{AllocError, Global};
use std::fs;
use std::io::Write;
use std::rt::Files;

/// A file, with what the file beside it says.
#[derive(Drop)]
struct Source {
    text: Vec<u8>,
    beside: String,
}

/// Reads the file of that name, and the one beside it.
fn read_source<R: Files + Eprint + AllocGlobal>(rt: &R, name: &str) -> Result<Source, Unmade> {
    if name == STANDARD_INPUT {
        let _ = rt.eprintln("monk: standard input is a page by itself: name files");
        return Err(Unmade::Told(WORDS));
    }
    let beside = match told_beside(rt, name)? {
        Some(beside) => beside,
        None => String::from_str(rt.alloc(), NOTHING_TOLD)?,
    };
    match fs::read(rt, name) {
        Ok(text) => Ok(Source { text, beside }),
        Err(error) => Err(unread(rt, name, &error)),
    }
}

/// Reads the files of these names, and those beside them.
fn read_sources<R: Files + Eprint + AllocGlobal>(
    rt: &R,
    files: &[String],
) -> Result<Vec<Source>, Unmade> {
    let mut sources = Vec::new(rt.alloc());
    for file in files {
        sources.push(read_source(rt, file.as_str())?)?;
    }
    Ok(sources)
}

/// Returns each source with the name of its file.
fn paged<'a>(
    alloc: Global,
    files: &'a [String],
    sources: &'a [Source],
) -> Result<Vec<Paged<'a>>, AllocError> {
    let mut histories = Vec::new(alloc);
    for (file, source) in files.iter().zip(sources) {
        histories.push(Paged {
            name: file.as_str(),
            text: source.text.as_slice(),
            beside: source.beside.as_str(),
        })?;
    }
    Ok(histories)
}

/// Makes one page of files, each with what the file beside it says. Returns the exit status.
fn page_of_files<R: Files + Eprint + AllocGlobal, W: Write>(
    rt: &R,
    files: &[String],
    window: Option<Window>,
    out: &mut Device<W>,
) -> Result<u8, Unmade>
    requires { has_failed out.old ≡ false }
{
    let sources = read_sources(rt, files)?;
    let histories = paged(rt.alloc(), files, &sources)?;
    let status = pages_stream(rt.alloc(), &histories, window, out)?;
    if status == UNREADABLE {
        for history in &histories {
            tell_hint(rt, &Task::Page(window), history.text);
        }
    }
    Ok(status)
}

/// Makes a page of files, or of standard input if none is named. Returns the exit status.
pub(crate) fn page<R: Files + Input + Eprint + AllocGlobal, W: Write>(
    rt: &R,
    files: &[String],
    window: Option<Window>,
    out: &mut Device<W>,
) -> Result<u8, StreamFault>
    requires { has_failed out.old ≡ false }
{
    let Some(first) = files.first() else {
        return from_standard_input(rt, Task::Page(window), out);
    };
    let made = match told_beside(rt, first.as_str()) {
        Ok(None) if files.len() == 1 => return from_file(
            rt,
            Task::Page(window),
            first.as_str(),
            out,
        ),
        Ok(_) => page_of_files(rt, files, window, out),
        Err(unmade) => Err(unmade),
    };
    match made {
        Ok(status) | Err(Unmade::Told(status)) => Ok(status),
        Err(Unmade::Fault(fault)) => Err(fault),
    }
}
