//! Pictures as text, with the names from the file beside the history.

ghost use Rattle.std.specs.Prelude.{◌≡◌, false};
ghost use Rattle.monk_history.specs.Text.Device.{has_failed};

use crate::told::{Unmade, names_beside};
use crate::{STANDARD_INPUT, from_input};
use monk_commands::{StreamFault, Task};
use monk_draw::{Names, TextForm, TextLayout, Window};
use monk_history::Device;
use monk_page::ToldNames;
use std::alloc::{AllocError, Global};
use std::io::Write;
use std::rt::Files;

/// Returns the names in the file beside it, if there are some. Standard input has none.
fn names_of<R: Files + Eprint + AllocGlobal>(
    rt: &R,
    file: Option<&str>,
) -> Result<Option<ToldNames>, Unmade> {
    match file {
        Some(name) if name != STANDARD_INPUT => names_beside(rt, name),
        _ => Ok(None),
    }
}

fn borrowed<'a>(alloc: Global, names: &'a [String]) -> Result<Vec<&'a str>, AllocError> {
    let mut borrowed = Vec::with_capacity(alloc, names.len())?;
    for name in names {
        borrowed.push(name.as_str())?;
    }
    Ok(borrowed)
}

/// Draws the file as text, with these names. Returns the exit status.
fn draw_named<R: Files + Input + Eprint + AllocGlobal, W: Write>(
    rt: &R,
    file: Option<&str>,
    window: Option<Window>,
    layout: TextLayout,
    told: &ToldNames,
    out: &mut Device<W>,
) -> Result<u8, StreamFault>
    requires { has_failed out.old ≡ false }
{
    let seats = borrowed(rt.alloc(), &told.seats)?;
    let conditions = borrowed(rt.alloc(), &told.conditions)?;
    let names = Names {
        seats: &seats,
        conditions: &conditions,
    };
    from_input(
        rt,
        Task::DrawText(window, TextForm { layout, names }),
        file,
        out,
    )
}

/// Draws the file as text, or standard input if none is named. Returns the exit status.
pub(crate) fn draw_text<R: Files + Input + Eprint + AllocGlobal, W: Write>(
    rt: &R,
    file: Option<&str>,
    window: Option<Window>,
    layout: TextLayout,
    out: &mut Device<W>,
) -> Result<u8, StreamFault>
    requires { has_failed out.old ≡ false }
{
    let names = Names::NONE;
    match names_of(rt, file) {
        Ok(Some(told)) => draw_named(rt, file, window, layout, &told, out),
        Ok(None) => from_input(
            rt,
            Task::DrawText(window, TextForm { layout, names }),
            file,
            out,
        ),
        Err(Unmade::Told(status)) => Ok(status),
        Err(Unmade::Fault(fault)) => Err(fault),
    }
}
