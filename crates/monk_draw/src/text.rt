//! A scene as lines of text: one for each seat. Its layout has no contract: tests and the examples fix it.

mod brush;
mod column;
mod fault;
mod lane;
mod signs;
mod strip;
mod words;

use crate::scene::Scene;
use crate::text_form::TextForm;
use brush::Brush;
use column::columns;
use lane::lanes;
use monk_history::Header;
use signs::Signs;
use std::alloc::{AllocError, Global};

/// Returns the picture of a scene as lines of text, in strips of the form's width. A strip has the
/// numbers of its steps, and a line for each seat that comes.
///
/// A seat's line has what it does. Dots, dashes or double lines show that it waits on a condition, in the
/// waiter queue or in the signaller queue. An arrow leads from a release to the seat that goes on. An act
/// with a question mark was refused. If the last event is forbidden, `reason` says why.
///
/// # Errors
///
/// `AllocError` if a request for memory was refused.
///
/// # Cost
///
/// Time for each event and seat that is shown. Memory for the picture: some 20 bytes for each of them.
pub fn draw_text(
    alloc: Global,
    header: &Header,
    scene: &Scene,
    reason: &str,
    form: TextForm<'_>,
) -> Result<String, AllocError> {
    let columns = columns(alloc, header, scene, form.names)?;
    let lanes = lanes(alloc, header.seats(), scene, form.names)?;
    let brush = Brush {
        alloc,
        scene,
        columns: &columns,
        lanes: &lanes,
        seats: header.seats(),
        signs: Signs::of(form.layout.is_ascii),
    };
    let mut page = String::new(alloc);
    brush.put_picture(&mut page, header, form.layout.width as usize, reason)?;
    Ok(page)
}
