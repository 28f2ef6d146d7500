//! The SVG text of a scene. Its layout has no contract: stored pictures fix it.

mod arrows;
mod bars;
mod ground;
mod layout;
mod legend;
mod marks;
mod style;

use crate::scene::Scene;
use layout::Layout;
use monk_history::Header;
use std::alloc::{AllocError, Global};

/// A picture that is being drawn.
#[derive(Drop)]
struct Canvas<'a> {
    /// Its text so far.
    page: String,
    /// The classes of the looks that the legend has to explain.
    looks: Vec<&'static str>,
    scene: &'a Scene,
    layout: Layout,
}

/// Returns the picture of a scene as an SVG text, with a lane for each seat and a column for each
/// event, to the right. If the last event is forbidden, `reason` says why; it may hold no markup.
///
/// # Errors
///
/// `AllocError` if a request for memory was refused.
///
/// # Cost
///
/// Time for each event and seat that is shown. Memory for the picture: some 1 kB for each event.
pub fn draw(
    alloc: Global,
    header: &Header,
    scene: &Scene,
    reason: &str,
) -> Result<String, AllocError> {
    let mut canvas = Canvas {
        page: String::new(alloc),
        looks: Vec::new(alloc),
        scene,
        layout: Layout::of(header, scene),
    };
    canvas.put_all(alloc, header, reason)?;
    Ok(canvas.page)
}

impl Canvas<'_> {
    /// Writes the whole picture.
    fn put_all(&mut self, alloc: Global, header: &Header, reason: &str) -> Result<(), AllocError> {
        self.put_ground(header)?;
        self.put_bars(alloc)?;
        self.put_arrows()?;
        self.note_refused()?;
        self.put_tags()?;
        self.put_fault(reason)?;
        self.put_legend()?;
        self.put_marks(header.object())?;
        self.page.push_str("</svg>\n")
    }
}
