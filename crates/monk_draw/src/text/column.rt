//! The columns of a picture of text: one for each event.

use super::words::put_words;
use crate::names::Names;
use crate::scene::Scene;
use monk_history::Header;
use std::alloc::{AllocError, Global};

/// The number of character columns before each event, for the arrow that leads to it.
pub(crate) const GAP: usize = 3;

/// The column of an event.
#[derive(Debug, Drop)]
pub(crate) struct Column {
    /// The number of its step.
    pub(crate) number: String,
    /// The event in words.
    pub(crate) words: String,
    /// Its width: that of its words or of its number, whichever is wider.
    pub(crate) width: usize,
}

/// Returns the columns of the events that are shown.
pub(crate) fn columns(
    alloc: Global,
    header: &Header,
    scene: &Scene,
    names: Names<'_>,
) -> Result<Vec<Column>, AllocError> {
    let mut columns = Vec::with_capacity(alloc, scene.events.len())?;
    for (index, event) in scene.events.iter().enumerate() {
        let mut words = String::new(alloc);
        put_words(&mut words, header, names, *event)?;
        let step = scene.step(index);
        let number = format!(in alloc; "{step}")?;
        let width = words.len().max(number.len());
        columns.push(Column {
            number,
            words,
            width,
        })?;
    }
    Ok(columns)
}
