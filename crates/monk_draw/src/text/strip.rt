//! The strips of a picture of text.

use super::column::{Column, GAP};
use std::alloc::{AllocError, Global};

/// A strip: the columns from `first` up to the one before `last`.
#[derive(Clone, Copy, Debug, PartialEq, Eq)]
pub(crate) struct Strip {
    pub(crate) first: usize,
    pub(crate) last: usize,
}

/// Returns the strips of the columns. Each has as many of them as there is room for, and at least one.
pub(crate) fn strips(
    alloc: Global,
    columns: &[Column],
    room: usize,
) -> Result<Vec<Strip>, AllocError> {
    let mut strips = Vec::new(alloc);
    let (mut first, mut used) = (0usize, 0usize);
    for (last, column) in columns.iter().enumerate() {
        let width = column.width.saturating_add(GAP);
        used = used.saturating_add(width);
        if first < last && used > room {
            strips.push(Strip { first, last })?;
            first = last;
            used = width;
        }
    }
    let last = columns.len();
    if first < last {
        strips.push(Strip { first, last })?;
    }
    Ok(strips)
}
