//! The layout of a picture of text.

use crate::names::Names;

/// The width of the strips of a picture of text, and its signs.
#[derive(Clone, Copy, Debug, PartialEq, Eq)]
pub struct TextLayout {
    /// The most columns of a strip. A strip whose one event is wider has more.
    pub width: u32,
    /// Whether all signs are ASCII.
    pub is_ascii: bool,
}

impl TextLayout {
    /// The width if none is asked for: that of a usual terminal.
    pub const USUAL_WIDTH: u32 = 80;
}

/// A picture of text: its layout, and the names of seats and conditions.
#[derive(Clone, Copy, Debug)]
pub struct TextForm<'a> {
    /// Its layout.
    pub layout: TextLayout,
    /// The names that are known.
    pub names: Names<'a>,
}
