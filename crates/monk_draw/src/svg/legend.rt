//! The legend: what the colours, hatchings and signs of the picture mean.

use super::Canvas;
use std::alloc::AllocError;

/// The class of a seat that is outside, and of the rail of a lane.
pub(super) const OUTSIDE: &str = "rail";

/// What a picture shows by a colour, a hatching or a sign, in the order of the legend: the class
/// that has the look in the style, and its words in the legend.
const LOOKS: [(&str, &str); 9] = [
    ("active", "active"),
    ("entry", "waits at the entry"),
    ("condition", "waits on a condition"),
    ("waiter", "in the waiter queue"),
    ("signaller", "in the signaller queue"),
    ("until", "waits until a predicate"),
    (OUTSIDE, "outside"),
    ("hand", "goes on by a release"),
    ("mark refused", "refused by the object"),
];

impl Canvas<'_> {
    /// Notes that the look of the class occurs.
    pub(super) fn note(&mut self, class: &'static str) -> Result<(), AllocError> {
        if !self.looks.contains(&class) {
            self.looks.push(class)?;
        }
        Ok(())
    }

    /// Notes if the object refused an act.
    pub(super) fn note_refused(&mut self) -> Result<(), AllocError> {
        for column in 0..self.layout.columns {
            if self.scene.is_refused(column) {
                self.note("mark refused")?;
            }
        }
        Ok(())
    }

    /// Writes the legend of the looks that occur, four in a row. The look of outside occurs in each picture.
    pub(super) fn put_legend(&mut self) -> Result<(), AllocError> {
        let mut at = 0u8;
        for look in LOOKS.iter() {
            let (class, words) = *look;
            if class == OUTSIDE || self.looks.contains(&class) {
                self.put_look(at, class, words)?;
                at = at.saturating_add(1);
            }
        }
        Ok(())
    }

    /// Writes a sample and its words, after the first `at` of the legend.
    fn put_look(&mut self, at: u8, class: &str, words: &str) -> Result<(), AllocError> {
        let (column, row) = (u64::from(at % 4), u64::from(at / 4));
        let (x, y) = (16 + 180 * column, self.layout.base() + 22 * row);
        write!(self.page, "<g transform=\"translate({x} {y})\">")?;
        self.put_sample(class)?;
        write!(
            self.page,
            "<text class=\"soft\" x=\"28\" y=\"10\">{words}</text></g>\n"
        )
    }

    /// Writes a sample of the look.
    fn put_sample(&mut self, class: &str) -> Result<(), AllocError> {
        let (shape, rest) = match class {
            OUTSIDE => ("path", "d=\"M0 6h22\"/>"),
            "hand" => ("path", "marker-end=\"url(#hand-tip)\" d=\"M0 6h20\"/>"),
            "mark refused" => (
                "g",
                "transform=\"translate(11 6)\"><circle r=\"6\"/>\
                <path d=\"M-4 -4L4 4M-4 4L4 -4\"/></g>",
            ),
            _ => ("rect", "width=\"22\" height=\"12\" rx=\"3\"/>"),
        };
        write!(self.page, "<{shape} class=\"{class}\" {rest}")
    }
}
