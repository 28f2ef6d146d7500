//! Lines of a log, as an explanation names them.

use crate::logs::sites::Sites;
use crate::logs::verdict_words::number;
use monk_judge::Step;
use monk_logs::LogLine;
use std::alloc::AllocError;

/// Text about the lines of a log, with their places in the source of its program.
#[derive(Drop)]
pub(crate) struct LinesTold<'a> {
    /// The text so far.
    pub(crate) page: String,
    pub(crate) lines: &'a [LogLine],
    pub(crate) sites: Sites<'a>,
}

impl LinesTold<'_> {
    /// Writes the line with that index, if there is one, as in `line 13: act 0 1 0 8 (buffer.c:41)`, and a
    /// sentence about it.
    pub(crate) fn put(&mut self, index: Option<usize>, sentence: &str) -> Result<(), AllocError> {
        let Some(index) = index else {
            return Ok(());
        };
        let Some(line) = self.lines.get(index) else {
            return Ok(());
        };
        let page = &mut self.page;
        write!(page, "line {}: {}", number(index), Step::Tells(*line, None))?;
        self.put_place(index)?;
        let page = &mut self.page;
        writeln!(page, ": {sentence}")
    }

    /// Writes the line's place in the source, if it is known and is text.
    pub(crate) fn put_place(&mut self, index: usize) -> Result<(), AllocError> {
        let Some(place) = self.sites.of_line(index) else {
            return Ok(());
        };
        let page = &mut self.page;
        match std::str::from_utf8(place) {
            Ok(place) => write!(page, " ({place})"),
            Err(_) => Ok(()),
        }
    }
}
