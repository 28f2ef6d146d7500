//! The marks of events, and a frame around the one that is forbidden.

use super::Canvas;
use super::layout::{column_at, lane_at};
use crate::label::{event_word, put_note};
use crate::scene::lane_of;
use monk_history::Event;
use monk_object::ObjectName;
use monk_tell::SaidEvent;
use std::alloc::AllocError;

/// From this x on, the second caption doesn't reach the one at the left.
const FAR: u64 = 1400;

impl Canvas<'_> {
    /// Writes the marks of the events in order, the first of them in the first column.
    pub(super) fn put_marks(&mut self, object: ObjectName) -> Result<(), AllocError> {
        let scene = self.scene;
        for (column, event) in scene.events.iter().enumerate() {
            self.put_dot(column, event.seat())?;
            self.put_words(object, scene.step(column), *event)?;
        }
        Ok(())
    }

    /// Writes the number of the step above its column, and a dot in its seat's lane. If the object
    /// refused the act, the dot is crossed.
    fn put_dot(&mut self, column: usize, seat: u8) -> Result<(), AllocError> {
        let (x, y) = (column_at(column), lane_at(lane_of(seat, self.layout.seats)));
        let step = self.scene.step(column);
        write!(
            self.page,
            "<text class=\"step\" x=\"{x}\" y=\"60\">{step}</text>\n\
            <g class=\"mark\" transform=\"translate({x} {y})\"><circle r=\"4\"/>\n"
        )?;
        if self.scene.is_refused(column) {
            self.page.push_str(
                "<g class=\"refused\"><circle r=\"7\"/><path d=\"M-4 -4L4 4M-4 4L4 -4\"/></g>\n",
            )?;
        }
        Ok(())
    }

    /// Writes the event's line, which is shown when a pointer is on its mark, its word above the
    /// dot, and its numbers below.
    fn put_words(
        &mut self,
        object: ObjectName,
        step: usize,
        event: Event,
    ) -> Result<(), AllocError> {
        let (line, word) = (SaidEvent(event), event_word(object, event));
        write!(
            self.page,
            "<title>{step}: {line}</title>\n\
            <text class=\"act\" y=\"-17\">{word}</text>\n<text class=\"note\" y=\"25\">"
        )?;
        put_note(&mut self.page, event)?;
        self.page.push_str("</text></g>\n")
    }

    /// Marks the last event as forbidden, if it is, by a frame around it and a caption. The caption has the
    /// step and the reason. It is at the left, and also above the column if that is far from there.
    pub(super) fn put_fault(&mut self, reason: &str) -> Result<(), AllocError> {
        let column = self.scene.allowed();
        let Some(event) = self.scene.events.get(column) else {
            return Ok(());
        };
        let (x, y) = (
            column_at(column),
            lane_at(lane_of(event.seat(), self.layout.seats)),
        );
        let (left, top) = (x.saturating_sub(33), y.saturating_sub(31));
        let step = self.scene.step(column);
        write!(
            self.page,
            "<rect class=\"frame\" x=\"{left}\" y=\"{top}\" width=\"66\" height=\"62\" rx=\"6\"/>\n\
            <text class=\"wrong\" x=\"300\" y=\"28\">{step} is forbidden: {reason}</text>\n"
        )?;
        if x < FAR {
            return Ok(());
        }
        write!(
            self.page,
            "<text class=\"wrong far\" x=\"{x}\" y=\"28\">{step} is forbidden: {reason}</text>\n"
        )
    }
}
