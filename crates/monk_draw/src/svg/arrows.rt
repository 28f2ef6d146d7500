//! The arrows from a release to the seat that goes on by it.

use super::Canvas;
use super::layout::{column_at, lane_at};
use crate::scene::lane_of;
use std::alloc::AllocError;

impl Canvas<'_> {
    /// Writes an arrow for each event that hands the monitor to another seat. For a forbidden event
    /// the arrow shows where it would hand it.
    pub(super) fn put_arrows(&mut self) -> Result<(), AllocError> {
        let scene = self.scene;
        for (column, event) in scene.events.iter().enumerate() {
            let Some(to) = scene.arrow(column) else {
                continue;
            };
            let class = if scene.is_forbidden(column) {
                "wish"
            } else {
                self.note("hand")?;
                "hand"
            };
            let (from, to) = (
                lane_of(event.seat(), self.layout.seats),
                lane_of(to, self.layout.seats),
            );
            self.put_arrow(class, from, to, column)?;
        }
        Ok(())
    }

    /// Writes an arrow between the words of its column and those of the next one. None leads from a lane to itself.
    fn put_arrow(
        &mut self,
        class: &str,
        from: u8,
        to: u8,
        column: usize,
    ) -> Result<(), AllocError> {
        if from == to {
            return Ok(());
        }
        let (x, leave, reach) = (column_at(column), lane_at(from), lane_at(to));
        let (bend, tip) = if from < to {
            (leave + 10, reach.saturating_sub(10))
        } else {
            (leave.saturating_sub(10), reach + 10)
        };
        let (start, swing, end) = (x + 6, x + 40, x + 44);
        write!(
            self.page,
            "<path class=\"{class}\" marker-end=\"url(#{class}-tip)\" \
            d=\"M{start} {leave}C{swing} {leave} {end} {bend} {end} {tip}\"/>\n"
        )
    }
}
