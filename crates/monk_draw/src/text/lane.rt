//! The lanes of a picture of text: one for each seat that comes.

use crate::names::Names;
use crate::scene::{Scene, lane_of};
use monk_tell::SeatPlace;
use std::alloc::{AllocError, Global};

/// The lane of a seat.
#[derive(Debug, Drop)]
pub(crate) struct Lane {
    /// The seat's number. The lane for seats that don't exist has the number of seats.
    pub(crate) number: u8,
    /// The name of the seat.
    pub(crate) title: String,
}

/// Whether the seat does something in the scene, or is inside from the beginning.
fn comes(scene: &Scene, seats: u8, lane: u8) -> bool {
    scene.place(0, lane) != SeatPlace::Outside
        || scene
            .events
            .iter()
            .any(|event| lane_of(event.seat(), seats) == lane)
}

fn title(alloc: Global, seats: u8, names: Names<'_>, lane: u8) -> Result<String, AllocError> {
    match names.seats.get(usize::from(lane)) {
        _ if lane >= seats => String::from_str(alloc, "no seat"),
        Some(name) => String::from_str(alloc, name),
        None => format!(in alloc; "seat {lane}"),
    }
}

/// Returns the lanes of the seats that come, by their numbers.
pub(crate) fn lanes(
    alloc: Global,
    seats: u8,
    scene: &Scene,
    names: Names<'_>,
) -> Result<Vec<Lane>, AllocError> {
    let mut lanes = Vec::new(alloc);
    for number in 0..=seats {
        if comes(scene, seats, number) {
            lanes.push(Lane {
                number,
                title: title(alloc, seats, names, number)?,
            })?;
        }
    }
    Ok(lanes)
}
