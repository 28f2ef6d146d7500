//! The memory of a handle has no gaps except after the tags of its enums. Each tag takes a word. The tokens have
//! no gaps: see `monk_hall`.
use crate::any_seat::AnySeat;
use crate::seat::{Seat, Shared};
use crate::token::SeatToken;
use monk_hall::Parked;
use monk_kinds::Pb;
use monk_object::Flags;
use std::mem::size_of;

/// A tag, up to the word that comes after it.
const TAG: usize = size_of::<u64>();

const _: () = prove!(size_of::<SeatToken<Pb>>() == TAG + size_of::<Parked<Pb, Flags>>());

const _: () = prove!(size_of::<Seat<Pb>>() == size_of::<Shared<Pb>>() + size_of::<SeatToken<Pb>>());

const _: () = prove!(size_of::<AnySeat>() == TAG + size_of::<Seat<Pb>>());
