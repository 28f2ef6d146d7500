//! A token has no gaps: its size is the sum of its fields'.
//!
//! Fields lie in memory in the order in which they are written, each at a multiple of its alignment. So there may be
//! bytes of no field between two of them, or after the last one. A move of the token copies such bytes too, in words
//! that overlap the fields' own words. Then a visit takes nearly twice the time. A field that leaves a gap is refused
//! here. A token has the same size for every kind and object, so one of each is enough.
use crate::active::Active;
use crate::boxed_floor::BoxedFloor;
use crate::parked::Parked;
use crate::pass::Pass;
use crate::record::View;
use crate::rule::TableSeat;
use crate::seat_numbers::SeatNumbers;
use atomic_table::Badge;
use monk_kinds::Pb;
use monk_object::Flags;
use monk_world::Place;
use std::mem::size_of;

/// The bytes of the fields of `Pass`.
const PASS: usize = size_of::<Badge<View>>() + size_of::<SeatNumbers>() + 2 * size_of::<u32>();

/// The bytes of the fields of `Parked`.
const PARKED: usize = size_of::<TableSeat<Pb, Flags>>()
    + size_of::<SeatNumbers>()
    + size_of::<u32>()
    + size_of::<Place>();

/// The bytes of the fields of `Active`.
const ACTIVE: usize = size_of::<TableSeat<Pb, Flags>>()
    + size_of::<SeatNumbers>()
    + size_of::<BoxedFloor<Pb, Flags>>();

const _: () = prove!(size_of::<Pass<Pb, Flags>>() == PASS);

const _: () = prove!(size_of::<Parked<Pb, Flags>>() == PARKED);

const _: () = prove!(size_of::<Active<Pb, Flags>>() == ACTIVE);
