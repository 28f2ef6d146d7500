//! What a seat of the table knows.
use crate::deed::Deed;
use crate::setting::Setting;
use monk_history::Event;
use monk_world::Place;
use std::collections::LinkedList;

/// One seat: its number, the hall's setting, where it is, how often it was called, whether it knows of somebody at
/// the entry, the longest history that it has seen, its own events, and what it has done at the table, in order. It
/// is for contracts: no value of it is made.
pub struct SeatRecord {
    pub seat: u8,
    pub setting: Setting,
    pub place: Place,
    pub count: u64,
    pub known: bool,
    pub seen: LinkedList<Event>,
    pub mine: LinkedList<Event>,
    pub did: LinkedList<Deed>,
}

/// What a view of the table holds: the record of one seat, of all seats before the passes are
/// handed out, or of two seats that meet.
pub type View = LinkedList<SeatRecord>;
