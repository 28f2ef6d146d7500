//! A monitor as words, places and one floor, which atomic steps of its seats change: who may be active, and when.
//!
//! A seat is the number of a task. The right to be active goes from seat to seat through shared words, each changed
//! by one atomic step at a time: a word from which tickets are drawn, a place for each ticket modulo the seats, and a
//! place for each seat. No lock is taken. By `laws`, each kind of step keeps the right in exactly one place.
#![tactic(auto)]

mod answer;
mod command;
mod entry;
mod home;
pub mod laws;
mod place;
mod play;
mod source;
mod steps;
mod telling;
mod words;
mod world;

pub use answer::Answer;
pub use command::Command;
pub use entry::record_entry;
pub use home::Home;
pub use place::Place;
pub use play::{MOST_COMMANDS, PlayLines, one_play_each, read_play};
pub use source::Source;
pub use world::World;
