//! A play as lines of text: the commands of seats, in the order in which they are carried out.

mod head;
mod line;
mod lines;
mod reading;
mod verb;

pub use lines::PlayLines;
pub use reading::{MOST_COMMANDS, one_play_each, read_play};
