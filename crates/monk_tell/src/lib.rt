//! Says how a monitor stands after a history, and what was wrong with a forbidden one and what would have been allowed.
#![tactic(auto)]

mod choice;
mod data;
mod forbidden;
mod judged;
mod judging;
pub mod laws;
mod lines;
mod lists;
mod permitted;
mod place;
mod queues;
mod refused;
mod rules;
mod said;
mod sentences;
mod standing;
mod step;
mod steps;
mod telling;
mod told;
mod why;

pub use choice::Choice;
pub use data::Data;
pub use forbidden::ForbiddenEvent;
pub use judged::{JudgedHistory, forbidden_step};
pub use lists::{FrontList, Nexts, NumberList, SeatList, Waits};
pub use place::SeatPlace;
pub use queues::{Conditions, QueueLists};
pub use refused::Refused;
pub use rules::{Ranks, mode_word};
pub use said::{SaidEvent, SaidTurn, call_word, queue_word, via_word};
pub use standing::{Standing, data_numbers};
pub use step::Step;
pub use telling::Telling;
pub use told::{tell, tell_judged, tell_steps};
pub use why::{OutOfTurn, Precedence, Staying, Why};
