//! Sample monitors, each written once for all ten kinds: a bounded buffer, a book of readers and writers, a barber's
//! shop.
//!
//! A member is a function that a task calls with its pass. It comes in, pauses while its predicate is false, does its
//! operation, and goes out in a way that lets the next one go on. The kind's `Style` says how a seat pauses and goes
//! out. So a member is the same text for a monitor of Hoare, of Mesa, or without signals.
#![tactic(auto)]

mod book;
mod buffer;
mod closing;
mod crew;
mod crew_fault;
mod duty;
mod end;
mod gate;
mod haste;
mod hasty_outcome;
mod heading;
mod limits;
mod manner;
mod outcome;
mod rota;
mod run_fault;
mod running;
mod sample;
mod scenario;
mod shop;
mod style;
mod styles;
mod totals;
mod visit;
mod worker;

pub use book::{read_begin, read_end, write_begin, write_end, write_end_all};
pub use buffer::{put, put_wait, take};
pub use end::End;
pub use gate::{Gate, OpenGate};
pub use hasty_outcome::HastyOutcome;
pub use limits::{LEAST_RUN_SEATS, MOST_ROUNDS, MOST_RUN_SEATS};
pub use outcome::Outcome;
pub use run_fault::RunFault;
pub use running::{run, run_hasty};
pub use sample::Sample;
pub use shop::{barber_turn, sit_and_cut};
pub use style::Style;
