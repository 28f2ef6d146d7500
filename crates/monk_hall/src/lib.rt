//! A monitor for running threads, of every kind, without a lock.
//!
//! A hall is a table of atomic words, and one slot, which holds the floor while no seat is active. A seat is the
//! number of a task. A thread has it as a token, which says where the seat is: a `Pass` is outside, a `Parked` waits,
//! an `Active` has the floor in its hands. Each call is a few atomic steps, and each has the same definition as a
//! step of a `World`.
#![tactic(auto)]

mod active;
mod after;
mod boxed_floor;
mod busy;
mod closed;
mod closing;
mod completeness;
mod deed;
mod excluding;
mod granted;
mod hall;
mod handing;
pub mod laws;
mod look_tally;
mod making;
mod meeting;
mod no_gaps;
mod pace;
mod parked;
mod pass;
mod places;
mod plain;
mod plays;
mod record;
mod release;
mod releases;
mod resuming;
mod rule;
mod seat_numbers;
mod setting;
mod setup;
mod sleepers;
mod steps;
mod watching;

pub use active::Active;
pub use after::After;
pub use busy::Busy;
pub use closed::Closed;
pub use closing::close;
pub use completeness::complete;
pub use excluding::never_two_active;
pub use hall::Hall;
pub use meeting::meet;
pub use parked::Parked;
pub use pass::Pass;
pub use steps::Granted;
