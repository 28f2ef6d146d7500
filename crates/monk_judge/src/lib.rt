//! Judges a log by the rules of a mutex with condition variables, as POSIX gives them. The
//! signaller goes on, and a woken thread competes for the lock with threads that come in. Queues
//! promise no order, a wait may run out, and a thread may wake though nobody sent a signal.
#![tactic(auto)]

mod ahead;
mod blame;
mod cutting;
mod holder;
mod judge;
mod judging;
pub mod laws;
mod misfit;
mod missed;
mod overtaking;
mod passed;
mod place;
mod report;
mod run;
mod running;
mod step;
mod tally;
mod told;
mod wait_end;
mod waiters;
mod waits_for;

pub use ahead::look_ahead;
pub use blame::Blame;
pub use cutting::cut;
pub use holder::Holder;
pub use judge::Judge;
pub use judging::judge_log;
pub use misfit::Misfit;
pub use place::Place;
pub use report::Report;
pub use run::Run;
pub use running::run_of_log;
pub use step::Step;
pub use tally::Tally;
pub use told::Told;
pub use wait_end::WaitEnd;
pub use waits_for::WaitsFor;
