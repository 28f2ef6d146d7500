//! The ten kinds, a file for each mode. Each mode has two kinds. In the first ("priority") entry is below each
//! other queue of the kind. In the second ("non-priority") entry ties with another queue.

mod automatic;
mod blocking;
mod immediate_return;
mod non_blocking;
mod quasi_blocking;

pub use automatic::{Npis, Pis};
pub use blocking::{Npb, Pb};
pub use immediate_return::{Npir, Pir};
pub use non_blocking::{Npnb, Pnb};
pub use quasi_blocking::{Npqb, Pqb};
