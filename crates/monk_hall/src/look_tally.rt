//! How the last looks of waiting threads ended. Only time rests on it, so a thread may read what another is about to
//! change.
use std::sync::atomic::AtomicU64;
use std::sync::atomic::Ordering::SeqCst;

/// After so many looks in vain in a row looking doesn't pay.
const MOST_VAIN: u64 = 16;

/// While looking doesn't pay, one of so many waits begins a try whether it does again.
const WAITS_A_TRY: u64 = 256;

/// If threads look in vain, for about as long as a sleep costs, either visits take long, or somebody lost its
/// processor. After some such looks in a row threads sleep at once. Now and then they try again. Where all sleep, each
/// hand-over costs a wake, so a thread that looks alone looks in vain. That is why a try lasts for several looks.
#[derive(Drop)]
pub(crate) struct LookTally {
    vain: AtomicU64,
    slept: AtomicU64,
}

impl LookTally {
    /// Returns the tally before any look: looking pays.
    pub(crate) fn new() -> LookTally {
        LookTally {
            vain: AtomicU64::new(0),
            slept: AtomicU64::new(0),
        }
    }

    /// Whether a look is worth its time.
    pub(crate) fn pays(&self) -> bool {
        self.vain.load(SeqCst) < MOST_VAIN
    }

    /// Whether to try again, though looking doesn't pay. Then it does, until as many looks as before are in vain.
    pub(crate) fn tries_again(&self) -> bool {
        if self.slept.fetch_add(1, SeqCst) % WAITS_A_TRY != 0 {
            return false;
        }
        self.vain.store(0, SeqCst);
        true
    }

    /// Notes how a thread's looks ended. While looking doesn't pay it is brief, and tells nothing.
    pub(crate) fn note(&self, was_let_in: bool) {
        let vain = self.vain.load(SeqCst);
        if vain >= MOST_VAIN {
            return;
        }
        let then = if was_let_in { 0 } else { vain + 1 };
        if then != vain {
            self.vain.store(then, SeqCst);
        }
    }
}
