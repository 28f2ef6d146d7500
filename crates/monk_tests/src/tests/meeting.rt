//! Workers of a run are at work side by side: none waits for another to end.
use monk_kinds::Pb;
use monk_samples::{Gate, Sample, run};
use std::sync::atomic::{AtomicBool, Ordering};
use std::test::Fail;

/// How often a worker looks for the other: about a second in all.
const MOST_LOOKS: u32 = 1_000_000_000;

/// A gate at which each of two workers has to be there before the other may go on.
#[derive(Drop)]
struct Meeting {
    first: AtomicBool,
    second: AtomicBool,
    missed: AtomicBool,
}

impl Gate for Meeting {
    fn pass(&self, seat: u8, _round: u32) -> bool {
        if self.missed.load(Ordering::SeqCst) {
            return false;
        }
        let (mine, other) = if seat == 0 {
            (&self.first, &self.second)
        } else {
            (&self.second, &self.first)
        };
        mine.store(true, Ordering::SeqCst);
        for _ in 0..MOST_LOOKS {
            if other.load(Ordering::SeqCst) {
                return !self.missed.load(Ordering::SeqCst);
            }
        }
        self.missed.store(true, Ordering::SeqCst);
        false
    }
}

#[test]
fn workers_run_side_by_side(rt: HostRuntime) -> Result<(), Fail> {
    let meeting = Meeting {
        first: AtomicBool::new(false),
        second: AtomicBool::new(false),
        missed: AtomicBool::new(false),
    };
    // The run is late if a worker waited for the other to end.
    let outcome = run::<Pb, _, Meeting>(&rt, rt.alloc(), Sample::Buffer, 2, 1, &meeting)?;
    assert!(rt; outcome.totals == [1, 1, 1, 1]);
    Ok(())
}
