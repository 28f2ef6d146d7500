//! A worker asks its gate once before each round, and obeys the answer.
use monk_kinds::Pb;
use monk_samples::{Gate, RunFault, Sample, run};
use std::alloc::{AllocError, Global};
use std::sync::atomic::{AtomicU32, Ordering};
use std::test::Fail;

/// A gate that counts how often each seat asks. It says no to a seat once, when that asks for the first round after
/// those that are open.
#[derive(Drop)]
pub(crate) struct Counting {
    asked: Vec<AtomicU32>,
    open: u32,
}

impl Counting {
    /// Returns a gate for so many seats that always says yes.
    pub(crate) fn open(alloc: Global, seats: u8) -> Result<Counting, AllocError> {
        Counting::open_for(alloc, seats, u32::MAX)
    }

    /// Returns one that lets each seat into so many rounds.
    fn open_for(alloc: Global, seats: u8, open: u32) -> Result<Counting, AllocError> {
        let mut asked = Vec::with_capacity(alloc, usize::from(seats))?;
        for _ in 0..seats {
            asked.push(AtomicU32::new(0))?;
        }
        Ok(Counting { asked, open })
    }

    /// How often the gate was asked.
    pub(crate) fn asked(&self) -> u32 {
        let mut all = 0u32;
        for asked in self.asked.iter() {
            all = all.wrapping_add(asked.load(Ordering::SeqCst));
        }
        all
    }
}

impl Gate for Counting {
    fn pass(&self, seat: u8, _round: u32) -> bool {
        match self.asked.get(usize::from(seat)) {
            Some(asked) => asked.fetch_add(1, Ordering::SeqCst) != self.open,
            None => false,
        }
    }
}

static SAMPLES: [Sample; 3] = [Sample::Buffer, Sample::Book, Sample::Shop];

/// Both workers are sent away from their second round. One that asked again would be let in, and the run would have an
/// outcome; one that asked more than once for a round would be counted.
#[test]
fn no_is_not_asked_again(rt: HostRuntime) -> Result<(), Fail> {
    for sample in SAMPLES.iter() {
        let gate = Counting::open_for(rt.alloc(), 2, 1)?;
        let outcome = run::<Pb, _, Counting>(&rt, rt.alloc(), *sample, 2, 2, &gate);
        let is_late = matches!(outcome, Err(RunFault::Late));
        assert!(rt; is_late && gate.asked() == 4);
    }
    Ok(())
}
