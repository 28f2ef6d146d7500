//! Runs of each number of seats have their totals, and each worker asks its gate once before each round.
use crate::tests::samples::gates::Counting;
use monk_kinds::Pb;
use monk_samples::{Sample, run};
use std::test::Fail;

const ROUNDS: u32 = 3;

/// The most seats of a run.
const MOST_SEATS: u8 = 16;

static SAMPLES: [Sample; 3] = [Sample::Buffer, Sample::Book, Sample::Shop];

/// The totals of a run of so many seats, three rounds each.
fn totals_of(sample: Sample, seats: u8) -> [u64; 4] {
    let half = u64::from(seats / 2) * u64::from(ROUNDS);
    match sample {
        // Each putter puts 1, 2 and 3.
        Sample::Buffer => [half, half * 2, half, half * 2],
        Sample::Book => [half; 4],
        Sample::Shop => [u64::from(seats.saturating_sub(1)) * u64::from(ROUNDS); 4],
    }
}

/// How many rounds all workers have.
fn rounds_of_all(sample: Sample, seats: u8) -> u32 {
    match sample {
        Sample::Buffer | Sample::Book => u32::from(seats / 2) * 2 * ROUNDS,
        // The barber has a turn for each visit of the others.
        Sample::Shop => u32::from(seats.saturating_sub(1)) * 2 * ROUNDS,
    }
}

#[test]
fn each_number_of_seats_runs(rt: HostRuntime) -> Result<(), Fail> {
    for sample in SAMPLES.iter() {
        for seats in 2..=MOST_SEATS {
            let gate = Counting::open(rt.alloc(), seats)?;
            let outcome = run::<Pb, _, Counting>(&rt, rt.alloc(), *sample, seats, ROUNDS, &gate)?;
            assert!(rt; outcome.totals == totals_of(*sample, seats));
            assert!(rt; gate.asked() == rounds_of_all(*sample, seats));
        }
    }
    Ok(())
}
