//! Runs in threads whose totals are known.
use monk_kinds::{Npnb, Pb};
use monk_samples::{Gate, OpenGate, RunFault, Sample, Style, run, run_hasty};
use std::sync::Wait;
use std::test::Fail;
use std::thread::Threads;

/// Whether a run has these totals.
fn has_totals<K: Style, R: Threads + Wait + Sync + AllocGlobal>(
    rt: &R,
    sample: Sample,
    seats: u8,
    rounds: u32,
    totals: [u64; 4],
) -> bool {
    match run::<K, R, OpenGate>(rt, rt.alloc(), sample, seats, rounds, &OpenGate) {
        Ok(outcome) => outcome.totals == totals,
        Err(_) => false,
    }
}

/// A sample with seats and rounds, and the totals of its run.
static TOTALS: [(&str, Sample, u8, u32, [u64; 4]); 4] = [
    ("buffer", Sample::Buffer, 4, 100, [200, 10100, 200, 10100]),
    ("book", Sample::Book, 4, 10, [20, 20, 20, 20]),
    ("shop", Sample::Shop, 4, 10, [30, 30, 30, 30]),
    // If a reader or a writer signalled the wrong condition, or a waiter were lost, 300 rounds would not end.
    (
        "many_read_and_write",
        Sample::Book,
        8,
        300,
        [1200, 1200, 1200, 1200],
    ),
];

/// Each sample under one kind; the tests of `run_stream` have all ten.
#[test]
fn known_totals(rt: HostRuntime) -> Result<(), Fail> {
    for (name, sample, seats, rounds, totals) in TOTALS.iter() {
        if !has_totals::<Pb, _>(&rt, *sample, *seats, *rounds, *totals) {
            return Err(*name)?;
        }
    }
    Ok(())
}

/// A first refused act is named exactly if some are counted.
#[test]
fn known_totals_in_haste(rt: HostRuntime) {
    let outcome = run_hasty::<Npnb, _, OpenGate>(&rt, rt.alloc(), 4, 100, &OpenGate);
    assert!(rt;
        matches!(&outcome, Ok(outcome) if outcome.totals == [200, 10100, 200, 10100]
        && outcome.first.is_some() == (outcome.missed > 0))
    );
}

/// Under Hoare's kind an `if` suffices: a hasty seat finds what it waited for.
#[test]
fn no_hasty_seat_misses_under_hoares_kind(rt: HostRuntime) {
    let outcome = run_hasty::<Pb, _, OpenGate>(&rt, rt.alloc(), 4, 50, &OpenGate);
    assert!(rt; matches!(&outcome, Ok(outcome) if outcome.missed == 0 && outcome.first.is_none()));
}

/// Seats and rounds for which there is no run.
static OUT_OF_RANGE: [(u8, u32); 4] = [(1, 1), (17, 1), (2, 0), (2, 1001)];

#[test]
fn out_of_range_is_refused(rt: HostRuntime) {
    for (seats, rounds) in OUT_OF_RANGE.iter() {
        let outcome = run::<Pb, _, OpenGate>(
            &rt,
            rt.alloc(),
            Sample::Buffer,
            *seats,
            *rounds,
            &OpenGate,
        );
        assert!(rt; matches!(outcome, Err(RunFault::Range)));
        let outcome = run_hasty::<Pb, _, OpenGate>(&rt, rt.alloc(), *seats, *rounds, &OpenGate);
        assert!(rt; matches!(outcome, Err(RunFault::Range)));
    }
}

/// A gate that is open only in the first round.
#[derive(Clone, Copy)]
struct FirstRound;

impl Gate for FirstRound {
    fn pass(&self, _seat: u8, round: u32) -> bool {
        round == 1
    }
}

static SAMPLES: [Sample; 3] = [Sample::Buffer, Sample::Book, Sample::Shop];

#[test]
fn second_round_is_late(rt: HostRuntime) {
    for sample in SAMPLES.iter() {
        let outcome = run::<Pb, _, FirstRound>(&rt, rt.alloc(), *sample, 2, 2, &FirstRound);
        assert!(rt; matches!(outcome, Err(RunFault::Late)));
    }
    let outcome = run_hasty::<Pb, _, FirstRound>(&rt, rt.alloc(), 2, 2, &FirstRound);
    assert!(rt; matches!(outcome, Err(RunFault::Late)));
}
