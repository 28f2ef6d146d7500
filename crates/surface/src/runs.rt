//! The run of a sample in threads.

use monk_history::{Event, Header};
use monk_kinds::{Npb, Npir, Npis, Npnb, Npqb, Pb, Pir, Pis, Pnb, Pqb};
use monk_samples::{Gate, OpenGate, Outcome, RunFault, Sample, Style, run};
use std::alloc::Global;
use std::sync::Wait;
use std::thread::Threads;

/// The three samples.
pub fn sample_number(sample: Sample) -> u8 {
    match sample {
        Sample::Buffer => 1,
        Sample::Book => 2,
        Sample::Shop => 3,
    }
}

pub fn run_sample<K: Style, R: Threads + Wait + Sync, G: Gate>(
    rt: &R,
    alloc: Global,
    sample: Sample,
    seats: u8,
    rounds: u32,
    gate: &G,
) -> Result<Outcome, RunFault> {
    run::<K, R, G>(rt, alloc, sample, seats, rounds, gate)
}

/// The three parts of an outcome.
pub fn parts_of_outcome(outcome: Outcome) -> ([u64; 4], Header, Vec<Event>) {
    let Outcome {
        totals,
        header,
        history,
    } = outcome;
    (totals, header, history)
}

/// A gate that a client defines.
pub struct ShutGate;

impl Gate for ShutGate {
    fn pass(&self, _seat: u8, _round: u32) -> bool {
        false
    }
}

pub fn asks<G: Gate>(gate: &G, seat: u8, round: u32) -> bool {
    gate.pass(seat, round)
}

pub fn asks_open_gate(seat: u8, round: u32) -> bool {
    asks(&OpenGate, seat, round)
}

/// Every kind has a style.
pub fn ten_styles() {
    has_style::<Pb>();
    has_style::<Npb>();
    has_style::<Pnb>();
    has_style::<Npnb>();
    has_style::<Pqb>();
    has_style::<Npqb>();
    has_style::<Pir>();
    has_style::<Npir>();
    has_style::<Pis>();
    has_style::<Npis>();
}

pub fn has_style<K: Style>() {}
