//! What runs of threads over the samples print. checks/runs has each sample under each kind.

use super::jobs::Expected;
use monk_commands::{StreamFault, run_stream};
use monk_history::Device;
use monk_kinds::KindName;
use monk_samples::Sample;
use std::sync::Wait;
use std::test::Fail;
use std::thread::Threads;

/// Samples, and what a run of four seats and ten rounds prints.
static TOTALS: [(Sample, &str); 3] = [
    (
        Sample::Shop,
        "sat 30\ncalled 30\nfinished 30\ndeparted 30\nlegal\n",
    ),
    (Sample::Buffer, "put 20 110\ntaken 20 110\nlegal\n"),
    (Sample::Book, "reads 20 20\nwrites 20 20\nlegal\n"),
];

/// Whether such a run ends with status 0 and exactly this text.
fn tells<R: Threads + Wait + Sync + AllocGlobal>(rt: &R, sample: Sample, text: &str) -> bool {
    let mut page = Expected::new(text.as_bytes());
    let mut writer = Device::new(&mut page);
    let told = run_stream(rt, rt.alloc(), KindName::Pb, sample, 4, 10, &mut writer);
    matches!(told, Ok(0)) && page.agrees() && page.taken == text.len()
}

#[test]
fn runs_print_their_totals(rt: HostRuntime) {
    for (sample, text) in TOTALS.iter() {
        assert!(rt; tells(&rt, *sample, text));
    }
}

/// The word that a run prints if it doesn't serve all its rounds, else `served`.
fn end_of(page: &[u8]) -> &'static str {
    match page {
        b"tired\n" => "tired",
        b"late\n" => "late",
        b"busy\n" => "busy",
        _ => "served",
    }
}

/// The status of a run of two seats and one round, and how it ends.
fn end_of_run<R: Threads + Wait + Sync + AllocGlobal>(
    rt: &R,
    sample: Sample,
) -> Result<(u8, &'static str), StreamFault> {
    let mut page = Vec::new(rt.alloc());
    let mut writer = Device::new(&mut page);
    let status = run_stream(rt, rt.alloc(), KindName::Pb, sample, 2, 1, &mut writer)?;
    Ok((status, end_of(page.as_slice())))
}

static SAMPLES: [Sample; 2] = [Sample::Buffer, Sample::Book];

/// The run serves its round. If a wrong body ends it early, `checks/wrong_bodies --by tests` compares what is printed.
#[test]
fn run_says_how_it_ends(rt: HostRuntime) -> Result<(), Fail> {
    for sample in SAMPLES.iter() {
        let (status, end) = end_of_run(&rt, *sample)?;
        println!(rt; "status {status}: {end}")?;
        assert!(rt; status == 0 && end == "served");
    }
    Ok(())
}
