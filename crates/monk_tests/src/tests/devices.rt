//! Readers and writers that fail at each of their calls in turn. They give or take a few bytes at a time, or none.
ghost use Rattle.std.specs.Prelude.{◌<◌};

use super::commands::jobs;
use super::jobs::{Expected, Job, Slow};
use monk_commands::{StreamFault, classify_stream, run_stream};
use monk_history::Device;
use monk_kinds::KindName;
use monk_samples::Sample;
use std::alloc::Global;
use std::sync::Wait;
use std::test::Fail;
use std::thread::Threads;

/// Whether a failing call gave the file fault and the front of the answer, or else the whole answer was written.
fn is_due(
    told: Result<u8, StreamFault>,
    written: &Expected<'_>,
    job: &Job<'_>,
    fails: bool,
) -> bool {
    let is_told = match told {
        Ok(status) => !fails && status == job.status && written.taken == job.answer.len(),
        Err(StreamFault::File) => fails,
        Err(_) => false,
    };
    is_told && written.agrees()
}

/// Whether read `fails_at` fails and nothing is written, or no read fails if `fails` is false.
fn read_fails(alloc: Global, job: &Job<'_>, step: usize, fails_at: usize, fails: bool) -> bool {
    let mut reader = Device::new(Slow::failing(job.input, step, fails_at));
    let mut written = Expected::new(job.answer);
    let told = job
        .task
        .stream(alloc, &mut reader, &mut Device::new(&mut written));
    let is_due = is_due(told, &written, job, fails) && (!fails || written.taken == 0);
    is_due && reader.failed() == fails
}

/// Whether each read fails in turn, up to the one that finds the end, and after that none.
fn reads_fail(alloc: Global, job: &Job<'_>, step: usize) -> bool
    requires { 0 < step }
{
    let last = job.input.len().div_ceil(step).saturating_add(1);
    for fails_at in 1..=last.saturating_add(1) {
        if !read_fails(alloc, job, step, fails_at, fails_at <= last) {
            return false;
        }
    }
    true
}

/// Reads one byte at a time, then pieces that end inside a line, then all bytes at once.
fn all_reads_fail(alloc: Global, jobs: &[Job<'static>]) -> Result<(), Fail> {
    for job in jobs {
        if !(reads_fail(alloc, job, 1)
            && reads_fail(alloc, job, 7)
            && reads_fail(alloc, job, 4096))
        {
            return Err(job.name)?;
        }
    }
    Ok(())
}

#[test]
fn reads_fail_in_turn(rt: HostRuntime) -> Result<(), Fail> {
    all_reads_fail(rt.alloc(), jobs())
}

/// Whether a write fails after `before` bytes are taken, or no write fails if `fails` is false.
fn write_fails(
    alloc: Global,
    job: &Job<'_>,
    mut written: Expected<'_>,
    before: usize,
    fails: bool,
) -> bool {
    let mut writer = Device::new(&mut written);
    let mut reader = Device::new(Slow::new(job.input));
    let told = job.task.stream(alloc, &mut reader, &mut writer);
    let has_failed = writer.failed();
    let is_whole = written.taken == before.min(job.answer.len());
    is_whole && has_failed == fails && is_due(told, &written, job, fails)
}

/// Whether each write fails in turn, and after that none. A write fails by an error, or by taking no byte.
fn writes_fail(alloc: Global, job: &Job<'_>, step: usize) -> bool
    requires { 0 < step }
{
    let last = job.answer.len().div_ceil(step);
    for fails_at in 1..=last.saturating_add(1) {
        let before = fails_at.saturating_sub(1).saturating_mul(step);
        let fails = fails_at <= last;
        let failing = Expected::failing(job.answer, step, fails_at, false);
        if !write_fails(alloc, job, failing, before, fails) {
            return false;
        }
        let refusing = Expected::failing(job.answer, step, fails_at, true);
        if !write_fails(alloc, job, refusing, before, fails) {
            return false;
        }
    }
    true
}

/// Writes as many bytes at a time as are read above.
fn all_writes_fail(alloc: Global, jobs: &[Job<'static>]) -> Result<(), Fail> {
    for job in jobs {
        if !(writes_fail(alloc, job, 1)
            && writes_fail(alloc, job, 7)
            && writes_fail(alloc, job, 4096))
        {
            return Err(job.name)?;
        }
    }
    Ok(())
}

#[test]
fn writes_fail_in_turn(rt: HostRuntime) -> Result<(), Fail> {
    all_writes_fail(rt.alloc(), jobs())
}

/// Whether the file fault is returned if a writer never takes a byte.
fn fails_at_once(alloc: Global, job: &Job<'_>) -> bool {
    let mut taking = Expected::failing(job.answer, 0, 0, true);
    let mut writer = Device::new(&mut taking);
    let mut reader = Device::new(Slow::new(job.input));
    let told = job.task.stream(alloc, &mut reader, &mut writer);
    matches!(told, Err(StreamFault::File)) && writer.failed()
}

/// Tests that each job fails if a writer never takes a byte. Names the first that doesn't.
fn all_fail_at_once(alloc: Global, jobs: &[Job<'static>]) -> Result<(), Fail> {
    for job in jobs {
        if !fails_at_once(alloc, job) {
            return Err(job.name)?;
        }
    }
    Ok(())
}

#[test]
fn nothing_is_taken(rt: HostRuntime) -> Result<(), Fail> {
    all_fail_at_once(rt.alloc(), jobs())
}

/// Whether the file fault is returned and the writer has failed, or neither if `fails` is false.
fn is_file_fault(told: Result<u8, StreamFault>, failed: bool, fails: bool) -> bool {
    match told {
        Ok(status) => status == 0 && !fails && !failed,
        Err(StreamFault::File) => fails && failed,
        Err(_) => false,
    }
}

/// Whether writing an ordering fails at write `fails_at`, or at none if `fails` is false.
fn two_lines_fail(step: usize, fails_at: usize, refuses: bool, fails: bool) -> bool {
    let lines = b"Ep<Sp<Wp\nPB\n";
    let mut failing = Expected::failing(lines, step, fails_at, refuses);
    let mut writer = Device::new(&mut failing);
    let told = classify_stream(1, 3, 2, &mut writer);
    is_file_fault(told, writer.failed(), fails)
}

/// How many bytes are taken at a time, and how many writes `Ep<Sp<Wp` and `PB` need, each with its newline.
static WRITES_OF_LINES: [(usize, usize); 2] = [(1, 12), (4096, 4)];

#[test]
fn two_lines_fail_in_turn(rt: HostRuntime) {
    for (step, last) in WRITES_OF_LINES.iter() {
        for fails_at in 1..20usize {
            let fails = fails_at <= *last;
            assert!(rt;
                two_lines_fail(*step, fails_at, false, fails)
                    && two_lines_fail(*step, fails_at, true, fails)
            );
        }
    }
}

/// Whether writing the totals of a run fails at write `fails_at`, or at none if `fails` is false.
fn totals_fail<R: Threads + Wait + Sync + AllocGlobal>(
    rt: &R,
    step: usize,
    fails_at: usize,
    refuses: bool,
    fails: bool,
) -> bool {
    let totals = b"put 1 1\ntaken 1 1\nlegal\n";
    let mut failing = Expected::failing(totals, step, fails_at, refuses);
    let mut writer = Device::new(&mut failing);
    let told = run_stream(
        rt,
        rt.alloc(),
        KindName::Pir,
        Sample::Buffer,
        2,
        1,
        &mut writer,
    );
    is_file_fault(told, writer.failed(), fails)
}

/// The same for the totals of a run, which are 24 bytes: `put 1 1`, `taken 1 1` and `legal` with their newlines.
static WRITES_OF_TOTALS: [(usize, usize); 3] = [(1, 24), (7, 4), (4096, 1)];

#[test]
fn totals_fail_in_turn(rt: HostRuntime) {
    for (step, last) in WRITES_OF_TOTALS.iter() {
        for fails_at in 1..=last.saturating_add(1) {
            let fails = fails_at <= *last;
            assert!(rt;
                totals_fail(&rt, *step, fails_at, false, fails)
                    && totals_fail(&rt, *step, fails_at, true, fails)
            );
        }
    }
}
