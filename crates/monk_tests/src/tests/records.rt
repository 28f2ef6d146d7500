//! The history that a recorded run writes is audited.
ghost use Rattle.monk_samples.specs.Samples.{IsInRange};

use super::jobs::{Expected, Slow};
use monk_commands::{Crew, audit_stream, record_stream};
use monk_history::Device;
use monk_kinds::KindName;
use monk_samples::Sample;
use std::alloc::Global;
use std::sync::Wait;
use std::thread::Threads;

/// Whether an audit finds the text legal.
pub(super) fn is_legal(alloc: Global, text: &[u8]) -> bool {
    let mut line = Expected::new(b"legal ");
    let mut reader = Device::new(Slow::new(text));
    let told = audit_stream(alloc, &mut reader, &mut Device::new(&mut line));
    matches!(told, Ok(0)) && line.agrees() && line.taken > 6
}

/// Whether the run is recorded with status 0, its text begins with `header`, and an audit finds it legal.
fn is_recorded<R: Threads + Wait + Sync + AllocGlobal>(
    rt: &R,
    kind: KindName,
    sample: Sample,
    seats: u8,
    rounds: u32,
    header: &str,
) -> bool
    requires { IsInRange seats rounds }
{
    let alloc = rt.alloc();
    let mut page = Vec::new(alloc);
    let mut writer = Device::new(&mut page);
    let told = record_stream(
        rt,
        alloc,
        sample,
        Crew {
            kind,
            seats,
            rounds,
        },
        &mut writer,
    );
    matches!(told, Ok(0))
        && page.as_slice().starts_with(header.as_bytes())
        && is_legal(alloc, page.as_slice())
}

#[test]
fn runs_are_recorded(rt: HostRuntime) {
    let header = "monk 1 PB 2 3 buffer 4\nenter ";
    assert!(rt; is_recorded(&rt, KindName::Pb, Sample::Buffer, 2, 3, header));
    let header = "monk 1 PIR 4 3 book 4\nenter ";
    assert!(rt; is_recorded(&rt, KindName::Pir, Sample::Book, 4, 10, header));
    let header = "monk 1 PIS 3 0 shop 4\nenter ";
    assert!(rt; is_recorded(&rt, KindName::Pis, Sample::Shop, 3, 5, header));
}
