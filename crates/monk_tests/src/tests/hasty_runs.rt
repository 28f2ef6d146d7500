//! Runs of the hasty buffer: what they print, and the history that goes into the file.

use super::jobs::Expected;
use super::records::is_legal;
use monk_commands::{Crew, StreamFault, hasty_stream};
use monk_history::Device;
use monk_kinds::KindName;
use std::sync::Wait;
use std::test::Fail;
use std::thread::Threads;

/// Whether a run of four seats and ten rounds prints exactly this text, and its history is legal.
fn tells<R: Threads + Wait + Sync + AllocGlobal>(rt: &R, kind: KindName, text: &str) -> bool {
    let alloc = rt.alloc();
    let mut history = Vec::new(alloc);
    let mut page = Expected::new(text.as_bytes());
    let mut file = Device::new(&mut history);
    let mut writer = Device::new(&mut page);
    let told = hasty_stream(
        rt,
        alloc,
        Crew {
            kind,
            seats: 4,
            rounds: 10,
        },
        &mut file,
        &mut writer,
    );
    matches!(told, Ok(0))
        && page.agrees()
        && page.taken == text.len()
        && is_legal(alloc, history.as_slice())
}

/// The kinds in which no caller comes between a signal and the seat that it serves, or in which a
/// wait goes on only if its predicate holds.
static SURE: [KindName; 7] = [
    KindName::Pb,
    KindName::Npb,
    KindName::Pnb,
    KindName::Pqb,
    KindName::Pir,
    KindName::Pis,
    KindName::Npis,
];

#[test]
fn hasty_runs_tell_what_they_missed(rt: HostRuntime) -> Result<(), Fail> {
    let text = "put 20 110\ntaken 20 110\nmissed 0\nfirst none\nlegal\n";
    for kind in SURE.iter() {
        if !tells(&rt, *kind, text) {
            return Err(kind.as_str())?;
        }
    }
    Ok(())
}

/// Whether nothing is printed if the file fails at its first write, or takes nothing there.
fn tells_nothing<R: Threads + Wait + Sync + AllocGlobal>(rt: &R, refuses: bool) -> bool {
    let mut page = Vec::new(rt.alloc());
    let mut file = Device::new(Expected::failing(b"", 1, 1, refuses));
    let mut writer = Device::new(&mut page);
    let told = hasty_stream(
        rt,
        rt.alloc(),
        Crew {
            kind: KindName::Pb,
            seats: 2,
            rounds: 1,
        },
        &mut file,
        &mut writer,
    );
    matches!(told, Err(StreamFault::File)) && page.is_empty()
}

#[test]
fn nothing_is_told_without_the_file(rt: HostRuntime) {
    assert!(rt; tells_nothing(&rt, false) && tells_nothing(&rt, true));
}
