//! Texts of a million lines are read, judged and played as short ones are.
use crate::tests::jobs::{Job, is_answered};
use crate::tests::texts::repeated;
use monk_audit::{Verdict, audit};
use monk_commands::Task;
use monk_completion::{Completion, complete};
use monk_history::read;
use monk_judge::{judge_log, run_of_log};
use monk_kinds::KindName;
use monk_logs::read_log;
use monk_object::Buffer;
use monk_world::read_play;
use std::test::Fail;

const LINES: usize = 1_000_000;

/// A seat comes in and leaves.
const HISTORY: &[u8] = b"monk 1 NPNB 1 1 buffer 1\nenter 0 free\nleave 0 entry\n";

const LOG: &[u8] = b"log 1 1 1 buffer 1\nenter 0\nleave 0\n";

/// Two commands that are refused, since the seat stands elsewhere.
const PLAY: &[u8] = b"play 1 NPNB 1 1 buffer 1 8\n0 look\n0 drop\n";

#[test]
fn long_history(rt: HostRuntime) -> Result<(), Fail> {
    let text = repeated(&rt, HISTORY, LINES / 2)?;
    let (header, events) = read(rt.alloc(), text.as_slice())?;
    let is_whole = events.len() == LINES;
    let found = audit(rt.alloc(), &header, events.as_slice())?;
    assert!(rt; is_whole && found == Verdict::Legal(1_000_000));
    let job = Job {
        name: "long_history",
        task: Task::Audit,
        input: text.as_slice(),
        status: 0,
        answer: b"legal 1000000\n",
    };
    assert!(rt; is_answered(&rt, &job)?);
    Ok(())
}

#[test]
fn long_log(rt: HostRuntime) -> Result<(), Fail> {
    let text = repeated(&rt, LOG, LINES / 2)?;
    let (header, lines) = read_log(rt.alloc(), text.as_slice())?;
    let buffer = Buffer::make(rt.alloc(), 1)?;
    let report = judge_log(rt.alloc(), 1, 1, buffer, lines.as_slice(), &[])?;
    let buffer = Buffer::make(rt.alloc(), 1)?;
    let run = run_of_log(rt.alloc(), 1, 1, buffer, lines.as_slice())?;
    let is_run = run.misfit.is_none() && run.steps.len() == LINES;
    assert!(rt; lines.len() == LINES && report.misfit.is_none() && is_run);
    let found = complete(rt.alloc(), &header, lines.as_slice(), KindName::Npnb)?;
    assert!(rt; matches!(&found, Completion::History(events) if events.len() == LINES));
    Ok(())
}

#[test]
fn long_play(rt: HostRuntime) -> Result<(), Fail> {
    let text = repeated(&rt, PLAY, LINES / 2)?;
    let (_, _, commands) = read_play(rt.alloc(), text.as_slice())?;
    let job = Job {
        name: "long_play",
        task: Task::Play,
        input: text.as_slice(),
        status: 0,
        answer: b"monk 1 NPNB 1 1 buffer 1\n",
    };
    assert!(rt; commands.len() == LINES && is_answered(&rt, &job)?);
    Ok(())
}
