//! Hints on an input that a command can't read, and on an option that asks for what an input doesn't have. What each
//! hint says is a row of `checks/answers.jsonl`.

use super::questions::{ASKED, EXPLAIN};
use monk_commands::{Question, Task, hint_for, line_hint_for, option_hint_for};
use monk_judge::WaitsFor;
use std::alloc::Global;
use std::fmt;

/// Whether the hint prints as `wanted`.
fn prints<T: Copy + fmt::Display>(alloc: Global, hint: Option<T>, wanted: &str) -> bool {
    match hint {
        Some(hint) => {
            matches!(&format!(in alloc; "{hint}"), Ok(text) if text.as_str() == wanted)
        }
        None => false,
    }
}

#[test]
fn text_is_hinted_at(rt: HostRuntime) {
    let hint = hint_for(&EXPLAIN, b"monk 1 PB 2 0 buffer 1\r\n");
    assert!(rt;
        prints(
            rt.alloc(),
            hint,
            "a line ends in CR LF: end each line in LF alone"
        )
    );
}

#[test]
fn line_is_hinted_at(rt: HostRuntime) {
    let log = b"log 1 1 1 buffer 1\nenter 0\nwait 0\nstay 0\n";
    let hint = line_hint_for(&EXPLAIN, log);
    assert!(rt; prints(rt.alloc(), hint, "line 3 should be `wait SEAT COND`"));
}

#[test]
fn option_is_hinted_at(rt: HostRuntime) {
    let means = [WaitsFor { cond: 2, pred: 1 }];
    let task = Task::Explain(Question {
        means: &means,
        ..ASKED
    });
    let hint = option_hint_for(&task, b"log 1 3 2 buffer 4\n");
    let wanted = "--means 2=1: the log has no condition 2; it has 2, counted from 0";
    assert!(rt; prints(rt.alloc(), hint, wanted));
}
