//! A known history, cut short after each number of bytes.

use super::jobs::{Job, is_answered};
use monk_commands::Task;
use std::alloc::{AllocError, Global};

/// The text of the history.
const RUN: &[u8] =
    b"monk 1 PB 2 2 buffer 1\nenter 0 free\nwait 0 1 entry\nenter 1 free\nsignal 1 1 waiter 0\nresume 0 waiter\nleave 0 signaller 1\nresume 1 signaller\nleave 1 entry\n";

/// Returns the answer to the front of the text, in which `lines` lines end.
fn answer_to_front(alloc: Global, front: &[u8], lines: u32) -> Result<String, AllocError> {
    match front.last() {
        None => format!(in alloc; "unreadable 1 1 header\n"),
        Some(&b'\n') => format!(in alloc; "legal {}\n", lines.wrapping_sub(1)),
        Some(_) => format!(in alloc; "unreadable {} 4 end\n", lines.wrapping_add(1)),
    }
}

/// Whether the front of the text, in which `lines` lines end, has its answer.
fn is_front_answered(rt: &HostRuntime, front: &[u8], lines: u32) -> bool {
    let Ok(answer) = answer_to_front(rt.alloc(), front, lines) else {
        return false;
    };
    let job = Job {
        name: "cut short",
        task: Task::Audit,
        input: front,
        status: if front.last() == Some(&b'\n') { 0 } else { 2 },
        answer: answer.as_bytes(),
    };
    matches!(is_answered(rt, &job), Ok(true))
}

/// Each front that ends at the end of a line is legal, and any other is unreadable.
#[test]
fn a_text_cut_short(rt: HostRuntime) {
    let mut lines = 0u32;
    for cut in 0..RUN.len() {
        let front = &RUN[..cut];
        if front.last() == Some(&b'\n') {
            lines = lines.wrapping_add(1);
        }
        assert!(rt; is_front_answered(&rt, front, lines));
    }
}
