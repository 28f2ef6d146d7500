//! The answer of each command to a text. Rows of checks/answers.jsonl have more.

use super::jobs::{Job, are_answered};
use super::questions::{ASKED, EXPLAIN, FIT};
use monk_commands::{FitForm, Question, Task, ended_by_itself};
use monk_draw::{Names, TextForm, TextLayout};
use monk_kinds::KindName;
use std::test::Fail;

/// The program of the log has ended by itself.
const OF_AN_ENDED_PROGRAM: Task<'static> = Task::Fit(
    FitForm::Words,
    Question {
        has_ended: true,
        ..ASKED
    },
);

/// The recorder wrote down where in the source the calls are.
const WITH_SITES: Task<'static> = Task::Explain(Question {
    beside: b"ended by itself\nsite 1 buffer.c:29\nsite 2 buffer.c:41\nlines 1 2 1 0\n",
    ..ASKED
});

/// A picture as text, of 40 columns.
const DRAWN: Task<'static> = Task::DrawText(
    None,
    TextForm {
        layout: TextLayout {
            width: 40,
            is_ascii: false,
        },
        names: Names::NONE,
    },
);

/// Each command that reads an input, with a history, a log or a play, and what it says if it refuses one.
static JOBS: [Job<'static>; 18] = [
    Job {
        name: "legal",
        task: Task::Audit,
        input: b"monk 1 PB 2 2 buffer 1\nenter 0 free\nwait 0 1 entry\nenter 1 free\nsignal 1 1 waiter 0\nresume 0 waiter\nleave 0 signaller 1\nresume 1 signaller\nleave 1 entry\n",
        status: 0,
        answer: b"legal 8\n",
    },
    Job {
        name: "unreadable",
        task: Task::Audit,
        input: b"monk 1 PB 1 0 buffer 1\nenter 0 free\nleave 0 entry\nenter +1 free\n",
        status: 2,
        answer: b"unreadable 4 3 number\n",
    },
    Job {
        name: "played",
        task: Task::Play,
        input: b"play 1 PB 2 2 buffer 1 8\n0 arrive\n0 out\n0 leave waiter\n1 arrive\n0 drop\n0 grant\n1 look\n1 out\n",
        status: 0,
        answer: b"monk 1 PB 2 2 buffer 1\nenter 0 free\nleave 0 entry\nenter 1 handed\n",
    },
    Job {
        name: "upgraded",
        task: Task::Upgrade,
        input: b"monk 1 PB 1 0 buffer 1\nenter 0 free\nact 0 0 5 1\nleave 0 entry\n",
        status: 0,
        answer: b"monk 2 PB 1 0 buffer 1\nenter 0 free\nact 0 0 5 1\nleave 0 entry\n",
    },
    Job {
        name: "fitted",
        task: FIT,
        input: b"monk 1 PB 1 0 buffer 1\nenter 0 free\nleave 0 entry\n",
        status: 0,
        answer: b"PB legal 2\nNPB legal 2\nPNB legal 2\nNPNB legal 2\nPQB legal 2\nNPQB legal 2\nPIR legal 2\nNPIR legal 2\nPIS legal 2\nNPIS legal 2\n",
    },
    Job {
        name: "fitted under a kind",
        task: Task::Fit(
            FitForm::Words,
            Question {
                kind: Some(KindName::Pis),
                name: "a.history",
                ..ASKED
            },
        ),
        input: b"monk 1 PB 1 0 buffer 1\nenter 0 free\nleave 0 entry\n",
        status: 0,
        answer: b"a.history: PIS legal 2\n",
    },
    Job {
        name: "a log",
        task: FIT,
        input: b"log 1 1 1 buffer 1\nenter 0\nwait 0 0\n",
        status: 0,
        answer: b"a.log: fits; dead, all 1 sleep\n",
    },
    Job {
        name: "explained",
        task: EXPLAIN,
        input: b"monk 1 PB 2 1 buffer 1\nenter 0 free\nwait 0 0 entry\nenter 0 free\n",
        status: 1,
        answer: b"forbidden 3 4 place\nline: 4\nevent: enter 0 free\nkind: PB blocking 1 3 2\nturn: open\ninside: 0\ndata: 1 (buffer of 1: empty)\ncondition 0: 0\nwaiter:\nsignaller:\nwhy: seat 0 is inside already\n",
    },
    Job {
        name: "a log explained",
        task: EXPLAIN,
        input: b"log 1 1 1 buffer 1\nenter 0\nwait 0 0\n",
        status: 0,
        answer: b"fits; dead, all 1 sleep\nseat 0: sleeps on condition 0 since line 3; no signal came there since\n",
    },
    Job {
        name: "not drawn",
        task: Task::Draw(None),
        input: b"monk 1 PB 1 0 buffer 1\nenter 0 free\nleave +0 entry\n",
        status: 2,
        answer: b"unreadable 3 3 number\n",
    },
    Job {
        name: "drawn",
        task: DRAWN,
        input: b"monk 2 PB 2 1 buffer 1\nenter 0 free\nsignal-all 0 0\nleave 0 entry\n",
        status: 1,
        answer: b"PB, 2 events, 1 seat never came\nstep      1       2\nseat 0    enter   signal-all 0\n                  ^\nforbidden: call, this kind has no such call\n",
    },
    Job {
        name: "a log drawn",
        task: DRAWN,
        input: b"log 1 2 1 buffer 1\nenter 0\nact 0 1 0 8\nleave 0\n",
        status: 1,
        answer: b"NPNB, 2 events, 1 seat never came\nstep      1       2\nseat 0    enter   take 7\n                  ^\n    forbidden: reply, line 3 of the file\n",
    },
    Job {
        name: "traced",
        task: Task::Trace,
        input: b"play 1 PB 1 0 buffer 1 8\n0 arrive\n0 out\n0 leave waiter\n",
        status: 0,
        answer: b"1 | 0 arrive | arrived 0 0 | t=1 n=1 | data: 1 (buffer of 1: empty) | due\n2 | 0 out | now | t=1 n=1 | data: 1 (buffer of 1: empty) | active\n3 | 0 leave waiter | chose entry | t=1 n=1 | data: 1 (buffer of 1: empty) | back entry\n",
    },
    Job {
        name: "completed",
        task: Task::Complete(Some(KindName::Npb)),
        input: b"log 1 2 1 buffer 1\nenter 0\nwait 0 0\nenter 1\nsignal 1 0\nresume 0\nleave 0\nresume 1\n",
        status: 0,
        answer: b"monk 2 NPB 2 1 buffer 1\nenter 0 free\nwait 0 0 entry\nenter 1 handed\nsignal 1 0 waiter 0\nresume 0 waiter\nleave 0 signaller 1\nresume 1 signaller\n",
    },
    Job {
        name: "run completed",
        task: Task::Complete(None),
        input: b"log 1 2 1 buffer 1\nenter 0\nwait 0 0\nenter 1\nsignal 1 0\nleave 1\nresume 0\n",
        status: 0,
        answer: b"run NPNB 2 1 buffer 1\nenter 0\nwait 0 0\nenter 1\nsignal 1 0 wakes 0\nleave 1\nresume 0\n",
    },
    Job {
        name: "misfit",
        task: Task::Complete(Some(KindName::Npnb)),
        input: b"log 1 2 1 buffer 1\nenter 0\nwait 0 0\nresume 0\n",
        status: 1,
        answer: b"NPNB misfit 3 6 unserved\n",
    },
    // The program isn't stuck, so `busy` is no fault.
    Job {
        name: "a program that ends by itself",
        task: OF_AN_ENDED_PROGRAM,
        input: b"log 1 2 1 buffer 1\nenter 0\nact 0 1 0 0\nwait 0 0\nenter 1\nact 1 0 7 1\nsignal 1 0\n",
        status: 0,
        answer: b"a.log: fits; busy at the end, seat 1 holds the lock since 5; served 1\n",
    },
    Job {
        name: "a place in the source",
        task: WITH_SITES,
        input: b"log 1 2 0 buffer 1\nenter 0\nleave 0\nenter 1\nenter 0\n",
        status: 1,
        answer: b"misfit at 5: held, seat 0 takes the lock, but seat 1 holds it since 4\nline 5: enter 0: another seat holds the lock; did the recorder give two threads one seat?\nline 4: enter 1 (buffer.c:29): the lock is held since here\nseat 0: outside since line 3 (buffer.c:41)\nseat 1: holds the lock since line 4 (buffer.c:29)\n",
    },
];

/// Returns them. A function that names the table is proved with all of its rows.
pub(super) fn jobs() -> &'static [Job<'static>] {
    &JOBS
}

#[test]
fn each_command_answers(rt: HostRuntime) -> Result<(), Fail> {
    are_answered(&rt, jobs())
}

#[test]
fn programs_that_end_by_themselves(rt: HostRuntime) {
    assert!(rt; ended_by_itself(b"seat 0 main\nended by itself\nsite 1 buffer.c:29\n"));
    assert!(rt; !ended_by_itself(b"seat 0 main\nended by a signal\n"));
    assert!(rt; !ended_by_itself(b""));
}
