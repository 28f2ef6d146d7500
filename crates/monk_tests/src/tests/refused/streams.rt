use crate::tests::jobs::{Expected, Job, Slow};
use crate::tests::questions::{ASKED, EXPLAIN, FIT};
use monk_commands::{FitForm, Question, StreamFault, Task};
use monk_history::Device;
use monk_judge::WaitsFor;
use monk_kinds::KindName;

/// Jobs, by the names that `checks/fail_alloc` knows.
static JOBS: [Job<'static>; 24] = [
    Job {
        name: "legal",
        task: Task::Audit,
        input: b"monk 1 PB 2 2 buffer 1\nenter 0 free\nwait 0 1 entry\nenter 1 free\nsignal 1 1 waiter 0\nresume 0 waiter\nleave 0 signaller 1\nresume 1 signaller\nleave 1 entry\n",
        status: 0,
        answer: b"legal 8\n",
    },
    Job {
        name: "forbidden",
        task: Task::Audit,
        input: b"monk 1 PIS 2 0 buffer 1\nenter 0 free\nuntil 0 1 entry\nenter 1 free\nact 1 0 5 1\nleave 1 entry\n",
        status: 1,
        answer: b"forbidden 5 6 choice\n",
    },
    // Forbidden at its first event, and unreadable at its last line.
    Job {
        name: "unreadable",
        task: Task::Audit,
        input: b"monk 1 PB 1 0 buffer 1\nleave 0 entry\nenter 0 free\nleave 0 entry\nenter 0 free\nleave 0 entry\nenter 00 free\n",
        status: 2,
        answer: b"unreadable 7 3 number\n",
    },
    Job {
        name: "too_big",
        task: Task::Audit,
        input: b"monk 1 PB 1 0 buffer 65\nenter 0 free\n",
        status: 2,
        answer: b"object\n",
    },
    // Eight commands over a buffer. The seat that came later is granted the right.
    Job {
        name: "played",
        task: Task::Play,
        input: b"play 1 PB 2 2 buffer 1 8\n0 arrive\n0 out\n0 leave waiter\n1 arrive\n0 drop\n0 grant\n1 look\n1 out\n",
        status: 0,
        answer: b"monk 1 PB 2 2 buffer 1\nenter 0 free\nleave 0 entry\nenter 1 handed\n",
    },
    Job {
        name: "not_played",
        task: Task::Play,
        input: b"play 1 PB 2 2 buffer 1 8\n0 arrive\n0 out\n0 leave\n",
        status: 2,
        answer: b"unreadable 4 2 word\n",
    },
    Job {
        name: "upgraded",
        task: Task::Upgrade,
        input: b"monk 1 PB 2 2 buffer 1\nenter 0 free\nleave 0 entry\nenter 1 free\nleave 1 entry\nenter 0 free\n",
        status: 0,
        answer: b"monk 2 PB 2 2 buffer 1\nenter 0 free\nleave 0 entry\nenter 1 free\nleave 1 entry\nenter 0 free\n",
    },
    Job {
        name: "not_upgraded",
        task: Task::Upgrade,
        input: b"monk 1 PB 2 2 buffer 1\nsignal-all 0 0\n",
        status: 2,
        answer: b"unreadable 2 2 word\n",
    },
    Job {
        name: "fitted",
        task: FIT,
        input: b"monk 1 PB 1 0 buffer 1\nenter 0 free\nleave 0 entry\n",
        status: 0,
        answer: b"PB legal 2\nNPB legal 2\nPNB legal 2\nNPNB legal 2\nPQB legal 2\nNPQB legal 2\nPIR legal 2\nNPIR legal 2\nPIS legal 2\nNPIS legal 2\n",
    },
    Job {
        name: "kind_fitted",
        task: Task::Fit(
            FitForm::Words,
            Question {
                kind: Some(KindName::Npir),
                name: "a.history",
                ..ASKED
            },
        ),
        input: b"monk 1 PB 1 0 buffer 1\nenter 0 free\nleave 0 entry\n",
        status: 0,
        answer: b"a.history: NPIR legal 2\n",
    },
    Job {
        name: "log_fitted",
        task: Task::Fit(
            FitForm::Words,
            Question {
                means: &[WaitsFor { cond: 0, pred: 1 }],
                ..ASKED
            },
        ),
        input: b"log 1 2 1 buffer 1\nenter 0\nact 0 1 0 0\nwait 0 0\nresume 0\n",
        status: 1,
        answer: b"a.log: fits with 1 spurious wake-up, first at 5; busy, seat 0 holds the lock since 5\n",
    },
    Job {
        name: "log_fitted_in_json",
        task: Task::Fit(FitForm::Json, ASKED),
        input: b"log 1 1 1 buffer 1\nenter 0\nwait 0 0\n",
        status: 0,
        answer: b"{\"asleep\":1,\"crossed\":{\"count\":0,\"last\":null},\"end\":\"dead\",\"ended\":false,\"file\":\"a.log\",\"fits\":true,\"missed\":null,\"overtaken\":{\"again\":0,\"count\":0,\"first\":null},\"passed\":0,\"served\":0,\"spurious\":{\"count\":0,\"first\":null},\"unheard\":{\"count\":0,\"last\":null},\"woken\":0}\n",
    },
    Job {
        name: "log_misfits",
        task: FIT,
        input: b"log 1 2 1 buffer 1\nenter 0\nenter 1\n",
        status: 1,
        answer: b"a.log: misfit at 3: held, seat 1 takes the lock, but seat 0 holds it since 2\n",
    },
    Job {
        name: "log_not_fitted",
        task: FIT,
        input: b"log 1 1 0 buffer 1\nenter 0\nstay 0\n",
        status: 2,
        answer: b"a.log: unreadable 3 2 word\n",
    },
    Job {
        name: "log_refused",
        task: Task::Fit(
            FitForm::Words,
            Question {
                kind: Some(KindName::Npir),
                ..ASKED
            },
        ),
        input: b"log 1 1 0 buffer 1\nenter 0\n",
        status: 2,
        answer: b"a.log: refused, monk complete --kind NPIR judges a log by that kind\n",
    },
    Job {
        name: "traced",
        task: Task::Trace,
        input: b"play 1 PB 1 0 buffer 1 8\n0 arrive\n0 out\n0 leave waiter\n",
        status: 0,
        answer: b"1 | 0 arrive | arrived 0 0 | t=1 n=1 | data: 1 (buffer of 1: empty) | due\n2 | 0 out | now | t=1 n=1 | data: 1 (buffer of 1: empty) | active\n3 | 0 leave waiter | chose entry | t=1 n=1 | data: 1 (buffer of 1: empty) | back entry\n",
    },
    Job {
        name: "explained",
        task: EXPLAIN,
        input: b"monk 1 PNB 2 1 buffer 1\nenter 0 free\nwait 0 0 entry\nenter 1 free\nsignal 1 0 waiter 0\n",
        status: 1,
        answer: b"forbidden 4 6 choice\nline: 5\nevent: signal 1 0 waiter 0\nkind: PNB non-blocking 1 2 3\nturn: of 1\ninside: 0 1\ndata: 1 (buffer of 1: empty)\ncondition 0: 0\nwaiter:\nsignaller:\nfronts: waiter 0, signaller 1\nmay: stay\nwhy: seat 1 has to stay active, since PNB puts signallers above waiters\n",
    },
    Job {
        name: "log_explained",
        task: EXPLAIN,
        input: b"log 1 2 1 buffer 1\nenter 0\nwait 0 0\nresume 0\nact 0 1 0 5\n",
        status: 1,
        answer: b"misfit at 5: reply, seat 0 relied on what no longer held; 1 spurious wake-up, first at 4\nline 5: act 0 1 0 5: the object replies otherwise: the seat relied on what no longer held\nline 4: resume 0: the seat came back here though nobody sent a signal; it has to test again\nseat 0: holds the lock since line 4\nseat 1: outside\n",
    },
    Job {
        name: "not_explained",
        task: EXPLAIN,
        input: b"monk 1 PB 1 0 buffer 1\nenter 0 free\nstay 0\n",
        status: 2,
        answer: b"unreadable 3 2 word\n",
    },
    Job {
        name: "not_drawn",
        task: Task::Draw(None),
        input: b"monk 1 PB 1 0 buffer 1\nenter 0 free\nstay 0\n",
        status: 2,
        answer: b"unreadable 3 2 word\n",
    },
    Job {
        name: "completed",
        task: Task::Complete(Some(KindName::Pb)),
        input: b"log 1 2 1 buffer 1\nenter 0\nwait 0 0\nenter 1\nsignal 1 0\nresume 0\nleave 0\nresume 1\n",
        status: 0,
        answer: b"monk 2 PB 2 1 buffer 1\nenter 0 free\nwait 0 0 entry\nenter 1 handed\nsignal 1 0 waiter 0\nresume 0 waiter\nleave 0 signaller 1\nresume 1 signaller\n",
    },
    Job {
        name: "run_completed",
        task: Task::Complete(None),
        input: b"log 1 2 1 buffer 1\nenter 0\nwait 0 0\nenter 1\nsignal 1 0\nleave 1\nresume 0\n",
        status: 0,
        answer: b"run NPNB 2 1 buffer 1\nenter 0\nwait 0 0\nenter 1\nsignal 1 0 wakes 0\nleave 1\nresume 0\n",
    },
    Job {
        name: "misfit",
        task: Task::Complete(Some(KindName::Pnb)),
        input: b"log 1 2 1 buffer 1\nenter 0\nwait 0 0\nenter 1\nsignal 1 0\nresume 0\n",
        status: 1,
        answer: b"PNB misfit 5 9 choice\n",
    },
    Job {
        name: "not_completed",
        task: Task::Complete(Some(KindName::Pb)),
        input: b"log 1 1 0 buffer 1\nenter 0\nstay 0\n",
        status: 2,
        answer: b"unreadable 3 2 word\n",
    },
];

/// A text, how the picture or the page of it begins, and the status.
pub(super) struct Picture<'a> {
    pub(super) name: &'static str,
    task: Task<'a>,
    input: &'a [u8],
    front: &'a [u8],
    status: u8,
}

/// Pictures, by the names that `checks/fail_alloc` knows.
static PICTURES: [Picture<'static>; 4] = [
    Picture {
        name: "drawn",
        task: Task::Draw(None),
        input: b"monk 1 PB 2 1 buffer 1\nenter 0 free\nwait 0 0 entry\nenter 0 free\n",
        front: b"<svg ",
        status: 1,
    },
    Picture {
        name: "run_drawn",
        task: Task::Draw(None),
        input: b"log 1 2 1 buffer 1\nenter 0\nwait 0 0\nenter 1\nsignal 1 0\nleave 1\nresume 0\n",
        front: b"<svg ",
        status: 0,
    },
    Picture {
        name: "run_drawn_misfit",
        task: Task::Draw(None),
        input: b"log 1 2 1 buffer 1\nenter 0\nwait 0 0\nsignal 1 0\nenter 0\n",
        front: b"<svg ",
        status: 1,
    },
    Picture {
        name: "run_paged",
        task: Task::Page(None),
        input: b"log 1 2 1 buffer 1\nenter 0\nenter 1\n",
        front: b"<!DOCTYPE html>",
        status: 1,
    },
];

/// Returns the jobs. A function that names the table is proved with all of its rows.
pub(super) fn jobs() -> &'static [Job<'static>] {
    &JOBS
}

/// Returns the pictures and the page.
pub(super) fn all_pictures() -> &'static [Picture<'static>] {
    &PICTURES
}

/// Whether a picture or a page was written. A fault is returned if nothing was written.
pub(super) fn is_drawn(rt: &HostRuntime, drawn: &Picture<'_>) -> Result<bool, StreamFault> {
    let front: &[u8] = drawn.front;
    let mut picture = Expected::new(front);
    let mut reader = Device::new(Slow::new(drawn.input));
    let told = drawn
        .task
        .stream(rt.alloc(), &mut reader, &mut Device::new(&mut picture));
    match told {
        Ok(status) => {
            Ok(status == drawn.status && picture.agrees() && picture.taken > front.len())
        }
        Err(fault) if picture.taken == 0 => Err(fault),
        Err(_) => Ok(false),
    }
}
