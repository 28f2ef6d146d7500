//! Worked histories, each made by a floor both by the general scheduler step and by the path of the mode.
use super::{HOARE_HANDOVER, PUT, TAKE};
use crate::tests::floor_steps::{
    Size, makes_explicitly, runs_automatically, runs_non_blocking, runs_plainly, runs_returning,
};
use monk_history::{Event, From3, Next, Via};
use monk_kinds::{KindName, Npb, Npir, Npis, Npnb, Npqb, Pb, Pick, Pir, Pis, Pnb, Pqb};
use monk_object::Op;
use std::test::Fail;

const PUT_FIVE: Op = Op { code: 0, arg: 5 };

/// A history and its floor: the kind, the size, and the wish of each release.
struct Story {
    name: &'static str,
    kind: KindName,
    size: Size,
    pick: Pick,
    events: &'static [Event],
}

const SIGNAL_AND_CONTINUE: &[Event] = &[
    Event::Enter(0, Via::Free),
    Event::Act(0, TAKE, 0),
    Event::Wait(0, 1, Next::Entry),
    Event::Enter(1, Via::Free),
    Event::Act(1, PUT, 1),
    Event::Signal(1, 1, Next::Stay),
    Event::Leave(1, Next::Waiter(0)),
    Event::Resume(0, From3::Waiter),
    Event::Leave(0, Next::Entry),
];

/// Nobody waits, and the caller leaves all the same.
const SIGNAL_TO_NOBODY: &[Event] = &[
    Event::Enter(0, Via::Free),
    Event::SignalLeave(0, 0, Next::Entry),
];

const BROADCAST_WAKES_ALL: &[Event] = &[
    Event::Enter(0, Via::Free),
    Event::Wait(0, 0, Next::Entry),
    Event::Enter(1, Via::Free),
    Event::Wait(1, 0, Next::Entry),
    Event::Enter(2, Via::Free),
    Event::SignalAll(2, 0),
    Event::Leave(2, Next::Waiter(0)),
    Event::Resume(0, From3::Waiter),
    Event::Leave(0, Next::Waiter(1)),
    Event::Resume(1, From3::Waiter),
    Event::Leave(1, Next::Entry),
];

const PING_PONG: &[Event] = &[
    Event::Enter(0, Via::Free),
    Event::Wait(0, 0, Next::Entry),
    Event::Enter(1, Via::Free),
    Event::SignalWait(1, 0, 1, Next::Waiter(0)),
    Event::Resume(0, From3::Waiter),
    Event::SignalWait(0, 1, 0, Next::Waiter(1)),
    Event::Resume(1, From3::Waiter),
    Event::SignalLeave(1, 0, Next::Waiter(0)),
    Event::Resume(0, From3::Waiter),
    Event::Leave(0, Next::Entry),
];

static STORIES: [Story; 22] = [
    Story {
        name: "hoare_handover",
        kind: KindName::Pb,
        size: Size { seats: 2, conds: 2 },
        pick: Pick::Waiter,
        events: &HOARE_HANDOVER,
    },
    Story {
        name: "signal_and_continue",
        kind: KindName::Pnb,
        size: Size { seats: 2, conds: 2 },
        pick: Pick::Waiter,
        events: SIGNAL_AND_CONTINUE,
    },
    // Under Mesa's kind, and no caller comes in between.
    Story {
        name: "mesa_signal_and_continue",
        kind: KindName::Npnb,
        size: Size { seats: 2, conds: 2 },
        pick: Pick::Waiter,
        events: SIGNAL_AND_CONTINUE,
    },
    // A caller comes in before the seat that was signalled.
    Story {
        name: "mesa_barging",
        kind: KindName::Npnb,
        size: Size { seats: 3, conds: 2 },
        pick: Pick::Entry,
        events: &[
            Event::Enter(0, Via::Free),
            Event::Wait(0, 1, Next::Entry),
            Event::Enter(1, Via::Free),
            Event::Act(1, PUT, 1),
            Event::Signal(1, 1, Next::Stay),
            Event::Leave(1, Next::Entry),
            Event::Enter(2, Via::Handed),
            Event::Act(2, TAKE, 8),
            Event::Wait(2, 1, Next::Entry),
            Event::Enter(1, Via::Handed),
        ],
    },
    // Nobody waits at the signal, so the wait after it waits.
    Story {
        name: "signal_is_not_remembered",
        kind: KindName::Pb,
        size: Size { seats: 1, conds: 1 },
        pick: Pick::Waiter,
        events: &[
            Event::Enter(0, Via::Free),
            Event::Signal(0, 0, Next::Stay),
            Event::Wait(0, 0, Next::Entry),
        ],
    },
    Story {
        name: "leave_past_signaller",
        kind: KindName::Npb,
        size: Size { seats: 3, conds: 2 },
        pick: Pick::Entry,
        events: &[
            Event::Enter(0, Via::Free),
            Event::Act(0, TAKE, 0),
            Event::Wait(0, 1, Next::Entry),
            Event::Enter(1, Via::Free),
            Event::Act(1, PUT, 1),
            Event::Signal(1, 1, Next::Waiter(0)),
            Event::Resume(0, From3::Waiter),
            Event::Act(0, TAKE, 8),
            Event::Leave(0, Next::Entry),
            Event::Enter(2, Via::Handed),
        ],
    },
    // Entry, waiter and signaller are of one priority.
    Story {
        name: "entry_in_a_tie",
        kind: KindName::Npqb,
        size: Size { seats: 3, conds: 1 },
        pick: Pick::Entry,
        events: &[
            Event::Enter(0, Via::Free),
            Event::Wait(0, 0, Next::Entry),
            Event::Enter(1, Via::Free),
            Event::Signal(1, 0, Next::Entry),
            Event::Enter(2, Via::Handed),
        ],
    },
    Story {
        name: "quasi_blocking_order",
        kind: KindName::Pqb,
        size: Size { seats: 3, conds: 1 },
        pick: Pick::Waiter,
        events: &[
            Event::Enter(0, Via::Free),
            Event::Wait(0, 0, Next::Entry),
            Event::Enter(1, Via::Free),
            Event::Wait(1, 0, Next::Entry),
            Event::Enter(2, Via::Free),
            Event::Signal(2, 0, Next::Waiter(0)),
            Event::Resume(0, From3::Waiter),
            Event::Signal(0, 0, Next::Waiter(1)),
            Event::Resume(1, From3::Waiter),
            Event::Leave(1, Next::Signaller(2)),
        ],
    },
    Story {
        name: "signal_and_return",
        kind: KindName::Pir,
        size: Size { seats: 2, conds: 1 },
        pick: Pick::Entry,
        events: &[
            Event::Enter(0, Via::Free),
            Event::Wait(0, 0, Next::Entry),
            Event::Enter(1, Via::Free),
            Event::SignalLeave(1, 0, Next::Waiter(0)),
            Event::Resume(0, From3::Waiter),
        ],
    },
    // Entry and the served seat are of one priority.
    Story {
        name: "return_past_waiter",
        kind: KindName::Npir,
        size: Size { seats: 2, conds: 1 },
        pick: Pick::Entry,
        events: &[
            Event::Enter(0, Via::Free),
            Event::Wait(0, 0, Next::Entry),
            Event::Enter(1, Via::Free),
            Event::SignalLeave(1, 0, Next::Entry),
        ],
    },
    Story {
        name: "return_with_signal_to_nobody",
        kind: KindName::Pir,
        size: Size { seats: 2, conds: 1 },
        pick: Pick::Waiter,
        events: SIGNAL_TO_NOBODY,
    },
    Story {
        name: "return_with_signal_to_nobody in a tie",
        kind: KindName::Npir,
        size: Size { seats: 2, conds: 1 },
        pick: Pick::Waiter,
        events: SIGNAL_TO_NOBODY,
    },
    Story {
        name: "broadcast_wakes_all",
        kind: KindName::Pnb,
        size: Size { seats: 3, conds: 1 },
        pick: Pick::Waiter,
        events: BROADCAST_WAKES_ALL,
    },
    Story {
        name: "broadcast_wakes_all under Mesa's kind",
        kind: KindName::Npnb,
        size: Size { seats: 3, conds: 1 },
        pick: Pick::Waiter,
        events: BROADCAST_WAKES_ALL,
    },
    // Nobody is served, and nothing changes.
    Story {
        name: "broadcast_to_nobody",
        kind: KindName::Pnb,
        size: Size { seats: 3, conds: 1 },
        pick: Pick::Waiter,
        events: &[
            Event::Enter(0, Via::Free),
            Event::SignalAll(0, 0),
            Event::Leave(0, Next::Entry),
        ],
    },
    Story {
        name: "signal_wait_ping_pong",
        kind: KindName::Pir,
        size: Size { seats: 2, conds: 2 },
        pick: Pick::Waiter,
        events: PING_PONG,
    },
    Story {
        name: "signal_wait_ping_pong in a tie",
        kind: KindName::Npir,
        size: Size { seats: 2, conds: 2 },
        pick: Pick::Waiter,
        events: PING_PONG,
    },
    // The seat that waited is served, and the caller waits on the same condition.
    Story {
        name: "signal_wait_on_one_condition",
        kind: KindName::Pir,
        size: Size { seats: 2, conds: 2 },
        pick: Pick::Waiter,
        events: &[
            Event::Enter(0, Via::Free),
            Event::Wait(0, 0, Next::Entry),
            Event::Enter(1, Via::Free),
            Event::SignalWait(1, 0, 0, Next::Waiter(0)),
            Event::Resume(0, From3::Waiter),
        ],
    },
    // Nobody waits there yet, and the caller is not served by its own signal.
    Story {
        name: "signal_wait_serves_nobody",
        kind: KindName::Pir,
        size: Size { seats: 2, conds: 2 },
        pick: Pick::Waiter,
        events: &[
            Event::Enter(0, Via::Free),
            Event::SignalWait(0, 0, 0, Next::Entry),
            Event::Enter(1, Via::Free),
            Event::SignalLeave(1, 0, Next::Waiter(0)),
            Event::Resume(0, From3::Waiter),
        ],
    },
    Story {
        name: "automatic_signal",
        kind: KindName::Pis,
        size: Size { seats: 2, conds: 0 },
        pick: Pick::Waiter,
        events: &[
            Event::Enter(0, Via::Free),
            Event::Until(0, 1, Next::Entry),
            Event::Enter(1, Via::Free),
            Event::Act(1, PUT_FIVE, 1),
            Event::Leave(1, Next::Until(0)),
            Event::Resume(0, From3::Until),
            Event::Act(0, TAKE, 6),
            Event::Leave(0, Next::Entry),
        ],
    },
    // Entry and the ready seats are of one priority.
    Story {
        name: "leave_past_ready",
        kind: KindName::Npis,
        size: Size { seats: 2, conds: 0 },
        pick: Pick::Entry,
        events: &[
            Event::Enter(0, Via::Free),
            Event::Until(0, 1, Next::Entry),
            Event::Enter(1, Via::Free),
            Event::Act(1, PUT_FIVE, 1),
            Event::Leave(1, Next::Entry),
        ],
    },
    // The one item is gone, so the second to wait is no longer ready.
    Story {
        name: "automatic_predicate_stale",
        kind: KindName::Pis,
        size: Size { seats: 3, conds: 0 },
        pick: Pick::Waiter,
        events: &[
            Event::Enter(0, Via::Free),
            Event::Until(0, 1, Next::Entry),
            Event::Enter(1, Via::Free),
            Event::Until(1, 1, Next::Entry),
            Event::Enter(2, Via::Free),
            Event::Act(2, PUT_FIVE, 1),
            Event::Leave(2, Next::Until(0)),
            Event::Resume(0, From3::Until),
            Event::Act(0, TAKE, 6),
            Event::Leave(0, Next::Entry),
        ],
    },
];

/// Fails unless a floor makes the story by the general scheduler step.
fn made_plainly(rt: &HostRuntime, story: &Story) -> Result<(), Fail> {
    let (size, events, pick) = (story.size, story.events, story.pick);
    match story.kind {
        KindName::Pb => runs_plainly::<Pb>(rt, size, events, pick),
        KindName::Npb => runs_plainly::<Npb>(rt, size, events, pick),
        KindName::Pnb => runs_plainly::<Pnb>(rt, size, events, pick),
        KindName::Npnb => runs_plainly::<Npnb>(rt, size, events, pick),
        KindName::Pqb => runs_plainly::<Pqb>(rt, size, events, pick),
        KindName::Npqb => runs_plainly::<Npqb>(rt, size, events, pick),
        KindName::Pir => runs_plainly::<Pir>(rt, size, events, pick),
        KindName::Npir => runs_plainly::<Npir>(rt, size, events, pick),
        KindName::Pis => runs_plainly::<Pis>(rt, size, events, pick),
        KindName::Npis => runs_plainly::<Npis>(rt, size, events, pick),
    }
}

/// Fails unless a floor makes the story by the path of the mode.
fn made(rt: &HostRuntime, story: &Story) -> Result<(), Fail> {
    let (size, events, pick) = (story.size, story.events, story.pick);
    match story.kind {
        KindName::Pb => makes_explicitly::<Pb>(rt, size, events, pick),
        KindName::Npb => makes_explicitly::<Npb>(rt, size, events, pick),
        KindName::Pnb => runs_non_blocking::<Pnb>(rt, size, events, pick),
        KindName::Npnb => runs_non_blocking::<Npnb>(rt, size, events, pick),
        KindName::Pqb => makes_explicitly::<Pqb>(rt, size, events, pick),
        KindName::Npqb => makes_explicitly::<Npqb>(rt, size, events, pick),
        KindName::Pir => runs_returning::<Pir>(rt, size, events, pick),
        KindName::Npir => runs_returning::<Npir>(rt, size, events, pick),
        KindName::Pis => runs_automatically::<Pis>(rt, size, events, pick),
        KindName::Npis => runs_automatically::<Npis>(rt, size, events, pick),
    }
}

#[test]
fn stories_are_made(rt: HostRuntime) -> Result<(), Fail> {
    for story in STORIES.iter() {
        println!(rt; "{}", story.name)?;
        made_plainly(&rt, story)?;
        made(&rt, story)?;
    }
    Ok(())
}
