//! Worlds are played without a request for memory. Rows of checks/answers.jsonl have the answer to each command.
use super::marks::{from_here, up_to_here, well_up_to_here};
use monk_history::{Event, From3, Next, Via};
use monk_kinds::{Kind, KindName, Pb, Pick, Pir, Pis, Pnb};
use monk_object::{Buffer, Op};
use monk_world::{Answer, Command, World};
use std::test::Fail;

const LEAVE: Command = Command::Leave(Pick::Waiter);

const WAIT: Command = Command::Wait(0, Pick::Waiter);

const UNTIL_AN_ITEM: Command = Command::Until(1, Pick::Waiter);

/// Commands over a buffer of size 1, and the history to which they lead.
struct Play {
    kind: KindName,
    commands: &'static [(u8, Command)],
    history: &'static [Event],
}

static PLAYS: [Play; 4] = [
    // The signal hands the monitor over.
    Play {
        kind: KindName::Pb,
        commands: &[
            (0, Command::Arrive),
            (0, Command::Out),
            (0, WAIT),
            (0, Command::Drop),
            (1, Command::Arrive),
            (1, Command::Out),
            (1, Command::Signal(0, Pick::Waiter)),
            (1, Command::Grant),
            (0, Command::Look),
            (0, Command::Out),
            (0, LEAVE),
            (0, Command::Grant),
        ],
        history: &[
            Event::Enter(0, Via::Free),
            Event::Wait(0, 0, Next::Entry),
            Event::Enter(1, Via::Free),
            Event::Signal(1, 0, Next::Waiter(0)),
            Event::Resume(0, From3::Waiter),
            Event::Leave(0, Next::Signaller(1)),
        ],
    },
    Play {
        kind: KindName::Pnb,
        commands: &[
            (0, Command::Arrive),
            (0, Command::Out),
            (0, WAIT),
            (0, Command::Drop),
            (1, Command::Arrive),
            (1, Command::Out),
            (1, Command::SignalAll(0)),
            (1, LEAVE),
            (1, Command::Drop),
            (1, Command::Grant),
            (0, Command::Look),
            (0, Command::Out),
        ],
        history: &[
            Event::Enter(0, Via::Free),
            Event::Wait(0, 0, Next::Entry),
            Event::Enter(1, Via::Free),
            Event::SignalAll(1, 0),
            Event::Leave(1, Next::Waiter(0)),
            Event::Resume(0, From3::Waiter),
        ],
    },
    // The world goes on after commands that are refused.
    Play {
        kind: KindName::Pir,
        commands: &[
            (0, Command::Drop),
            (0, Command::Arrive),
            (0, Command::SignalWait(0, 2, Pick::Waiter)),
            (0, Command::Out),
            (0, WAIT),
            (0, Command::Drop),
            (1, Command::Arrive),
            (1, Command::Out),
            (1, Command::SignalAll(0)),
            (1, Command::SignalWait(0, 1, Pick::Waiter)),
            (1, Command::Grant),
            (0, Command::Look),
            (0, Command::Out),
            (0, Command::SignalLeave(1, Pick::Waiter)),
        ],
        history: &[
            Event::Enter(0, Via::Free),
            Event::Wait(0, 0, Next::Entry),
            Event::Enter(1, Via::Free),
            Event::SignalWait(1, 0, 1, Next::Waiter(0)),
            Event::Resume(0, From3::Waiter),
            Event::SignalLeave(0, 1, Next::Waiter(1)),
        ],
    },
    Play {
        kind: KindName::Pis,
        commands: &[
            (0, Command::Arrive),
            (0, Command::Out),
            (0, UNTIL_AN_ITEM),
            (0, Command::Drop),
            (1, Command::Arrive),
            (1, Command::Out),
            (1, Command::Peek),
            (1, Command::Act(Op { code: 0, arg: 5 })),
            (1, UNTIL_AN_ITEM),
            (1, LEAVE),
        ],
        history: &[
            Event::Enter(0, Via::Free),
            Event::Until(0, 1, Next::Entry),
            Event::Enter(1, Via::Free),
            Event::Act(1, Op { code: 0, arg: 5 }, 1),
            Event::Until(1, 1, Next::Stay),
            Event::Leave(1, Next::Until(0)),
        ],
    },
];

/// A world of two seats and two conditions over such a buffer.
fn world<K: Kind>(rt: &HostRuntime) -> Result<World<K, Buffer>, Fail> {
    let buffer = Buffer::make(rt.alloc(), 1)?;
    Ok(World::make(rt.alloc(), buffer, 2, 2, 8)?)
}

/// Whether the commands lead to the history.
fn leads_there<K: Kind>(rt: &HostRuntime, play: &Play) -> Result<bool, Fail> {
    let mut world: World<K, Buffer> = world(rt)?;
    from_here(rt)?;
    world.run(play.commands);
    let well = world.history() == play.history;
    up_to_here(rt)?;
    Ok(well)
}

#[test]
fn plays_lead_to_their_histories(rt: HostRuntime) -> Result<(), Fail> {
    for play in PLAYS.iter() {
        let well = match play.kind {
            KindName::Pb => leads_there::<Pb>(&rt, play)?,
            KindName::Pnb => leads_there::<Pnb>(&rt, play)?,
            KindName::Pir => leads_there::<Pir>(&rt, play)?,
            KindName::Pis => leads_there::<Pis>(&rt, play)?,
            _ => false,
        };
        if !well {
            return Err(play.kind.as_str())?;
        }
    }
    Ok(())
}

static ARRIVES_AT_THE_DROP: [(u8, Command, Answer); 8] = [
    (0, Command::Arrive, Answer::Arrived(0, 0)),
    (0, Command::Out, Answer::Now),
    (0, LEAVE, Answer::Chose(Next::Entry)),
    (1, Command::Arrive, Answer::Arrived(1, 1)),
    (0, Command::Drop, Answer::Found(2)),
    (0, Command::Grant, Answer::GrantedTicket(1)),
    (1, Command::Look, Answer::Looked(true)),
    (1, Command::Out, Answer::Now),
];

#[test]
fn arrives_at_the_drop(rt: HostRuntime) -> Result<(), Fail> {
    let mut world: World<Pb, Buffer> = world(&rt)?;
    from_here(&rt)?;
    let mut well = true;
    for (seat, command, answer) in ARRIVES_AT_THE_DROP.iter() {
        well &= world.step(*seat, *command) == *answer;
    }
    well_up_to_here(&rt, well)
}
