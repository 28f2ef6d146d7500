use monk_history::{MOST_BUDGET, ReadFault};
use monk_kinds::{KindName, Pick};
use monk_object::{ObjectName, Op};
use monk_world::{Command, one_play_each, read_play};
use std::test::Fail;

/// A seat draws its ticket while the other is leaving, and is granted the right all the same.
const LOST_TICKET: &[u8] =
    b"play 1 PB 2 2 buffer 1 8\n0 arrive\n0 out\n0 leave waiter\n1 arrive\n0 drop\n0 grant\n1 look\n1 out\n";

/// Each action and each wish, with the least and the greatest numbers.
const EACH: &[u8] =
    b"play 1 NPIS 32 8 shop 255 1048576\n255 arrive\n0 look\n1 out\n2 peek\n3 drop\n4 grant\n5 act 255 4294967295\n6 act 0 0\n7 leave entry\n8 wait 255 waiter\n9 signal 0 signaller\n10 signal-leave 255 entry\n11 until 3 waiter\n";

/// The object that version 3 adds, and actions of each version.
const EACH_OF_VERSION_THREE: &[u8] =
    b"play 3 PIS 2 0 flags 32 8\n0 act 0 4294967295\n0 until 31 entry\n0 signal-all 0\n";

/// The actions of version 2, with the greatest numbers.
const EACH_OF_VERSION_TWO: &[u8] =
    b"play 2 NPIR 32 8 shop 255 1048576\n0 arrive\n1 signal-all 255\n2 signal-wait 255 10 entry\n3 signal-wait 0 0 signaller\n";

const GREATEST: Op = Op {
    code: 255,
    arg: u32::MAX,
};

const ALL: Op = Op {
    code: 0,
    arg: u32::MAX,
};

/// A text, what its first line says, and its commands.
struct Play {
    name: &'static str,
    text: &'static [u8],
    version: u8,
    kind: KindName,
    object: ObjectName,
    /// The numbers of seats and of conditions, the size and the budget.
    numbers: (u8, u8, u8, u32),
    commands: &'static [(u8, Command)],
}

static PLAYS: [Play; 4] = [
    Play {
        name: "lost_ticket",
        text: LOST_TICKET,
        version: 1,
        kind: KindName::Pb,
        object: ObjectName::Buffer,
        numbers: (2, 2, 1, 8),
        commands: &[
            (0, Command::Arrive),
            (0, Command::Out),
            (0, Command::Leave(Pick::Waiter)),
            (1, Command::Arrive),
            (0, Command::Drop),
            (0, Command::Grant),
            (1, Command::Look),
            (1, Command::Out),
        ],
    },
    Play {
        name: "each action",
        text: EACH,
        version: 1,
        kind: KindName::Npis,
        object: ObjectName::Shop,
        numbers: (32, 8, 255, MOST_BUDGET),
        commands: &[
            (255, Command::Arrive),
            (0, Command::Look),
            (1, Command::Out),
            (2, Command::Peek),
            (3, Command::Drop),
            (4, Command::Grant),
            (5, Command::Act(GREATEST)),
            (6, Command::Act(Op { code: 0, arg: 0 })),
            (7, Command::Leave(Pick::Entry)),
            (8, Command::Wait(255, Pick::Waiter)),
            (9, Command::Signal(0, Pick::Signaller)),
            (10, Command::SignalLeave(255, Pick::Entry)),
            (11, Command::Until(3, Pick::Waiter)),
        ],
    },
    Play {
        name: "each action of version 2",
        text: EACH_OF_VERSION_TWO,
        version: 2,
        kind: KindName::Npir,
        object: ObjectName::Shop,
        numbers: (32, 8, 255, MOST_BUDGET),
        commands: &[
            (0, Command::Arrive),
            (1, Command::SignalAll(255)),
            (2, Command::SignalWait(255, 10, Pick::Entry)),
            (3, Command::SignalWait(0, 0, Pick::Signaller)),
        ],
    },
    Play {
        name: "each action of version 3",
        text: EACH_OF_VERSION_THREE,
        version: 3,
        kind: KindName::Pis,
        object: ObjectName::Flags,
        numbers: (2, 0, 32, 8),
        commands: &[
            (0, Command::Act(ALL)),
            (0, Command::Until(31, Pick::Entry)),
            (0, Command::SignalAll(0)),
        ],
    },
];

/// Whether the text is read as this play.
fn is_read(rt: &HostRuntime, play: &Play) -> Result<bool, ReadFault> {
    let (header, budget, commands) = read_play(rt.alloc(), play.text)?;
    let numbers = (header.seats(), header.conds(), header.size(), budget);
    Ok(
        header.version() == play.version
            && header.kind() == play.kind
            && header.object() == play.object
            && numbers == play.numbers
            && commands.as_slice() == play.commands,
    )
}

#[test]
fn plays_are_read(rt: HostRuntime) -> Result<(), Fail> {
    for play in PLAYS.iter() {
        if !is_read(&rt, play)? {
            return Err(play.name)?;
        }
    }
    one_play_each();
    Ok(())
}
