//! The world of atomic steps, and the text of a play.

use monk_floor::MakeFault;
use monk_history::{Event, Header, Next, ReadFault};
use monk_kinds::{Kind, Pick};
use monk_object::{Guarded, Op};
use monk_world::{Answer, Command, World, read_play};
use std::alloc::Global;

pub fn make<K: Kind, T: Guarded>(
    alloc: Global,
    object: T,
    seats: u8,
    conds: u8,
    budget: u32,
) -> Result<World<K, T>, MakeFault> {
    World::make(alloc, object, seats, conds, budget)
}

pub fn step<K: Kind, T: Guarded>(world: &mut World<K, T>, seat: u8, command: Command) -> Answer {
    world.step(seat, command)
}

pub fn run<K: Kind, T: Guarded>(world: &mut World<K, T>, commands: &[(u8, Command)]) {
    world.run(commands);
}

pub fn history<K: Kind, T: Guarded>(world: &World<K, T>) -> &[Event] {
    world.history()
}

/// The header, the budget and the commands.
pub fn play(alloc: Global, bytes: &[u8]) -> Result<(Header, u32, Vec<(u8, Command)>), ReadFault> {
    read_play(alloc, bytes)
}

/// The fourteen commands. The wish comes last.
pub fn wish_of(command: Command) -> Option<Pick> {
    match command {
        Command::Arrive | Command::Look | Command::Out => None,
        Command::Peek | Command::Drop | Command::Grant => None,
        Command::Act(Op { code: _, arg: _ }) => None,
        Command::Leave(pick) => Some(pick),
        Command::Wait(_, pick) => Some(pick),
        Command::Signal(_, pick) => Some(pick),
        Command::SignalLeave(_, pick) => Some(pick),
        Command::Until(_, pick) => Some(pick),
        Command::SignalAll(_) => None,
        Command::SignalWait(_, _, pick) => Some(pick),
    }
}

/// The condition or the predicate comes first. Of two conditions, this is the second one.
pub fn place_of(command: Command) -> Option<u8> {
    match command {
        Command::Wait(cond, _) => Some(cond),
        Command::Signal(cond, _) => Some(cond),
        Command::SignalLeave(cond, _) => Some(cond),
        Command::SignalAll(cond) => Some(cond),
        Command::SignalWait(_, cond, _) => Some(cond),
        Command::Until(pred, _) => Some(pred),
        _ => None,
    }
}

/// The thirteen answers. Four of them are refusals. This is the choice.
pub fn choice_of(answer: Answer) -> Option<Next> {
    match answer {
        Answer::Chose(next) => Some(next),
        Answer::Arrived(_, _) | Answer::Looked(_) | Answer::Found(_) | Answer::Now => None,
        Answer::GrantedTicket(_) | Answer::GrantedSeat(_) => None,
        Answer::Reply(_) | Answer::Woke(_) => None,
        Answer::Range | Answer::NoCall | Answer::NotNow | Answer::Tired => None,
    }
}

/// The tickets drawn, and those not passed on, that an arrival found.
pub fn arrived(answer: Answer) -> Option<(u32, u32)> {
    match answer {
        Answer::Arrived(drawn, unpassed) => Some((drawn, unpassed)),
        _ => None,
    }
}

/// The number in the other answers that have one of 32 bits.
pub fn count_of(answer: Answer) -> Option<u32> {
    match answer {
        Answer::Found(count) => Some(count),
        Answer::GrantedTicket(ticket) => Some(ticket),
        Answer::Woke(count) => Some(count),
        _ => None,
    }
}

pub fn looked(answer: Answer) -> Option<bool> {
    match answer {
        Answer::Looked(is_there) => Some(is_there),
        _ => None,
    }
}

pub fn granted_seat(answer: Answer) -> Option<u8> {
    match answer {
        Answer::GrantedSeat(seat) => Some(seat),
        _ => None,
    }
}

pub fn replied(answer: Answer) -> Option<u64> {
    match answer {
        Answer::Reply(reply) => Some(reply),
        _ => None,
    }
}
