//! What is tested before a command is carried out. The tests read only the command and the seat's place.
ghost use Rattle.std.specs.Prelude.{◌≡◌};
ghost use Rattle.monk_world.specs.StepTable as table;
ghost use Rattle.monk_world.specs.Telling as telling;

use crate::command::Command;
use crate::place::Place;
use monk_history::Next;
use monk_kinds::Mode;

/// Whether the condition, the predicate and the code of a command are in range.
pub fn is_in_range(command: Command, conds: u8, codes: u8, predicates: u8) -> bool
    ensures { result ≡ telling.is_command_in_range conds codes predicates command }
{
    match command {
        Command::Arrive
        | Command::Look
        | Command::Out
        | Command::Peek
        | Command::Drop
        | Command::Grant
        | Command::Leave(_) => true,
        Command::Act(op) => op.code < codes,
        Command::Wait(cond, _)
        | Command::Signal(cond, _)
        | Command::SignalLeave(cond, _)
        | Command::SignalAll(cond) => cond < conds,
        Command::SignalWait(cond, wait_cond, _) => cond < conds && wait_cond < conds,
        Command::Until(pred, _) => pred < predicates,
    }
}

/// Whether the monitors of a mode have a call.
pub fn is_offered(mode: Mode, command: Command) -> bool
    ensures { result ≡ telling.is_command_offered mode command }
{
    match command {
        Command::Arrive
        | Command::Look
        | Command::Out
        | Command::Peek
        | Command::Drop
        | Command::Grant
        | Command::Act(_)
        | Command::Leave(_) => true,
        Command::Wait(..) => !matches!(mode, Mode::Automatic),
        Command::Signal(..) => {
            matches!(
                mode,
                Mode::Blocking | Mode::NonBlocking | Mode::QuasiBlocking
            )
        }
        Command::SignalAll(_) => matches!(mode, Mode::NonBlocking),
        Command::SignalLeave(..) | Command::SignalWait(..) => {
            matches!(mode, Mode::ImmediateReturn)
        }
        Command::Until(..) => matches!(mode, Mode::Automatic),
    }
}

/// Whether a seat at that place may carry the command out.
pub fn may_be_told(place: Place, command: Command) -> bool
    ensures { result ≡ table.may_be_told place command }
{
    match command {
        Command::Arrive => matches!(place, Place::Idle),
        Command::Look => matches!(place, Place::Ticket(_) | Place::Inner),
        Command::Out => matches!(place, Place::Due(_)),
        Command::Peek => matches!(place, Place::Idle | Place::Active(_)),
        Command::Drop => matches!(place, Place::Back(Next::Entry, _)),
        Command::Grant => may_grant(place),
        Command::Act(_)
        | Command::Leave(_)
        | Command::Wait(..)
        | Command::Signal(..)
        | Command::SignalLeave(..)
        | Command::Until(..)
        | Command::SignalAll(_)
        | Command::SignalWait(..) => matches!(place, Place::Active(_)),
    }
}

/// Whether a seat at that place has to grant a ticket, or to call a seat.
fn may_grant(place: Place) -> bool
    ensures { result ≡ table.may_be_told place Command.Grant }
{
    match place {
        Place::Passing(..) => true,
        Place::Back(next, _) => !matches!(next, Next::Stay | Next::Entry),
        Place::Idle | Place::Ticket(_) | Place::Due(_) | Place::Active(_) | Place::Inner => false,
    }
}

/// Returns how many events a seat must have left for a command, so that it can still resume and leave after it.
pub fn left_for(command: Command) -> u32
    ensures { result ≡ table.left_for command }
{
    match command {
        Command::Look | Command::Out | Command::Peek | Command::Drop | Command::Grant => 0,
        Command::Leave(_) | Command::SignalLeave(..) => 1,
        Command::Arrive | Command::Act(_) | Command::SignalAll(_) => 2,
        Command::Wait(..) | Command::Signal(..) | Command::Until(..) | Command::SignalWait(..) => 3,
    }
}
