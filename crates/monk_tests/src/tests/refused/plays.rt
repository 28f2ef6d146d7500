use super::begins;
use monk_history::ReadFault;
use monk_world::{Command, read_play};
use std::test::Fail;

/// Seventeen commands, so that the list of them grows several times.
const LONG: &[u8] =
    b"play 1 PB 2 2 buffer 1 8\n0 arrive\n1 look\n0 arrive\n1 look\n0 arrive\n1 look\n0 arrive\n1 look\n0 arrive\n1 look\n0 arrive\n1 look\n0 arrive\n1 look\n0 arrive\n1 look\n0 arrive\n";

/// As above, with a word too many on the last line.
const FAULTY: &[u8] =
    b"play 1 PB 2 2 buffer 1 8\n0 arrive\n1 look\n0 arrive\n1 look\n0 arrive\n1 look\n0 arrive\n1 look\n0 arrive\n1 look\n0 arrive\n1 look\n0 arrive\n1 look\n0 arrive\n1 look\n0 arrive 1\n";

/// Returns 0 and the number of commands, or 255 and 0 if they are wrong ones; else the fault's number and line.
fn told(rt: &HostRuntime, bytes: &[u8]) -> Result<(u8, u32), ReadFault> {
    match read_play(rt.alloc(), bytes) {
        Ok((header, budget, commands)) => {
            if header.seats() != 2 || budget != 8 || !alternate(&commands) {
                return Ok((255, 0));
            }
            Ok((0, u32::try_from(commands.len()).unwrap_or(0)))
        }
        Err(fault) if fault.number == ReadFault::MEMORY => Err(fault),
        Err(fault) => Ok((fault.number, fault.line)),
    }
}

/// Whether seat 0 arrives and seat 1 looks in turn.
fn alternate(commands: &[(u8, Command)]) -> bool {
    let mut expected = (0, Command::Arrive);
    for command in commands {
        if *command != expected {
            return false;
        }
        expected = match expected {
            (0, _) => (1, Command::Look),
            _ => (0, Command::Arrive),
        };
    }
    true
}

/// The whole play, and then the faulty one.
pub(super) fn are_read(rt: &HostRuntime) -> Result<bool, Fail> {
    begins(rt, "play")?;
    let whole = told(rt, LONG)?;
    begins(rt, "faulty_play")?;
    Ok(told(rt, FAULTY)? == (2, 18) && whole == (0, 17))
}
