use super::begins;
use monk_history::{Event, Next, ReadFault, Via, read};
use std::test::Fail;

/// Seventeen events, so that the list of them grows several times.
const LONG: &[u8] =
    b"monk 1 PB 2 2 buffer 1\nenter 0 free\nleave 0 entry\nenter 0 free\nleave 0 entry\nenter 0 free\nleave 0 entry\nenter 0 free\nleave 0 entry\nenter 0 free\nleave 0 entry\nenter 0 free\nleave 0 entry\nenter 0 free\nleave 0 entry\nenter 0 free\nleave 0 entry\nenter 0 free\n";

/// As above, with a word too many on the last line.
const FAULTY: &[u8] =
    b"monk 1 PB 2 2 buffer 1\nenter 0 free\nleave 0 entry\nenter 0 free\nleave 0 entry\nenter 0 free\nleave 0 entry\nenter 0 free\nleave 0 entry\nenter 0 free\nleave 0 entry\nenter 0 free\nleave 0 entry\nenter 0 free\nleave 0 entry\nenter 0 free\nleave 0 entry\nenter 0 free 1\n";

/// Returns 0 and the number of events, or 255 and 0 if they are wrong ones; else the fault's number and line.
fn told(rt: &HostRuntime, bytes: &[u8]) -> Result<(u8, u32), ReadFault> {
    match read(rt.alloc(), bytes) {
        Ok((header, events)) => {
            if header.seats() != 2 || !alternate(&events) {
                return Ok((255, 0));
            }
            Ok((0, u32::try_from(events.len()).unwrap_or(0)))
        }
        Err(fault) if fault.number == ReadFault::MEMORY => Err(fault),
        Err(fault) => Ok((fault.number, fault.line)),
    }
}

/// Whether seat 0 enters and leaves in turn.
fn alternate(events: &[Event]) -> bool {
    let mut inside = false;
    for event in events {
        let expected = if inside {
            Event::Leave(0, Next::Entry)
        } else {
            Event::Enter(0, Via::Free)
        };
        if *event != expected {
            return false;
        }
        inside = !inside;
    }
    true
}

/// The whole text, and then the faulty one.
pub(super) fn are_read(rt: &HostRuntime) -> Result<bool, Fail> {
    begins(rt, "history")?;
    let whole = told(rt, LONG)?;
    begins(rt, "fault")?;
    Ok(told(rt, FAULTY)? == (2, 18) && whole == (0, 17))
}
