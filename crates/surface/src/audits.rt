//! The verdict on a history.
ghost use Rattle.std.specs.Prelude.{◌≤◌, ◌^◌, length};

use monk_audit::{AuditFault, Verdict, audit};
use monk_history::{Event, Header};
use std::alloc::Global;

pub fn judge(alloc: Global, header: &Header, events: &[Event]) -> Result<Verdict, AuditFault>
    requires { length events.now ≤ 2 ^ 25 }
{
    audit(alloc, header, events)
}

/// Returns how many events are legal, or the first that isn't and the number of the reason.
pub fn parts_of_verdict(verdict: Verdict) -> Result<u32, (u32, u8)> {
    match verdict {
        Verdict::Legal(count) => Ok(count),
        Verdict::Forbidden { step, reason } => Err((step, reason)),
    }
}
