use super::begins;
use monk_audit::{Verdict, audit};
use monk_history::{Event, From3, Header, Next, Via};
use monk_kinds::KindName;
use monk_object::{ObjectName, Op};
use std::test::Fail;

/// Two seats wait, one signals, and both inner queues let a seat go on. Each list of the audit grows but the untils'.
const SIGNALS: [Event; 10] = [
    Event::Enter(0, Via::Free),
    Event::Act(0, Op { code: 0, arg: 6 }, 1),
    Event::Wait(0, 1, Next::Entry),
    Event::Enter(1, Via::Free),
    Event::Wait(1, 0, Next::Entry),
    Event::Enter(2, Via::Free),
    Event::Signal(2, 1, Next::Waiter(0)),
    Event::Resume(0, From3::Waiter),
    Event::Leave(0, Next::Signaller(2)),
    Event::Resume(2, From3::Signaller),
];

/// Two seats wait, and a signal that leaves passes over the task that it served.
const RETURNS: [Event; 6] = [
    Event::Enter(0, Via::Free),
    Event::Wait(0, 0, Next::Entry),
    Event::Enter(1, Via::Free),
    Event::Wait(1, 0, Next::Entry),
    Event::Enter(2, Via::Free),
    Event::SignalLeave(2, 0, Next::Entry),
];

/// A seat waits until an item is there.
const UNTILS: [Event; 6] = [
    Event::Enter(0, Via::Free),
    Event::Until(0, 1, Next::Entry),
    Event::Enter(1, Via::Free),
    Event::Act(1, Op { code: 0, arg: 6 }, 1),
    Event::Leave(1, Next::Until(0)),
    Event::Resume(0, From3::Until),
];

/// A name, a kind, the number of conditions, the events of a history of three seats over a buffer, and the verdict.
type Row = (&'static str, KindName, u8, &'static [Event], Verdict);

static ROWS: [Row; 3] = [
    ("signals", KindName::Pb, 2, &SIGNALS, Verdict::Legal(10)),
    (
        "returns",
        KindName::Pir,
        1,
        &RETURNS,
        Verdict::Forbidden { step: 6, reason: 6 },
    ),
    ("untils", KindName::Pis, 0, &UNTILS, Verdict::Legal(6)),
];

pub(super) fn are_audited(rt: &HostRuntime) -> Result<bool, Fail> {
    for (name, kind, conds, events, verdict) in ROWS.iter() {
        begins(rt, name)?;
        let Some(header) = Header::new(*kind, 3, *conds, ObjectName::Buffer, 1) else {
            return Ok(false);
        };
        if events.len() > 1 << 25 || audit(rt.alloc(), &header, events)? != *verdict {
            return Ok(false);
        }
    }
    Ok(true)
}
