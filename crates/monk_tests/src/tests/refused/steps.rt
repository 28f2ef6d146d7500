use super::begins;
use monk_history::{Event, From3, Header, Next, Via};
use monk_kinds::KindName;
use monk_object::ObjectName;
use monk_tell::tell_steps;
use std::test::Fail;

/// A hand-over as Hoare's.
const HAND_OVER: [Event; 5] = [
    Event::Enter(0, Via::Free),
    Event::Wait(0, 0, Next::Entry),
    Event::Enter(1, Via::Free),
    Event::Signal(1, 0, Next::Waiter(0)),
    Event::Resume(0, From3::Waiter),
];

pub(super) fn steps(rt: &HostRuntime) -> Result<bool, Fail> {
    begins(rt, "steps")?;
    let Some(header) = Header::new(KindName::Pb, 2, 1, ObjectName::Buffer, 1) else {
        return Err(Fail::new("no header"));
    };
    let steps = tell_steps(rt.alloc(), &header, &HAND_OVER, 2, 4)?;
    Ok(steps.len() == 3)
}
