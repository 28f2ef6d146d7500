//! An audit succeeds if memory is ample. Its verdicts on known histories are tested by the lines that commands print.

use monk_audit::{AuditFault, Verdict, audit};
use monk_history::{Event, Header, Next, Via};
use monk_kinds::KindName;
use monk_object::ObjectName;

const EVENTS: [Event; 2] = [Event::Enter(0, Via::Free), Event::Leave(0, Next::Entry)];

/// Returns the verdict on a visit under the kind, over the object of that size.
fn audited(
    rt: &HostRuntime,
    kind: KindName,
    object: ObjectName,
    size: u8,
) -> Option<Result<Verdict, AuditFault>> {
    let header = Header::new(kind, 1, 0, object, size)?;
    Some(audit(rt.alloc(), &header, &EVENTS))
}

/// Whether the visit is legal over the object of size 1, and an object of size 65 is refused.
fn is_audited(rt: &HostRuntime, kind: KindName, object: ObjectName) -> bool {
    matches!(audited(rt, kind, object, 1), Some(Ok(Verdict::Legal(2))))
        && matches!(audited(rt, kind, object, 65), Some(Err(AuditFault::Object)))
}

/// The same over each object.
fn are_audited(rt: &HostRuntime, kind: KindName) -> bool {
    for object in ObjectName::ALL.iter() {
        if !is_audited(rt, kind, *object) {
            return false;
        }
    }
    true
}

#[test]
fn each_kind_and_object_is_audited(rt: HostRuntime) {
    for kind in KindName::ALL.iter() {
        assert!(rt; are_audited(&rt, *kind));
    }
}
