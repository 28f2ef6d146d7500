use monk_audit::AuditFault;
use monk_completion::{Blame, complete};
use monk_kinds::KindName;
use monk_logs::{LogHeader, LogLine, one_log_each, read_log};
use monk_object::{ObjectName, Op};
use std::test::Fail;

/// Each kind of line, with the least and the greatest numbers.
const EACH: &[u8] =
    b"log 1 32 8 shop 255\nenter 0\nresume 255\nlapse 1\nleave 2\nwait 3 255\nsignal 4 0\nbroadcast 5 1\nuntil 6 2\nact 7 255 4294967295 18446744073709551615\nact 8 0 0 0\n";

const GREATEST: Op = Op {
    code: 255,
    arg: u32::MAX,
};

const EACH_LINE: [LogLine; 10] = [
    LogLine::Enter(0),
    LogLine::Resume(255),
    LogLine::Lapse(1),
    LogLine::Leave(2),
    LogLine::Wait(3, 255),
    LogLine::Signal(4, 0),
    LogLine::Broadcast(5, 1),
    LogLine::Until(6, 2),
    LogLine::Act(7, GREATEST, u64::MAX),
    LogLine::Act(8, Op { code: 0, arg: 0 }, 0),
];

#[test]
fn each_line_of_a_log(rt: HostRuntime) -> Result<(), Fail> {
    one_log_each();
    let (header, lines) = read_log(rt.alloc(), EACH)?;
    let is_header = header.object() == ObjectName::Shop
        && (header.seats(), header.conds(), header.size()) == (32, 8, 255);
    assert!(rt; is_header && lines.as_slice() == EACH_LINE.as_slice());
    Ok(())
}

/// Seats, conditions, object and size, and whether there is such a header.
static HEADERS: [(u8, u8, ObjectName, u8, bool); 7] = [
    (1, 0, ObjectName::Buffer, 1, true),
    (32, 8, ObjectName::Book, 255, true),
    (2, 0, ObjectName::Flags, 32, true),
    (0, 0, ObjectName::Buffer, 1, false),
    (33, 0, ObjectName::Buffer, 1, false),
    (1, 9, ObjectName::Buffer, 1, false),
    (1, 0, ObjectName::Buffer, 0, false),
];

#[test]
fn headers_of_logs(rt: HostRuntime) {
    for (seats, conds, object, size, is_one) in HEADERS.iter() {
        assert!(rt; LogHeader::new(*seats, *conds, *object, *size).is_some() == *is_one);
    }
}

/// The nine reasons, with their numbers and words.
static REASONS: [(Blame, u8, &str); 9] = [
    (Blame::Range, 1, "range"),
    (Blame::Call, 2, "call"),
    (Blame::Turn, 3, "turn"),
    (Blame::Place, 4, "place"),
    (Blame::Reply, 5, "reply"),
    (Blame::Unserved, 6, "unserved"),
    (Blame::Served, 7, "served"),
    (Blame::Order, 8, "order"),
    (Blame::Choice, 9, "choice"),
];

#[test]
fn reasons_are_numbered(rt: HostRuntime) {
    for (blame, number, word) in REASONS.iter() {
        assert!(rt; blame.number() == *number && blame.text() == *word);
    }
}

/// The object is refused if the log names one that is too great.
#[test]
fn too_great_an_object_of_a_log(rt: HostRuntime) -> Result<(), Fail> {
    let (header, lines) = read_log(rt.alloc(), b"log 1 2 1 book 33\n")?;
    let found = complete(rt.alloc(), &header, &[], KindName::Pb);
    assert!(rt; lines.is_empty() && matches!(found, Err(AuditFault::Object)));
    Ok(())
}
