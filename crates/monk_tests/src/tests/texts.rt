use super::jobs::Expected;
use monk_history::lines::{Flaw, LineWords};
use monk_history::{
    Device, Header, ReadFault, one_history_each, read, read_limited, reads_back, writable, write,
};
use monk_kinds::KindName;
use monk_object::ObjectName;
use std::test::Fail;

const RUN: &[u8] =
    b"monk 1 PB 2 2 buffer 1\nenter 0 free\nwait 0 1 entry\nenter 1 free\nsignal 1 1 waiter 0\nresume 0 waiter\nleave 0 signaller 1\nresume 1 signaller\nleave 1 entry\n";

/// Each kind of event and of next, with the greatest numbers.
const EACH: &[u8] =
    b"monk 1 NPIR 32 8 shop 255\nenter 255 free\nenter 0 handed\nact 255 255 4294967295 18446744073709551615\nact 0 0 0 0\nleave 10 stay\nwait 255 255 entry\nsignal 7 99 waiter 100\nsignal-leave 255 255 signaller 255\nuntil 1 2 until 3\nresume 4 waiter\nresume 5 signaller\nresume 6 until\n";

/// Each word that version 2 adds, with the greatest numbers.
const EACH_OF_VERSION_TWO: &[u8] =
    b"monk 2 NPIR 32 8 shop 255\nenter 255 free\nsignal-all 255 255\nsignal-all 0 10\nsignal-wait 255 255 255 signaller 255\nsignal-wait 0 10 9 stay\nleave 0 entry\n";

/// The object that version 3 adds, and words of each version.
const EACH_OF_VERSION_THREE: &[u8] =
    b"monk 3 PIS 32 8 flags 32\nenter 0 free\nact 0 0 4294967295 1\nsignal-all 255 255\nsignal-wait 255 255 255 stay\nuntil 0 31 stay\nleave 0 entry\n";

/// The fault's number and line, or 0 and the number of events.
fn outcome(rt: &HostRuntime, bytes: &[u8]) -> (u8, u32) {
    match read(rt.alloc(), bytes) {
        Ok((_, events)) => (0, u32::try_from(events.len()).unwrap_or(0)),
        Err(fault) => (fault.number, fault.line),
    }
}

/// Where the header's newline is.
fn header_end(text: &[u8]) -> usize {
    for (at, byte) in text.iter().enumerate() {
        if *byte == b'\n' {
            return at;
        }
    }
    0
}

/// Returns the header of the text, and its lines `times` times.
pub(crate) fn repeated(rt: &HostRuntime, text: &[u8], times: usize) -> Result<Vec<u8>, Fail> {
    let end = header_end(text);
    let mut bytes = Vec::from_slice(rt.alloc(), text)?;
    for _ in 1..times {
        if end < text.len() {
            bytes.extend_from_slice(&text[end + 1..])?;
        }
    }
    Ok(bytes)
}

/// Texts, and the outcome of each.
static WHOLE_TEXTS: [(&[u8], u8, u32); 4] = [
    (RUN, 0, 8),
    (b"monk 1 PB 2 2 buffer 1\n", 0, 0),
    (b"", 1, 1),
    (b"monk 1 PB 33 0 buffer 1\n", 1, 1),
];

#[test]
fn whole_texts(rt: HostRuntime) {
    for (text, number, line) in WHOLE_TEXTS.iter() {
        assert!(rt; outcome(&rt, text) == (*number, *line));
    }
}

#[test]
fn cut_texts(rt: HostRuntime) {
    let mut ended = 0u32;
    for (cut, byte) in RUN.iter().enumerate() {
        let want = if cut == 0 {
            (1, 1)
        } else if RUN[cut - 1] == b'\n' {
            (0, ended.wrapping_sub(1))
        } else {
            (4, ended.wrapping_add(1))
        };
        assert!(rt; outcome(&rt, &RUN[..cut]) == want);
        if *byte == b'\n' {
            ended = ended.wrapping_add(1);
        }
    }
}

#[test]
fn limit_of_lines(rt: HostRuntime) {
    let told = match read_limited(rt.alloc(), RUN, 3) {
        Ok(_) => (0, 0),
        Err(fault) => (fault.number, fault.line),
    };
    assert!(rt; told == (5, 5));
}

/// Numbers for which there is no header: of seats, of conditions, and the size.
static NO_HEADERS: [(u8, u8, u8); 4] = [(0, 0, 1), (33, 0, 1), (1, 9, 1), (1, 0, 0)];

#[test]
fn headers(rt: HostRuntime) -> Result<(), Fail> {
    let Some(header) = Header::new(KindName::Npir, 32, 8, ObjectName::Shop, 255) else {
        return Err(Fail::new("no header"));
    };
    let numbers = (header.seats(), header.conds(), header.size());
    let is_of = header.kind() == KindName::Npir && header.object() == ObjectName::Shop;
    assert!(rt; is_of && numbers == (32, 8, 255));
    for (seats, conds, size) in NO_HEADERS.iter() {
        let none = Header::new(KindName::Pb, *seats, *conds, ObjectName::Buffer, *size);
        assert!(rt; none.is_none());
    }
    Ok(())
}

/// A text, its version, the one to which it is upgraded, and whether its events can be written under version 1.
type Versioned = (&'static [u8], u8, u8, bool);

static VERSIONS: [Versioned; 3] = [
    (RUN, 1, 2, true),
    (EACH_OF_VERSION_TWO, 2, 2, false),
    (EACH_OF_VERSION_THREE, 3, 3, false),
];

/// Whether the text is of those versions, and its events can be written under them.
fn is_of_versions(rt: &HostRuntime, old: &Header, row: &Versioned) -> Result<bool, ReadFault> {
    let (text, version, upgraded, is_old) = *row;
    let (header, events) = read(rt.alloc(), text)?;
    Ok(
        (header.version(), header.upgraded().version()) == (version, upgraded)
            && writable(&header, &events)
            && writable(&header.upgraded(), &events)
            && writable(old, &events) == is_old,
    )
}

#[test]
fn versions(rt: HostRuntime) -> Result<(), Fail> {
    let (old, _) = read(rt.alloc(), RUN)?;
    for row in VERSIONS.iter() {
        assert!(rt; is_of_versions(&rt, &old, row)?);
    }
    Ok(())
}

/// Each object, and the version of a new header that names it.
static FIRST_VERSIONS: [(ObjectName, u8); 4] = [
    (ObjectName::Buffer, 1),
    (ObjectName::Book, 1),
    (ObjectName::Shop, 1),
    (ObjectName::Flags, 3),
];

#[test]
fn first_versions(rt: HostRuntime) {
    for (object, version) in FIRST_VERSIONS.iter() {
        let made = Header::new(KindName::Pis, 1, 0, *object, 1);
        assert!(rt; matches!(made, Some(header) if header.version() == *version));
    }
}

/// Whether the text is written again as it was read, by a writer that takes `step` bytes at a time.
fn is_written_again(rt: &HostRuntime, bytes: &[u8], step: usize) -> Result<bool, Fail> {
    let (header, events) = read(rt.alloc(), bytes)?;
    let mut written = Expected::failing(bytes, step, 0, false);
    let mut device = Device::new(&mut written);
    write(&header, &events, &mut device)?;
    Ok(!device.failed() && written.agrees() && written.taken == bytes.len())
}

static WRITTEN: [&[u8]; 4] = [RUN, EACH, EACH_OF_VERSION_TWO, EACH_OF_VERSION_THREE];

/// How often a text's lines are written, and how many bytes the writer takes at a time.
static PIECES: [(usize, usize); 3] = [(1, 1), (90, 4095), (90, 4096)];

#[test]
fn written_and_read(rt: HostRuntime) -> Result<(), Fail> {
    for text in WRITTEN.iter() {
        for (times, step) in PIECES.iter() {
            let long = repeated(&rt, text, *times)?;
            assert!(rt; is_written_again(&rt, &long, *step)?);
        }
    }
    one_history_each();
    reads_back();
    Ok(())
}

/// Whether writing fails if the writer takes `step` bytes at a time and fails at write `fails_at`. If writing doesn't
/// fail, the writer has the whole text.
fn is_refused(
    rt: &HostRuntime,
    bytes: &[u8],
    fails_at: usize,
    step: usize,
    refuses: bool,
) -> Result<bool, Fail> {
    let (header, events) = read(rt.alloc(), bytes)?;
    let mut written = Expected::failing(bytes, step, fails_at, refuses);
    let mut device = Device::new(&mut written);
    let fails = write(&header, &events, &mut device).is_err();
    let is_told = fails == device.failed() && written.agrees();
    if !is_told || !fails && written.taken != bytes.len() {
        return Err(Fail::new(
            "a write and its device tell different things, or the text is another",
        ));
    }
    Ok(fails)
}

/// How many bytes a writer takes at a time, and whether it fails by taking none.
static WRITERS: [(usize, bool); 3] = [(1000, false), (1000, true), (4096, false)];

/// Writing fails at each of its writes in turn. There is at least one, and there are fewer than 30.
#[test]
fn writers_fail_in_turn(rt: HostRuntime) -> Result<(), Fail> {
    let bytes = repeated(&rt, RUN, 90)?;
    for (step, refuses) in WRITERS.iter() {
        let mut refused = 0usize;
        for fails_at in 1..31usize {
            if is_refused(&rt, &bytes, fails_at, *step, *refuses)? {
                refused = refused.wrapping_add(1);
                assert!(rt; refused == fails_at);
            }
        }
        assert!(rt; 0 < refused && refused < 30);
    }
    Ok(())
}

/// Whether the words of a line are read one after the other. An empty word is no number.
fn are_read(line: &[u8]) -> bool {
    let mut words = LineWords::of(line);
    words.literal(b"play").is_ok()
        && words.byte() == Ok(255)
        && words.number(1 << 20) == Ok(65536)
        && words.byte() == Err(Flaw::Number)
        && words.next() == Some(b"x".as_slice())
        && words.end().is_ok()
        && words.byte() == Err(Flaw::Word)
}

#[test]
fn words_of_a_line(rt: HostRuntime) {
    assert!(rt; are_read(b"play 255 65536  x"));
}
