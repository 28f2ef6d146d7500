//! The stages of the audit of a text: waiting for the header, judging the events, and the verdict found.

ghost use Rattle.std.specs.Prelude.{◌≡◌, ◌≢◌, ◌≤◌, ◌<◌, ◌⊎◌, ℕ, List, [], Err, true, IfOk, IfErr, OnOk, length};
ghost use Rattle.monk_object.specs.Names.{most};
ghost use Rattle.monk_history.specs.Text.{Faults.memory, Lines.Gives, Lines.is_unended};
ghost use Rattle.monk_audit.specs.Pieces.{events_from, judged_from_here, owed_verdict, stages_left, AsksForNone};
ghost use Rattle.monk_audit.specs.Pieces.{IsCarried, IsFaulty, IsJudgedStep, IsSound, IsSoundCourse, IsStageStep};
ghost use Rattle.monk_audit.specs.Reading.{lines_verdict, same};

use crate::course::{Course, judge_lines, read_lines};
use crate::text_verdict::TextVerdict;
use crate::verdict::Verdict;
use monk_history::lines::header_at_front;
use monk_history::{Header, ReadFault};
use monk_object::{Book, Buffer, Flags, Guarded, ObjectName, Shop};
use std::alloc::Global;

/// A request for memory was refused.
const MEMORY: ReadFault = ReadFault {
    number: ReadFault::MEMORY,
    line: 0,
};

/// How far the audit of a text has come.
#[derive(Drop)]
pub(crate) enum Stage {
    /// The line of the header has not ended.
    Opening,
    /// Each event so far is legal, over a buffer.
    Buffer(Course, Buffer),
    /// Each event so far is legal, over a book.
    Book(Course, Book),
    /// Each event so far is legal, over a shop.
    Shop(Course, Shop),
    /// Each event so far is legal, over flags.
    Flags(Course, Flags),
    /// The verdict, if all further lines can be read. The number says how many events were read.
    Found(Header, u32, TextVerdict),
}

impl Stage {
    /// Goes through the lines that end in the bytes, and returns what follows the last of them.
    pub fn judge<'a>(&mut self, alloc: Global, bytes: &'a [u8]) -> Result<&'a [u8], ReadFault>
        requires { IsSound self.old }
        ensures step { IfOk result (λ rest. IsCarried (owed_verdict self.old) bytes.entry.now
            (owed_verdict self.new) rest.now) }
        ensures ended { IfOk result (λ rest. is_unended rest.now ≡ true) }
        ensures sound { OnOk result (IsSound self.new) }
        ensures fault { IfErr result
            (λ f. (f ≢ memory) ⊎ AsksForNone self.old bytes.entry.now
            → IsFaulty (owed_verdict self.old) bytes.entry.now f) }
    {
        let mut rest = bytes;
        loop {
            let (next, left) = self.advance(alloc, rest)?;
            rest = left;
            match next {
                Some(stage) => *self = stage,
                None => return Ok(rest),
            }
        }
    }

    /// Does the same as far as this stage goes. Also returns the stage that follows, if one does.
    fn advance<'a>(
        &mut self,
        alloc: Global,
        bytes: &'a [u8],
    ) -> Result<(Option<Stage>, &'a [u8]), ReadFault>
        requires { IsSound self.old }
        ensures step { IfOk result (λ r. IsStageStep r.0 bytes.entry.now r.1.now self.old self.new) }
        ensures fault { IfErr result
            (λ f. (f ≢ memory) ⊎ AsksForNone self.old bytes.entry.now
            → IsFaulty (owed_verdict self.old) bytes.entry.now f) }
    {
        let (next, rest) = match self {
            Stage::Opening => open(alloc, bytes)?,
            Stage::Buffer(course, buffer) => judge_stage(course, buffer, bytes)?,
            Stage::Book(course, book) => judge_stage(course, book, bytes)?,
            Stage::Shop(course, shop) => judge_stage(course, shop, bytes)?,
            Stage::Flags(course, flags) => judge_stage(course, flags, bytes)?,
            Stage::Found(header, count, _) => (None, read_lines(header, count, bytes)?),
        };
        Ok((next, rest))
    }

    /// Returns the verdict on a text that ends here.
    fn found(&self) -> Result<TextVerdict, ReadFault>
        requires { IsSound self.now }
        ensures { result ≡ owed_verdict self.now [] }
    {
        match self {
            Stage::Opening => Err(ReadFault {
                number: ReadFault::HEADER,
                line: 1,
            }),
            Stage::Buffer(course, _)
            | Stage::Book(course, _)
            | Stage::Shop(course, _)
            | Stage::Flags(course, _) => { Ok(TextVerdict::Judged(Verdict::Legal(course.count))) }
            Stage::Found(_, _, found) => Ok(*found),
        }
    }

    /// Returns the fault of a text whose last line is not ended.
    fn unfinished(&self) -> ReadFault
        requires { IsSound self.now }
        ensures { (bytes : List ℕ) → is_unended bytes ≡ true → length bytes ≢ 0
            → owed_verdict self.now bytes ≡ Err result }
    {
        let line = match self {
            Stage::Opening => 1,
            Stage::Buffer(course, _)
            | Stage::Book(course, _)
            | Stage::Shop(course, _)
            | Stage::Flags(course, _) => { course.count + 2 }
            Stage::Found(_, count, _) => *count + 2,
        };
        ReadFault {
            number: ReadFault::END,
            line,
        }
    }

    /// Returns the verdict, if these bytes are the rest of the text.
    pub fn end(self, alloc: Global, bytes: &[u8]) -> Result<TextVerdict, ReadFault>
        requires { IsSound self }
        ensures verdict { Gives same result (owed_verdict self bytes.now) }
        ensures none { AsksForNone self bytes.now → result ≡ owed_verdict self bytes.now }
    {
        let mut stage = self;
        let rest = stage.judge(alloc, bytes)?;
        if rest.is_empty() {
            stage.found()
        } else {
            Err(stage.unfinished())
        }
    }
}

/// Returns the stage after the header, if the header's line ends in the bytes.
fn open(alloc: Global, bytes: &[u8]) -> Result<(Option<Stage>, &[u8]), ReadFault>
    ensures step { IfOk result (λ r. IsStageStep r.0 bytes.entry.now r.1.now Stage.Opening Stage.Opening) }
    ensures fault { IfErr result
        (λ f. (f ≢ memory) ⊎ AsksForNone Stage.Opening bytes.entry.now
        → IsFaulty (owed_verdict Stage.Opening) bytes.entry.now f) }
{
    let Some((header, rest)) = header_at_front::<Header>(bytes) else {
        return Ok((None, bytes));
    };
    let stage = stage_behind(alloc, header?)?;
    Ok((Some(stage), rest))
}

/// Returns the stage in which the events after the header are judged, or only read if the size is too great.
fn stage_behind(alloc: Global, header: Header) -> Result<Stage, ReadFault>
    ensures verdict { IfOk result (λ s. (x : List ℕ)
        → owed_verdict s x ≡ lines_verdict header (events_from header 0 x)) }
    ensures sound { IfOk result IsSound }
    ensures left { IfOk result (λ s. stages_left s < stages_left Stage.Opening) }
    ensures spares { IfOk result (λ s. most header.object < header.size → (x : List ℕ) → AsksForNone s x) }
    ensures fault { IfErr result (λ f. (f ≡ memory) × (header.size ≤ most header.object)) }
{
    let size = header.size();
    if size > header.object().greatest_size() {
        return Ok(Stage::Found(header, 0, TextVerdict::TooBig));
    }
    let course = Course::new(alloc, header)?;
    match header.object() {
        ObjectName::Buffer => match Buffer::make(alloc, size) {
            Ok(buffer) => Ok(Stage::Buffer(course, buffer)),
            Err(_) => Err(MEMORY),
        },
        ObjectName::Book => match Book::make(size) {
            Ok(book) => Ok(Stage::Book(course, book)),
            Err(_) => Err(MEMORY),
        },
        ObjectName::Shop => match Shop::make(size) {
            Ok(shop) => Ok(Stage::Shop(course, shop)),
            Err(_) => Err(MEMORY),
        },
        ObjectName::Flags => match Flags::make(size) {
            Ok(flags) => Ok(Stage::Flags(course, flags)),
            Err(_) => Err(MEMORY),
        },
    }
}

/// Judges the events whose lines end in the bytes. Returns the stage after the first that is not allowed.
fn judge_stage<'a, T: Guarded>(
    course: &mut Course,
    object: &mut T,
    bytes: &'a [u8],
) -> Result<(Option<Stage>, &'a [u8]), ReadFault>
    requires { IsSoundCourse T.PREDICATES course.old }
    ensures step { IfOk result
        (λ r. IsJudgedStep r.0 bytes.entry.now r.1.now (judged_from_here T.meaning course.old (T.state object.old))
        (judged_from_here T.meaning course.new (T.state object.new))) }
    ensures sound { OnOk result (IsSoundCourse T.PREDICATES course.new) }
    ensures fault { IfErr result
        (λ f. f ≢ memory → IsFaulty (judged_from_here T.meaning course.old (T.state object.old)) bytes.entry.now f) }
{
    let (verdict, rest) = judge_lines(course, object, bytes)?;
    let next = match verdict {
        Some(verdict) => {
            let found = TextVerdict::Judged(verdict);
            Some(Stage::Found(course.header, course.count, found))
        }
        None => None,
    };
    Ok((next, rest))
}
