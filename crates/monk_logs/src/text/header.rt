//! The header of a log.

ghost use Rattle.std.specs.Prelude.{◌≡◌};
ghost use Rattle.monk_history.specs.Text.Words.{Reads};
ghost use Rattle.monk_logs.specs.Log.{LogHeading, IsLogHeading, log_version};
ghost use Rattle.monk_logs.specs.Log.Reading.{log_header_at, log_heading_of};

use monk_history::lines::{Flaw, Head, LineWords};
use monk_history::{MOST_CONDS, MOST_SEATS, object_part};
use monk_object::ObjectName;
use std::marker::Model;

/// The header of a log: a monitor whose kind isn't known. Contracts see a `LogHeading` with the same parts.
#[derive(Clone, Copy)]
pub struct LogHeader {
    seats: u8,
    conds: u8,
    object: ObjectName,
    size: u8,
}

impl Model for LogHeader {
    ghost use Rattle.monk_logs.specs.Log.{LogHeading, IsLogHeading, log_heading};

    ghost Value = { LogHeading };

    ghost view = { λ h. log_heading h.seats h.conds h.object h.size };

    ghost invariant = { λ h. IsLogHeading (log_heading h.seats h.conds h.object h.size) };

    ghost inverse = { λ h. record { seats = h.seats; conds = h.conds; object = h.object; size = h.size } };
}

impl LogHeader {
    /// Returns a header, or `None` unless there are 1 to [`MOST_SEATS`] seats, at most [`MOST_CONDS`]
    /// conditions and a size of 1 or more. The greatest size of the object isn't tested here.
    pub fn new(seats: u8, conds: u8, object: ObjectName, size: u8) -> Option<LogHeader>
        ensures { result ≡ log_heading_of seats conds object size }
    {
        if seats == 0 || seats > MOST_SEATS || conds > MOST_CONDS || size == 0 {
            return None;
        }
        Some(LogHeader {
            seats,
            conds,
            object,
            size,
        })
    }

    /// Returns the number of seats, 1 to 32. Each thread has one; they are numbered from 0.
    pub fn seats(&self) -> u8
        ensures { result ≡ self.now.seats }
    {
        self.seats
    }

    /// Returns the number of conditions, 0 to 8. They are numbered from 0.
    pub fn conds(&self) -> u8
        ensures { result ≡ self.now.conds }
    {
        self.conds
    }

    /// Returns the object that the monitor guards. It means nothing in a log without acts.
    pub fn object(&self) -> ObjectName
        ensures { result ≡ self.now.object }
    {
        self.object
    }

    /// Returns the size of the object, 1 to 255.
    pub fn size(&self) -> u8
        ensures value { result ≡ self.now.size }
        ensures fits { IsLogHeading self.now }
    {
        self.size
    }
}

impl Head for LogHeader {
    ghost use Rattle.monk_history.specs.Text.Words.{Reads};
    ghost use Rattle.monk_logs.specs.Log.Reading.{log_header_at};

    ghost parse = { log_header_at };

    fn parse(words: &mut LineWords<'_>) -> Result<LogHeader, Flaw>
        ensures { Reads result words.new (log_header_at words.old) }
    {
        log_header(words)
    }
}

#[tactic(auto, unfolding(crate::specs::Log::Reading::log_header_at))]
fn log_header(words: &mut LineWords<'_>) -> Result<LogHeader, Flaw>
    ensures { Reads result words.new (log_header_at words.old) }
{
    words.literal(b"log")?;
    let version = words.byte()?;
    let seats = words.byte()?;
    let conds = words.byte()?;
    let object = object_part(words)?;
    let size = words.byte()?;
    words.end()?;
    if version != log_version(object) {
        return Err(Flaw::Word);
    }
    LogHeader::new(seats, conds, object, size).ok_or(Flaw::Word)
}

/// Returns the version of the logs that name the object.
fn log_version(object: ObjectName) -> u8
    ensures { result ≡ log_version object }
{
    match object {
        ObjectName::Buffer | ObjectName::Book | ObjectName::Shop => 1,
        ObjectName::Flags => 2,
    }
}
