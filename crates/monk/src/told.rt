//! What the file beside a history says.

use crate::shown::Shown;
use crate::{UNREADABLE, failed_file};
use monk_commands::StreamFault;
use monk_page::{ToldFault, ToldNames, check_told, told_names};
use std::alloc::{AllocError, AllocFailed};
use std::rt::Files;
use std::{fs, io};

/// The most bytes of a file beside a history. What it tells takes some twenty times its size.
const MOST_TOLD: u64 = 1 << 22;

/// Why nothing is made.
#[derive(Drop)]
pub(crate) enum Unmade {
    /// Standard error says why. This is the exit status.
    Told(u8),
    /// The stream's fault.
    Fault(StreamFault),
}

impl From<AllocError> for Unmade {
    fn from(_refused: AllocError) -> Unmade {
        Unmade::Fault(StreamFault::Memory)
    }
}

impl<T: Drop> From<AllocFailed<T>> for Unmade {
    fn from(_refused: AllocFailed<T>) -> Unmade {
        Unmade::Fault(StreamFault::Memory)
    }
}

impl From<StreamFault> for Unmade {
    fn from(fault: StreamFault) -> Unmade {
        Unmade::Fault(fault)
    }
}

/// Says that the file of that name can't be read, and returns why nothing is made.
pub(crate) fn unread(rt: &impl Eprint, name: &str, error: &io::Error) -> Unmade {
    if error.kind() == io::ErrorKind::OutOfMemory {
        return Unmade::Fault(StreamFault::Memory);
    }
    Unmade::Told(failed_file(rt, name, error))
}

/// Says what is wrong in the file of that name, and returns why nothing is made.
fn unfit(rt: &impl Eprint, file: &str, fault: ToldFault) -> Unmade {
    match fault {
        ToldFault::Memory => Unmade::Fault(StreamFault::Memory),
        ToldFault::At(..) => {
            let shown = Shown(file);
            let _ = eprintln!(rt; "monk: {shown}, {fault}");
            Unmade::Told(UNREADABLE)
        }
    }
}

/// Says that the file of that name is too long, and returns why nothing is made.
fn too_long(rt: &impl Eprint, file: &str) -> Unmade {
    let shown = Shown(file);
    let _ = eprintln!(rt;
        "monk: {shown} has more than {MOST_TOLD} bytes: leave out what the window doesn't show"
    );
    Unmade::Told(UNREADABLE)
}

/// Reads the text of the file of that name, if there is one.
fn read<R: Files + Eprint + AllocGlobal>(rt: &R, file: &str) -> Result<Option<String>, Unmade> {
    if let Ok(found) = fs::metadata(rt, file) {
        if found.len() > MOST_TOLD {
            return Err(too_long(rt, file));
        }
    }
    match fs::read_to_string(rt, file) {
        Ok(text) => Ok(Some(text)),
        Err(error) if error.kind() == io::ErrorKind::NotFound => Ok(None),
        Err(error) => Err(unread(rt, file, &error)),
    }
}

/// Reads the file beside the history of that name, if there is one.
pub(crate) fn told_beside<R: Files + Eprint + AllocGlobal>(
    rt: &R,
    name: &str,
) -> Result<Option<String>, Unmade> {
    let file = format!(in rt.alloc(); "{name}.told")?;
    let Some(text) = read(rt, file.as_str())? else {
        return Ok(None);
    };
    match check_told(rt.alloc(), text.as_str()) {
        Ok(()) => Ok(Some(text)),
        Err(fault) => Err(unfit(rt, file.as_str(), fault)),
    }
}

/// Reads the names in the file beside the history of that name, if there is one.
pub(crate) fn names_beside<R: Files + Eprint + AllocGlobal>(
    rt: &R,
    name: &str,
) -> Result<Option<ToldNames>, Unmade> {
    let file = format!(in rt.alloc(); "{name}.told")?;
    let Some(text) = read(rt, file.as_str())? else {
        return Ok(None);
    };
    match told_names(rt.alloc(), text.as_str()) {
        Ok(names) => Ok(Some(names)),
        Err(fault) => Err(unfit(rt, file.as_str(), fault)),
    }
}
