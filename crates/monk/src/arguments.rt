//! The words of the command, also those that are no text.

use crate::told::Unmade;
use monk_commands::StreamFault;
use std::alloc::{AllocError, Global};
use std::rt::Env;
use std::{env, io, str};

/// No system hands a program an argument with more bytes.
const LONGEST: usize = 1 << 17;
/// The last character of an argument that is no UTF-8 text, as it is shown. No file has it in its name.
const NO_TEXT: char = '\0';

/// Returns the words of the command. One that is no UTF-8 text ends with a character that no file
/// has in its name, so the command goes on with the others.
pub(crate) fn arguments<R: Env + AllocGlobal>(rt: &R) -> Result<Vec<String>, Unmade> {
    match env::args(rt) {
        Ok(args) => Ok(args.collect(rt.alloc())?),
        Err(error) if error.kind() == io::ErrorKind::OutOfMemory => {
            Err(Unmade::Fault(StreamFault::Memory))
        }
        Err(_) => Ok(each_argument(rt)?),
    }
}

/// Whether the name is that of an argument that is no text.
pub(crate) fn is_no_text(name: &str) -> bool {
    name.ends_with(NO_TEXT)
}

fn each_argument<R: Env + AllocGlobal>(rt: &R) -> Result<Vec<String>, AllocError> {
    let alloc = rt.alloc();
    let mut bytes = vec![in alloc; 0u8; LONGEST]?;
    let mut words = Vec::new(alloc);
    for number in 0..usize::MAX {
        let Ok(many) = rt.arg(number, &mut bytes) else {
            break;
        };
        words.push(word_of(alloc, bytes.get(..many).unwrap_or(&[]))?)?;
    }
    Ok(words)
}

fn word_of(alloc: Global, bytes: &[u8]) -> Result<String, AllocError> {
    match str::from_utf8(bytes) {
        Ok(text) => String::from_str(alloc, text),
        Err(_) => as_shown(alloc, bytes),
    }
}

/// Returns the bytes with a sign in place of each that is no ASCII.
fn as_shown(alloc: Global, bytes: &[u8]) -> Result<String, AllocError> {
    let mut word = String::new(alloc);
    for byte in bytes {
        let symbol = if byte.is_ascii() {
            char::from(*byte)
        } else {
            char::REPLACEMENT_CHARACTER
        };
        word.push(symbol)?;
    }
    word.push(NO_TEXT)?;
    Ok(word)
}
