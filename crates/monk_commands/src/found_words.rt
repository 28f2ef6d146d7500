//! What clap found in the words of a command.

ghost use Rattle.std.specs.Prelude.{◌≡◌, IfOk, map, option_map, string_bytes};
ghost use Rattle.clap.specs.Words.{first_of, found_of, rows_of};
ghost use Rattle.monk_kinds.specs.Names.{kind_word};
ghost use Rattle.monk_commands.specs.Request.{AreFiles, HasNumber, IsFile, IsFlag, IsOneKind, MayHaveNumber};

use crate::request::LineFault;
use clap::ArgMatches;
use monk_kinds::KindName;
use std::alloc::{AllocError, Global};

/// Returns the fault for a value that is missing, or that isn't what clap tested it to be. clap lets no such words
/// through, but has no contract that says so.
pub(crate) fn missing(alloc: Global) -> LineFault {
    LineFault::Words(String::new(alloc))
}

/// Returns the first word for a name, if there is one.
pub(crate) fn word_of<'a>(matches: &ArgMatches<'a>, name: &str) -> Option<&'a str>
    ensures { first_of name.now (rows_of (found_of matches.now)) ≡ option_map (λ w. w.now) result }
{
    matches.get_str(name)
}

/// Whether the flag of a name is set.
pub(crate) fn is_set(matches: &ArgMatches<'_>, name: &str) -> bool
    ensures { IsFlag name.now result (rows_of (found_of matches.now)) }
{
    matches.get_flag(name)
}

/// Returns the number for a name, if there is one.
pub(crate) fn number_of(
    alloc: Global,
    matches: &ArgMatches<'_>,
    name: &str,
) -> Result<Option<u32>, LineFault>
    ensures { IfOk result (λ n. MayHaveNumber name.now n (rows_of (found_of matches.now))) }
{
    match matches.try_get_one::<u32>(name) {
        Ok(number) => Ok(number),
        Err(_) => Err(missing(alloc)),
    }
}

/// Returns the number for a name, which must be there.
pub(crate) fn number(alloc: Global, matches: &ArgMatches<'_>, name: &str) -> Result<u32, LineFault>
    ensures { IfOk result (λ n. HasNumber name.now n (rows_of (found_of matches.now))) }
{
    match number_of(alloc, matches, name)? {
        Some(number) => Ok(number),
        None => Err(missing(alloc)),
    }
}

/// Returns the number up to 255 for a name, which must be there.
pub(crate) fn byte(alloc: Global, matches: &ArgMatches<'_>, name: &str) -> Result<u8, LineFault>
    ensures { IfOk result (λ n. HasNumber name.now n (rows_of (found_of matches.now))) }
{
    match u8::try_from(number(alloc, matches, name)?) {
        Ok(byte) => Ok(byte),
        Err(_) => Err(missing(alloc)),
    }
}

/// Returns the kind that the word names.
pub(crate) fn kind_of(alloc: Global, word: &str) -> Result<KindName, LineFault>
    ensures { IfOk result (λ kind. word.now ≡ kind_word kind) }
{
    match KindName::of_text(word.as_bytes()) {
        Some(kind) => Ok(kind),
        None => Err(missing(alloc)),
    }
}

/// Returns the kind that is named, if one is.
pub(crate) fn one_kind(
    alloc: Global,
    matches: &ArgMatches<'_>,
) -> Result<Option<KindName>, LineFault>
    ensures { IfOk result (λ kind. IsOneKind kind (rows_of (found_of matches.now))) }
{
    match word_of(matches, "kind") {
        Some(word) => Ok(Some(kind_of(alloc, word)?)),
        None => Ok(None),
    }
}

/// Returns the file that is named first, if one is.
pub(crate) fn file_of(alloc: Global, matches: &ArgMatches<'_>) -> Result<Option<String>, LineFault>
    ensures { IfOk result (λ file. IsFile file (rows_of (found_of matches.now))) }
{
    match word_of(matches, "FILE") {
        Some(name) => Ok(Some(String::from_str(alloc, name)?)),
        None => Ok(None),
    }
}

fn kept(alloc: Global, words: &[&str]) -> Result<Vec<String>, AllocError>
    ensures { IfOk result (λ kept. map (λ w. w.now) words.now ≡ map string_bytes kept.items) }
{
    let mut kept = Vec::new(alloc);
    for word in words {
        kept.push(String::from_str(alloc, word)?)?;
    }
    Ok(kept)
}

/// Returns the files that are named.
pub(crate) fn files_of(alloc: Global, matches: &ArgMatches<'_>) -> Result<Vec<String>, LineFault>
    ensures { IfOk result (λ files. AreFiles files.items (rows_of (found_of matches.now))) }
{
    match matches.get_strs("FILE") {
        Some(words) => Ok(kept(alloc, words)?),
        None => Ok(Vec::new(alloc)),
    }
}
