//! The program's words, read with `clap`.

ghost use Rattle.std.specs.Prelude.{◌≡◌, IfOk, codes, map};
ghost use Rattle.clap.specs.Words.{App, app_of, found_of, rows_of, subcommand_of, subcommand_rows_of, with_subcommand};
ghost use Rattle.monk_commands.specs.Request.{IsAsked, IsMonk, IsOwnApp, IsRead, bare_app, command_app, with_commands};

use crate::commands::{COMMANDS, CommandWords};
use crate::found_words::{byte, file_of, missing, one_kind};
use crate::judging_words::{line_to_explain, line_to_fit};
use crate::request::{Line, LineFault};
use crate::run_words::{line_to_hasty, line_to_run};
use crate::window_words::{line_to_draw, line_to_page};
use clap::error::ErrorKind;
use clap::{ArgMatches, Command};
use std::alloc::{AllocError, Global};

const VERSION: &str = "1.0.0";

/// Returns the program with these commands.
fn program<'a>(alloc: Global, commands: &'static [CommandWords]) -> Result<Command<'a>, AllocError>
    ensures { IfOk result (λ c. app_of c ≡ with_commands bare_app commands.entry.now) }
{
    let mut program = bare(alloc)?;
    for words in commands {
        program = adding(program, command(alloc, words)?)?;
    }
    Ok(program)
}

/// Returns the program without commands.
fn bare<'a>(alloc: Global) -> Result<Command<'a>, AllocError>
    ensures { IfOk result (λ c. app_of c ≡ bare_app) }
{
    let program = Command::new(alloc, "monk").bin_name("monk")?;
    Ok(program.version(VERSION).subcommand_required(true))
}

/// Returns the program with one more command.
fn adding<'a>(program: Command<'a>, made: Command<'a>) -> Result<Command<'a>, AllocError>
    ensures { (a : App) → IsOwnApp a made.entry
        → IfOk result (λ r. app_of r ≡ with_subcommand (app_of program.entry) a.top) }
{
    program.subcommand(made)
}

/// Returns the command of these words.
fn command<'a>(alloc: Global, words: &CommandWords) -> Result<Command<'a>, AllocError>
    ensures { IfOk result (IsOwnApp (command_app words.now)) }
{
    let mut command = Command::new(alloc, words.name)
        .about(words.about)
        .after_help(words.example);
    for word in words.words {
        command = command.arg(word.arg(alloc))?;
    }
    Ok(command)
}

/// Returns clap's text.
fn fault_text(alloc: Global, error: &clap::Error) -> Result<String, LineFault> {
    if error.kind() == ErrorKind::OutOfMemory {
        return Err(LineFault::Memory);
    }
    Ok(error.to_string(alloc)?)
}

fn priorities_of(alloc: Global, matches: &ArgMatches<'_>) -> Result<Line, LineFault>
    ensures { IfOk result (λ l. IsRead (codes "classify") l (rows_of (found_of matches.now))) }
{
    let entry = byte(alloc, matches, "ENTRY")?;
    let waiter = byte(alloc, matches, "WAITER")?;
    let signaller = byte(alloc, matches, "SIGNALLER")?;
    Ok(Line::Classify(entry, waiter, signaller))
}

fn line_to_complete(alloc: Global, matches: &ArgMatches<'_>) -> Result<Line, LineFault>
    ensures { IfOk result (λ l. IsRead (codes "complete") l (rows_of (found_of matches.now))) }
{
    let file = file_of(alloc, matches)?;
    let kind = one_kind(alloc, matches)?;
    Ok(Line::Complete(file, kind))
}

/// Returns what a command of that name asks for, if it takes a file alone.
fn line_to_read(alloc: Global, name: &str, matches: &ArgMatches<'_>) -> Result<Line, LineFault>
    ensures { IfOk result (λ l. IsRead name.now l (rows_of (found_of matches.now))) }
{
    let file = file_of(alloc, matches)?;
    match name {
        "audit" => Ok(Line::Audit(file)),
        "play" => Ok(Line::Play(file)),
        "upgrade" => Ok(Line::Upgrade(file)),
        "trace" => Ok(Line::Trace(file)),
        _ => Err(missing(alloc)),
    }
}

/// Returns what a command of that name asks for.
fn line_of(alloc: Global, name: &str, matches: &ArgMatches<'_>) -> Result<Line, LineFault>
    ensures { IfOk result (λ l. IsRead name.now l (rows_of (found_of matches.now))) }
{
    match name {
        "classify" => priorities_of(alloc, matches),
        "run" | "record" => line_to_run(alloc, name, matches),
        "hasty" => line_to_hasty(alloc, matches),
        "fit" => line_to_fit(alloc, matches),
        "explain" => line_to_explain(alloc, matches),
        "draw" => line_to_draw(alloc, matches),
        "page" => line_to_page(alloc, matches),
        "complete" => line_to_complete(alloc, matches),
        _ => line_to_read(alloc, name, matches),
    }
}

/// Returns what the matches ask for.
fn asked(alloc: Global, matches: &ArgMatches<'_>) -> Result<Line, LineFault>
    ensures { IfOk result (λ l. IsAsked l (subcommand_rows_of matches.now)) }
{
    match matches.subcommand() {
        Some((name, matches)) => line_of(alloc, name, matches),
        None => Err(missing(alloc)),
    }
}

/// Returns the program with its commands.
fn monk<'a>(alloc: Global) -> Result<Command<'a>, AllocError>
    ensures { IfOk result (λ c. IsMonk (app_of c)) }
{
    program(alloc, &COMMANDS)
}

/// Reads the words, the program's own name first.
///
/// The line is for the command that clap finds in the words, with the values that clap finds there:
/// a file, a kind, or a kind and a sample, and whole numbers. For `classify` these are from 0 to
/// 255. For `run`, `record` and `hasty` they are from 2 to 16 and from 1 to 1000.
///
/// # Errors
///
/// [`LineFault::Words`] with clap's own text if the words are no command of the program, or if they
/// ask for help or for the version; [`advice_for`](crate::advice_for) may say more. Its text is one
/// line that begins with `error:` if the meanings, the window, the width or the number of files
/// can't be taken. [`LineFault::Memory`] if a request for memory was refused.
pub fn line(alloc: Global, words: &[&str]) -> Result<Line, LineFault>
    ensures { IfOk result (λ l. (a : App)
        × (IsMonk a × IsAsked l (subcommand_of a (map (λ w. w.now) words.entry.now)))) }
{
    match monk(alloc)?.try_get_matches_from(words) {
        Ok(matches) => asked(alloc, &matches),
        Err(error) => Err(LineFault::Words(fault_text(alloc, &error)?)),
    }
}
