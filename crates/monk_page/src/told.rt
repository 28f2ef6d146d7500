//! What a program may say beside its history on a page, and where a text of it is at fault.

ghost use Rattle.std.specs.Prelude.{◌≡◌, IfOk, OnOk, Some, map, option_and_then, option_map, string_bytes};
ghost use Rattle.serde_json.specs.{Data.Data, Read.read, View.items_view, View.view, Find.as_array, Find.get};
ghost use Rattle.monk_page.specs.Told.{AreNames, names_in};

use serde_json::Value;
use std::alloc::{AllocError, Global};
use thiserror::Error;

/// The greatest length of the name of a seat or of a condition.
const LONGEST_NAME: u8 = 16;

/// What is wrong with such a text, and where.
#[derive(Clone, Copy, Debug, PartialEq, Eq, Error)]
pub enum ToldFault {
    /// A request for memory was refused.
    #[error("memory")]
    Memory,
    /// The text isn't as [`check_told`] says. The numbers are the line and the column, counted from 1.
    #[error("line {}, column {}: {}", .0, .1, .2.sentence())]
    At(usize, usize, ToldWrong),
}

impl From<AllocError> for ToldFault {
    fn from(_refused: AllocError) -> ToldFault {
        ToldFault::Memory
    }
}

/// The names that a program gives beside its history, from number 0 on.
#[derive(Debug, Drop)]
pub struct ToldNames {
    /// The names of the seats.
    pub seats: Vec<String>,
    /// The names of the conditions.
    pub conditions: Vec<String>,
}

/// What is wrong at a place of the text.
#[derive(Clone, Copy, Debug, PartialEq, Eq)]
pub enum ToldWrong {
    /// It isn't JSON.
    Json,
    /// The text isn't one object.
    Object,
    /// The object has a member of another name.
    Member,
    /// A list must be there.
    List,
    /// A text must be there.
    Text,
    /// A name is empty, or longer than 16, or has something other than letters, digits, spaces, `_` and `-`.
    Name,
    /// There is a `<`, which a page can't hold.
    Less,
}

impl ToldWrong {
    /// Returns what must be there instead.
    pub fn sentence(self) -> &'static str {
        match self {
            ToldWrong::Json => "this isn't JSON",
            ToldWrong::Object => "an object must stand here",
            ToldWrong::Member => "the members are seats, conditions, data and end",
            ToldWrong::List => "a list of texts must stand here",
            ToldWrong::Text => "a text must stand here",
            ToldWrong::Name => "a name has 1 to 16 letters, digits, spaces, _ and -",
            ToldWrong::Less => "< must be written as \\u003c",
        }
    }
}

/// A member of the text's object.
#[derive(Clone, Copy)]
enum Member {
    /// Names of seats or of conditions.
    Names,
    /// The data of the program, in words.
    Data,
    /// How the run ended.
    End,
}

fn member_of(key: Option<&[u8]>) -> Option<Member> {
    match key {
        Some(b"seats" | b"conditions") => Some(Member::Names),
        Some(b"data") => Some(Member::Data),
        Some(b"end") => Some(Member::End),
        _ => None,
    }
}

/// Where a reader of the text is.
#[derive(Clone, Copy)]
enum At {
    /// Before the object.
    Start,
    /// In the object, before a member or its end.
    Members,
    /// In the name of a member.
    Key,
    /// Before the value of a member.
    Value(Member),
    /// In the list of a member.
    List(Member),
    /// In a text of a member. For a name, the number is how many bytes were read.
    Text(Member, u8),
    /// After a `\` in such a text.
    Escape(Member),
    /// After the object.
    Behind,
}

fn is_of_name(byte: u8) -> bool {
    byte.is_ascii_alphanumeric() || matches!(byte, b' ' | b'_' | b'-')
}

/// Returns where the reader is after the byte in a text.
fn in_text(member: Member, length: u8, byte: u8) -> Result<At, ToldWrong> {
    match (member, byte) {
        (Member::Names, b'"') if length == 0 => Err(ToldWrong::Name),
        (Member::End, b'"') => Ok(At::Members),
        (_, b'"') => Ok(At::List(member)),
        (Member::Names, _) if length >= LONGEST_NAME || !is_of_name(byte) => Err(ToldWrong::Name),
        (Member::Names, _) => Ok(At::Text(member, length.saturating_add(1))),
        (_, b'\\') => Ok(At::Escape(member)),
        _ => Ok(At::Text(member, 0)),
    }
}

/// Returns where the reader is after the byte; `key` is the member's name if it ends there. The text is JSON.
fn behind(at: At, byte: u8, key: Option<&[u8]>) -> Result<At, ToldWrong> {
    match (at, byte) {
        (_, b'<') => Err(ToldWrong::Less),
        (At::Text(member, length), _) => in_text(member, length, byte),
        (At::Escape(member), _) => Ok(At::Text(member, 0)),
        (At::Key, b'"') => match member_of(key) {
            Some(member) => Ok(At::Value(member)),
            None => Err(ToldWrong::Member),
        },
        (At::Key, _) | (_, b' ' | b'\t' | b'\n' | b'\r') => Ok(at),
        (At::Value(_), b':') | (At::List(_), b',') => Ok(at),
        (At::Start, b'{') | (At::List(_), b']') => Ok(At::Members),
        (At::Members, b'"') => Ok(At::Key),
        (At::Members, b'}') => Ok(At::Behind),
        (At::Value(Member::End), b'"') => Ok(At::Text(Member::End, 0)),
        (At::Value(Member::End), _) => Err(ToldWrong::Text),
        (At::Value(member), b'[') => Ok(At::List(member)),
        (At::Value(_), _) => Err(ToldWrong::List),
        (At::List(member), b'"') => Ok(At::Text(member, 0)),
        (At::List(_), _) => Err(ToldWrong::Text),
        (At::Start, _) => Err(ToldWrong::Object),
        _ => Ok(at),
    }
}

/// Returns where a text that is JSON isn't as it must be.
fn misshapen(text: &[u8]) -> Option<ToldFault> {
    let mut at = At::Start;
    let (mut line, mut column, mut key) = (1usize, 0usize, 0usize);
    for (index, byte) in text.iter().enumerate() {
        column = column.saturating_add(1);
        if let (At::Members, b'"') = (at, *byte) {
            key = index.saturating_add(1);
        }
        at = match behind(at, *byte, text.get(key..index)) {
            Ok(at) => at,
            Err(wrong) => return Some(ToldFault::At(line, column, wrong)),
        };
        if *byte == b'\n' {
            line = line.saturating_add(1);
            column = 0;
        }
    }
    None
}

/// Tests whether a text can be beside a history on a page. It is a JSON object whose members, if they are
/// there, are `seats` and `conditions`, lists of names; `data`, a list of texts, the program's data before
/// the first event and after each; and `end`, a text that says how the run ended. A name has 1 to 16 letters,
/// digits, spaces, `_` and `-`. No `<` may occur, so that no script ends there: JSON has `\u003c` for it.
///
/// # Errors
///
/// `Memory` if a request for memory was refused; else the first fault, with its line and column: the text isn't JSON,
/// or isn't such an object.
///
/// # Cost
///
/// Two passes over the text, and memory for all that it holds.
pub fn check_told(alloc: Global, text: &str) -> Result<(), ToldFault>
    // It is JSON.
    ensures { OnOk result ((d : Data) × (read text.now ≡ Some d)) }
{
    told_value(alloc, text)?;
    Ok(())
}

/// Returns the names of seats and conditions in a text that can be beside a history.
///
/// # Errors and cost
///
/// As [`check_told`].
pub fn told_names(alloc: Global, text: &str) -> Result<ToldNames, ToldFault>
    ensures { IfOk result (AreNames text.now) }
{
    let told = told_value(alloc, text)?;
    Ok(ToldNames {
        seats: names_at(alloc, &told, "seats")?,
        conditions: names_at(alloc, &told, "conditions")?,
    })
}

/// Returns the list that is the member with that name.
fn list_at<'a>(told: &'a Value, member: &str) -> Option<&'a Vec<Value>>
    ensures { option_map (λ list. items_view list.now.items) result
        ≡ option_and_then as_array (get member.now (view told.now)) }
{
    told.get(member)?.as_array()
}

/// Returns the names in the list of that member, or none if there is no such member.
fn names_at(alloc: Global, told: &Value, member: &str) -> Result<Vec<String>, AllocError>
    ensures { IfOk result (λ names. map string_bytes names.items ≡ names_in member.now (view told.now)) }
{
    let mut names = Vec::new(alloc);
    let Some(list) = list_at(told, member) else {
        return Ok(names);
    };
    for name in list {
        names.push(String::from_str(alloc, name.as_str().unwrap_or(""))?)?;
    }
    Ok(names)
}

/// Returns the text as JSON, if it can be beside a history.
fn told_value(alloc: Global, text: &str) -> Result<Value, ToldFault>
    ensures { IfOk result (λ told. read text.now ≡ Some (view told)) }
{
    match Value::from_str(alloc, text) {
        Ok(told) => match misshapen(text.as_bytes()) {
            Some(fault) => Err(fault),
            None => Ok(told),
        },
        Err(error) if error.is_memory() => Err(ToldFault::Memory),
        Err(error) => Err(ToldFault::At(
            error.line().max(1),
            error.column().max(1),
            ToldWrong::Json,
        )),
    }
}
