//! Pages of several histories, and the names and data of a program beside one.

use monk_commands::{Paged, pages_stream};
use monk_history::Device;
use monk_page::{ToldFault, ToldWrong, check_told};
use std::alloc::Global;
use std::test::Fail;

/// A text of names and data, and where and how it is wrong, if it is.
type Telling = (&'static str, Option<(usize, usize, ToldWrong)>);

static TELLINGS: [Telling; 20] = [
    ("{}", None),
    (
        "{\"seats\": [\"a b\", \"c-d_1\"], \"conditions\": [],\n\"data\": [\"\", \"x = [1, {}]\"], \"end\": \"\\\"\\u003c\"}",
        None,
    ),
    ("", Some((1, 1, ToldWrong::Json))),
    ("{\"end\": \"a\"", Some((1, 11, ToldWrong::Json))),
    ("null", Some((1, 1, ToldWrong::Object))),
    ("\n [{}]", Some((2, 2, ToldWrong::Object))),
    ("{\"seat\": []}", Some((1, 7, ToldWrong::Member))),
    (
        "{\"end\": \"\",\n \"\": \"\"}",
        Some((2, 3, ToldWrong::Member)),
    ),
    ("{\"seats\": \"a\"}", Some((1, 11, ToldWrong::List))),
    ("{\"data\": {}}", Some((1, 10, ToldWrong::List))),
    ("{\"end\": []}", Some((1, 9, ToldWrong::Text))),
    ("{\"end\": null}", Some((1, 9, ToldWrong::Text))),
    ("{\"data\": [\"a\", 1]}", Some((1, 16, ToldWrong::Text))),
    ("{\"data\": [[]]}", Some((1, 11, ToldWrong::Text))),
    ("{\"seats\": [\"\"]}", Some((1, 13, ToldWrong::Name))),
    (
        "{\"seats\": [\"1234567890123456\", \"12345678901234567\"]}",
        Some((1, 49, ToldWrong::Name)),
    ),
    ("{\"seats\": [\"a\\n\"]}", Some((1, 14, ToldWrong::Name))),
    ("{\"conditions\": [\"a'\"]}", Some((1, 19, ToldWrong::Name))),
    ("{\"data\": [\"a\n\"]}", Some((1, 11, ToldWrong::Json))),
    (
        "{\"data\": [\"</script>\"]}",
        Some((1, 12, ToldWrong::Less)),
    ),
];

/// Whether the text is right, or wrong there and in that way.
fn is_told(alloc: Global, (text, wrong): &Telling) -> bool {
    match (check_told(alloc, text), wrong) {
        (Ok(()), None) => true,
        (Err(ToldFault::At(line, column, found)), Some((at, behind, wrong))) => {
            (line, column, found) == (*at, *behind, *wrong)
        }
        _ => false,
    }
}

#[test]
fn what_is_told_is_looked_at(rt: HostRuntime) -> Result<(), Fail> {
    for telling in TELLINGS.iter() {
        if !is_told(rt.alloc(), telling) {
            return Err(telling.0)?;
        }
    }
    Ok(())
}

const FIRST: &str = "{\"seats\": [\"first\"]}";

const LEGAL: Paged<'static> = Paged {
    name: "legal",
    text: b"monk 1 PB 2 0 buffer 1\nenter 0 free\n",
    beside: FIRST,
};

const FORBIDDEN: Paged<'static> = Paged {
    name: "forbidden",
    text: b"monk 1 NPNB 2 0 buffer 1\nleave 0 entry\n",
    beside: "null",
};

const UNREADABLE: Paged<'static> = Paged {
    name: "unreadable",
    text: b"monk 1 PB 2 0 buffer 1\nstay 0\n",
    beside: "null",
};

pub(super) const FORBIDDEN_AND_LEGAL: [Paged<'static>; 2] = [FORBIDDEN, LEGAL];

/// Histories, the status of their page, and words that it has in this order.
type Row = (&'static [Paged<'static>], u8, &'static [&'static str]);

static ROWS: [Row; 4] = [
    (
        &[LEGAL],
        0,
        &["<!DOCTYPE html>", "\"legal 1\"", FIRST, "</html>\n"],
    ),
    (
        &FORBIDDEN_AND_LEGAL,
        1,
        &["\"forbidden 1 3 ", "\nnull\n", "\"legal 1\"", FIRST],
    ),
    (
        &[LEGAL, FORBIDDEN],
        1,
        &["\"legal 1\"", FIRST, "\"forbidden 1 3 ", "\nnull\n"],
    ),
    (
        &[LEGAL, UNREADABLE, FORBIDDEN],
        2,
        &["unreadable: unreadable 2 2 word\n"],
    ),
];

/// Whether the text has the words, one after the other.
fn stand_in(text: &str, words: &[&str]) -> bool {
    let mut rest = text;
    for word in words {
        match rest.split_once(*word) {
            Some((_, behind)) => rest = behind,
            None => return false,
        }
    }
    true
}

/// Whether the page has this status and these words.
fn is_page(alloc: Global, (histories, status, words): &Row) -> bool {
    let mut page = Vec::new(alloc);
    let told = pages_stream(alloc, histories, None, &mut Device::new(&mut page));
    told == Ok(*status) && matches!(str::from_utf8(&page), Ok(page) if stand_in(page, words))
}

#[test]
fn histories_stand_in_their_order(rt: HostRuntime) {
    for row in ROWS.iter() {
        assert!(rt; is_page(rt.alloc(), row));
    }
}
