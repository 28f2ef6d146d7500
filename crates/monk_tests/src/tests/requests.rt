use super::jobs::Expected;
use monk_commands::{Line, LineFault, classify_stream, line};
use monk_history::Device;
use std::alloc::Global;
use std::test::Fail;

/// Words, and what they ask for.
type Asking = (&'static [&'static str], &'static str);

static ASKING: [Asking; 13] = [
    (&["monk", "audit"], "Audit(None)"),
    (&["monk", "audit", "x.text"], "Audit(Some(\"x.text\"))"),
    (&["monk", "play"], "Play(None)"),
    (&["monk", "play", "x.text"], "Play(Some(\"x.text\"))"),
    (&["monk", "upgrade"], "Upgrade(None)"),
    (&["monk", "upgrade", "x.text"], "Upgrade(Some(\"x.text\"))"),
    (&["monk", "trace"], "Trace(None)"),
    (&["monk", "trace", "x.text"], "Trace(Some(\"x.text\"))"),
    (
        &["monk", "explain"],
        "Explain(None, Judging { kind: None, means: [] })",
    ),
    (
        &["monk", "explain", "x.text"],
        "Explain(Some(\"x.text\"), Judging { kind: None, means: [] })",
    ),
    (
        &["monk", "explain", "--kind", "NPNB"],
        "Explain(None, Judging { kind: Some(Npnb), means: [] })",
    ),
    (
        &["monk", "explain", "x.log", "--means=0=1", "--kind=PQB"],
        "Explain(Some(\"x.log\"), Judging { kind: Some(Pqb), means: [WaitsFor { cond: 0, pred: 1 }] })",
    ),
    (
        &["monk", "classify", "3", "0", "255"],
        "Classify(3, 0, 255)",
    ),
];

/// The same for pictures and pages.
static ASKING_FOR_PICTURES: [Asking; 11] = [
    (&["monk", "draw"], "Draw(None, None)"),
    (&["monk", "draw", "x.text"], "Draw(Some(\"x.text\"), None)"),
    (
        &["monk", "draw", "--from", "7", "--to", "2006", "x.text"],
        "Draw(Some(\"x.text\"), Some(Window { from: 7, to: 2006 }))",
    ),
    (
        &["monk", "draw", "--from", "7"],
        "Draw(None, Some(Window { from: 7, to: 2006 }))",
    ),
    (
        &["monk", "draw", "--to", "7"],
        "Draw(None, Some(Window { from: 1, to: 7 }))",
    ),
    (
        &["monk", "draw", "--text", "x.text"],
        "DrawText(Some(\"x.text\"), None, TextLayout { width: 80, is_ascii: false })",
    ),
    (
        &[
            "monk", "draw", "--ascii", "--width", "40", "--to", "7", "--text",
        ],
        "DrawText(None, Some(Window { from: 1, to: 7 }), TextLayout { width: 40, is_ascii: true })",
    ),
    (
        &["monk", "page", "--from", "7", "--to", "9", "x.text"],
        "Page([\"x.text\"], Some(Window { from: 7, to: 9 }))",
    ),
    (&["monk", "page"], "Page([], None)"),
    (
        &["monk", "page", "a", "b", "c", "d"],
        "Page([\"a\", \"b\", \"c\", \"d\"], None)",
    ),
    (
        &["monk", "draw", "--to=4000"],
        "Draw(None, Some(Window { from: 2001, to: 4000 }))",
    ),
];

/// The same for what fits.
static ASKING_FOR_A_FIT: [Asking; 8] = [
    (
        &["monk", "fit"],
        "Fit([], Judging { kind: None, means: [] }, Words)",
    ),
    (
        &["monk", "fit", "x.text"],
        "Fit([\"x.text\"], Judging { kind: None, means: [] }, Words)",
    ),
    (
        &["monk", "fit", "--json", "x.log", "y.log"],
        "Fit([\"x.log\", \"y.log\"], Judging { kind: None, means: [] }, Json)",
    ),
    (
        &["monk", "fit", "--means", "0=1", "--means", "7=255"],
        "Fit([], Judging { kind: None, means: [WaitsFor { cond: 0, pred: 1 }, WaitsFor { cond: 7, pred: 255 }] }, Words)",
    ),
    (
        &["monk", "fit", "--kind", "NPNB"],
        "Fit([], Judging { kind: Some(Npnb), means: [] }, Words)",
    ),
    (
        &["monk", "fit", "--kind", "NPIS", "-"],
        "Fit([\"-\"], Judging { kind: Some(Npis), means: [] }, Words)",
    ),
    (
        &["monk", "fit", "x.log", "y.log", "--means=7=0", "--kind=PQB"],
        "Fit([\"x.log\", \"y.log\"], Judging { kind: Some(Pqb), means: [WaitsFor { cond: 7, pred: 0 }] }, Words)",
    ),
    (
        &["monk", "fit", "--kind", "PIR", "--", "--kind", "NPIR"],
        "Fit([\"--kind\", \"NPIR\"], Judging { kind: Some(Pir), means: [] }, Words)",
    ),
];

/// The same for logs that are completed, and for runs.
static ASKING_FOR_MORE: [Asking; 9] = [
    (
        &["monk", "complete", "--kind", "PB"],
        "Complete(None, Some(Pb))",
    ),
    (&["monk", "complete"], "Complete(None, None)"),
    (
        &["monk", "complete", "--kind=NPIR", "x.log"],
        "Complete(Some(\"x.log\"), Some(Npir))",
    ),
    (
        &["monk", "run", "PB", "book", "2", "1"],
        "Run(Pb, Book, 2, 1)",
    ),
    (
        &["monk", "run", "PIR", "shop", "16", "1000"],
        "Run(Pir, Shop, 16, 1000)",
    ),
    (
        &["monk", "hasty", "NPNB", "4", "200"],
        "Hasty(Npnb, 4, 200, None)",
    ),
    (
        &["monk", "hasty", "PIS", "16", "1000", "run.history"],
        "Hasty(Pis, 16, 1000, Some(\"run.history\"))",
    ),
    (
        &["monk", "run", "NPQB", "buffer", "8", "100"],
        "Run(Npqb, Buffer, 8, 100)",
    ),
    (
        &["monk", "record", "PNB", "shop", "3", "7"],
        "Record(Pnb, Shop, 3, 7)",
    ),
];

/// Whether the line is printed as what is wanted.
fn is_printed_as(alloc: Global, line: &Line, wanted: &str) -> Result<bool, LineFault> {
    Ok(format!(in alloc; "{line:?}")?.as_str() == wanted)
}

/// Whether the words ask for what is wanted.
fn ask_for(alloc: Global, words: &[&str], wanted: &str) -> Result<bool, LineFault> {
    let line = line(alloc, words)?;
    is_printed_as(alloc, &line, wanted)
}

/// Tests that all rows ask for what is wanted. Names what the first that doesn't should ask for.
fn all_ask(alloc: Global, rows: &[Asking]) -> Result<(), Fail> {
    for (words, wanted) in rows {
        if !ask_for(alloc, words, wanted)? {
            return Err(*wanted)?;
        }
    }
    Ok(())
}

#[test]
fn words_that_ask(rt: HostRuntime) -> Result<(), Fail> {
    all_ask(rt.alloc(), &ASKING)
}

#[test]
fn words_that_ask_for_pictures(rt: HostRuntime) -> Result<(), Fail> {
    all_ask(rt.alloc(), &ASKING_FOR_PICTURES)
}

#[test]
fn words_that_ask_for_a_fit(rt: HostRuntime) -> Result<(), Fail> {
    all_ask(rt.alloc(), &ASKING_FOR_A_FIT)
}

#[test]
fn words_that_ask_for_a_completion_or_a_run(rt: HostRuntime) -> Result<(), Fail> {
    all_ask(rt.alloc(), &ASKING_FOR_MORE)
}

/// Whether this is written for the priorities of the entry, waiter and signaller queues.
fn are_classified(of: (u8, u8, u8), wanted: &[u8]) -> bool {
    let mut lines = Expected::new(wanted);
    let told = classify_stream(of.0, of.1, of.2, &mut Device::new(&mut lines));
    matches!(told, Ok(0)) && lines.agrees() && lines.taken == wanted.len()
}

static ORDERINGS: [((u8, u8, u8), &[u8]); 5] = [
    ((3, 1, 2), b"Wp<Sp<Ep\nrejected\n"),
    ((1, 3, 2), b"Ep<Sp<Wp\nPB\n"),
    ((7, 7, 7), b"Ep=Wp=Sp\nNPQB\n"),
    ((0, 255, 255), b"Ep<Wp=Sp\nPQB\n"),
    ((1, 0, 1), b"Wp<Ep=Sp\nrejected\n"),
];

#[test]
fn priorities_have_an_ordering(rt: HostRuntime) {
    for (priorities, wanted) in ORDERINGS.iter() {
        assert!(rt; are_classified(*priorities, wanted));
    }
}
