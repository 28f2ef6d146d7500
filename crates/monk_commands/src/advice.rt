//! Advice on words that the program no longer takes.

use monk_kinds::KindName;

/// Returns what to do in place of an option that is gone, or of a kind that is named without `--kind`. `words` are what
/// [`line`](crate::line) refused, the program's own name first. The first option that is gone decides. The result is
/// `None` if nothing of this is there.
pub fn advice_for(words: &[&str]) -> Option<&'static str> {
    for word in words {
        if *word == "--lapses" {
            return Some("spurious wake-ups are always allowed and counted: leave --lapses out");
        }
        if word.starts_with("--order") {
            return Some("a log promises no order: leave --order out");
        }
    }
    match words {
        [_, "complete", kind, ..] => {
            KindName::of_text(kind.as_bytes()).and(Some("complete takes a kind by --kind"))
        }
        _ => None,
    }
}
