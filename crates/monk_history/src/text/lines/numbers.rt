//! Numbers as words.

ghost use Rattle.std.specs.Prelude.{◌≡◌, ◌≤◌, ◌<◌, ◌+◌, ◌*◌, ◌-◌, IfSome, IsTrue, ◌↔◌, slice_index, length};
ghost use Rattle.std.specs.{Option.SomeIff, Char.digit_value, Str.Parse.AllDigits, Str.Parse.digits_value};
ghost use Rattle.monk_history.specs.Text.Words.{number_in};

/// Returns the number that the word writes, if it is written as numbers are and is at most `most`.
pub(crate) fn number_of(word: &[u8], most: u64) -> Option<u64>
    ensures value { result ≡ number_in most word.now }
    ensures within { IfSome result (λ n. n ≤ most) }
{
    if !is_plain(word) {
        return None;
    }
    value_of(word, most)
}

/// Whether the word has a first byte, and no byte after a zero in front.
fn is_plain(word: &[u8]) -> bool
    ensures { IsTrue result ↔ ((0 < length word.now) × (slice_index word.now 0 ≡ 48 → length word.now ≡ 1)) }
{
    !word.is_empty() && (word[0] != b'0' || word.len() == 1)
}

/// Returns the number that the bytes stand for, if they are digits and it is at most `most`.
fn value_of(digits: &[u8], most: u64) -> Option<u64>
    ensures { SomeIff result (AllDigits 10 digits.now × (digits_value 10 digits.now ≤ most))
        (digits_value 10 digits.now) }
{
    let mut value = 0;
    for digit in digits {
        value = with_digit(value, *digit, most)?;
    }
    Some(value)
}

fn with_digit(value: u64, digit: u8, most: u64) -> Option<u64>
    ensures { SomeIff result ((digit_value digit < 10) × (value * 10 + digit_value digit ≤ most))
        (value * 10 + digit_value digit) }
{
    if !digit.is_ascii_digit() {
        return None;
    }
    let next = value.checked_mul(10)?.checked_add(u64::from(digit - b'0'))?;
    if next > most {
        return None;
    }
    Some(next)
}
