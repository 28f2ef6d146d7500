//! Reads the front of a line, if it is known what may be there. Words are short, so they are compared byte by byte.

ghost use Rattle.std.specs.Prelude.{◌≡◌, ◌≢◌, ◌∷◌, ◌++◌, true, false, MatchOption, IfSome, length, take, decimal};
ghost use Rattle.std.specs.Option.{option_copied};
ghost use Rattle.monk_history.specs.Text.Words.{Word, words_of, words_left, is_unbroken, is_next};

/// Returns what is left of the line after that word, if it is the first word.
#[inline(always)]
pub(crate) fn left_behind_word<'a>(line: &'a [u8], word: &[u8]) -> Option<Option<&'a [u8]>>
    requires { is_unbroken word.now ≡ true }
    ensures { MatchOption result
        (is_next word.now (words_of line.entry.now) ≡ false)
        (λ left. words_of line.entry.now ≡ word.now ∷ words_left (option_copied left)) }
{
    let behind = behind(line, word)?;
    let left = left_behind(behind)?;
    Some(left)
}

/// A number must be below this if one more digit is to fit.
const ROOM_FOR_A_DIGIT: u64 = 1 << 59;

/// Returns the first word of the line if it is a number of at most eighteen digits, or a small one of nineteen, and
/// what is left of the line after it.
#[inline(always)]
pub(crate) fn left_behind_number(line: &[u8]) -> Option<(u64, Option<&[u8]>)>
    ensures { IfSome result (λ x. words_of line.now ≡ decimal x.0 ∷ words_left (option_copied x.1)) }
{
    let (first, behind) = line.split_first()?;
    if !first.is_ascii_digit() {
        return None;
    }
    let mut number = u64::from(*first - b'0');
    let mut rest = behind;
    while let Some((next, behind)) = rest.split_first() {
        if *next == b' ' {
            return Some((number, Some(behind)));
        }
        if !next.is_ascii_digit() || number == 0 || number >= ROOM_FOR_A_DIGIT {
            return None;
        }
        number = number * 10 + u64::from(*next - b'0');
        rest = behind;
    }
    Some((number, None))
}

/// Returns what follows the word, if the bytes begin with it.
#[inline(always)]
fn behind<'a>(bytes: &'a [u8], word: &[u8]) -> Option<&'a [u8]>
    ensures { MatchOption result (take (length word.now) bytes.now ≢ word.now)
        (λ rest. bytes.entry.now ≡ word.now ++ rest.now) }
{
    if bytes.len() < word.len() {
        return None;
    }
    for at in 0..word.len() {
        if bytes[at] != word[at] {
            return None;
        }
    }
    Some(&bytes[word.len()..])
}

/// Returns what is left of a line after a word that ends where these bytes begin. Returns `None` if the word goes on.
#[inline(always)]
fn left_behind(bytes: &[u8]) -> Option<Option<&[u8]>>
    ensures { MatchOption result
        ((w : Word) → is_next w (words_of (w ++ bytes.now)) ≡ false)
        (λ left. (w : Word) → is_unbroken w ≡ true → words_of (w ++ bytes.now) ≡ w ∷ words_left (option_copied left)) }
{
    let Some((next, rest)) = bytes.split_first() else {
        return Some(None);
    };
    if *next == b' ' {
        Some(Some(rest))
    } else {
        None
    }
}
