//! Reads what is at a known place of some bytes, without a search for the end of a line.

ghost use Rattle.std.specs.Prelude.{◌≡◌, ◌∷◌, [], ◌++◌, ◌+◌, ◌≤◌, true, IfSome, length, decimal};
ghost use Rattle.monk_history.specs.Text.Places.{StandsAt};

/// Whether that byte is at the place.
#[inline(always)]
pub fn one_stands_at(bytes: &[u8], place: usize, one: u8) -> bool
    requires { place + 1 ≤ length bytes.now }
    ensures { result ≡ true → StandsAt bytes.now place (one ∷ []) (place + 1) }
{
    bytes[place] == one
}

/// Whether these two bytes are at the place. They are compared as one number.
#[inline(always)]
pub fn two_stand_at(bytes: &[u8], place: usize, two: [u8; 2]) -> bool
    requires { place + 2 ≤ length bytes.now }
    ensures { result ≡ true → StandsAt bytes.now place two (place + 2) }
{
    u16::from_le_bytes([bytes[place], bytes[place + 1]]) == u16::from_le_bytes(two)
}

/// Whether these four bytes are at the place. They are compared as one number.
#[inline(always)]
pub fn four_stand_at(bytes: &[u8], place: usize, four: [u8; 4]) -> bool
    requires { place + 4 ≤ length bytes.now }
    ensures { result ≡ true → StandsAt bytes.now place four (place + 4) }
{
    let found = [
        bytes[place],
        bytes[place + 1],
        bytes[place + 2],
        bytes[place + 3],
    ];
    u32::from_le_bytes(found) == u32::from_le_bytes(four)
}

/// The most bytes that [`short_number_at`] takes.
pub const SHORT_NUMBER: usize = 3;

/// Returns the number there, if it has one or two digits and the byte `end` follows, and the place after that byte.
#[inline(always)]
pub fn short_number_at(bytes: &[u8], place: usize, end: u8) -> Option<(u8, usize)>
    requires { place + SHORT_NUMBER ≤ length bytes.now }
    ensures stands { IfSome result (λ r. StandsAt bytes.now place (decimal r.0 ++ end ∷ []) r.1) }
    ensures near { IfSome result (λ r. r.1 ≤ place + SHORT_NUMBER) }
{
    let first = bytes[place];
    if !first.is_ascii_digit() {
        return None;
    }
    let second = bytes[place + 1];
    if second == end {
        return Some((first - b'0', place + 2));
    }
    if !second.is_ascii_digit() || first == b'0' || bytes[place + 2] != end {
        return None;
    }
    Some(((first - b'0') * 10 + (second - b'0'), place + 3))
}

/// The most bytes that [`number_at`] takes: ten digits and the byte after them.
pub const NUMBER: usize = 11;

/// Returns the number there, if it has at most ten digits and the byte `end` follows, and the place after that byte.
#[inline(always)]
pub fn number_at(bytes: &[u8], place: usize, end: u8) -> Option<(u64, usize)>
    requires { place + NUMBER ≤ length bytes.now }
    ensures stands { IfSome result (λ r. StandsAt bytes.now place (decimal r.0 ++ end ∷ []) r.1) }
    ensures near { IfSome result (λ r. r.1 ≤ place + NUMBER) }
{
    let first = bytes[place];
    if !first.is_ascii_digit() {
        return None;
    }
    let mut number = u64::from(first - b'0');
    for count in 1..NUMBER {
        let next = bytes[place + count];
        if next == end {
            return Some((number, place + count + 1));
        }
        if !next.is_ascii_digit() || number == 0 {
            return None;
        }
        number = number * 10 + u64::from(next - b'0');
    }
    None
}
