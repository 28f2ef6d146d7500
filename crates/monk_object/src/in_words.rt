//! The state of an object in words.

ghost use Rattle.std.specs.Int.{bit_at};
ghost use Rattle.std.specs.Prelude.{◌≡◌, ◌<◌, ◌==◌, Some, get_or};
ghost use Rattle.monk_object.specs.InWords.{bits_below, book_in_words, buffer_in_words, chair_in_words, flags_in_words};
ghost use Rattle.monk_object.specs.InWords.{how_many, items_in_words, shop_in_words, state_in_words};

use crate::name::ObjectName;
use std::fmt;

/// The state of an object in words, as a reader sees it: `buffer of 1: 7`, `2 read, none writes`,
/// `none sits, chair empty` or `bits set: 0 3`. `state` is the object's list of whole numbers, as
/// [`Listed`](crate::Listed) gives it. A number that the list lacks is taken as 0. Printing takes
/// no memory of its own, and time as long as the list.
#[derive(Clone, Copy)]
pub struct InWords<'a> {
    /// Which object it is.
    pub object: ObjectName,
    /// Its state.
    pub state: &'a [u64],
}

impl fmt::Display for InWords<'_> {
    ghost output = { λ w. Some (state_in_words w.object w.state.now) };

    fn fmt<W: fmt::Write>(&self, f: &mut fmt::Formatter<W>) -> fmt::Result {
        match self.object {
            ObjectName::Buffer => write!(f, "{}", BufferState(self.state)),
            ObjectName::Book => write!(f, "{}", BookState(self.state)),
            ObjectName::Shop => write!(f, "{}", ShopState(self.state)),
            ObjectName::Flags => write!(f, "{}", FlagsState(self.state)),
        }
    }
}

/// Returns the number at that place of a state, or 0 if there is none.
fn number_at(state: &[u64], place: usize) -> u64
    ensures { result ≡ get_or state.now place 0 }
{
    match state.get(place) {
        Some(number) => *number,
        None => 0,
    }
}

/// A number of tasks that do something, with the verb for one of them and the verb for many.
#[derive(Clone, Copy)]
struct HowMany(u64, &'static str, &'static str);

impl fmt::Display for HowMany {
    ghost output = { λ h. Some (how_many h.0 h.1.now h.2.now) };

    fn fmt<W: fmt::Write>(&self, f: &mut fmt::Formatter<W>) -> fmt::Result {
        match self.0 {
            0 => write!(f, "none {}", self.1),
            1 => write!(f, "one {}", self.1),
            number => write!(f, "{number} {}", self.2),
        }
    }
}

/// The items of a buffer.
#[derive(Clone, Copy)]
struct Items<'a>(&'a [u64]);

impl fmt::Display for Items<'_> {
    ghost output = { λ i. Some (items_in_words i.0.now) };

    fn fmt<W: fmt::Write>(&self, f: &mut fmt::Formatter<W>) -> fmt::Result {
        if self.0.is_empty() {
            return write!(f, " empty");
        }
        for item in self.0 {
            write!(f, " {item}")?;
        }
        Ok(())
    }
}

#[derive(Clone, Copy)]
struct BufferState<'a>(&'a [u64]);

impl fmt::Display for BufferState<'_> {
    ghost output = { λ b. Some (buffer_in_words b.0.now) };

    fn fmt<W: fmt::Write>(&self, f: &mut fmt::Formatter<W>) -> fmt::Result {
        match self.0.split_first() {
            Some((size, items)) => write!(f, "buffer of {size}:{}", Items(items)),
            None => Ok(()),
        }
    }
}

#[derive(Clone, Copy)]
struct BookState<'a>(&'a [u64]);

impl fmt::Display for BookState<'_> {
    ghost output = { λ b. Some (book_in_words b.0.now) };

    fn fmt<W: fmt::Write>(&self, f: &mut fmt::Formatter<W>) -> fmt::Result {
        let readers = HowMany(number_at(self.0, 1), "reads", "read");
        let writers = HowMany(number_at(self.0, 2), "writes", "write");
        write!(f, "{readers}, {writers}")
    }
}

/// Returns the words for a chair of that number.
fn chair_in_words(chair: u64) -> &'static str
    ensures { result.now ≡ chair_in_words chair }
{
    match chair {
        0 => "chair empty",
        1 => "chair in use",
        _ => "cut done",
    }
}

#[derive(Clone, Copy)]
struct ShopState<'a>(&'a [u64]);

impl fmt::Display for ShopState<'_> {
    ghost output = { λ s. Some (shop_in_words s.0.now) };

    fn fmt<W: fmt::Write>(&self, f: &mut fmt::Formatter<W>) -> fmt::Result {
        let sitting = HowMany(number_at(self.0, 1), "sits", "sit");
        write!(f, "{sitting}, {}", chair_in_words(number_at(self.0, 2)))
    }
}

/// No object has more flags.
const MOST_FLAGS: u8 = 32;

/// Whether the bit at `place` is set.
fn is_set(bits: u64, place: u8) -> bool
    requires { place < MOST_FLAGS }
    ensures { result ≡ (bit_at bits place == 1) }
{
    (bits >> place) & 1 == 1
}

/// The places of the bits that are set.
#[derive(Clone, Copy)]
struct SetBits(u64);

impl fmt::Display for SetBits {
    ghost output = { λ b. Some (bits_below b.0 32) };

    #[tactic(auto, unfolding(crate::specs::InWords::bits_below))]
    fn fmt<W: fmt::Write>(&self, f: &mut fmt::Formatter<W>) -> fmt::Result {
        for place in 0..MOST_FLAGS {
            if is_set(self.0, place) {
                write!(f, " {place}")?;
            }
        }
        Ok(())
    }
}

#[derive(Clone, Copy)]
struct FlagsState<'a>(&'a [u64]);

impl fmt::Display for FlagsState<'_> {
    ghost output = { λ s. Some (flags_in_words s.0.now) };

    fn fmt<W: fmt::Write>(&self, f: &mut fmt::Formatter<W>) -> fmt::Result {
        match number_at(self.0, 1) {
            0 => write!(f, "no bit set"),
            bits => write!(f, "bits set:{}", SetBits(bits)),
        }
    }
}
