//! The state of an object, in numbers and in words.

ghost use Rattle.std.specs.Prelude.{Some};
ghost use Rattle.monk_tell.specs.Words.{data_text};

use crate::lists::NumberList;
use monk_object::{InWords, ObjectName};
use std::fmt;

/// The data as numbers, and in words: ` 1 7 (buffer of 1: 7)`.
#[derive(Drop)]
pub struct Data<'a>(pub ObjectName, pub &'a NumberList);

impl fmt::Display for Data<'_> {
    ghost output = { λ d. Some (data_text d.0 d.1.now.0.items) };

    fn fmt<W: fmt::Write>(&self, f: &mut fmt::Formatter<W>) -> fmt::Result {
        let numbers = self.1;
        let words = InWords {
            object: self.0,
            state: &numbers.0,
        };
        write!(f, "{numbers} ({words})")
    }
}
