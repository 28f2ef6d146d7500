//! A file's name, as it is shown.

use std::fmt;

/// A file's name without characters that would end its line or change a terminal.
#[derive(Clone, Copy)]
pub(crate) struct Shown<'a>(pub(crate) &'a str);

impl fmt::Display for Shown<'_> {
    fn fmt<W: fmt::Write>(&self, f: &mut fmt::Formatter<W>) -> fmt::Result {
        for symbol in self.0.chars() {
            put(symbol, f)?;
        }
        Ok(())
    }
}

fn put<W: fmt::Write>(symbol: char, f: &mut fmt::Formatter<W>) -> fmt::Result {
    match symbol {
        '\0' => Ok(()),
        '\n' => f.write_str("\\n"),
        _ if symbol.is_control() => f.write_str("?"),
        _ => f.write_char(symbol),
    }
}
