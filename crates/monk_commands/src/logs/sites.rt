//! Where the lines of a log are in the source of its program.

/// The places in the source that a recorder wrote into the file beside a log: `site K FILE:LINE` for each place, and a
/// row `lines` with the number of the place of each line, 0 if it has none.
#[derive(Clone, Copy)]
pub(crate) struct Sites<'a> {
    beside: &'a [u8],
}

impl<'a> Sites<'a> {
    /// Returns the places of that file.
    pub(crate) fn in_file(beside: &'a [u8]) -> Sites<'a> {
        Sites { beside }
    }

    /// Returns the place in the source of the line with that index after the header, if the file says it.
    pub(crate) fn of_line(&self, index: usize) -> Option<&'a [u8]> {
        let numbers = row(self.beside, b"lines ")?;
        let number = numbers.split(|byte| *byte == b' ').nth(index)?;
        if number == b"0".as_slice() {
            return None;
        }
        site(self.beside, number)
    }
}

/// Returns what follows the word in the first row that begins with it.
fn row<'a>(beside: &'a [u8], word: &[u8]) -> Option<&'a [u8]> {
    let mut rows = beside.split(|byte| *byte == b'\n');
    rows.find_map(|row| row.strip_prefix(word))
}

/// Returns the place with that number.
fn site<'a>(beside: &'a [u8], number: &[u8]) -> Option<&'a [u8]> {
    let mut rows = beside.split(|byte| *byte == b'\n');
    rows.find_map(|row| {
        let rest = row.strip_prefix(b"site ".as_slice())?;
        rest.strip_prefix(number)?.strip_prefix(b" ".as_slice())
    })
}
