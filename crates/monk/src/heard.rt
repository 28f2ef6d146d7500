//! A reader that keeps the front of what was read, and what the system said if a read failed.

ghost use Rattle.std.specs.Prelude.{◌≡◌};

use std::io;
use std::io::Read;

/// How many bytes of the front are kept.
const FRONT: usize = 65_536;

/// A reader that passes its reads on, and keeps the first bytes that came, and the system's number
/// for the last read that failed.
#[derive(Drop)]
pub(crate) struct Heard<R> {
    inner: R,
    code: Option<i32>,
    front: [u8; FRONT],
    kept: usize,
}

impl<R> Heard<R> {
    pub(crate) fn new(inner: R) -> Heard<R> {
        Heard {
            inner,
            code: None,
            front: [0; FRONT],
            kept: 0,
        }
    }

    /// Returns what the system said about the last read that failed, if it said anything.
    pub(crate) fn error(&self) -> Option<io::Error> {
        self.code.map(io::Error::from_raw_os_error)
    }

    /// Returns the first bytes that were read, as many as are kept.
    pub(crate) fn front(&self) -> &[u8] {
        self.front.get(..self.kept).unwrap_or(&[])
    }

    /// Keeps as many of these bytes as there is room for, after those that are kept.
    fn keep(&mut self, bytes: &[u8])
        ensures { self.new.inner ≡ self.old.inner }
    {
        if let Some(room) = self.front.get_mut(self.kept..) {
            for (place, byte) in room.iter_mut().zip(bytes) {
                *place = *byte;
            }
            self.kept = self.kept.saturating_add(bytes.len()).min(FRONT);
        }
    }
}

impl<R: Read> Read for Heard<R> {
    ghost remaining = { λ h. R.remaining h.inner };

    fn read(&mut self, buf: &mut [u8]) -> io::Result<usize> {
        let result = self.inner.read(buf);
        match &result {
            Ok(taken) => self.keep(buf.get(..*taken).unwrap_or(&[])),
            Err(error) => self.code = error.raw_os_error(),
        }
        result
    }
}
