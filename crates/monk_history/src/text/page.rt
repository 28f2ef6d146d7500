//! A page of text on its way to a device.

ghost use Rattle.std.specs.Prelude.{◌≡◌, ◌≤◌, ◌+◌, ◌-◌, ◌++◌, ◌∷◌, [], List, ℕ, length, take, false, true, decimal, OnOk, OnErr};
ghost use Rattle.monk_history.specs.Text.Device.{has_failed, Writes};

use crate::text::device::Device;
use crate::text::write_fault::WriteFault;
use itoa::Buffer;
use std::io::Write;
use std::marker::Model;

/// How many bytes a page has.
pub(crate) const PAGE: usize = 4096;

/// Text that a device gets in one piece. Contracts see the bytes that are not yet sent.
#[derive(Drop)]
pub(crate) struct Page {
    bytes: [u8; PAGE],
    used: usize,
}

impl Model for Page {
    ghost Value = { List ℕ };

    ghost view = { λ p. take p.used p.bytes };

    ghost invariant = { λ p. p.used ≤ 4096 };
}

impl Page {
    pub(crate) fn new() -> Page
        ensures { result ≡ [] }
    {
        Page {
            bytes: [0; PAGE],
            used: 0,
        }
    }

    /// Returns how many more bytes fit on it.
    pub(crate) fn room(&self) -> usize
        ensures { result + length self.now ≡ PAGE }
    {
        PAGE - self.used
    }

    pub(crate) fn put(&mut self, bytes: &[u8])
        requires { length self.old + length bytes.now ≤ PAGE }
        ensures text { self.new ≡ self.old ++ bytes.now }
        ensures used { length self.new ≡ length self.old + length bytes.now }
    {
        let end = self.used + bytes.len();
        self.bytes[self.used..end].copy_from_slice(bytes);
        self.used = end;
    }

    /// Writes a space and the number on the page, at most 21 bytes.
    pub(crate) fn put_number(&mut self, n: u64)
        requires { length self.old + 21 ≤ PAGE }
        ensures text { self.new ≡ self.old ++ 32 ∷ decimal n }
        ensures used { length self.new ≤ length self.old + 21 }
    {
        let mut buffer = Buffer::new();
        let digits = buffer.format(n);
        self.put(b" ");
        self.put(digits.as_bytes());
    }

    /// Sends the page to the device, and empties it. It is one write if the device takes it whole.
    pub(crate) fn send<W: Write>(&mut self, out: &mut Device<W>) -> Result<(), WriteFault>
        requires { has_failed out.old ≡ false }
        ensures ok { OnOk result (Writes W.contents out.old out.new self.old) }
        ensures err { OnErr result (has_failed out.new ≡ true) }
        ensures empty { self.new ≡ [] }
    {
        let result = out.write_all(&self.bytes[..self.used]);
        self.used = 0;
        result.map_err(|_| WriteFault)
    }
}
