//! A device passes each call on, and once. No clause says so for a reader or a writer whose bytes nobody knows.

use monk_history::Device;
use std::io;
use std::io::{Read, Write};

/// A reader and writer that counts its calls. Of its reads and writes, call number `failing` fails. Each of the first
/// two reads gives its number as one byte, and a later one gives nothing. A write takes at most two bytes.
#[derive(Drop)]
struct Counted {
    reads: u32,
    writes: u32,
    flushes: u32,
    failing: u32,
}

impl Counted {
    /// Returns one that nobody has called yet, and whose call number `failing` fails.
    fn new(failing: u32) -> Counted {
        Counted {
            reads: 0,
            writes: 0,
            flushes: 0,
            failing,
        }
    }

    /// Whether the call that was counted last is the one that fails.
    fn fails_now(&self) -> bool {
        self.reads.wrapping_add(self.writes) == self.failing
    }
}

impl Read for Counted {
    fn read(&mut self, buf: &mut [u8]) -> io::Result<usize> {
        self.reads = self.reads.wrapping_add(1);
        if self.fails_now() {
            return Err(io::Error::from(io::ErrorKind::Other));
        }
        if buf.is_empty() || self.reads > 2 {
            return Ok(0);
        }
        buf[0] = if self.reads == 1 { 1 } else { 2 };
        Ok(1)
    }
}

impl Write for Counted {
    fn write(&mut self, buf: &[u8]) -> io::Result<usize> {
        self.writes = self.writes.wrapping_add(1);
        if self.fails_now() {
            return Err(io::Error::from(io::ErrorKind::Other));
        }
        Ok(buf.len().min(2))
    }

    fn flush(&mut self) -> io::Result<()> {
        self.flushes = self.flushes.wrapping_add(1);
        Ok(())
    }
}

/// The number of a call that is never made.
const NEVER: u32 = u32::MAX;

/// Whether two reads, a write, a `write_all` and a flush have the right results.
fn passes_on<T: Read + Write>(both: &mut T) -> bool {
    let mut piece = [0u8; 2];
    let are_read = matches!(both.read(&mut piece), Ok(1)) && matches!(both.read(&mut piece), Ok(1));
    let is_written = matches!(both.write(b"monk"), Ok(2)) && both.write_all(b"monks").is_ok();
    both.flush().is_ok() && are_read && is_written && piece == [2, 0]
}

/// The same for a device over them.
fn device_passes_on(counted: &mut Counted) -> bool {
    let mut device = Device::new(counted);
    passes_on(&mut device) && !device.failed()
}

#[test]
fn device_passes_each_call_on(rt: HostRuntime) {
    let mut counted = Counted::new(NEVER);
    let well = device_passes_on(&mut counted);
    // `write_all` takes three writes for its five bytes.
    assert!(rt; well && (counted.reads, counted.writes, counted.flushes) == (2, 4, 1));
}

/// The number of calls that are made on a device.
const MANY: u32 = 3000;

/// Whether the next read fails, or the next write if `is_read` is false.
fn call_fails(device: &mut Device<Counted>, is_read: bool) -> bool {
    if is_read {
        return device.read(&mut [0u8; 1]).is_err();
    }
    device.write(b"m").is_err()
}

/// Whether only call `failing`, of many reads or of many writes, answers an error, and the device says so from then on.
fn each_tells(device: &mut Device<Counted>, failing: u32, are_reads: bool) -> bool {
    for number in 1..=MANY {
        let failed = call_fails(device, are_reads);
        if failed != (number == failing) || device.failed() != (number >= failing) {
            return false;
        }
    }
    true
}

/// The same for a new device.
fn tells_of(failing: u32, are_reads: bool) -> bool {
    let mut device = Device::new(Counted::new(failing));
    each_tells(&mut device, failing, are_reads)
}

static FAILING: [u32; 4] = [1, 2, MANY, NEVER];

#[test]
fn device_tells_of_the_first_failure(rt: HostRuntime) {
    for failing in FAILING.iter() {
        assert!(rt; tells_of(*failing, true) && tells_of(*failing, false));
    }
}
