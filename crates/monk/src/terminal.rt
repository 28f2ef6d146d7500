//! Whether a standard stream is a terminal.

use std::fs;
use std::os::unix::fs::MetadataExt;
use std::rt::Files;

/// Standard input, as a file.
const STANDARD_INPUT: &str = "/dev/stdin";
/// Standard error, as a file.
const STANDARD_ERROR: &str = "/dev/stderr";

/// Returns the major number of a device, from the number that the system gives it.
fn major(device: u64) -> u64 {
    (device >> 8) & 0xfff
}

/// Whether the file is a terminal, by the number of its device. Linux gives 4 and 5 to terminals,
/// and 136 to 143 to those of windows. If the system doesn't say, it is none. The kit has no call
/// that asks the terminal itself.
fn is_terminal(files: &impl Files, name: &str) -> bool {
    match fs::metadata(files, name) {
        Ok(file) => matches!(major(file.rdev()), 4 | 5 | 136..=143),
        Err(_) => false,
    }
}

/// Whether standard input is a terminal.
pub(crate) fn is_standard_input(files: &impl Files) -> bool {
    is_terminal(files, STANDARD_INPUT)
}

/// Whether standard error is a terminal.
pub(crate) fn is_standard_error(files: &impl Files) -> bool {
    is_terminal(files, STANDARD_ERROR)
}
