//! Handles go from thread to thread.

use crate::handle::MonkSeat;

/// A value of the type may go to another thread.
fn crosses<T: Send>() {}

/// A handle may go to another thread, with its seat. Only C passes handles on. The proof of an
/// `impl` of `Send` is asked for where a bound wants it, as here.
fn a_handle_crosses() {
    crosses::<MonkSeat>();
}
