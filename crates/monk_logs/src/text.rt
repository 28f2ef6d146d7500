//! The text of a log: its header and its lines, read and written.

pub mod header;
pub mod line;
pub mod line_reading;
pub mod log_front;
pub mod log_lines;
pub mod reading;
pub mod verb;
