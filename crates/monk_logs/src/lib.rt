//! Logs: what a recorder of a program in any language can write down while it holds the lock, as lines of text.
#![tactic(auto)]

mod crossed;
mod last_lines;
mod subject;
mod text;

pub use crossed::{Crossed, LINE_SEATS, find_crossed};
pub use last_lines::last_line;
pub use subject::Subject;
pub use text::header::LogHeader;
pub use text::line::LogLine;
pub use text::log_lines::LogLines;
pub use text::reading::{MOST_LOG_LINES, one_log_each, read_log};
