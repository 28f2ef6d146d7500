//! Tests of what no clause says: values and texts that people know, known histories, plays and logs, what each command
//! prints, readers and writers that fail in the middle of a stream, and refused memory.

mod audits;
mod calls;
mod commands;
mod crossings;
mod devices;
mod floor_histories;
mod floor_steps;
mod halls;
mod hasty_runs;
mod hints;
mod histories;
mod jobs;
mod kinds;
mod last_lines;
mod log_texts;
mod logs;
mod marks;
mod meeting;
mod objects;
mod play_texts;
mod questions;
mod records;
mod refused;
mod requests;
mod runs;
mod samples;
mod sweeps;
mod text_pictures;
mod texts;
mod told_pages;
mod worlds;
