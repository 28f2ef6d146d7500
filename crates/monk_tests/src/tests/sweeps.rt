//! Each number of seats, and long texts. Want of memory may be answered at any time, so no contract refuses a body that
//! gives up above a size of its own choice.

mod long_texts;
mod makes;
mod runs;
