//! The constant parts of a page, which template/make makes of page.html, style/ and script/.

pub mod article;
pub mod ends;
pub mod front;
pub mod shared;
