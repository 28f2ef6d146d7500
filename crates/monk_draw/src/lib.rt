//! A picture of a history or of a run: what it shows, and its SVG text or its lines of text.
#![tactic(auto)]

mod label;
mod names;
mod picture;
mod scene;
mod span;
mod svg;
mod text;
mod text_form;
mod window;
mod window_fault;

pub use names::Names;
pub use picture::Picture;
pub use scene::{Scene, history_scene};
pub use span::{MOST_SHOWN, Span, is_behind, showable};
pub use svg::draw;
pub use text::draw_text;
pub use text_form::{TextForm, TextLayout};
pub use window::Window;
pub use window_fault::WindowFault;
