//! A history's page: its JSON value, and the HTML text around it.
#![tactic(auto)]

mod blame;
mod choice;
mod html;
mod in_json;
mod kinds;
pub mod laws;
mod lists;
mod log;
mod log_data;
mod log_scene;
mod page_data;
mod shell;
mod shown_run;
mod step;
mod template;
mod told;
mod told_history;

pub use html::{article, page_of};
pub use log::log_page;
pub use log_scene::run_scene;
pub use shell::NOTHING_TOLD;
pub use shown_run::ShownRun;
pub use told::{ToldFault, ToldNames, ToldWrong, check_told, told_names};
