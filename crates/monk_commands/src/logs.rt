//! The answers for a log.

pub(crate) mod answering;
pub(crate) mod beside;
pub(crate) mod cause;
pub(crate) mod completing;
pub(crate) mod drawing;
pub(crate) mod explanation;
pub(crate) mod finding;
pub(crate) mod finding_json;
pub(crate) mod finding_line;
pub(crate) mod fitting_log;
pub(crate) mod judging;
pub(crate) mod lines_told;
pub(crate) mod paging;
pub(crate) mod places;
pub(crate) mod refusal;
pub(crate) mod run_text;
pub(crate) mod sites;
pub(crate) mod trail;
pub(crate) mod trails;
pub(crate) mod verdict_words;
pub(crate) mod view;
