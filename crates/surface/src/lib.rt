//! The surface of `monk`, word for word: each type, variant, field, call, order of parameters, bound
//! and result that a client may rely on.
//!
//! The lines of this crate aren't changed. A change of the surface has to change this crate, and that
//! is the point: what is new is beside the surface, in types, calls and commands of its own. For each
//! enum one match names every variant. Two enums have grown: [`monk_object::ObjectName`] by `Flags`,
//! which is named, and [`monk_commands::Line`] by the commands that came later, which are not.
//!
//! Each call is in a function of its own, which requires what the call requires and nothing more.
#![tactic(auto)]

pub mod audits;
pub mod commands;
pub mod faults;
pub mod floor_paths;
pub mod floors;
pub mod hall_releases;
pub mod halls;
pub mod kinds;
pub mod objects;
pub mod plain_floors;
pub mod runs;
pub mod samples;
pub mod texts;
pub mod worlds;
