//! What a space is at one of its own events.
#![tactic(auto)]

mod asking;
mod before;
mod beside;
mod bytes;
mod choosing;
mod contents;
mod ending;
mod files;
mod going;
mod instructions;
mod joins;
mod last_lines;
mod line_run;
mod lineage;
mod lineages;
mod pages;
mod paths;
mod showing;
mod stretch;
mod tracing;
mod turning;
mod walking;
mod watch;
mod watch_list;
mod watched_memory;
mod watching;

pub use asking::{after_event, at_end};
pub use before::{ChangeBefore, change_before};
pub use beside::last_changes;
pub use bytes::Bytes;
pub use ending::{LastEvents, last_events};
pub use going::{count_events, last_change, run_to, trace};
pub use instructions::{instruction_at_pc, is_call, register_name};
pub use joins::{child_path, merges};
pub use line_run::{LineRun, Wanted, last_two_lines};
pub use lineages::{LineageLink, LineageRun, lineage_of};
pub use paths::path_text;
pub use tracing::call_name;
pub use watch_list::WatchList;
pub use watching::{Change, Watched};
