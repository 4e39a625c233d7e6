//! Definitions of scripts, which say what the devices of a root give it, for contracts, and the laws that join their grammar
//! to reading them line by line: `specs/` has the definitions.
#![tactic(auto)]

mod error;
mod laws;

pub use error::ScriptError;
pub use laws::{
    names_the_first_refused_line, one_item, one_script, reads_exactly_scripts,
    refuses_exactly_the_rest,
};
