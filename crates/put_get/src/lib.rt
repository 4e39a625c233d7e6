//! Put and Get: what they do once the children that they name are ready.
#![tactic(auto)]

mod get;
mod joining;
mod meeting;
mod options;
mod put;
mod ranges;
mod refusal;
mod telling;
mod tree;

pub use meeting::apply;
