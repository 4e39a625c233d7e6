//! Which pages of a memory are marked: a list of a few, which becomes a tree once it is full.
#![tactic(auto)]

mod few;
mod marks;

pub use few::FewPages;
pub use marks::PageMarks;
