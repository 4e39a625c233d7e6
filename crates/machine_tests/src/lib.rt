//! Tests of pages, of a memory, and of one step of the processor in it: what every call on them gives where there is memory enough.
#![tactic(auto)]

#[cfg(test)]
mod memories;
#[cfg(test)]
mod pages;
#[cfg(test)]
mod steps;
