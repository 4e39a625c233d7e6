//! Tests of local events, one or many, of the event at a path of a tree, and of spaces at a path and copied ones,
//! through what the crates below show.
#![tactic(auto)]

#[cfg(test)]
mod events;
#[cfg(test)]
mod local_events;
#[cfg(test)]
mod spaces;
