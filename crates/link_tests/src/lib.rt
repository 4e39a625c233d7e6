//! Tests of links, over which parcels are carried, and of their two ends.
#![tactic(auto)]

#[cfg(test)]
mod any_order;
#[cfg(test)]
mod carrying;
#[cfg(test)]
mod ends;
#[cfg(test)]
mod frames;
