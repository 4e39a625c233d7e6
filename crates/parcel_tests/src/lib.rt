//! Tests of parcels, of lists of resident pages and of nodes: each fault with its place, tops of each kind sent and read, lists that are full, and
//! the homes of numbers.
#![tactic(auto)]

#[cfg(test)]
mod faults;
#[cfg(test)]
mod lists;
#[cfg(test)]
mod nodes;
#[cfg(test)]
mod tops;
