//! Tests of the whole program as one call, of what no run of the built program shows: writes that fail at a numbered call; of rounds of any quantum; of consoles that are written as they grow; and of a pool's workers side by side. Programs and what they print are files, in the folder `cases`.
#![tactic(auto)]

#[cfg(test)]
mod calls;
#[cfg(test)]
mod faults;
#[cfg(test)]
mod gates;
#[cfg(test)]
mod quanta;
#[cfg(test)]
mod streams;
