//! Symbols: names of addresses, and which of them names a place in memory.
#![tactic(auto)]

mod symbol;

pub use symbol::{Place, Symbol, Symbols};
