//! Tests of starts and commits of quanta.
#![tactic(auto)]

#[cfg(test)]
mod rounds;
#[cfg(test)]
mod threads;
