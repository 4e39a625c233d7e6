//! Tests of the outside world, files that are read and sinks that are written to, and of executable files.
#![tactic(auto)]

#[cfg(test)]
mod executables;
#[cfg(test)]
mod files_and_sinks;
