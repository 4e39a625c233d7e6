//! Definitions of the devices of a root, for contracts: `specs/` has them.
#![tactic(auto)]
