//! Definitions of what a run writes, for contracts: `specs/` has them.
#![tactic(auto)]
