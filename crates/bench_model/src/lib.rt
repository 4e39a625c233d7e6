//! Definitions of the image that is made from a number, for contracts: `specs/` has them.
#![tactic(auto)]
