//! Definitions of the merge of two memories against a snapshot, for contracts: `specs/` has them.
#![tactic(auto)]
