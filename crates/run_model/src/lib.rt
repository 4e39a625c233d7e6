//! Definitions of whole runs, for contracts: `specs/` has them, and `proofs/` their laws.
#![tactic(auto)]
