//! Moves of host, controller and fabric, as leaves: each call of a party is one of few. The proofs are all that it is for.
#![tactic(auto)]
