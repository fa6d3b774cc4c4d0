//! The law: what the facts, once they go along a list of cases, say of its trace. The functions do nothing: what their contracts
//! say is all that they are for.
#![tactic(auto)]

mod laws;

pub use laws::{
    cases_pass_but_for_the_told, facts_are_kept_but_for_the_missing, further_facts_are_kept,
    rules_carry_the_law,
};
