//! What the facts say of every world. The functions do nothing: what their contracts say is all that they are for.
#![tactic(auto)]

mod laws;

pub use laws::{
    descriptors_are_kept, descriptors_stand, facts_say, frames_have_one_place_by_facts,
    identifiers_have_one_place_by_facts, nothing_faults_by_facts, nothing_is_strange_by_facts,
    queues_are_short_by_facts,
};
