//! Laws of identifiers and reply frames over every case. The functions do nothing: what their contracts say is all that
//! they are for.
#![tactic(auto)]

mod laws;

pub use laws::{
    cycles_are_kept, doorbells_stand, facts_give_places, places_are_kept, vectors_stay_few,
};
