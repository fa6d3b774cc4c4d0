//! Laws of the classes of identifiers. The functions do nothing: what their contracts say is all that they are for.
#![tactic(auto)]

mod laws;

pub use laws::{
    classes_are_kept, leasts_agree, notifications_stand_at_first, notifications_stay_first,
    posts_go_as_made,
};
