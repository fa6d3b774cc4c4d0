//! Laws of notices, by which the controller hears of plugs and unplugs. The functions do nothing: what their contracts say is all
//! that they are for.
#![tactic(auto)]

mod laws;

pub use laws::{
    bound_plugs_were_told, disks_stand_apart, disks_were_plugged, few_disks_are_there,
    notices_are_kept, notices_lead, notices_stay_fit,
};
