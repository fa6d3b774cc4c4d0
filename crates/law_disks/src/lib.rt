//! Laws of the machine of disks. The functions do nothing: what their contracts say is all that they are for.
#![tactic(auto)]

mod laws;

pub use laws::{
    addresses_are_the_fabrics, disks_are_the_fabrics, machine_stays_fit, ready_was_plugged_at_first,
};
