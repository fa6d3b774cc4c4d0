//! The law of the machine of disks: the entries of every case say steps that it allows. The functions do nothing: what their
//! contracts say is all that they are for.
#![tactic(auto)]

mod laws;

pub use laws::machine_runs;
