//! The law of the controller's registers, of every list of cases and every schedule, where no controller faults. The
//! functions do nothing: what their contracts say is all that they are for.
#![tactic(auto)]

mod laws;

pub use laws::{replays_read_registers, values_are_registers};
