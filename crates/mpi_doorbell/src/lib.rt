//! The doorbell of an LSI Fusion-MPT adapter (MPI 2.0), both ends.
#![tactic(auto)]

mod effect;
mod exchange;
mod host;
mod ioc;
pub mod laws;
mod padded;
pub mod registers;
mod stage;
mod state;
mod step;

pub use effect::Effect;
pub use host::DoorHost;
pub use ioc::DoorIoc;
pub use state::IocState;
pub use step::DoorStep;

#[cfg(test)]
mod tests;
