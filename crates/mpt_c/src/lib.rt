//! The static library for C: each export calls one public function of the crates below and states
//! its clauses again. `include/mpt.h` declares the exports, and tests there what they ask of C.
#![tactic(auto)]

mod device;
mod driver;
mod fabric;
mod fabric_handle;
mod host_handle;
mod ioc_handle;
mod messages;
