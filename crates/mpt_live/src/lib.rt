//! Threaded sessions: the parties, each with a journal and a clock of its own, on lanes between threads.
#![tactic(auto)]

mod fabric_end;
mod gate;
mod giving;
mod host_end;
mod ioc_end;
mod lane_ends;
mod lanes;
mod news;
mod pumped;
mod recorded_fabric;
mod recorded_host;
mod recorded_ioc;
mod recorded_submitter;
mod refusals;
mod running;
mod sent;
mod submitter_end;
mod taking;
mod workplace;

pub use fabric_end::FabricEnd;
pub use gate::{Gate, OpenGate};
pub use giving::Giving;
pub use host_end::HostEnd;
pub use ioc_end::IocEnd;
pub use lane_ends::{HostLaneEnds, IocLaneEnds};
pub use mpt_journal::{Journal, OutOfMemory};
pub use pumped::Pumped;
pub use running::{run_fabric, run_host, run_ioc, run_submitter};
pub use sent::{LAST_STAMP, Sent};
pub use submitter_end::SubmitterEnd;
pub use taking::Taking;
pub use workplace::Workplace;
