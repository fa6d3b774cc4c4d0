//! Traces: what the three parties put on the lanes between them and take from them, what they are
//! told from outside and what they tell, entry by entry, and the printed text of all of it.
//!
//! The parties are the host's driver, the controller (IOC) and the fabric with its disks.
#![tactic(auto)]

mod choice;
mod command;
mod command_form;
mod disk_spec;
mod entry;
mod entry_party;
mod entry_words;
mod host_state;
mod input;
mod item;
mod item_words;
mod lane;
mod laws;
mod numbers;
mod outcome;
mod parties;
mod ranges;
mod refusal;
mod schedule_words;
mod summary;
mod summary_words;
#[cfg(test)]
mod tests;
mod trace;

pub use choice::Choice;
pub use command::command_of;
pub use command_form::CommandForm;
pub use disk_spec::DiskSpec;
pub use entry::Entry;
pub use entry_party::party;
pub use entry_words::{entry_text, in_show};
pub use host_state::HostState;
pub use input::Input;
pub use item::{Ask, Back, Down, Item, Out, Tell, Up};
pub use lane::LaneName;
pub use laws::{cdb_names_the_length, line_reads_back, lines_tell_apart, lines_tell_traces_apart};
pub use mpi_names::{Address, Handle, Smid, Tag};
pub use mpt_text::OutOfMemory;
pub use numbers::{push_address, push_byte, push_descriptor, push_handle, push_place};
pub use outcome::{AbortOutcome, Outcome, TargetOutcome};
pub use parties::Party;
pub use ranges::{entries_fit, entry_fits};
pub use refusal::{Refusal, RefusedCall};
pub use schedule_words::{push_choice, push_command, push_input};
pub use summary::{DiskLine, DiskLines, Summary};
pub use summary_words::summary_text;
pub use trace::Trace;
