//! The disks of a run.
use mpi_names::Address;

/// A disk as a schedule or a plan declares it.
#[derive(Clone, Copy)]
pub struct DiskSpec {
    /// Its SAS address.
    pub address: Address,
    /// Its blocks of 512 bytes, from 1 to 1,024.
    pub blocks: u16,
}
