//! What holds of the whole after any list of cases.
ghost use Rattle.mpt_system.specs.Summary.{DisksStay};

use scsi_disk::other_blocks_stay;

/// The disks keep the addresses and the sizes that they were declared with.
pub fn disks_stay()
    ensures { DisksStay }
{
    // No command changes a disk's size.
    other_blocks_stay();
}
