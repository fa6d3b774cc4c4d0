//! What holds of every disk and every command.
ghost use Rattle.scsi_disk.specs.Laws.{CheckChangesNothing, OtherBlocksStay, ReadAfterWrite, SizeStays};

/// After a WRITE that was GOOD, a READ of the same blocks that takes them all gives what was written.
pub fn read_after_write()
    ensures { ReadAfterWrite }
{}

/// A command changes no block but those that a WRITE names, and no disk's size. CHECK CONDITION
/// leaves all as it was.
pub fn other_blocks_stay()
    ensures blocks { OtherBlocksStay }
    ensures size { SizeStays }
    ensures refused { CheckChangesNothing }
{}
