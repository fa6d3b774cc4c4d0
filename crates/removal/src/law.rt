//! What holds of every list of calls that doesn't clear the table.
ghost use Rattle.removal.specs.Removal.{ReadyIsRemovedByHandshake};

/// A handle of a ready device becomes absent only after the device was gone, a target reset was posted
/// and answered, and then a remove device was posted and answered, unless the table is cleared.
pub fn ready_is_removed_by_handshake()
    ensures { ReadyIsRemovedByHandshake }
{}
