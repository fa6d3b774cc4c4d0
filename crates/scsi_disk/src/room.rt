//! Memory for one result, reserved before the command is carried out.
ghost use Rattle.std.specs.Prelude.{◌≡◌, IfOk, OnOk, OnErr, IsTrue, IsOk, false};

use crate::buffers::Buffers;
use crate::out_of_memory::OutOfMemory;
use std::alloc::Global;
use std::marker::Model;

/// Room for the data and the sense of one result. It is full, or a result has taken it.
#[derive(Drop)]
pub struct Room {
    alloc: Global,
    buffers: Option<Buffers>,
}

impl Model for Room {
    ghost use Rattle.std.specs.Prelude.{is_some};
    ghost use Rattle.scsi_disk.specs.Room.{Room};

    ghost Value = { Room };

    ghost view = { λ r. record { is_full = is_some r.buffers } };
}

impl Room {
    /// A full room, or OutOfMemory.
    pub fn new(alloc: Global) -> Result<Room, OutOfMemory>
        ensures { IfOk result (λ room. IsTrue room.is_full) }
    {
        let buffers = Buffers::new(alloc)?;
        Ok(Room {
            alloc,
            buffers: Some(buffers),
        })
    }

    /// Whether there is room for a result.
    pub fn is_full(&self) -> bool
        ensures { result ≡ self.now.is_full }
    {
        self.buffers.is_some()
    }

    /// Fills the room, if it isn't full. After OutOfMemory it is as it was.
    pub fn refill(&mut self) -> Result<(), OutOfMemory>
        ensures filled { OnOk result (IsTrue self.new.is_full) }
        ensures stays { OnErr result (self.new ≡ self.old) }
        ensures full { IsTrue self.old.is_full → IsOk result }
    {
        if self.buffers.is_none() {
            let buffers = Buffers::new(self.alloc)?;
            self.buffers = Some(buffers);
        }
        Ok(())
    }

    // The buffers, which leave the room empty.
    pub(crate) fn take(&mut self) -> Buffers
        requires { IsTrue self.old.is_full }
        ensures { self.new ≡ record { is_full = false } }
    {
        self.buffers.take().unwrap()
    }
}
