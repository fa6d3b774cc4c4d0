//! The host's machine at the doorbell.
ghost use Rattle.std.specs.Prelude.{◌≡◌, IfSome, None, Some, option_copied};
ghost use Rattle.host_tables.specs.Machine.{Awaits};

use mpi_doorbell::DoorHost;
use std::marker::Model;

/// A machine that waits for the value of a read, or none.
#[derive(Drop)]
pub struct Machine {
    door: Option<DoorHost>,
}

impl Model for Machine {
    ghost use Rattle.std.specs.Prelude.{Option};
    ghost use Rattle.mpi_doorbell.specs.HostDoor.{HostDoor};
    ghost use Rattle.host_tables.specs.Machine.{AwaitsIfThere};

    ghost Value = { Option HostDoor };

    ghost view = { λ m. m.door };

    ghost invariant = { λ m. AwaitsIfThere m.door };
}

impl Machine {
    /// No machine.
    pub fn none() -> Machine
        ensures { result ≡ None }
    {
        Machine { door: None }
    }

    /// A copy of the machine, where there is one.
    pub fn copy(&self) -> Option<DoorHost>
        ensures value { result ≡ self.now }
        ensures awaits { IfSome result Awaits }
    {
        match &self.door {
            Some(door) => Some(door.copy()),
            None => None,
        }
    }

    /// Takes the machine, where there is one.
    pub fn take(&mut self) -> Option<DoorHost>
        ensures value { result ≡ self.old }
        ensures none { self.new ≡ None }
        ensures awaits { IfSome result Awaits }
    {
        self.door.take()
    }

    /// This machine waits for a value.
    pub fn set(&mut self, door: DoorHost)
        requires { Awaits door }
        ensures { self.new ≡ Some door }
    {
        self.door = Some(door);
    }

    /// There is no machine any more.
    pub fn clear(&mut self)
        ensures { self.new ≡ None }
    {
        self.door = None;
    }
}
