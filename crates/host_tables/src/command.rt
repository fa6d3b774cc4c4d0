//! Open submissions.
ghost use Rattle.std.specs.Prelude.{◌≡◌, ◌≤◌};

use mpt_trace::{Handle, Smid};
use std::marker::Model;

/// The identifier and the handle under which an open submission was posted.
#[derive(Clone, Copy)]
pub struct OpenCommand {
    smid: Smid,
    handle: Handle,
}

impl Model for OpenCommand {
    ghost use Rattle.std.specs.Prelude.{◌≤◌};
    ghost use Rattle.mpt_rules.specs.Host.Parts.{Cmd};

    ghost Value = { Cmd };

    ghost view = { λ c. record { smid = c.smid; handle = c.handle } };

    ghost invariant = { λ c. (1 ≤ c.smid) × (c.smid ≤ 256) };

    ghost inverse = { λ c. record { smid = c.smid; handle = c.handle } };
}

impl OpenCommand {
    /// Posted under an identifier of a SCSI IO for this handle.
    pub fn new(smid: Smid, handle: Handle) -> OpenCommand
        requires { (1 ≤ smid) × (smid ≤ 256) }
        ensures { result ≡ record { smid = smid; handle = handle } }
    {
        OpenCommand { smid, handle }
    }

    /// Its identifier, from 1 to 256.
    pub fn smid(&self) -> Smid
        ensures value { result ≡ self.now.smid }
        ensures range { (1 ≤ result) × (result ≤ 256) }
    {
        self.smid
    }

    /// Its handle.
    pub fn handle(&self) -> Handle
        ensures { result ≡ self.now.handle }
    {
        self.handle
    }
}
