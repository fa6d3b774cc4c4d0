//! What comes from outside.
ghost use Rattle.std.specs.Prelude.{◌≡◌};

use crate::command_form::CommandForm;
use mpi_names::Address;
use mpt_text::OutOfMemory;
use std::alloc::Global;

/// An input to the host or to the fabric.
#[derive(Drop)]
pub enum Input {
    /// The host brings the controller up.
    Start,
    /// A command is submitted to the host.
    Submit {
        /// The submission's number.
        n: u32,
        /// The disk's SAS address.
        address: Address,
        /// The command.
        form: CommandForm,
    },
    /// A submission is to be aborted.
    Abort {
        /// The submission's number.
        n: u32,
    },
    /// A disk is to be reset.
    TargetReset {
        /// The disk's SAS address.
        address: Address,
    },
    /// The host resets the controller through its diagnostic register.
    Reset,
    /// The host resets the controller's message unit.
    UnitReset,
    /// A disk is plugged into the fabric.
    Plug {
        /// The disk's SAS address.
        address: Address,
        /// The expander's number.
        expander: u8,
        /// The phy of the expander.
        phy: u8,
    },
    /// A disk is unplugged from the fabric.
    Unplug {
        /// The disk's SAS address.
        address: Address,
    },
}

impl Input {
    /// An equal value. It takes no memory, so it always answers Ok.
    pub fn copy(&self, alloc: Global) -> Result<Input, OutOfMemory>
        ensures { result ≡ Ok self.now }
    {
        Ok(match self {
            Input::Start => Input::Start,
            Input::Submit { n, address, form } => Input::Submit {
                n: *n,
                address: *address,
                form: form.copy(alloc)?,
            },
            Input::Abort { n } => Input::Abort { n: *n },
            Input::TargetReset { address } => Input::TargetReset { address: *address },
            Input::Reset => Input::Reset,
            Input::UnitReset => Input::UnitReset,
            Input::Plug {
                address,
                expander,
                phy,
            } => Input::Plug {
                address: *address,
                expander: *expander,
                phy: *phy,
            },
            Input::Unplug { address } => Input::Unplug { address: *address },
        })
    }
}
