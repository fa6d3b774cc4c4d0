//! Why a call of the system is refused.
use mpt_rules::OutOfMemory;
use sas_fabric::FabricFault;

/// Why no system is made, in the order in which the causes are looked for.
#[derive(Clone, Copy, Debug, PartialEq, Eq)]
pub enum SystemFault {
    /// A disk has no block, or more than 1,024.
    BadBlocks,
    /// There are more than 64 disks.
    TooManyDisks,
    /// Two disks have one SAS address.
    SameAddress,
    /// There are more than 16 expanders.
    TooManyExpanders,
    /// An expander has no phy, or more than 22.
    BadPhys,
    /// There was no memory left.
    OutOfMemory,
}

/// Why a chosen step didn't move.
#[derive(Clone, Copy, Debug, PartialEq, Eq)]
pub enum StepFault {
    /// The choice had nothing to take.
    Idle,
    /// There was no memory left.
    OutOfMemory,
}

impl From<FabricFault> for SystemFault {
    ghost use Rattle.std.specs.Prelude.{◌≡◌};
    ghost use Rattle.mpt_system.specs.Making.{fault_of};

    ghost from_gives = { λ cause e. e ≡ fault_of cause };

    fn from(cause: FabricFault) -> SystemFault {
        match cause {
            FabricFault::TooManyDisks => SystemFault::TooManyDisks,
            FabricFault::SameAddress => SystemFault::SameAddress,
            FabricFault::TooManyExpanders => SystemFault::TooManyExpanders,
            FabricFault::BadPhys => SystemFault::BadPhys,
            FabricFault::OutOfMemory => SystemFault::OutOfMemory,
        }
    }
}

impl From<OutOfMemory> for SystemFault {
    ghost use Rattle.std.specs.Prelude.{◌≡◌};
    ghost use Rattle.mpt_system.specs.declared.faults.SystemFault.TheVariants as fault;

    ghost from_gives = { λ _ e. e ≡ fault.OutOfMemory };

    fn from(_error: OutOfMemory) -> SystemFault {
        SystemFault::OutOfMemory
    }
}

impl From<OutOfMemory> for StepFault {
    ghost use Rattle.std.specs.Prelude.{◌≡◌};
    ghost use Rattle.mpt_system.specs.declared.faults.StepFault.TheVariants as fault;

    ghost from_gives = { λ _ e. e ≡ fault.OutOfMemory };

    fn from(_error: OutOfMemory) -> StepFault {
        StepFault::OutOfMemory
    }
}
