//! The adapter's states.
ghost use Rattle.std.specs.Prelude.{◌≡◌};
ghost use Rattle.mpi_doorbell.specs.State.{state_bits};

use crate::registers::{IOC_STATE_FAULT, IOC_STATE_OPERATIONAL, IOC_STATE_READY, IOC_STATE_RESET};

/// The state of an adapter, as bits 31 to 28 of the Doorbell say it (mpi2.h, MPI2_IOC_STATE_MASK).
#[derive(Clone, Copy, Debug, PartialEq, Eq)]
pub enum IocState {
    /// A reset is under way.
    Reset,
    /// The adapter waits for IOC Init.
    Ready,
    /// The adapter takes requests.
    Operational,
    /// The adapter stopped, for the reason that this code stands for.
    Fault(u16),
}

impl IocState {
    /// The state where the Doorbell has it.
    pub(crate) fn bits(self) -> u32
        ensures { result ≡ state_bits self }
    {
        match self {
            IocState::Reset => IOC_STATE_RESET,
            IocState::Ready => IOC_STATE_READY,
            IocState::Operational => IOC_STATE_OPERATIONAL,
            IocState::Fault(_) => IOC_STATE_FAULT,
        }
    }
}
