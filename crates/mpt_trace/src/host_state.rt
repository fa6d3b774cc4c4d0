//! The states of the host.

/// How far the host has brought the controller up.
#[derive(Clone, Copy)]
pub enum HostState {
    /// It wasn't started.
    Off,
    /// It brings the controller up.
    Starting,
    /// The controller is operational.
    Up,
    /// It resets the controller.
    Resetting,
}
