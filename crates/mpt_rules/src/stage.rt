//! What the host uses the doorbell for.

/// What the host is doing at the doorbell. A reset that was asked while a read was out begins as its value comes:
/// until then there is no machine.
#[derive(Clone, Copy)]
pub enum Stage {
    /// Nothing.
    Idle,
    /// It looks at the state of the controller, to start it.
    Start,
    /// It resets a controller that it found in another state than READY, to start it.
    StartReset,
    /// The handshake of IOC Facts.
    Facts,
    /// The handshake of Port Facts.
    PortFacts,
    /// The handshake of IOC Init.
    Init,
    /// It reads the Doorbell once.
    Look,
    /// A diagnostic reset that was asked.
    DiagnosticReset,
    /// A message unit reset that was asked.
    UnitReset,
}
