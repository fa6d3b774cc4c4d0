//! What the parties of a session pass between their moves.
use mpt_trace::Party;

/// What each party of a session calls as its work begins, and before each pump. It says and changes nothing of the
/// session: a test can order two parties by it.
pub trait Gate {
    /// The party's work begins.
    fn enter(&self, party: Party);

    /// The party is about to make moves.
    fn turn(&self, party: Party);
}

/// A gate that lets every party pass at once.
#[derive(Clone, Copy, Debug, Drop)]
pub struct OpenGate;

impl Gate for OpenGate {
    fn enter(&self, _party: Party) {}

    fn turn(&self, _party: Party) {}
}
