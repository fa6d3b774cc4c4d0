//! What the parts say of themselves at the end of a report.

/// What a summary says that only the parts know.
#[derive(Clone, Copy)]
pub struct PartsSummary {
    /// How many handles the host is reading the page of.
    pub reading: u8,
    /// How many handles wait, in the three waiting phases together.
    pub waiting: u8,
    /// How many handles the host is resetting.
    pub resetting: u8,
    /// How many handles the host is removing.
    pub removing: u8,
    /// Whether nothing is on its way.
    pub quiet: bool,
}
