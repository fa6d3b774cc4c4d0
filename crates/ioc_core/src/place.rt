//! Where an identifier is.

/// Where an identifier is at the controller.
#[derive(Clone, Copy, Debug, PartialEq, Eq)]
pub enum IocPlace {
    /// Its post is in the high queue.
    HighQueue,
    /// Its post is in the normal queue.
    NormalQueue,
    /// Its request is at the fabric, or waits for what is there.
    Fabric,
    /// Its answer waits for a reply queue.
    UpOut,
}
