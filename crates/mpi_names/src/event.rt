//! Events (mpi2_ioc.h).

/// The Event of a SAS topology change list.
pub const MPI2_EVENT_SAS_TOPOLOGY_CHANGE_LIST: u16 = 0x001c;

/// AckRequired: the host has to acknowledge the event.
pub const MPI2_EVENT_NOTIFICATION_ACK_REQUIRED: u8 = 0x01;

/// The bits of PhyStatus that say what changed.
pub const MPI2_EVENT_SAS_TOPO_RC_MASK: u8 = 0x0f;

/// PhyStatus: a device was added at the phy.
pub const MPI2_EVENT_SAS_TOPO_RC_TARG_ADDED: u8 = 0x01;

/// PhyStatus: the phy's device no longer responds.
pub const MPI2_EVENT_SAS_TOPO_RC_TARG_NOT_RESPONDING: u8 = 0x02;

/// ExpStatus: the expander responds.
pub const MPI2_EVENT_SAS_TOPO_ES_RESPONDING: u8 = 0x03;
