//! The registers of the doorbell and the bits in them, by their names in mpi2.h.

/// Doorbell: the adapter's state and the word that it hands over; written, a function or a dword
/// (mpi2.h, MPI2_DOORBELL_OFFSET).
pub const DOORBELL: u16 = 0x00;

/// WriteSequence: takes the keys that unlock HostDiagnostic (mpi2.h, MPI2_WRITE_SEQUENCE_OFFSET).
pub const WRITE_SEQUENCE: u16 = 0x04;

/// HostDiagnostic: begins and holds an adapter reset (mpi2.h, MPI2_HOST_DIAGNOSTIC_OFFSET).
pub const HOST_DIAGNOSTIC: u16 = 0x08;

/// HostInterruptStatus (mpi2.h, MPI2_HOST_INTERRUPT_STATUS_OFFSET).
pub const HOST_INTERRUPT_STATUS: u16 = 0x30;

/// HostInterruptMask (mpi2.h, MPI2_HOST_INTERRUPT_MASK_OFFSET).
pub const HOST_INTERRUPT_MASK: u16 = 0x34;

/// ReplyPostHostIndex (mpi2.h, MPI2_REPLY_POST_HOST_INDEX_OFFSET).
pub const REPLY_POST_HOST_INDEX: u16 = 0x6C;

/// Doorbell: the four bits of the state (mpi2.h, MPI2_IOC_STATE_MASK).
pub const IOC_STATE_MASK: u32 = 0xF000_0000;

/// Doorbell: the state RESET (mpi2.h, MPI2_IOC_STATE_RESET).
pub const IOC_STATE_RESET: u32 = 0x0000_0000;

/// Doorbell: the state READY (mpi2.h, MPI2_IOC_STATE_READY).
pub const IOC_STATE_READY: u32 = 0x1000_0000;

/// Doorbell: the state OPERATIONAL (mpi2.h, MPI2_IOC_STATE_OPERATIONAL).
pub const IOC_STATE_OPERATIONAL: u32 = 0x2000_0000;

/// Doorbell: the state FAULT (mpi2.h, MPI2_IOC_STATE_FAULT).
pub const IOC_STATE_FAULT: u32 = 0x4000_0000;

/// Doorbell: a handshake is under way (mpi2.h, MPI2_DOORBELL_USED).
pub const DOORBELL_USED: u32 = 0x0800_0000;

/// Doorbell: by how many bits WhoInit is shifted (mpi2.h, MPI2_DOORBELL_WHO_INIT_SHIFT).
pub const DOORBELL_WHO_INIT_SHIFT: u32 = 24;

/// Doorbell: the word or the fault code (mpi2.h, MPI2_DOORBELL_DATA_MASK).
pub const DOORBELL_DATA_MASK: u32 = 0x0000_FFFF;

/// Doorbell, written: by how many bits the function is shifted (mpi2.h,
/// MPI2_DOORBELL_FUNCTION_SHIFT).
pub const DOORBELL_FUNCTION_SHIFT: u32 = 24;

/// Doorbell, written: by how many bits the count of dwords is shifted (mpi2.h,
/// MPI2_DOORBELL_ADD_DWORDS_SHIFT).
pub const DOORBELL_ADD_DWORDS_SHIFT: u32 = 16;

/// The doorbell's function that resets the message unit (mpi2.h,
/// MPI2_FUNCTION_IOC_MESSAGE_UNIT_RESET).
pub const FUNCTION_MESSAGE_UNIT_RESET: u8 = 0x40;

/// The doorbell's function that begins a handshake (mpi2.h, MPI2_FUNCTION_HANDSHAKE).
pub const FUNCTION_HANDSHAKE: u8 = 0x42;

/// The function of IOC Init, byte 03 of a message (mpi2.h, MPI2_FUNCTION_IOC_INIT).
pub const FUNCTION_IOC_INIT: u8 = 0x02;

/// WriteSequence: the bits of a key (mpi2.h, MPI2_WRSEQ_KEY_VALUE_MASK).
pub const WRITE_SEQUENCE_KEY_MASK: u32 = 0x0000_000F;

/// HostDiagnostic: writes are taken (mpi2.h, MPI2_DIAG_DIAG_WRITE_ENABLE).
pub const DIAG_WRITE_ENABLE: u32 = 0x80;

/// HostDiagnostic: an adapter reset has been (mpi2.h, MPI2_DIAG_RESET_HISTORY).
pub const DIAG_RESET_HISTORY: u32 = 0x20;

/// HostDiagnostic: an adapter reset is under way; written, it begins one (mpi2.h,
/// MPI2_DIAG_RESET_ADAPTER).
pub const DIAG_RESET_ADAPTER: u32 = 0x04;

/// HostDiagnostic: the adapter stays in the state RESET (mpi2.h, MPI2_DIAG_HOLD_IOC_RESET).
pub const DIAG_HOLD_IOC_RESET: u32 = 0x02;

/// HostInterruptStatus: the adapter hasn't taken the last dword yet (mpi2.h,
/// MPI2_HIS_SYS2IOC_DB_STATUS).
pub const SYS2IOC_DB_STATUS: u32 = 0x8000_0000;

/// HostInterruptStatus: the adapter has news in the Doorbell (mpi2.h, MPI2_HIS_IOC2SYS_DB_STATUS).
pub const IOC2SYS_DB_STATUS: u32 = 0x0000_0001;

/// How many dwords a message or a reply of a handshake has at most.
pub const HANDSHAKE_DWORDS: u8 = 32;
