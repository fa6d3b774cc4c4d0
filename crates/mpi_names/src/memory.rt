//! The host's memory, as it tells the controller in IOC Init (mpi2_ioc.h, MPI2_IOC_INIT_REQUEST): the
//! rings, the frames and each identifier's buffers. The sizes and addresses are this profile's.

/// How many entries a reply descriptor post queue has (ReplyDescriptorPostQueueDepth).
pub const POST_RING_ENTRIES: usize = 352;

/// How many entries the reply free queue has (ReplyFreeQueueDepth).
pub const FREE_RING_ENTRIES: usize = 80;

/// The bytes of a request or reply frame.
pub const FRAME_BYTES: usize = 128;

/// The same in words of 4 bytes (SystemRequestFrameSize; mpi2_ioc.h, MPI2_IOC_FACTS_REPLY,
/// IOCRequestFrameSize and ReplyFrameSize).
pub const FRAME_DWORDS: u16 = 32;

/// How many reply frames there are.
pub const REPLY_FRAMES: usize = 64;

/// The low half of the address of reply frame 0. The others follow it.
pub const REPLY_FRAMES_ADDRESS: u32 = 0x0001_0000;

/// The address of the request frame of identifier 0 (SystemRequestFrameBaseAddress). The others
/// follow it.
pub const REQUEST_FRAMES: u64 = 0x0000_0001_0000_0000;

/// The address of the data buffer of identifier 0. The others follow it.
pub const DATA_BUFFERS: u64 = 0x0000_0002_0000_0000;

/// The bytes of an identifier's data buffer.
pub const DATA_BUFFER_BYTES: u64 = 4096;

/// The low half of the address of the sense buffer of identifier 0. The others follow it.
pub const SENSE_BUFFERS: u32 = 0x0010_0000;

/// The bytes of an identifier's sense buffer.
pub const SENSE_BUFFER_BYTES: u32 = 96;

/// The address of the first reply descriptor post queue (ReplyDescriptorPostQueueAddress).
pub const REPLY_POST_QUEUE: u64 = 0x0000_0003_0000_0000;

/// The address of the reply free queue (ReplyFreeQueueAddress).
pub const REPLY_FREE_QUEUE: u64 = 0x0000_0004_0000_0000;
