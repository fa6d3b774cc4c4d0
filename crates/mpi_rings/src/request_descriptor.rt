//! Request descriptors.
ghost use Rattle.std.specs.Prelude.{◌≡◌, IsTrue, MatchResult, Ok, Some};
ghost use Rattle.mpi_layout.specs.Rows.{cut_from, first_fault, obeys, values_fit};
ghost use Rattle.mpi_rings.specs.RequestDescriptor.{RequestStands, flags_of, request_flags, request_layout, request_values};

use crate::descriptor::bytes_of;
use mpi_layout::{Fault, Layout, Row, Rule, low, number, one_of, read};
use mpi_names::{
    MPI2_REQ_DESCRIPT_FLAGS_DEFAULT_TYPE, MPI2_REQ_DESCRIPT_FLAGS_HIGH_PRIORITY,
    MPI2_REQ_DESCRIPT_FLAGS_SCSI_IO,
};

// mpi2.h, MPI2_SCSI_IO_REQUEST_DESCRIPTOR, MPI2_HIGH_PRIORITY_REQUEST_DESCRIPTOR and
// MPI2_DEFAULT_REQUEST_DESCRIPTOR.
static REQUEST_ROWS: [Row; 5] = [
    number!(0x00, 1, "RequestFlags", one_of!(0x00, 0x06, 0x08)),
    number!(0x01, 1, "MSIxIndex", Rule::Any),
    number!(0x02, 2, "SMID", Rule::Any),
    number!(0x04, 2, "LMID", Rule::Any),
    number!(0x06, 2, "DevHandle", Rule::Any),
];

/// What a request descriptor posts (mpi2.h, MPI2_REQ_DESCRIPT_FLAGS_*).
#[derive(Clone, Copy, Debug, PartialEq, Eq)]
pub enum PostKind {
    /// A SCSI IO request: RequestFlags 00.
    ScsiIo,
    /// A task management request, before all others: RequestFlags 06.
    HighPriority,
    /// Any other request: RequestFlags 08.
    Default,
}

impl PostKind {
    // Its RequestFlags.
    fn flags(self) -> u8
        ensures { result ≡ flags_of self }
    {
        match self {
            PostKind::ScsiIo => MPI2_REQ_DESCRIPT_FLAGS_SCSI_IO,
            PostKind::HighPriority => MPI2_REQ_DESCRIPT_FLAGS_HIGH_PRIORITY,
            PostKind::Default => MPI2_REQ_DESCRIPT_FLAGS_DEFAULT_TYPE,
        }
    }

    // The kind with these RequestFlags.
    fn from_flags(flags: u8) -> PostKind
        requires { IsTrue (obeys request_flags flags) }
        ensures { flags_of result ≡ flags }
    {
        match flags {
            MPI2_REQ_DESCRIPT_FLAGS_SCSI_IO => PostKind::ScsiIo,
            MPI2_REQ_DESCRIPT_FLAGS_HIGH_PRIORITY => PostKind::HighPriority,
            _ => PostKind::Default,
        }
    }
}

/// A request descriptor, by which the host posts a request (mpi2.h,
/// MPI2_SCSI_IO_REQUEST_DESCRIPTOR and its like). 8 bytes.
#[derive(Clone, Copy, Debug, PartialEq, Eq)]
pub struct RequestDescriptor {
    /// What is posted.
    pub kind: PostKind,
    /// The interrupt vector that the reply is to use, MSIxIndex.
    pub msix: u8,
    /// The request's identifier, SMID.
    pub smid: u16,
    /// The local message's identifier, LMID; the hosts of this profile write 0.
    pub lmid: u16,
    /// The device handle of a SCSI IO request, DevHandle. Reserved in the others.
    pub handle: u16,
}

impl RequestDescriptor {
    /// The layout: 5 rows, 8 bytes.
    pub fn layout() -> Layout<5>
        ensures { result ≡ request_layout }
    {
        Layout::new(&REQUEST_ROWS, 8)
    }

    /// The fields' numbers in the layout's order. Every descriptor's fit their rows.
    pub fn values(&self) -> [u64; 5]
        ensures values { result ≡ request_values self.now }
        ensures fitting { IsTrue (values_fit request_layout.rows result) }
    {
        [
            u64::from(self.kind.flags()),
            u64::from(self.msix),
            u64::from(self.smid),
            u64::from(self.lmid),
            u64::from(self.handle),
        ]
    }

    // The descriptor whose fields are the low bytes of these numbers.
    fn from_values(values: &[u64; 5]) -> RequestDescriptor
        requires { IsTrue (values_fit request_layout.rows values.now) }
        ensures { request_values result ≡ cut_from request_layout.rows values.now 0 }
    {
        RequestDescriptor {
            kind: PostKind::from_flags(low!(values[0], 1)),
            msix: low!(values[1], 1),
            smid: low!(values[2], 2),
            lmid: low!(values[3], 2),
            handle: low!(values[4], 2),
        }
    }
}

/// Reads a request descriptor from the front of the bytes: the one that they stand for, or their
/// first fault. Bytes past the 8 play no part.
///
/// # Errors
/// `Short` exactly where there are fewer than 8 bytes; else `Field` at 0 exactly where RequestFlags
/// is none of 00, 06 and 08.
pub fn read_post(bytes: &[u8]) -> Result<RequestDescriptor, Fault>
    ensures read { MatchResult result (λ d. RequestStands d bytes.now)
        (λ fault. first_fault request_layout bytes.now ≡ Some fault) }
    ensures only { (d : RequestDescriptor) → RequestStands d bytes.now → result ≡ Ok d }
{
    let values = read(&RequestDescriptor::layout(), bytes)?;
    Ok(RequestDescriptor::from_values(&values))
}

/// The descriptor's 8 bytes, from which `read_post` reads it back.
pub fn write_post(d: &RequestDescriptor) -> [u8; 8]
    ensures { RequestStands d.now result }
{
    bytes_of(&RequestDescriptor::layout(), &d.values())
}
