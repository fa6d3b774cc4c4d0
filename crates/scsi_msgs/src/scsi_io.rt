//! A SCSI IO request.
ghost use Rattle.std.specs.Prelude.{◌≡◌, ◌≤◌, IsTrue, IfOk, MatchResult, Ok, Some, length, drop};
ghost use Rattle.mpi_layout.specs.Rows.{cut_from, first_fault, values_fit};
ghost use Rattle.scsi_msgs.specs.ScsiIo.{ScsiIoStands, scsi_io_layout, scsi_io_values};

use mpi_layout::{Fault, Layout, Row, Rule, bytes, fits, low, number, one_of, read, write};

// mpi2_init.h, MPI2_SCSI_IO_REQUEST.
static SCSI_IO_ROWS: [Row; 38] = [
    number!(0x00, 2, "DevHandle", Rule::Any),
    number!(0x02, 1, "ChainOffset", Rule::Zero),
    number!(0x03, 1, "Function", Rule::Is(0x00)),
    number!(0x04, 2, "Reserved", Rule::Zero),
    number!(0x06, 1, "Reserved", Rule::Zero),
    number!(0x07, 1, "MsgFlags", Rule::Zero),
    number!(0x08, 1, "VP_ID", Rule::Zero),
    number!(0x09, 1, "VF_ID", Rule::Zero),
    number!(0x0a, 2, "Reserved", Rule::Zero),
    number!(0x0c, 4, "SenseBufferLowAddress", Rule::Any),
    number!(0x10, 2, "SGLFlags", Rule::Any),
    number!(0x12, 1, "SenseBufferLength", Rule::Any),
    number!(0x13, 1, "Reserved", Rule::Zero),
    number!(0x14, 1, "SGLOffset0", Rule::Is(24)),
    number!(0x15, 1, "SGLOffset1", Rule::Zero),
    number!(0x16, 1, "SGLOffset2", Rule::Zero),
    number!(0x17, 1, "SGLOffset3", Rule::Zero),
    number!(0x18, 4, "SkipCount", Rule::Zero),
    number!(0x1c, 4, "DataLength", Rule::Any),
    number!(0x20, 4, "BidirectionalDataLength", Rule::Zero),
    number!(0x24, 2, "IoFlags", Rule::Mask(0x001f)),
    number!(0x26, 2, "EEDPFlags", Rule::Zero),
    number!(0x28, 4, "EEDPBlockSize", Rule::Zero),
    number!(0x2c, 4, "SecondaryReferenceTag", Rule::Zero),
    number!(0x30, 2, "SecondaryApplicationTag", Rule::Zero),
    number!(0x32, 2, "ApplicationTagTranslationMask", Rule::Zero),
    bytes!(0x34, 8, "LUN", Rule::Any),
    number!(0x3c, 1, "ControlLow", Rule::Any),
    number!(0x3d, 1, "ControlAttribute", one_of!(0, 1, 2)),
    number!(0x3e, 1, "ControlHigh", Rule::Zero),
    number!(0x3f, 1, "ControlDirection", one_of!(0, 1, 2)),
    bytes!(0x40, 8, "CDB", Rule::Any),
    bytes!(0x48, 8, "CDB", Rule::Any),
    bytes!(0x50, 8, "CDB", Rule::Any),
    bytes!(0x58, 8, "CDB", Rule::Any),
    number!(0x60, 3, "SgeLength", Rule::Any),
    number!(0x63, 1, "SgeFlags", one_of!(0xd3, 0xd7)),
    number!(0x64, 8, "SgeAddress", Rule::Any),
];

/// A SCSI IO request (mpi2_init.h, MPI2_SCSI_IO_REQUEST): a command to a disk, with one simple
/// scatter gather element. 108 bytes.
#[derive(Clone, Copy, Debug, PartialEq, Eq)]
pub struct ScsiIo {
    /// The device handle of the disk.
    pub dev_handle: u16,
    /// Where a chain element lies, in dwords; 0 for none.
    pub chain_offset: u8,
    /// The message's function: 00, SCSI IO.
    pub function: u8,
    /// Reserved, 0.
    pub reserved_04: u16,
    /// Reserved, 0.
    pub reserved_06: u8,
    /// Flags of the message, 0.
    pub msg_flags: u8,
    /// The virtual port, 0.
    pub vp_id: u8,
    /// The virtual function, 0.
    pub vf_id: u8,
    /// Reserved, 0.
    pub reserved_0a: u16,
    /// The low 32 bits of the sense buffer's address.
    pub sense_buffer_low_address: u32,
    /// Flags of the scatter gather list. The element is read as an MPI element whatever they say.
    pub sgl_flags: u16,
    /// The sense buffer's length in bytes.
    pub sense_buffer_length: u8,
    /// Reserved, 0.
    pub reserved_13: u8,
    /// Where the first scatter gather element lies, in dwords: 24.
    pub sgl_offset0: u8,
    /// Where the second list lies; 0 for none.
    pub sgl_offset1: u8,
    /// Where the third list lies; 0 for none.
    pub sgl_offset2: u8,
    /// Where the fourth list lies; 0 for none.
    pub sgl_offset3: u8,
    /// Data bytes that are passed over, 0.
    pub skip_count: u32,
    /// The data's length in bytes.
    pub data_length: u32,
    /// The second data's length in bytes, 0.
    pub bidirectional_data_length: u32,
    /// The CDB's length in bytes in the low five bits; no other bit.
    pub io_flags: u16,
    /// Flags of end-to-end protection, 0.
    pub eedp_flags: u16,
    /// The block size of end-to-end protection, 0.
    pub eedp_block_size: u32,
    /// The secondary reference tag of end-to-end protection, 0.
    pub secondary_reference_tag: u32,
    /// The secondary application tag of end-to-end protection, 0.
    pub secondary_application_tag: u16,
    /// The application tag's mask of end-to-end protection, 0.
    pub application_tag_translation_mask: u16,
    /// The logical unit's number, 8 bytes.
    pub lun: u64,
    /// Bits 0 to 7 of Control.
    pub control_low: u8,
    /// Bits 8 to 15 of Control, the task attribute: 0 simple, 1 head of queue, 2 ordered.
    pub control_attribute: u8,
    /// Bits 16 to 23 of Control, 0.
    pub control_high: u8,
    /// Bits 24 to 31 of Control, the direction: 0 no data, 1 write, 2 read.
    pub control_direction: u8,
    /// The CDB's bytes 0 to 7.
    pub cdb_40: u64,
    /// The CDB's bytes 8 to 15.
    pub cdb_48: u64,
    /// The CDB's bytes 16 to 23.
    pub cdb_50: u64,
    /// The CDB's bytes 24 to 31.
    pub cdb_58: u64,
    /// The scatter gather element's length in bytes, 24 bits.
    pub sge_length: u32,
    /// The element's flags: d3 for data from the disk or none, d7 for data to the disk.
    pub sge_flags: u8,
    /// The address of the data's buffer.
    pub sge_address: u64,
}

impl ScsiIo {
    /// A request that has in each row 0 or the first number that the row's rule names.
    pub const BLANK: ScsiIo = ScsiIo {
        dev_handle: 0,
        chain_offset: 0,
        function: 0x00,
        reserved_04: 0,
        reserved_06: 0,
        msg_flags: 0,
        vp_id: 0,
        vf_id: 0,
        reserved_0a: 0,
        sense_buffer_low_address: 0,
        sgl_flags: 0,
        sense_buffer_length: 0,
        reserved_13: 0,
        sgl_offset0: 24,
        sgl_offset1: 0,
        sgl_offset2: 0,
        sgl_offset3: 0,
        skip_count: 0,
        data_length: 0,
        bidirectional_data_length: 0,
        io_flags: 0,
        eedp_flags: 0,
        eedp_block_size: 0,
        secondary_reference_tag: 0,
        secondary_application_tag: 0,
        application_tag_translation_mask: 0,
        lun: 0,
        control_low: 0,
        control_attribute: 0,
        control_high: 0,
        control_direction: 0,
        cdb_40: 0,
        cdb_48: 0,
        cdb_50: 0,
        cdb_58: 0,
        sge_length: 0,
        sge_flags: 0xd3,
        sge_address: 0,
    };

    /// The layout: 38 rows, 108 bytes.
    pub fn layout() -> Layout<38>
        ensures { result ≡ scsi_io_layout }
    {
        Layout::new(&SCSI_IO_ROWS, 108)
    }

    /// The fields' numbers in the layout's order.
    pub fn values(&self) -> [u64; 38]
        ensures { result ≡ scsi_io_values self.now }
    {
        [
            u64::from(self.dev_handle),
            u64::from(self.chain_offset),
            u64::from(self.function),
            u64::from(self.reserved_04),
            u64::from(self.reserved_06),
            u64::from(self.msg_flags),
            u64::from(self.vp_id),
            u64::from(self.vf_id),
            u64::from(self.reserved_0a),
            u64::from(self.sense_buffer_low_address),
            u64::from(self.sgl_flags),
            u64::from(self.sense_buffer_length),
            u64::from(self.reserved_13),
            u64::from(self.sgl_offset0),
            u64::from(self.sgl_offset1),
            u64::from(self.sgl_offset2),
            u64::from(self.sgl_offset3),
            u64::from(self.skip_count),
            u64::from(self.data_length),
            u64::from(self.bidirectional_data_length),
            u64::from(self.io_flags),
            u64::from(self.eedp_flags),
            u64::from(self.eedp_block_size),
            u64::from(self.secondary_reference_tag),
            u64::from(self.secondary_application_tag),
            u64::from(self.application_tag_translation_mask),
            self.lun,
            u64::from(self.control_low),
            u64::from(self.control_attribute),
            u64::from(self.control_high),
            u64::from(self.control_direction),
            self.cdb_40,
            self.cdb_48,
            self.cdb_50,
            self.cdb_58,
            u64::from(self.sge_length),
            u64::from(self.sge_flags),
            self.sge_address,
        ]
    }

    // The message whose fields are the low bytes of these numbers.
    fn from_values(values: &[u64; 38]) -> ScsiIo
        ensures { scsi_io_values result ≡ cut_from scsi_io_layout.rows values.now 0 }
    {
        ScsiIo {
            dev_handle: low!(values[0], 2),
            chain_offset: low!(values[1], 1),
            function: low!(values[2], 1),
            reserved_04: low!(values[3], 2),
            reserved_06: low!(values[4], 1),
            msg_flags: low!(values[5], 1),
            vp_id: low!(values[6], 1),
            vf_id: low!(values[7], 1),
            reserved_0a: low!(values[8], 2),
            sense_buffer_low_address: low!(values[9], 4),
            sgl_flags: low!(values[10], 2),
            sense_buffer_length: low!(values[11], 1),
            reserved_13: low!(values[12], 1),
            sgl_offset0: low!(values[13], 1),
            sgl_offset1: low!(values[14], 1),
            sgl_offset2: low!(values[15], 1),
            sgl_offset3: low!(values[16], 1),
            skip_count: low!(values[17], 4),
            data_length: low!(values[18], 4),
            bidirectional_data_length: low!(values[19], 4),
            io_flags: low!(values[20], 2),
            eedp_flags: low!(values[21], 2),
            eedp_block_size: low!(values[22], 4),
            secondary_reference_tag: low!(values[23], 4),
            secondary_application_tag: low!(values[24], 2),
            application_tag_translation_mask: low!(values[25], 2),
            lun: low!(values[26], 8),
            control_low: low!(values[27], 1),
            control_attribute: low!(values[28], 1),
            control_high: low!(values[29], 1),
            control_direction: low!(values[30], 1),
            cdb_40: low!(values[31], 8),
            cdb_48: low!(values[32], 8),
            cdb_50: low!(values[33], 8),
            cdb_58: low!(values[34], 8),
            sge_length: low!(values[35], 3),
            sge_flags: low!(values[36], 1),
            sge_address: low!(values[37], 8),
        }
    }
}

/// Reads the message from the front of the bytes: the message that they stand for, or their first
/// fault. Bytes past the message play no part.
///
/// # Errors
/// `Short` exactly where there are fewer than 108 bytes; else `Field` with the least offset whose
/// row breaks its rule.
pub fn decode_scsi_io(bytes: &[u8]) -> Result<ScsiIo, Fault>
    ensures read { MatchResult result (λ m. ScsiIoStands m bytes.now)
        (λ fault. first_fault scsi_io_layout bytes.now ≡ Some fault) }
    ensures only { (m : ScsiIo) → ScsiIoStands m bytes.now → result ≡ Ok m }
    ensures fitting { IfOk result (λ m. IsTrue (values_fit scsi_io_layout.rows (scsi_io_values m))) }
{
    let values = read(&ScsiIo::layout(), bytes)?;
    Ok(ScsiIo::from_values(&values))
}

/// Whether each field fits its row's width and rule, so that some bytes stand for the message.
pub fn scsi_io_fits(m: &ScsiIo) -> bool
    ensures { result ≡ values_fit scsi_io_layout.rows (scsi_io_values m.now) }
{
    fits(&ScsiIo::layout(), &m.values())
}

/// Writes the message's 108 bytes, from which it is read back, and gives their number. The bytes
/// past them stay.
pub fn encode_scsi_io(m: &ScsiIo, out: &mut [u8]) -> usize
    requires fitting { IsTrue (values_fit scsi_io_layout.rows (scsi_io_values m.now)) }
    requires room { 108 ≤ length out.old }
    ensures long { result ≡ 108 }
    ensures stands { ScsiIoStands m.now out.new }
    ensures rest { drop 108 out.new ≡ drop 108 out.old }
{
    write(&ScsiIo::layout(), &m.values(), out);
    108
}
