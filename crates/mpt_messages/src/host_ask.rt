//! The requests that the host writes.
ghost use Rattle.std.specs.Prelude.{◌≡◌, ◌+◌, ◌-◌, ◌≤◌, IsTrue, length, drop, replicate};
ghost use Rattle.mpi_layout.specs.Rows.{field, values_fit};
ghost use Rattle.scsi_msgs.specs.ScsiIo.{scsi_io_layout, scsi_io_values};
ghost use Rattle.scsi_msgs.specs.TaskAsk.{task_ask_layout, task_ask_values};
ghost use Rattle.ioc_msgs.specs.IocInit.{ioc_init_layout, ioc_init_values};
ghost use Rattle.ioc_msgs.specs.UnitControl.{unit_control_layout, unit_control_values};
ghost use Rattle.config_pages.specs.ConfigAsk.{config_ask_layout, config_ask_values};
ghost use Rattle.event_msgs.specs.EventAck.{event_ack_layout, event_ack_values};
ghost use Rattle.mpt_messages.specs.FrameBytes.{message_frame};
ghost use Rattle.mpt_messages.specs.HostFrames.{IsAsk, IsTask, ack_asked, data_address, direction, element_address, host_message, init_asked, notification_asked, page_asked, removal_asked, scsi_io_asked, task_asked};
ghost use Rattle.mpt_messages.specs.Message.{MessageStands, message_fit, message_length};

use crate::frame::write_frame;
use crate::message::Message;
use byteorder::{ByteOrder, LittleEndian};
use config_pages::{ConfigAsk, PageForm, page_address};
use event_msgs::{EventAck, EventAsk};
use ioc_msgs::{IocFacts, IocInit, PortEnable, PortFacts, UnitControl};
use mpi_names::{
    DATA_BUFFER_BYTES, DATA_BUFFERS, FRAME_DWORDS, FREE_RING_ENTRIES, Handle,
    MPI2_CONFIG_ACTION_PAGE_READ_CURRENT, MPI2_CONFIG_EXTPAGETYPE_SAS_DEVICE,
    MPI2_CONFIG_PAGETYPE_EXTENDED, MPI2_SAS_OP_REMOVE_DEVICE, MPI2_SASDEVICE0_PAGEVERSION,
    MPI2_WHOINIT_HOST_DRIVER, POST_RING_ENTRIES, REPLY_FREE_QUEUE, REPLY_POST_QUEUE,
    REQUEST_FRAMES, SAS_DEVICE_PAGE_0_BYTES, SAS_DEVICE_PAGE_0_DWORDS, SENSE_BUFFER_BYTES,
    SENSE_BUFFERS, Smid,
};
use scsi_msgs::{ScsiIo, TaskAsk};

// The flags of a simple element of 64-bit address that ends list and buffer, for data to the host.
const TO_HOST: u8 = 0xd3;

// The same for data to the controller.
const TO_CONTROLLER: u8 = 0xd7;

/// What the host asks of the controller.
#[derive(Clone, Copy, Debug, PartialEq, Eq)]
pub enum HostAsk {
    /// A SCSI IO (mpi2_init.h, MPI2_SCSI_IO_REQUEST).
    ScsiIo {
        /// The identifier, from 1 to 256. It chooses the data and sense buffers.
        smid: Smid,
        /// The device handle of the disk.
        handle: Handle,
        /// The number of the LUN's 8 bytes.
        lun: u64,
        /// The CDB, with zeros from its length on.
        cdb: [u8; 16],
        /// The CDB's length in bytes, from 1 to 16.
        cdb_len: u8,
        /// The data's length in bytes, at most 4,096.
        len: u32,
        /// Whether the data go to the disk; false where there are none.
        write: bool,
    },
    /// Task management (mpi2_init.h, MPI2_SCSI_TASK_MANAGE_REQUEST).
    Task {
        /// The device handle of the disk.
        handle: Handle,
        /// The task type: 1 to abort a task, 3 to reset the target.
        task_type: u8,
        /// The identifier of the task to abort, from 1 to 256; 0 for a target reset.
        task_mid: Smid,
    },
    /// A read of SAS Device Page 0 of a handle (mpi2_cnfg.h, MPI2_CONFIG_REQUEST).
    PageRead {
        /// The identifier, from 265 to 280. It chooses the data buffer.
        smid: Smid,
        /// The device handle.
        handle: Handle,
    },
    /// The removal of a device (mpi2_sas.h, MPI2_SAS_IOUNIT_CONTROL_REQUEST, operation
    /// MPI2_SAS_OP_REMOVE_DEVICE).
    Remove {
        /// The device handle.
        handle: Handle,
    },
    /// The acknowledgement of an event (mpi2_ioc.h, MPI2_EVENT_ACK_REQUEST).
    Ack {
        /// The event's Event.
        event: u16,
        /// The event's EventContext.
        context: u32,
    },
    /// The wish to hear of topology changes (mpi2_ioc.h, MPI2_EVENT_NOTIFICATION_REQUEST).
    Notification,
    /// Port Enable (mpi2_ioc.h, MPI2_PORT_ENABLE_REQUEST).
    PortEnable,
    /// IOC Facts (mpi2_ioc.h, MPI2_IOC_FACTS_REQUEST).
    Facts,
    /// Port Facts of port 0 (mpi2_ioc.h, MPI2_PORT_FACTS_REQUEST).
    PortFacts,
    /// IOC Init (mpi2_ioc.h, MPI2_IOC_INIT_REQUEST).
    Init {
        /// The number of reply post queues, from 1 to 8.
        queues: u8,
    },
}

/// Writes the whole frame of 128 bytes: the request with the values that the host gives its fields,
/// and zeros past it. Gives the request's length in bytes.
pub fn host_frame(ask: &HostAsk, out: &mut [u8; 128]) -> usize
    requires { IsAsk ask.now }
    ensures long { result ≡ message_length (host_message ask.now) }
    ensures stands { MessageStands (host_message ask.now) out.new }
    ensures rest { drop (message_length (host_message ask.now)) out.new
        ≡ replicate (128 - message_length (host_message ask.now)) 0 }
    ensures whole { out.new ≡ message_frame (host_message ask.now) }
{
    write_frame(&message_of(ask), out)
}

// The request's message.
fn message_of(ask: &HostAsk) -> Message
    requires { IsAsk ask.now }
    ensures said { result ≡ host_message ask.now }
    ensures fitting { IsTrue (message_fit result) }
{
    match *ask {
        HostAsk::ScsiIo {
            smid,
            handle,
            lun,
            cdb,
            cdb_len,
            len,
            write,
        } => Message::ScsiIo(scsi_io(smid, handle, lun, &cdb, cdb_len, len, write)),
        HostAsk::Task {
            handle,
            task_type,
            task_mid,
        } => Message::TaskAsk(task(handle, task_type, task_mid)),
        HostAsk::PageRead { smid, handle } => Message::ConfigAsk(page_read(smid, handle)),
        HostAsk::Remove { handle } => Message::UnitControl(remove(handle)),
        HostAsk::Ack { event, context } => Message::EventAck(ack(event, context)),
        HostAsk::Notification => Message::EventAsk(notification()),
        HostAsk::PortEnable => Message::PortEnable(PortEnable::BLANK),
        HostAsk::Facts => Message::IocFacts(IocFacts::BLANK),
        HostAsk::PortFacts => Message::PortFacts(PortFacts::BLANK),
        HostAsk::Init { queues } => Message::IocInit(init(queues)),
    }
}

// The address of an identifier's data buffer.
fn data_address(smid: Smid) -> u64
    ensures { result ≡ data_address smid }
{
    DATA_BUFFERS + DATA_BUFFER_BYTES * u64::from(smid)
}

// ControlDirection: 0 no data, 1 write, 2 read.
fn direction(len: u32, write: bool) -> u8
    ensures { result ≡ direction len write }
{
    match (len, write) {
        (0, _) => 0,
        (_, true) => 1,
        (_, false) => 2,
    }
}

// Where a SCSI IO's element points: at the data buffer, or nowhere, all ones, where there are no data.
fn element_address(smid: Smid, len: u32) -> u64
    ensures { result ≡ element_address smid len }
{
    if len == 0 {
        u64::MAX
    } else {
        data_address(smid)
    }
}

// The little-endian number of the CDB's 8 bytes from a place on.
fn number_at(cdb: &[u8], at: usize) -> u64
    requires { at + 8 ≤ length cdb.now }
    ensures { result ≡ field cdb.now at 8 }
{
    LittleEndian::read_u64(&cdb[at..])
}

// A SCSI IO.
fn scsi_io(
    smid: Smid,
    handle: Handle,
    lun: u64,
    cdb: &[u8; 16],
    cdb_len: u8,
    len: u32,
    write: bool,
) -> ScsiIo
    requires identifier { smid ≤ 256 }
    requires command { cdb_len ≤ 16 }
    requires short { len ≤ 4096 }
    ensures said { result ≡ scsi_io_asked smid handle lun cdb.now cdb_len len write }
    ensures fitting { IsTrue (values_fit scsi_io_layout.rows (scsi_io_values result)) }
{
    ScsiIo {
        dev_handle: handle,
        sense_buffer_low_address: SENSE_BUFFERS + SENSE_BUFFER_BYTES * u32::from(smid),
        sense_buffer_length: SENSE_BUFFER_BYTES as u8,
        data_length: len,
        io_flags: u16::from(cdb_len),
        lun,
        control_direction: direction(len, write),
        cdb_40: number_at(cdb, 0),
        cdb_48: number_at(cdb, 8),
        sge_length: len,
        sge_flags: if write { TO_CONTROLLER } else { TO_HOST },
        sge_address: element_address(smid, len),
        ..ScsiIo::BLANK
    }
}

// Task management.
fn task(handle: Handle, task_type: u8, task_mid: Smid) -> TaskAsk
    requires { IsTask task_type task_mid }
    ensures said { result ≡ task_asked handle task_type task_mid }
    ensures fitting { IsTrue (values_fit task_ask_layout.rows (task_ask_values result)) }
{
    TaskAsk {
        dev_handle: handle,
        task_type,
        task_mid,
        ..TaskAsk::BLANK
    }
}

// A read of SAS Device Page 0 by its handle.
fn page_read(smid: Smid, handle: Handle) -> ConfigAsk
    requires { smid ≤ 280 }
    ensures said { result ≡ page_asked smid handle }
    ensures fitting { IsTrue (values_fit config_ask_layout.rows (config_ask_values result)) }
{
    ConfigAsk {
        action: MPI2_CONFIG_ACTION_PAGE_READ_CURRENT,
        ext_page_length: SAS_DEVICE_PAGE_0_DWORDS,
        ext_page_type: MPI2_CONFIG_EXTPAGETYPE_SAS_DEVICE,
        page_version: MPI2_SASDEVICE0_PAGEVERSION,
        page_type: MPI2_CONFIG_PAGETYPE_EXTENDED,
        page_address: page_address(PageForm::ByHandle, handle),
        sge_length: SAS_DEVICE_PAGE_0_BYTES,
        sge_flags: TO_HOST,
        sge_address: data_address(smid),
        ..ConfigAsk::BLANK
    }
}

// The removal of a device: operation MPI2_SAS_OP_REMOVE_DEVICE.
fn remove(handle: Handle) -> UnitControl
    ensures said { result ≡ removal_asked handle }
    ensures fitting { IsTrue (values_fit unit_control_layout.rows (unit_control_values result)) }
{
    UnitControl {
        operation: MPI2_SAS_OP_REMOVE_DEVICE,
        dev_handle: handle,
        ..UnitControl::BLANK
    }
}

// The acknowledgement of an event.
fn ack(event: u16, context: u32) -> EventAck
    ensures said { result ≡ ack_asked event context }
    ensures fitting { IsTrue (values_fit event_ack_layout.rows (event_ack_values result)) }
{
    EventAck {
        event,
        event_context: context,
        ..EventAck::BLANK
    }
}

// The wish to hear of topology changes alone: a set bit holds an event back.
fn notification() -> EventAsk
    ensures { result ≡ notification_asked }
{
    EventAsk {
        event_masks0: 0xefff_ffff,
        event_masks1: 0xffff_ffff,
        event_masks2: 0xffff_ffff,
        event_masks3: 0xffff_ffff,
        ..EventAsk::BLANK
    }
}

// IOC Init with so many reply post queues.
fn init(queues: u8) -> IocInit
    requires { queues ≤ 8 }
    ensures said { result ≡ init_asked queues }
    ensures fitting { IsTrue (values_fit ioc_init_layout.rows (ioc_init_values result)) }
{
    IocInit {
        who_init: MPI2_WHOINIT_HOST_DRIVER,
        host_msix_vectors: queues,
        system_request_frame_size: FRAME_DWORDS,
        reply_descriptor_post_queue_depth: POST_RING_ENTRIES as u16,
        reply_free_queue_depth: FREE_RING_ENTRIES as u16,
        system_request_frame_base_address: REQUEST_FRAMES,
        reply_descriptor_post_queue_address: REPLY_POST_QUEUE,
        reply_free_queue_address: REPLY_FREE_QUEUE,
        ..IocInit::BLANK
    }
}
