//! The replies that the controller writes.
ghost use Rattle.std.specs.Prelude.{◌≡◌, ◌-◌, ◌<◌, ◌≤◌, ◌++◌, IsTrue, drop, length, replicate};
ghost use Rattle.mpi_layout.specs.Rows.{values_fit};
ghost use Rattle.scsi_msgs.specs.ScsiReply.{scsi_reply_fit};
ghost use Rattle.scsi_msgs.specs.TaskReply.{task_reply_layout, task_reply_values};
ghost use Rattle.ioc_msgs.specs.IocFactsReply.{ioc_facts_reply_layout, ioc_facts_reply_values};
ghost use Rattle.ioc_msgs.specs.PortFactsReply.{port_facts_reply_layout, port_facts_reply_values};
ghost use Rattle.ioc_msgs.specs.UnitControlReply.{unit_control_reply_layout, unit_control_reply_values};
ghost use Rattle.config_pages.specs.ConfigReply.{config_reply_layout, config_reply_values};
ghost use Rattle.event_msgs.specs.EventReply.{event_reply_fit};
ghost use Rattle.mpt_messages.specs.IocFrames.{IsAnswer, ReplyStands, config_answered, facts_answered, notified, plain_reply, port_answered, removal_answered, reply_frame, reply_length, scsi_answered, task_answered, topology_told};

use crate::device_pages::expander_handle;
use crate::frame::write_frame;
use crate::message::Message;
use byteorder::{ByteOrder, LittleEndian};
use config_pages::ConfigReply;
use event_msgs::{EventData, EventReply, Topology, TopologyEntry};
use ioc_msgs::{IocFactsReply, PortFactsReply, UnitControlReply};
use mpi_names::{
    DISK_HANDLES, EXPANDERS, FIRST_DISK_HANDLE, FRAME_DWORDS, HIGH_PRIORITY_SMIDS, Handle,
    LAST_EXPANDER_HANDLE, MPI2_CONFIG_ACTION_PAGE_READ_CURRENT, MPI2_CONFIG_PAGETYPE_EXTENDED,
    MPI2_EVENT_NOTIFICATION_ACK_REQUIRED, MPI2_EVENT_SAS_TOPO_ES_RESPONDING,
    MPI2_EVENT_SAS_TOPO_RC_TARG_ADDED, MPI2_EVENT_SAS_TOPO_RC_TARG_NOT_RESPONDING,
    MPI2_EVENT_SAS_TOPOLOGY_CHANGE_LIST, MPI2_SASDEVICE0_PAGEVERSION,
    MPI2_SCSI_STATE_AUTOSENSE_VALID, MPI2_VERSION_02_00, POST_RING_ENTRIES,
    SAS_DEVICE_PAGE_0_DWORDS, SMIDS, Smid,
};
use scsi_msgs::{ScsiReply, TaskReply};

/// What the controller answers.
#[derive(Clone, Copy, Debug, PartialEq, Eq)]
pub enum IocReply {
    /// The reply that has a header alone: MsgLength 5, the Function and the IOCStatus (mpi2.h,
    /// MPI2_DEFAULT_REPLY).
    Plain {
        /// The request's Function, of the profile or not.
        function: u8,
        /// The IOCStatus.
        status: u16,
    },
    /// A SCSI IO's reply (mpi2_init.h, MPI2_SCSI_IO_REPLY).
    Scsi {
        /// The request's device handle.
        handle: Handle,
        /// The request's identifier.
        smid: Smid,
        /// The SCSI status.
        scsi_status: u8,
        /// The IOCStatus.
        status: u16,
        /// How many bytes of data were moved.
        moved: u32,
        /// How many bytes of sense data there are.
        sense: u32,
    },
    /// A task management reply (mpi2_init.h, MPI2_SCSI_TASK_MANAGE_REPLY).
    Task {
        /// The request's device handle.
        handle: Handle,
        /// The request's task type.
        task_type: u8,
        /// The IOCStatus.
        status: u16,
        /// The ResponseCode.
        code: u8,
        /// How many commands were ended.
        count: u32,
    },
    /// A configuration reply (mpi2_cnfg.h, MPI2_CONFIG_REPLY).
    Config {
        /// The request's action. 0 and 1 give the header of SAS Device Page 0.
        action: u8,
        /// The request's ExtPageType.
        ext_type: u8,
        /// The IOCStatus.
        status: u16,
    },
    /// IOC Facts (mpi2_ioc.h, MPI2_IOC_FACTS_REPLY).
    Facts {
        /// Who initialised the controller.
        who_init: u8,
        /// The number of reply post queues, from 1 to 8.
        queues: u8,
    },
    /// Port Facts (mpi2_ioc.h, MPI2_PORT_FACTS_REPLY).
    PortFacts {
        /// The request's port.
        port: u8,
        /// The IOCStatus.
        status: u16,
    },
    /// A SAS IO unit control reply (mpi2_sas.h, MPI2_SAS_IOUNIT_CONTROL_REPLY).
    Removed {
        /// The request's device handle.
        handle: Handle,
        /// The request's operation.
        operation: u8,
        /// The IOCStatus.
        status: u16,
    },
    /// The answer to event notification (mpi2_ioc.h, MPI2_EVENT_NOTIFICATION_REPLY): no event.
    Notified,
    /// A topology event of one device (mpi2_ioc.h, MPI2_EVENT_DATA_SAS_TOPOLOGY_CHANGE_LIST).
    Topology {
        /// The event's number.
        context: u32,
        /// The handle of the device.
        handle: Handle,
        /// The expander, below 16.
        expander: u8,
        /// How many phys the expander has.
        phys: u8,
        /// The phy of the device.
        phy: u8,
        /// Whether the device was added, or else no longer responds.
        added: bool,
    },
}

/// Writes the whole frame of 128 bytes: the reply with the values that the controller gives its
/// fields, and zeros past it. Gives the reply's length in bytes.
pub fn ioc_frame(reply: &IocReply, out: &mut [u8; 128]) -> usize
    requires { IsAnswer reply.now }
    ensures long { result ≡ reply_length reply.now }
    ensures stands { ReplyStands reply.now out.new }
    ensures rest { drop (reply_length reply.now) out.new
        ≡ replicate (128 - reply_length reply.now) 0 }
    ensures whole { out.new ≡ reply_frame reply.now }
{
    match *reply {
        IocReply::Plain { function, status } => put_plain(function, status, out),
        IocReply::Scsi {
            handle,
            smid,
            scsi_status,
            status,
            moved,
            sense,
        } => write_frame(
            &Message::ScsiReply(scsi(handle, smid, scsi_status, status, moved, sense)),
            out,
        ),
        IocReply::Task {
            handle,
            task_type,
            status,
            code,
            count,
        } => write_frame(
            &Message::TaskReply(task(handle, task_type, status, code, count)),
            out,
        ),
        IocReply::Config {
            action,
            ext_type,
            status,
        } => write_frame(&Message::ConfigReply(config(action, ext_type, status)), out),
        IocReply::Facts { who_init, queues } => {
            write_frame(&Message::IocFactsReply(facts(who_init, queues)), out)
        }
        IocReply::PortFacts { port, status } => {
            write_frame(&Message::PortFactsReply(port_facts(port, status)), out)
        }
        IocReply::Removed {
            handle,
            operation,
            status,
        } => write_frame(
            &Message::UnitControlReply(removed(handle, operation, status)),
            out,
        ),
        IocReply::Notified => write_frame(&Message::EventReply(notified()), out),
        IocReply::Topology {
            context,
            handle,
            expander,
            phys,
            phy,
            added,
        } => write_frame(
            &Message::EventReply(topology(context, handle, expander, phys, phy, added)),
            out,
        ),
    }
}

// Writes the whole frame of a plain reply, and gives the reply's length.
fn put_plain(function: u8, status: u16, out: &mut [u8; 128]) -> usize
    ensures long { result ≡ 20 }
    ensures whole { out.new ≡ plain_reply function status ++ replicate 108 0 }
{
    *out = [0; 128];
    out[2] = 5;
    out[3] = function;
    LittleEndian::write_u16(&mut out[14..], status);
    20
}

// A SCSI IO's reply.
fn scsi(
    handle: Handle,
    smid: Smid,
    scsi_status: u8,
    status: u16,
    moved: u32,
    sense: u32,
) -> ScsiReply
    ensures said { result ≡ scsi_answered handle smid scsi_status status moved sense }
    ensures fitting { IsTrue (scsi_reply_fit result) }
{
    ScsiReply {
        dev_handle: handle,
        scsi_status,
        scsi_state: if sense == 0 {
            0
        } else {
            MPI2_SCSI_STATE_AUTOSENSE_VALID
        },
        ioc_status: status,
        transfer_count: moved,
        sense_count: sense,
        task_tag: smid,
        ..ScsiReply::BLANK
    }
}

// A task management reply.
fn task(handle: Handle, task_type: u8, status: u16, code: u8, count: u32) -> TaskReply
    ensures said { result ≡ task_answered handle task_type status code count }
    ensures fitting { IsTrue (values_fit task_reply_layout.rows (task_reply_values result)) }
{
    TaskReply {
        dev_handle: handle,
        response_code: code,
        task_type,
        ioc_status: status,
        termination_count: count,
        ..TaskReply::BLANK
    }
}

// A configuration reply.
fn config(action: u8, ext_type: u8, status: u16) -> ConfigReply
    ensures said { result ≡ config_answered action ext_type status }
    ensures fitting { IsTrue (values_fit config_reply_layout.rows (config_reply_values result)) }
{
    let m = ConfigReply {
        action,
        ext_page_type: ext_type,
        ioc_status: status,
        ..ConfigReply::BLANK
    };
    if action > MPI2_CONFIG_ACTION_PAGE_READ_CURRENT {
        return m;
    }
    ConfigReply {
        ext_page_length: SAS_DEVICE_PAGE_0_DWORDS,
        page_version: MPI2_SASDEVICE0_PAGEVERSION,
        page_type: MPI2_CONFIG_PAGETYPE_EXTENDED,
        ..m
    }
}

// What the controller has and takes.
fn facts(who_init: u8, queues: u8) -> IocFactsReply
    ensures said { result ≡ facts_answered who_init queues }
    ensures fitting { IsTrue (values_fit ioc_facts_reply_layout.rows (ioc_facts_reply_values result)) }
{
    IocFactsReply {
        msg_version: MPI2_VERSION_02_00,
        who_init,
        number_of_ports: 1,
        max_msix_vectors: queues,
        request_credit: SMIDS as u16,
        fw_version: 0x0100_0000,
        ioc_request_frame_size: FRAME_DWORDS,
        max_targets: DISK_HANDLES as u16,
        max_sas_expanders: EXPANDERS as u16,
        max_enclosures: 1,
        protocol_flags: 0x0002,
        high_priority_credit: HIGH_PRIORITY_SMIDS as u16,
        max_reply_descriptor_post_queue_depth: POST_RING_ENTRIES as u16,
        reply_frame_size: FRAME_DWORDS as u8,
        max_dev_handle: LAST_EXPANDER_HANDLE,
        min_dev_handle: FIRST_DISK_HANDLE,
        ..IocFactsReply::BLANK
    }
}

// A port's facts.
fn port_facts(port: u8, status: u16) -> PortFactsReply
    ensures said { result ≡ port_answered port status }
    ensures fitting { IsTrue (values_fit port_facts_reply_layout.rows (port_facts_reply_values result)) }
{
    PortFactsReply {
        port_number: port,
        port_type: 0x30,
        ioc_status: status,
        ..PortFactsReply::BLANK
    }
}

// The reply to the removal of a device.
fn removed(handle: Handle, operation: u8, status: u16) -> UnitControlReply
    ensures said { result ≡ removal_answered handle operation status }
    ensures fitting { IsTrue (values_fit unit_control_reply_layout.rows (unit_control_reply_values result)) }
{
    UnitControlReply {
        operation,
        dev_handle: handle,
        ioc_status: status,
        ..UnitControlReply::BLANK
    }
}

// The answer to event notification.
fn notified() -> EventReply
    ensures { result ≡ notified }
{
    EventReply {
        msg_length: 7,
        ..EventReply::BLANK
    }
}

// A topology event of one device.
fn topology(
    context: u32,
    handle: Handle,
    expander: u8,
    phys: u8,
    phy: u8,
    added: bool,
) -> EventReply
    requires { expander < 16 }
    ensures said { result ≡ topology_told context handle expander phys phy added }
    ensures fitting { IsTrue (event_reply_fit result) }
{
    let mut entries = [TopologyEntry::BLANK; 22];
    entries[0] = TopologyEntry {
        attached_dev_handle: handle,
        phy_status: if added {
            MPI2_EVENT_SAS_TOPO_RC_TARG_ADDED
        } else {
            MPI2_EVENT_SAS_TOPO_RC_TARG_NOT_RESPONDING
        },
        ..TopologyEntry::BLANK
    };
    EventReply {
        event_data_length: 4,
        msg_length: 11,
        ack_required: MPI2_EVENT_NOTIFICATION_ACK_REQUIRED,
        event: MPI2_EVENT_SAS_TOPOLOGY_CHANGE_LIST,
        event_context: context,
        event_data: EventData::Topology(Topology {
            enclosure_handle: 1,
            expander_dev_handle: expander_handle(expander),
            num_phys: phys,
            num_entries: 1,
            start_phy_num: phy,
            exp_status: MPI2_EVENT_SAS_TOPO_ES_RESPONDING,
            entries,
            ..Topology::BLANK
        }),
        ..EventReply::BLANK
    }
}
