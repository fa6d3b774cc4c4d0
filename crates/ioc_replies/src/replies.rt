//! The replies that the controller makes.
ghost use Rattle.std.specs.Prelude.{◌≡◌, []};
ghost use Rattle.mpt_messages.specs.IocFrames.{IsAnswer, reply_frame};
ghost use Rattle.mpt_rules.specs.Ioc.Replies.{framed};
ghost use Rattle.mpt_rules.specs.Ioc.Commands.{result_said, result_status};
ghost use Rattle.mpt_rules.specs.declared.said.Said.TheVariants as said;

use mpt_messages::{IocReply, ioc_frame};
use mpt_rules::{IOC_STATUS_SCSI_DATA_UNDERRUN, IOC_STATUS_SUCCESS, Said};
use mpt_trace::{Handle, Smid};
use scsi_disk::{Bytes, ScsiResult};
use std::alloc::Global;

// The SCSI status GOOD (SAM-5).
const GOOD: u8 = 0x00;

/// A reply with its frame and nothing more. It takes no memory.
pub fn framed(alloc: Global, smid: Smid, reply: IocReply) -> Said
    requires { IsAnswer reply }
    ensures { result ≡ framed smid reply }
{
    Said::Framed {
        smid,
        frame: frame_of(reply),
        page: Bytes::empty(alloc),
        sense: Bytes::empty(alloc),
    }
}

/// A reply with its frame and a page.
pub fn paged(alloc: Global, smid: Smid, reply: IocReply, page: Bytes) -> Said
    requires { IsAnswer reply }
    ensures { result ≡ said.Framed smid (reply_frame reply) page [] }
{
    Said::Framed {
        smid,
        frame: frame_of(reply),
        page,
        sense: Bytes::empty(alloc),
    }
}

/// The reply to a command that a disk performed: it moved so many bytes of so many. Without a frame where the status is
/// GOOD and all bytes were moved.
pub fn result_said(smid: Smid, handle: Handle, len: u32, moved: u32, done: ScsiResult) -> Said
    ensures { result ≡ result_said smid handle len moved done }
{
    let ScsiResult {
        status,
        payload: page,
        sense,
    } = done;
    if status == GOOD && moved == len {
        return Said::Success { smid, page, sense };
    }
    let reply = IocReply::Scsi {
        handle,
        smid,
        scsi_status: status,
        status: result_status(moved, len),
        moved,
        sense: sense.len() as u32,
    };
    Said::Framed {
        smid,
        frame: frame_of(reply),
        page,
        sense,
    }
}

// The IOCStatus of a command that moved so many bytes of so many.
fn result_status(moved: u32, len: u32) -> u16
    ensures { result ≡ result_status moved len }
{
    if moved < len {
        IOC_STATUS_SCSI_DATA_UNDERRUN
    } else {
        IOC_STATUS_SUCCESS
    }
}

// The whole frame of a reply.
fn frame_of(reply: IocReply) -> [u8; 128]
    requires { IsAnswer reply }
    ensures { result ≡ reply_frame reply }
{
    let mut frame = [0; 128];
    ioc_frame(&reply, &mut frame);
    frame
}
