//! The first fault of bytes.
ghost use Rattle.std.specs.Prelude.{◌≡◌, MatchOption, Some};
ghost use Rattle.mpt_c_messages.specs.Reading.{Reads, refusal_as};

use crate::decode_as::DecodeAs;
use config_pages::decode_device_page0;
use mpi_rings::{read_post, read_reply};
use mpt_messages::{Kind, MsgFault, decode_reply, decode_request};

/// The first fault of the bytes, or none where they stand for what they are read as.
pub fn first_fault(read_as: DecodeAs, bytes: &[u8]) -> Option<MsgFault>
    ensures { MatchOption result (Reads read_as bytes.now) (λ fault. refusal_as read_as bytes.now ≡ Some fault) }
{
    match read_as {
        DecodeAs::Request(kind) => request_fault(kind, bytes),
        DecodeAs::Reply => reply_fault(bytes),
        DecodeAs::Post => post_fault(bytes),
        DecodeAs::Answer => answer_fault(bytes),
        DecodeAs::Page0 => page_fault(bytes),
    }
}

fn request_fault(kind: Kind, bytes: &[u8]) -> Option<MsgFault>
    ensures { MatchOption result (Reads (DecodeAs.Request kind) bytes.now)
        (λ fault. refusal_as (DecodeAs.Request kind) bytes.now ≡ Some fault) }
{
    match decode_request(kind, bytes) {
        Ok(_) => None,
        Err(fault) => Some(fault),
    }
}

fn reply_fault(bytes: &[u8]) -> Option<MsgFault>
    ensures { MatchOption result (Reads DecodeAs.Reply bytes.now)
        (λ fault. refusal_as DecodeAs.Reply bytes.now ≡ Some fault) }
{
    match decode_reply(bytes) {
        Ok(_) => None,
        Err(fault) => Some(fault),
    }
}

fn post_fault(bytes: &[u8]) -> Option<MsgFault>
    ensures { MatchOption result (Reads DecodeAs.Post bytes.now)
        (λ fault. refusal_as DecodeAs.Post bytes.now ≡ Some fault) }
{
    match read_post(bytes) {
        Ok(_) => None,
        Err(fault) => Some(MsgFault::from(fault)),
    }
}

fn answer_fault(bytes: &[u8]) -> Option<MsgFault>
    ensures { MatchOption result (Reads DecodeAs.Answer bytes.now)
        (λ fault. refusal_as DecodeAs.Answer bytes.now ≡ Some fault) }
{
    match read_reply(bytes) {
        Ok(_) => None,
        Err(fault) => Some(MsgFault::from(fault)),
    }
}

fn page_fault(bytes: &[u8]) -> Option<MsgFault>
    ensures { MatchOption result (Reads DecodeAs.Page0 bytes.now)
        (λ fault. refusal_as DecodeAs.Page0 bytes.now ≡ Some fault) }
{
    match decode_device_page0(bytes) {
        Ok(_) => None,
        Err(fault) => Some(MsgFault::from(fault)),
    }
}
