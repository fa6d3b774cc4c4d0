//! Listings in a buffer of C's.
ghost use Rattle.std.specs.Prelude.{◌≡◌, IfOk};
ghost use Rattle.mpt_c_messages.specs.DecodeAs.{decode_as_of};
ghost use Rattle.mpt_c_messages.specs.Listing.{IsListed, IsListedAs, IsSaid};

use crate::call_code::CallCode;
use crate::decode_as::DecodeAs;
use crate::putting::put_bytes;
use config_pages::{DevicePage0, decode_device_page0};
use mpi_rings::{ReplyDescriptor, RequestDescriptor, read_post, read_reply};
use mpt_messages::{
    Kind, decode_reply, decode_request, list_page, list_reply_descriptor, list_request_descriptor,
    list_text, push_fault, push_reply_refusal, push_request_refusal,
};
use mpt_text::{OutOfMemory, Text};
use std::alloc::Global;

/// Writes the listing of the bytes to the front of `out`: Ok with the listing of what they stand
/// for, or Refused with the line of their first fault. `length` is then the text's. ShortBuffer
/// where the text is longer than `out`, which stays, and `length` says how long it is. NoSuch where
/// the number names no form, and NoMemory; then nothing changes.
pub fn list(alloc: Global, form: u32, bytes: &[u8], out: &mut [u8], length: &mut usize) -> CallCode
    ensures { IsListed (decode_as_of form) bytes.now out.old out.new length.old length.new result }
{
    match DecodeAs::from_number(form) {
        Some(read_as) => list_as(alloc, read_as, bytes, out, length),
        None => CallCode::NoSuch,
    }
}

fn list_as(
    alloc: Global,
    read_as: DecodeAs,
    bytes: &[u8],
    out: &mut [u8],
    length: &mut usize,
) -> CallCode
    ensures { IsListedAs read_as bytes.now out.old out.new length.old length.new result }
{
    match listed(alloc, read_as, bytes) {
        Err(_) => CallCode::NoMemory,
        Ok(said) => put_bytes(said.text.as_bytes(), said.code, out, length),
    }
}

/// A text, and how the call that writes it ends.
#[derive(Drop)]
struct ListedText {
    code: CallCode,
    text: Text,
}

fn listed(alloc: Global, read_as: DecodeAs, bytes: &[u8]) -> Result<ListedText, OutOfMemory>
    ensures { IfOk result (λ said. IsSaid read_as bytes.now said.code said.text) }
{
    match read_as {
        DecodeAs::Request(kind) => listed_request(alloc, kind, bytes),
        DecodeAs::Reply => listed_reply(alloc, bytes),
        DecodeAs::Post => listed_post(alloc, bytes),
        DecodeAs::Answer => listed_answer(alloc, bytes),
        DecodeAs::Page0 => listed_page(alloc, bytes),
    }
}

fn listed_request(alloc: Global, kind: Kind, bytes: &[u8]) -> Result<ListedText, OutOfMemory>
    ensures { IfOk result (λ said. IsSaid (DecodeAs.Request kind) bytes.now said.code said.text) }
{
    match decode_request(kind, bytes) {
        Ok(m) => Ok(ok(list_text(alloc, &m)?)),
        Err(fault) => {
            let mut text = Text::new(alloc);
            push_request_refusal(&mut text, bytes, fault)?;
            Ok(refused(text))
        }
    }
}

fn listed_reply(alloc: Global, bytes: &[u8]) -> Result<ListedText, OutOfMemory>
    ensures { IfOk result (λ said. IsSaid DecodeAs.Reply bytes.now said.code said.text) }
{
    match decode_reply(bytes) {
        Ok(m) => Ok(ok(list_text(alloc, &m)?)),
        Err(fault) => {
            let mut text = Text::new(alloc);
            push_reply_refusal(&mut text, bytes, fault)?;
            Ok(refused(text))
        }
    }
}

fn listed_post(alloc: Global, bytes: &[u8]) -> Result<ListedText, OutOfMemory>
    ensures { IfOk result (λ said. IsSaid DecodeAs.Post bytes.now said.code said.text) }
{
    match read_post(bytes) {
        Ok(d) => Ok(ok(list_request_descriptor(alloc, &d)?)),
        Err(fault) => {
            let mut text = Text::new(alloc);
            push_fault(&mut text, &RequestDescriptor::layout(), fault)?;
            Ok(refused(text))
        }
    }
}

fn listed_answer(alloc: Global, bytes: &[u8]) -> Result<ListedText, OutOfMemory>
    ensures { IfOk result (λ said. IsSaid DecodeAs.Answer bytes.now said.code said.text) }
{
    match read_reply(bytes) {
        Ok(d) => Ok(ok(list_reply_descriptor(alloc, &d)?)),
        Err(fault) => {
            let mut text = Text::new(alloc);
            push_fault(&mut text, &ReplyDescriptor::success_layout(), fault)?;
            Ok(refused(text))
        }
    }
}

fn listed_page(alloc: Global, bytes: &[u8]) -> Result<ListedText, OutOfMemory>
    ensures { IfOk result (λ said. IsSaid DecodeAs.Page0 bytes.now said.code said.text) }
{
    match decode_device_page0(bytes) {
        Ok(page) => Ok(ok(list_page(alloc, &page)?)),
        Err(fault) => {
            let mut text = Text::new(alloc);
            push_fault(&mut text, &DevicePage0::layout(), fault)?;
            Ok(refused(text))
        }
    }
}

// The text that lists.
fn ok(text: Text) -> ListedText
    ensures code { result.code ≡ CallCode.Ok }
    ensures text { result.text ≡ text }
{
    ListedText {
        code: CallCode::Ok,
        text,
    }
}

// The text that refuses.
fn refused(text: Text) -> ListedText
    ensures code { result.code ≡ CallCode.Refused }
    ensures text { result.text ≡ text }
{
    ListedText {
        code: CallCode::Refused,
        text,
    }
}
