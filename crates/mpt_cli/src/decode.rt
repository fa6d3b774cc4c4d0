//! The listing of what bytes stand for, or the line of their refusal.
ghost use Rattle.std.specs.Prelude.{◌≡◌, ◌<◌, ◌^◌, IfOk, length};
ghost use Rattle.mpt_text.specs.Hexadecimal.{hexadecimal};
ghost use Rattle.mpt_cli.specs.Answer.{IsBytesAnswer, IsHexAnswer, IsPageAnswer, IsPostAnswer, IsReplyAnswer, IsReplyDescriptorAnswer, IsRequestAnswer, IsScatterAnswer};

use crate::answer::Answer;
use crate::job::Decoded;
use crate::scatter_input::{chained_in, whole_size};
use crate::status::Status;
use config_pages::{DevicePage0, decode_device_page0};
use mpi_rings::{ReplyDescriptor, RequestDescriptor, read_post, read_reply};
use mpt_messages::{
    Kind, decode_reply, decode_request, list_page, list_reply_descriptor, list_request_descriptor,
    list_text, push_fault, push_reply_refusal, push_request_refusal, push_short,
};
use mpt_sgl::{SglFault, fault_text, list_text as scatter_list_text, read_list};
use mpt_text::{HexFault, OutOfMemory, Text, parse_hex};
use std::alloc::Global;

/// The answer to hexadecimal input.
pub fn answer_to_hex(alloc: Global, decoded: Decoded, input: &[u8]) -> Result<Answer, OutOfMemory>
    requires { length input.now < 2 ^ 32 }
    ensures { IfOk result (λ a. IsHexAnswer decoded (hexadecimal input.now) a.status a.text) }
{
    match parse_hex(alloc, input) {
        Ok(bytes) => answer_to_bytes(alloc, decoded, &bytes),
        Err(HexFault::Form) => Answer::with_line(alloc, Status::Refused, b"refused line 1 hex\n"),
        Err(HexFault::OutOfMemory) => Err(OutOfMemory),
    }
}

// The answer to bytes: the listing of what they stand for, or the line of their first refusal.
fn answer_to_bytes(alloc: Global, decoded: Decoded, bytes: &[u8]) -> Result<Answer, OutOfMemory>
    requires { length bytes.now < 2 ^ 32 }
    ensures { IfOk result (λ a. IsBytesAnswer decoded bytes.now a.status a.text) }
{
    match decoded {
        Decoded::Request(kind) => answer_to_request(alloc, kind, bytes),
        Decoded::Reply => answer_to_reply(alloc, bytes),
        Decoded::Post => answer_to_post(alloc, bytes),
        Decoded::Answer => answer_to_reply_descriptor(alloc, bytes),
        Decoded::Page0 => answer_to_page(alloc, bytes),
        Decoded::ScatterList => answer_to_scatter_list(alloc, bytes),
    }
}

fn answer_to_request(alloc: Global, kind: Kind, bytes: &[u8]) -> Result<Answer, OutOfMemory>
    ensures { IfOk result (λ a. IsRequestAnswer kind bytes.now a.status a.text) }
{
    match decode_request(kind, bytes) {
        Ok(m) => Ok(Answer::listed(list_text(alloc, &m)?)),
        Err(fault) => {
            let mut text = Text::new(alloc);
            push_request_refusal(&mut text, bytes, fault)?;
            Ok(Answer::refused(text))
        }
    }
}

fn answer_to_reply(alloc: Global, bytes: &[u8]) -> Result<Answer, OutOfMemory>
    ensures { IfOk result (λ a. IsReplyAnswer bytes.now a.status a.text) }
{
    match decode_reply(bytes) {
        Ok(m) => Ok(Answer::listed(list_text(alloc, &m)?)),
        Err(fault) => {
            let mut text = Text::new(alloc);
            push_reply_refusal(&mut text, bytes, fault)?;
            Ok(Answer::refused(text))
        }
    }
}

fn answer_to_post(alloc: Global, bytes: &[u8]) -> Result<Answer, OutOfMemory>
    ensures { IfOk result (λ a. IsPostAnswer bytes.now a.status a.text) }
{
    match read_post(bytes) {
        Ok(d) => Ok(Answer::listed(list_request_descriptor(alloc, &d)?)),
        Err(fault) => {
            let mut text = Text::new(alloc);
            push_fault(&mut text, &RequestDescriptor::layout(), fault)?;
            Ok(Answer::refused(text))
        }
    }
}

fn answer_to_reply_descriptor(alloc: Global, bytes: &[u8]) -> Result<Answer, OutOfMemory>
    ensures { IfOk result (λ a. IsReplyDescriptorAnswer bytes.now a.status a.text) }
{
    match read_reply(bytes) {
        Ok(d) => Ok(Answer::listed(list_reply_descriptor(alloc, &d)?)),
        Err(fault) => {
            let mut text = Text::new(alloc);
            push_fault(&mut text, &ReplyDescriptor::success_layout(), fault)?;
            Ok(Answer::refused(text))
        }
    }
}

fn answer_to_page(alloc: Global, bytes: &[u8]) -> Result<Answer, OutOfMemory>
    ensures { IfOk result (λ a. IsPageAnswer bytes.now a.status a.text) }
{
    match decode_device_page0(bytes) {
        Ok(page) => Ok(Answer::listed(list_page(alloc, &page)?)),
        Err(fault) => {
            let mut text = Text::new(alloc);
            push_fault(&mut text, &DevicePage0::layout(), fault)?;
            Ok(Answer::refused(text))
        }
    }
}

fn answer_to_scatter_list(alloc: Global, bytes: &[u8]) -> Result<Answer, OutOfMemory>
    requires { length bytes.now < 2 ^ 32 }
    ensures { IfOk result (λ a. IsScatterAnswer bytes.now a.status a.text) }
{
    let whole = whole_size(bytes);
    if bytes.len() < whole {
        let mut text = Text::new(alloc);
        push_short(&mut text, whole as u64, bytes.len() as u64)?;
        return Ok(Answer::refused(text));
    }
    let chained = chained_in(alloc, bytes)?;
    let frames = chained.frames.as_slice();
    match read_list(alloc, chained.offset, &chained.first, frames) {
        Ok(list) => Ok(Answer::listed(scatter_list_text(alloc, &list)?)),
        Err(SglFault::OutOfMemory) => Err(OutOfMemory),
        Err(fault) => Ok(Answer::refused(fault_text(alloc, fault)?)),
    }
}
