//! The listings of descriptors and of SAS Device Page 0.
ghost use Rattle.std.specs.Prelude.{◌≡◌, ◌++◌, IfOk, OnOk};
ghost use Rattle.mpi_rings.specs.ReplyDescriptor.{HasItsFlags};
ghost use Rattle.mpt_messages.specs.DescriptorListing.{page_listing, reply_descriptor_listing, request_descriptor_listing};

use crate::listing::push_listing;
use config_pages::DevicePage0;
use mpi_rings::{ReplyDescriptor, RequestDescriptor};
use mpt_text::{OutOfMemory, Text};
use std::alloc::Global;

const REPLY_DESCRIPTOR: &[u8] = b"reply-descriptor";

/// A request descriptor's listing: a line with its name and its length in bytes, and a line for
/// each row.
pub fn list_request_descriptor(alloc: Global, d: &RequestDescriptor) -> Result<Text, OutOfMemory>
    ensures { IfOk result (λ text. text ≡ request_descriptor_listing d.now) }
{
    let mut text = Text::new(alloc);
    push_listing(
        &mut text,
        b"request-descriptor",
        &RequestDescriptor::layout(),
        &d.values(),
    )?;
    Ok(text)
}

/// The same for a reply descriptor, by the layout of its ReplyFlags. An `Unused` has the flags 0f
/// or ff.
pub fn list_reply_descriptor(alloc: Global, d: &ReplyDescriptor) -> Result<Text, OutOfMemory>
    requires { HasItsFlags d.now }
    ensures { IfOk result (λ text. text ≡ reply_descriptor_listing d.now) }
{
    let mut text = Text::new(alloc);
    push_reply_descriptor(&mut text, d)?;
    Ok(text)
}

/// The same for a SAS Device Page 0.
pub fn list_page(alloc: Global, page: &DevicePage0) -> Result<Text, OutOfMemory>
    ensures { IfOk result (λ text. text ≡ page_listing page.now) }
{
    let mut text = Text::new(alloc);
    push_listing(
        &mut text,
        b"sas-device-page-0",
        &DevicePage0::layout(),
        &page.values(),
    )?;
    Ok(text)
}

// Adds the listing of a reply descriptor.
fn push_reply_descriptor(text: &mut Text, d: &ReplyDescriptor) -> Result<(), OutOfMemory>
    requires { HasItsFlags d.now }
    ensures { OnOk result (text.new ≡ text.old ++ reply_descriptor_listing d.now) }
{
    match *d {
        ReplyDescriptor::Success {
            msix,
            smid,
            tag,
            rest,
        } => push_listing(
            text,
            REPLY_DESCRIPTOR,
            &ReplyDescriptor::success_layout(),
            &ReplyDescriptor::success_values(msix, smid, tag, rest),
        ),
        ReplyDescriptor::Address {
            msix,
            smid,
            address,
        } => push_listing(
            text,
            REPLY_DESCRIPTOR,
            &ReplyDescriptor::address_layout(),
            &ReplyDescriptor::address_values(msix, smid, address),
        ),
        ReplyDescriptor::Unused {
            flags,
            msix,
            smid,
            rest,
        } => push_listing(
            text,
            REPLY_DESCRIPTOR,
            &ReplyDescriptor::unused_layout(),
            &ReplyDescriptor::unused_values(flags, msix, smid, rest),
        ),
    }
}
