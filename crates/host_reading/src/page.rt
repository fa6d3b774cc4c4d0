//! SAS Device Page 0 as the host reads it.
ghost use Rattle.std.specs.Prelude.{◌≡◌, length, take};
ghost use Rattle.mpi_layout.specs.Tail.{padded};
ghost use Rattle.mpt_wire.specs.Messages.Fields.{page_sas_address_in};
ghost use Rattle.mpt_rules.specs.Host.Replies.{address_read};
ghost use Rattle.mpt_rules.specs.Host.Strange.{is_page_for};

use crate::number::u64_at;
use crate::reply::reply_status;
use config_pages::decode_device_page0;
use mpi_layout::padded;
use mpt_rules::IOC_STATUS_SUCCESS;
use mpt_trace::{Address, Handle};

// Where the page has its SASAddress (mpi2_cnfg.h, MPI2_CONFIG_PAGE_SAS_DEV_0).
const SAS_ADDRESS: usize = 0x0c;

// How many bytes the page has.
const PAGE_BYTES: usize = 56;

/// Whether the bytes are SAS Device Page 0 of this handle.
pub(crate) fn is_page_for(handle: Handle, page: &[u8]) -> bool
    ensures { result ≡ is_page_for handle page.now }
{
    match decode_device_page0(page) {
        Ok(read) => read.dev_handle == handle,
        Err(_) => false,
    }
}

/// The disk's address where its page was read, by the reply to a page read and by what came with it.
pub(crate) fn address_read(frame: &[u8; 128], page: &[u8]) -> Option<Address>
    ensures { result ≡ address_read frame.now page.now }
{
    if reply_status(frame) == IOC_STATUS_SUCCESS {
        Some(sas_address(page))
    } else {
        None
    }
}

// SASAddress in the bytes of a page, in which those that aren't there are zeros.
fn sas_address(page: &[u8]) -> Address
    ensures { result ≡ page_sas_address_in page.now }
{
    let count = page.len().min(PAGE_BYTES);
    let known: [u8; PAGE_BYTES] = padded(&page[..count]);
    u64_at(&known, SAS_ADDRESS)
}
