//! The configuration page that a request is for.
ghost use Rattle.std.specs.Prelude.{◌≡◌, ◌<◌, ◌≤◌, ℕ, IfOk, length, slice_index, take};
ghost use Rattle.mpt_rules.specs.Ioc.Configuration.{page_bytes};

use config_pages::encode_device_page0;
use mpi_names::{Address, Handle, SAS_DEVICE_PAGE_0_BYTES};
use mpt_messages::device_page;
use mpt_rules::OutOfMemory;
use scsi_disk::Bytes;
use std::alloc::Global;

// The bytes of SAS Device Page 0.
const PAGE_BYTES: usize = SAS_DEVICE_PAGE_0_BYTES as usize;

/// The first bytes of SAS Device Page 0 of the disk with this handle and SAS address at a phy of an expander, as many as
/// `most`; or OutOfMemory. The expander is below 16.
pub fn page_bytes(
    alloc: Global,
    handle: Handle,
    address: Address,
    expander: u8,
    phy: u8,
    most: u32,
) -> Result<Bytes, OutOfMemory>
    requires { expander < 16 }
    ensures { IfOk result (λ page. page ≡ take most (page_bytes handle address expander phy)) }
{
    let mut page = [0; PAGE_BYTES];
    encode_device_page0(&device_page(handle, address, expander, phy), &mut page);
    first_bytes(alloc, &page, most as usize)
}

// A page's first bytes, as many as `most`.
fn first_bytes(alloc: Global, page: &[u8], most: usize) -> Result<Bytes, OutOfMemory>
    requires { length page.now ≤ 4096 }
    ensures value { IfOk result (λ bytes. bytes ≡ take most page.now) }
    ensures bytes { (k : ℕ) → slice_index page.now k < 256 }
{
    let count = page.len().min(most);
    let mut bytes = Vec::new(alloc);
    bytes.extend_from_slice(&page[..count])?;
    Ok(Bytes::new(bytes))
}
