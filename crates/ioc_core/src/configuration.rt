//! Configuration requests: SAS Device Page 0 is the one page that the controller has.
ghost use Rattle.std.specs.Prelude.{◌≡◌, ◌≤◌, ℕ, List, None, IfOk, option_map};
ghost use Rattle.config_pages.specs.ConfigAsk.{ConfigAskStands};
ghost use Rattle.mpt_rules.specs.Ioc.Configuration.{ends_config, handle_asked, page_given, page_wanted, works_config};
ghost use Rattle.mpt_rules.specs.Ioc.Tables.{next_present};
ghost use Rattle.ioc_core.specs.Configuration.{config_refusal};

use crate::ioc::Ioc;
use config_pages::ConfigAsk;
use ioc_replies::paged;
use ioc_requests::page_bytes;
use ioc_tables::smid_of;
use mpi_names::{
    MPI2_CONFIG_ACTION_PAGE_HEADER, MPI2_CONFIG_ACTION_PAGE_READ_CURRENT,
    MPI2_CONFIG_EXTPAGETYPE_SAS_DEVICE, MPI2_CONFIG_PAGETYPE_EXTENDED,
    MPI2_SAS_DEVICE_PGAD_FORM_HANDLE,
};
use mpt_messages::IocReply;
use mpt_rules::{
    Binding, IOC_STATUS_CONFIG_INVALID_ACTION, IOC_STATUS_CONFIG_INVALID_PAGE,
    IOC_STATUS_CONFIG_INVALID_TYPE, IOC_STATUS_SUCCESS, OutOfMemory, Post,
};
use mpt_trace::Handle;
use scsi_disk::Bytes;

// The form of a page address: mpi2_cnfg.h, MPI2_SAS_DEVICE_PGAD_FORM_MASK.
const FORM_MASK: u32 = 0xf000_0000;
// The form of the next handle: mpi2_cnfg.h, MPI2_SAS_DEVICE_PGAD_FORM_GET_NEXT_HANDLE.
const NEXT_FORM: u32 = 0x0000_0000;
// The handle of a page address: mpi2_cnfg.h, MPI2_SAS_DEVICE_PGAD_HANDLE_MASK.
const HANDLE_MASK: u32 = 0xffff;
// The page's kind in PageType: mpi2_cnfg.h, MPI2_CONFIG_PAGETYPE_MASK.
const TYPE_MASK: u8 = 0x0f;

impl Ioc {
    /// What a configuration request is given of the page that it asks for, if there is that page; or OutOfMemory.
    pub(crate) fn page_for(&self, ask: &ConfigAsk) -> Result<Option<Bytes>, OutOfMemory>
        ensures { (frame : List ℕ) → ConfigAskStands ask.now frame →
            IfOk result (λ page. page ≡ option_map (page_given frame) (page_wanted self.now.part frame)) }
    {
        if ask.page_number != 0 {
            return Ok(None);
        }
        let Some(handle) = self.handle_asked(ask) else {
            return Ok(None);
        };
        let most = if ask.action == MPI2_CONFIG_ACTION_PAGE_READ_CURRENT {
            ask.sge_length
        } else {
            0
        };
        match self.binding(handle) {
            Binding::Present {
                address,
                expander,
                phy,
                ..
            } => {
                let page = page_bytes(self.alloc, handle, address, expander, phy, most)?;
                Ok(Some(page))
            }
            Binding::Unbound | Binding::Gone { .. } => Ok(None),
        }
    }

    // The handle whose page is asked for, by the form of the page address: the given one, or the next one of a plugged
    // disk.
    fn handle_asked(&self, ask: &ConfigAsk) -> Option<Handle>
        ensures { (frame : List ℕ) → ConfigAskStands ask.now frame →
            result ≡ handle_asked self.now.part frame }
    {
        let handle = (ask.page_address & HANDLE_MASK) as Handle;
        let form = ask.page_address & FORM_MASK;
        if form == MPI2_SAS_DEVICE_PGAD_FORM_HANDLE {
            Some(handle)
        } else if form == NEXT_FORM {
            self.next_present(handle)
        } else {
            None
        }
    }

    // The least handle of a plugged disk that is greater than this one; 0xffff begins the walk.
    fn next_present(&self, handle: Handle) -> Option<Handle>
        ensures { result ≡ next_present self.now.part handle }
    {
        self.disks.next_present(handle)
    }

    /// A configuration request whose frame stands for one is answered, by what it is given of its page.
    pub(crate) fn answer_config(&mut self, post: &Post, ask: &ConfigAsk, page: Option<Bytes>)
        requires room { 1 ≤ self.old.room }
        requires stands { ConfigAskStands ask.now post.now.frame }
        requires given { page ≡ option_map (page_given post.now.frame) (page_wanted self.old.part post.now.frame) }
        ensures part { self.new.part ≡ works_config self.old.part post.now }
        ensures told { self.new.told ≡ self.old.told }
    {
        match refusal(ask) {
            Some(status) => {
                let nothing = Bytes::empty(self.alloc);
                self.end_config(post, ask, status, nothing);
            }
            None => self.answer_page(post, ask, page),
        }
    }

    // A request that isn't refused is answered by the page that it asks for, if there is one.
    fn answer_page(&mut self, post: &Post, ask: &ConfigAsk, page: Option<Bytes>)
        requires room { 1 ≤ self.old.room }
        requires stands { ConfigAskStands ask.now post.now.frame }
        requires passes { None ≡ config_refusal post.now.frame }
        requires given { page ≡ option_map (page_given post.now.frame) (page_wanted self.old.part post.now.frame) }
        ensures part { self.new.part ≡ works_config self.old.part post.now }
        ensures told { self.new.told ≡ self.old.told }
    {
        match page {
            Some(page) => self.end_config(post, ask, IOC_STATUS_SUCCESS, page),
            None => {
                let nothing = Bytes::empty(self.alloc);
                self.end_config(post, ask, IOC_STATUS_CONFIG_INVALID_PAGE, nothing);
            }
        }
    }

    // A configuration request is answered with this IOCStatus and this page.
    fn end_config(&mut self, post: &Post, ask: &ConfigAsk, status: u16, page: Bytes)
        requires room { 1 ≤ self.old.room }
        requires stands { ConfigAskStands ask.now post.now.frame }
        ensures part { self.new.part ≡ ends_config self.old.part post.now status page }
        ensures told { self.new.told ≡ self.old.told }
    {
        let reply = IocReply::Config {
            action: ask.action,
            ext_type: ask.ext_page_type,
            status,
        };
        let said = paged(self.alloc, smid_of(post), reply, page);
        self.say_on(0, said);
    }
}

// Why a configuration request is refused whatever pages there are: its action isn't one that the controller has, or its
// type isn't that of a SAS device page.
fn refusal(ask: &ConfigAsk) -> Option<u16>
    ensures { (frame : List ℕ) → ConfigAskStands ask.now frame → result ≡ config_refusal frame }
{
    let other_action = (ask.action != MPI2_CONFIG_ACTION_PAGE_HEADER)
        & (ask.action != MPI2_CONFIG_ACTION_PAGE_READ_CURRENT);
    let other_type = (ask.page_type & TYPE_MASK != MPI2_CONFIG_PAGETYPE_EXTENDED)
        | (ask.ext_page_type != MPI2_CONFIG_EXTPAGETYPE_SAS_DEVICE);
    if other_action {
        Some(IOC_STATUS_CONFIG_INVALID_ACTION)
    } else if other_type {
        Some(IOC_STATUS_CONFIG_INVALID_TYPE)
    } else {
        None
    }
}
