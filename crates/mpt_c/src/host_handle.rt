//! A handle of a host.
ghost use Rattle.std.specs.Prelude.{◌≡◌, Option, None, Some};
ghost use Rattle.std.specs.Option.{option_map};
ghost use Rattle.std.specs.Coded.{coded_option};
ghost use Rattle.host_core.specs.Driver.{Driver};
ghost use Rattle.host_core.specs.contracts.host.Host.{the_row};

use host_core::Host;
use mpt_c_calls::Loose;
use std::alloc::Global;
use std::marker::Model;
use std::mem::replace;
use std::ptr::null_mut;

/// A handle of a host (mpt.h, `mpt_host`): a pointer to it in memory of the library's, or null.
#[repr(C)]
pub struct HostHandle {
    at: *mut u8,
    pub ghost value: { Option Driver } by { coded_option the_row.coded },
}

impl Model for HostHandle {
    ghost use Rattle.host_core.specs.contracts.host.Host.{the_row};
    ghost use Rattle.mpt_c.specs.Holding.{holds};

    ghost also_owns = { λ l. holds the_row l.at l.value };
}

impl HostHandle {
    /// Takes the host out of the handle, which is then empty.
    pub fn take(&mut self, alloc: Global) -> Option<Box<Host>>
        ensures taken { option_map (λ b. b.value) result ≡ self.old.value }
        ensures left { self.new.value ≡ None }
    {
        match replace(self, HostHandle::empty()).into_loose(alloc) {
            None => None,
            Some(loose) => Some(loose.into_box()),
        }
    }

    /// Puts a host into the handle. Another that was there is freed.
    pub fn put(&mut self, alloc: Global, host: Box<Host>)
        ensures { self.new.value ≡ Some host.value }
    {
        match replace(self, HostHandle::of(Loose::of(host))).into_loose(alloc) {
            None => {}
            Some(loose) => drop(loose.into_box()),
        }
    }

    // A handle of nothing: its pointer is null.
    fn empty() -> HostHandle
        ensures { result.value ≡ None }
    {
        HostHandle { at: null_mut() }
    }

    // The pointer goes to C as one to bytes, which it doesn't read.
    fn of(value: Loose<Host, Global>) -> HostHandle
        ensures { result.value ≡ Some value.value }
    {
        let Loose { ptr, alloc: _ } = value;
        HostHandle { at: ptr as *mut u8 }
    }

    // What the handle holds, if it isn't empty.
    fn into_loose(self, alloc: Global) -> Option<Loose<Host, Global>>
        ensures { option_map (λ b. b.value) result ≡ self.value }
    {
        let HostHandle { at } = self;
        if at.is_null() {
            None
        } else {
            Some(Loose {
                ptr: at as *mut Host,
                alloc,
            })
        }
    }
}
