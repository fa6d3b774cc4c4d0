//! A handle of a controller.
ghost use Rattle.std.specs.Prelude.{◌≡◌, Option, None, Some};
ghost use Rattle.std.specs.Option.{option_map};
ghost use Rattle.std.specs.Coded.{coded_option};
ghost use Rattle.ioc_core.specs.Seen.{IocSeen};
ghost use Rattle.ioc_core.specs.contracts.ioc.Ioc.{the_row};

use ioc_core::Ioc;
use mpt_c_calls::Loose;
use std::alloc::Global;
use std::marker::Model;
use std::mem::replace;
use std::ptr::null_mut;

/// A handle of a controller (mpt.h, `mpt_ioc`): a pointer to it in memory of the library's, or null.
#[repr(C)]
pub struct IocHandle {
    at: *mut u8,
    pub ghost value: { Option IocSeen } by { coded_option the_row.coded },
}

impl Model for IocHandle {
    ghost use Rattle.ioc_core.specs.contracts.ioc.Ioc.{the_row};
    ghost use Rattle.mpt_c.specs.Holding.{holds};

    ghost also_owns = { λ l. holds the_row l.at l.value };
}

impl IocHandle {
    /// Takes the controller out of the handle, which is then empty.
    pub fn take(&mut self, alloc: Global) -> Option<Box<Ioc>>
        ensures taken { option_map (λ b. b.value) result ≡ self.old.value }
        ensures left { self.new.value ≡ None }
    {
        match replace(self, IocHandle::empty()).into_loose(alloc) {
            None => None,
            Some(loose) => Some(loose.into_box()),
        }
    }

    /// Puts a controller into the handle. Another that was there is freed.
    pub fn put(&mut self, alloc: Global, ioc: Box<Ioc>)
        ensures { self.new.value ≡ Some ioc.value }
    {
        match replace(self, IocHandle::of(Loose::of(ioc))).into_loose(alloc) {
            None => {}
            Some(loose) => drop(loose.into_box()),
        }
    }

    // A handle of nothing: its pointer is null.
    fn empty() -> IocHandle
        ensures { result.value ≡ None }
    {
        IocHandle { at: null_mut() }
    }

    // The pointer goes to C as one to bytes, which it doesn't read.
    fn of(value: Loose<Ioc, Global>) -> IocHandle
        ensures { result.value ≡ Some value.value }
    {
        let Loose { ptr, alloc: _ } = value;
        IocHandle { at: ptr as *mut u8 }
    }

    // What the handle holds, if it isn't empty.
    fn into_loose(self, alloc: Global) -> Option<Loose<Ioc, Global>>
        ensures { option_map (λ b. b.value) result ≡ self.value }
    {
        let IocHandle { at } = self;
        if at.is_null() {
            None
        } else {
            Some(Loose {
                ptr: at as *mut Ioc,
                alloc,
            })
        }
    }
}
