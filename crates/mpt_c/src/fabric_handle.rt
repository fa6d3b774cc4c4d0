//! A handle of a fabric.
ghost use Rattle.std.specs.Prelude.{◌≡◌, Option, None, Some};
ghost use Rattle.std.specs.Option.{option_map};
ghost use Rattle.std.specs.Coded.{coded_option};
ghost use Rattle.mpt_rules.specs.Fabric.Parts.{Fabric as FabricRules};
ghost use Rattle.sas_fabric.specs.contracts.fabric.Fabric.{the_row};

use mpt_c_calls::Loose;
use sas_fabric::Fabric;
use std::alloc::Global;
use std::marker::Model;
use std::mem::replace;
use std::ptr::null_mut;

/// A handle of a fabric (mpt.h, `mpt_fabric`): a pointer to it in memory of the library's, or null.
#[repr(C)]
pub struct FabricHandle {
    at: *mut u8,
    pub ghost value: { Option FabricRules } by { coded_option the_row.coded },
}

impl Model for FabricHandle {
    ghost use Rattle.sas_fabric.specs.contracts.fabric.Fabric.{the_row};
    ghost use Rattle.mpt_c.specs.Holding.{holds};

    ghost also_owns = { λ l. holds the_row l.at l.value };
}

impl FabricHandle {
    /// Takes the fabric out of the handle, which is then empty.
    pub fn take(&mut self, alloc: Global) -> Option<Box<Fabric>>
        ensures taken { option_map (λ b. b.value) result ≡ self.old.value }
        ensures left { self.new.value ≡ None }
    {
        match replace(self, FabricHandle::empty()).into_loose(alloc) {
            None => None,
            Some(loose) => Some(loose.into_box()),
        }
    }

    /// Puts a fabric into the handle. Another that was there is freed.
    pub fn put(&mut self, alloc: Global, fabric: Box<Fabric>)
        ensures { self.new.value ≡ Some fabric.value }
    {
        match replace(self, FabricHandle::of(Loose::of(fabric))).into_loose(alloc) {
            None => {}
            Some(loose) => drop(loose.into_box()),
        }
    }

    // A handle of nothing: its pointer is null.
    fn empty() -> FabricHandle
        ensures { result.value ≡ None }
    {
        FabricHandle { at: null_mut() }
    }

    // The pointer goes to C as one to bytes, which it doesn't read.
    fn of(value: Loose<Fabric, Global>) -> FabricHandle
        ensures { result.value ≡ Some value.value }
    {
        let Loose { ptr, alloc: _ } = value;
        FabricHandle { at: ptr as *mut u8 }
    }

    // What the handle holds, if it isn't empty.
    fn into_loose(self, alloc: Global) -> Option<Loose<Fabric, Global>>
        ensures { option_map (λ b. b.value) result ≡ self.value }
    {
        let FabricHandle { at } = self;
        if at.is_null() {
            None
        } else {
            Some(Loose {
                ptr: at as *mut Fabric,
                alloc,
            })
        }
    }
}
