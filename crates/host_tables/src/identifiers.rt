//! The host's identifiers.
ghost use Rattle.std.specs.Prelude.{◌≡◌, ◌≤◌, IfOk, IfSome, IsTrue, None, count_by, is_some, length, true, false};
ghost use Rattle.std.specs.List.{list_any};
ghost use Rattle.smid_pool.specs.declared.class.Class.TheVariants.{High, Internal, ScsiIo};
ghost use Rattle.smid_pool.specs.Pool.{Free, Open, Parked, all_free, is_open, is_parked, least_free, record_of, slot_of, with_slot};
ghost use Rattle.mpt_rules.specs.World.Weight.{is_target_reset_slot};
ghost use Rattle.host_tables.specs.Slots.{IsInternalSmid, is_internal, is_target_reset_request};

use mpt_rules::{OutOfMemory, Request};
use mpt_trace::Smid;
use smid_pool::{Class, Pool};
use std::alloc::Global;
use std::marker::Model;

/// The identifiers from 1 to 280, each free, open for a request, or parked. No call but `new` takes
/// memory.
#[derive(Drop)]
pub struct Identifiers {
    pool: Pool<Request>,
}

impl Model for Identifiers {
    ghost use Rattle.std.specs.Prelude.{◌≡◌, List, length};
    ghost use Rattle.smid_pool.specs.Pool.{Slot, slot_code};
    ghost use Rattle.std.specs.Coded.{coded_list};
    ghost use Rattle.mpt_rules.specs.declared.request.Request.{Request};
    ghost use Rattle.mpt_rules.specs.contracts.request.Request as request_type;
    ghost use Rattle.host_tables.specs.Slots.{IsSorted};

    ghost Value = { List (Slot Request) };

    ghost coded = { coded_list (slot_code request_type.the_row.coded) };

    ghost view = { λ i. i.pool };

    ghost invariant = { λ i. IsSorted i.pool × (length i.pool ≡ 280) };
}

impl Identifiers {
    /// All are free; or OutOfMemory.
    pub fn new(alloc: Global) -> Result<Identifiers, OutOfMemory>
        ensures { IfOk result (λ identifiers. identifiers ≡ all_free) }
    {
        let pool = Pool::new(alloc)?;
        Ok(Identifiers { pool })
    }

    /// How many identifiers there are: 280.
    pub fn count(&self) -> u16
        ensures value { result ≡ length self.now }
        ensures size { result ≡ 280 }
    {
        let _pool = &self.pool;
        280
    }

    /// The request of an open identifier. None exactly where it isn't open.
    pub fn get(&self, smid: Smid) -> Option<Request>
        ensures value { result ≡ record_of (slot_of self.now smid) }
        ensures range { IfSome result (λ r. is_internal r ≡ true → IsInternalSmid smid) }
    {
        self.pool.get(smid).copied()
    }

    /// Whether the identifier is parked.
    pub fn is_parked(&self, smid: Smid) -> bool
        ensures { result ≡ is_parked (slot_of self.now smid) }
    {
        self.pool.is_parked(smid)
    }

    /// Whether an identifier of the class is free.
    pub fn has_free(&self, class: Class) -> bool
        ensures { result ≡ is_some (least_free class self.now) }
    {
        self.pool.has_free(class)
    }

    /// Opens the least free identifier of SCSI IOs, from 1 to 256, for the submission of a number.
    /// None exactly where none is free.
    pub fn open_command(&mut self, n: u32) -> Option<Smid>
        ensures least { result ≡ least_free ScsiIo self.old }
        ensures opened { IfSome result (λ smid. self.new ≡ with_slot smid (Open (Request.Command n)) self.old) }
        ensures range { IfSome result (λ smid. (1 ≤ smid) × (smid ≤ 256)) }
        ensures stays { result ≡ None → self.new ≡ self.old }
    {
        self.pool.open(Class::ScsiIo, Request::Command { n }).ok()
    }

    /// Opens the least free identifier of high priority requests for a request that isn't of the
    /// internal class. None exactly where none is free.
    pub fn open_high(&mut self, request: Request) -> Option<Smid>
        requires { is_internal request ≡ false }
        ensures least { result ≡ least_free High self.old }
        ensures opened { IfSome result (λ smid. self.new ≡ with_slot smid (Open request) self.old) }
        ensures stays { result ≡ None → self.new ≡ self.old }
    {
        self.pool.open(Class::High, request).ok()
    }

    /// Opens the least free identifier of the internal class for a request. None exactly where none
    /// is free.
    pub fn open_internal(&mut self, request: Request) -> Option<Smid>
        ensures least { result ≡ least_free Internal self.old }
        ensures opened { IfSome result (λ smid. self.new ≡ with_slot smid (Open request) self.old) }
        ensures range { IfSome result IsInternalSmid }
        ensures stays { result ≡ None → self.new ≡ self.old }
    {
        self.pool.open(Class::Internal, request).ok()
    }

    /// An open identifier is open for another request from now on. One of the internal class gets an
    /// identifier of that class.
    pub fn reopen(&mut self, smid: Smid, request: Request)
        requires open_now { IsTrue (is_open (slot_of self.old smid)) }
        requires class { is_internal request ≡ true → IsInternalSmid smid }
        ensures { self.new ≡ with_slot smid (Open request) self.old }
    {
        self.pool.reopen(smid, request);
    }

    /// Frees an open identifier.
    pub fn free(&mut self, smid: Smid)
        requires { IsTrue (is_open (slot_of self.old smid)) }
        ensures { self.new ≡ with_slot smid Free self.old }
    {
        self.pool.close(smid);
    }

    /// Frees a parked identifier.
    pub fn free_parked(&mut self, smid: Smid)
        requires { IsTrue (is_parked (slot_of self.old smid)) }
        ensures { self.new ≡ with_slot smid Free self.old }
    {
        self.pool.close(smid);
    }

    /// Parks an open identifier.
    pub fn park(&mut self, smid: Smid)
        requires { IsTrue (is_open (slot_of self.old smid)) }
        ensures { self.new ≡ with_slot smid Parked self.old }
    {
        self.pool.park(smid);
    }

    /// Whether one is open.
    pub fn has_open(&self) -> bool
        ensures { result ≡ list_any is_open self.now }
    {
        for place in 0..280 {
            if self.pool.get(place + 1).is_some() {
                return true;
            }
        }
        false
    }

    /// How many are open for a target reset that was asked from outside.
    pub fn target_reset_count(&self) -> usize
        ensures value { result ≡ count_by is_target_reset_slot self.now }
        ensures most { result ≤ 280 }
    {
        let mut count = 0;
        for place in 0..280 {
            if is_target_reset(self.pool.get(place + 1).copied()) {
                count += 1;
            }
        }
        count
    }

    /// Frees all.
    pub fn clear(&mut self)
        ensures { self.new ≡ all_free }
    {
        self.pool.clear();
    }
}

// Whether a request is a target reset that was asked from outside.
fn is_target_reset(request: Option<Request>) -> bool
    ensures { result ≡ is_target_reset_request request }
{
    matches!(request, Some(Request::TargetReset { .. }))
}
