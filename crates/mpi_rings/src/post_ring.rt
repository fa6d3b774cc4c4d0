//! The reply post ring.
ghost use Rattle.std.specs.Prelude.{◌≡◌, ◌≢◌, ◌≤◌, ◌<◌, ◌+◌, ◌%◌, ◌↔◌, length, replicate, slice_get, IfOk, IfSome, IsSome, IsTrue};
ghost use Rattle.mpi_rings.specs.PostRing.{all_unused, with_first_read, with_posted};

use crate::OutOfMemory;
use mpi_names::{POST_RING_ENTRIES, UNUSED_ENTRY};
use std::alloc::Global;
use std::marker::Model;

/// The reply post ring: 352 entries of 64 bits, into which the controller posts reply descriptors
/// and from which the host reads them. A contract sees the list of the descriptors that wait, the
/// oldest in front, and the host index. What goes in comes out in order: `post` adds at the list's
/// end alone, and `mark_read` takes from its front alone.
///
/// No call but `new` takes memory.
#[derive(Drop)]
pub struct PostRing {
    entries: Vec<u64>,
    post_index: u16,
    host_index: u16,
}

impl Model for PostRing {
    ghost use Rattle.mpi_rings.specs.PostRing.{PostState};
    ghost use Rattle.mpi_rings.specs.PostEntries.{IsInOrder, waiting_in};

    ghost Value = { PostState };

    ghost view = { λ r. record {
      waiting = waiting_in r.entries.items r.host_index;
      host_index = r.host_index;
    } };

    ghost invariant = { λ r. IsInOrder r.entries.items r.post_index r.host_index };
}

// The index after an index.
fn after(index: u16) -> u16
    requires { index < POST_RING_ENTRIES }
    ensures { result ≡ (index + 1) % POST_RING_ENTRIES }
{
    (index + 1) % POST_RING_ENTRIES as u16
}

// The entries of a new ring, or OutOfMemory.
fn unused_entries(alloc: Global) -> Result<Vec<u64>, OutOfMemory>
    ensures { IfOk result (λ entries. entries.items ≡ replicate POST_RING_ENTRIES UNUSED_ENTRY) }
{
    vec![in alloc; UNUSED_ENTRY; POST_RING_ENTRIES]
}

impl PostRing {
    /// A ring of unused entries, whose host index is 0; or OutOfMemory.
    pub fn new(alloc: Global) -> Result<PostRing, OutOfMemory>
        ensures { IfOk result (λ ring. ring ≡ all_unused) }
    {
        let entries = unused_entries(alloc)?;
        Ok(PostRing {
            entries,
            post_index: 0,
            host_index: 0,
        })
    }

    /// Whether the entry at the post index is used: 352 descriptors wait, and none may be posted.
    pub fn is_full(&self) -> bool
        ensures full { IsTrue result ↔ (length self.now.waiting ≡ POST_RING_ENTRIES) }
        ensures bound { length self.now.waiting ≤ POST_RING_ENTRIES }
    {
        self.entries[usize::from(self.post_index)] != UNUSED_ENTRY
    }

    /// Posts a descriptor. The entry at the post index is unused, and the descriptor isn't all ones,
    /// which would read as an unused entry.
    pub fn post(&mut self, d: u64)
        requires room { length self.old.waiting < POST_RING_ENTRIES }
        requires used { d ≢ UNUSED_ENTRY }
        ensures { self.new ≡ with_posted self.old d }
    {
        self.entries[usize::from(self.post_index)] = d;
        self.post_index = after(self.post_index);
    }

    /// The descriptor at the host index, which is the oldest that waits. None exactly where the
    /// entry there is unused, since none waits.
    pub fn next(&self) -> Option<u64>
        ensures oldest { result ≡ slice_get self.now.waiting 0 }
        ensures some { IsSome result ↔ (0 < length self.now.waiting) }
        ensures used { IfSome result (λ d. d ≢ UNUSED_ENTRY) }
    {
        let entry = self.entries[usize::from(self.host_index)];
        if entry == UNUSED_ENTRY {
            None
        } else {
            Some(entry)
        }
    }

    /// Marks the entry at the host index unused, and gives the new host index, from 0 to 351. A
    /// descriptor waits there: `next` isn't None.
    pub fn mark_read(&mut self) -> u16
        requires { 0 < length self.old.waiting }
        ensures read { self.new ≡ with_first_read self.old }
        ensures index { result ≡ self.new.host_index }
        ensures range { result < POST_RING_ENTRIES }
    {
        self.entries[usize::from(self.host_index)] = UNUSED_ENTRY;
        self.host_index = after(self.host_index);
        self.host_index
    }
}
