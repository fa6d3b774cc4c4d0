//! The host's reply post rings.
ghost use Rattle.std.specs.Prelude.{◌≡◌, ◌≢◌, ◌≤◌, ◌<◌, ◌+◌, ◌%◌, IfOk, IsTrue, [], drop, false, length, replicate, slice_index, slice_index_or, slice_set, true};
ghost use Rattle.std.specs.List.{list_all};
ghost use Rattle.mpi_rings.specs.PostRing.{PostState};

use mpi_rings::PostRing;
use mpt_rules::OutOfMemory;
use std::alloc::Global;
use std::marker::Model;

/// From 1 to 8 reply post rings, one for each reply queue, and whether the mark of a reset was taken
/// of each. Between two calls nothing waits in a ring. No call but `new` takes memory.
#[derive(Drop)]
pub struct ReplyRings {
    rings: Vec<PostRing>,
    marks: Vec<bool>,
}

impl Model for ReplyRings {
    ghost use Rattle.std.specs.Prelude.{map};
    ghost use Rattle.host_tables.specs.Rings.{IsRings, Rings, index_of};

    ghost Value = { Rings };

    ghost view = { λ r. record { indices = map index_of r.rings.items; marks = r.marks.items } };

    ghost invariant = { λ r. IsRings r.rings.items r.marks.items };
}

impl ReplyRings {
    /// So many rings, and no mark was taken; or OutOfMemory.
    pub fn new(alloc: Global, queues: u8) -> Result<ReplyRings, OutOfMemory>
        requires { (1 ≤ queues) × (queues ≤ 8) }
        ensures { IfOk result (λ rings. rings ≡ record { indices = replicate queues 0; marks = replicate queues false }) }
    {
        let rings = new_rings(alloc, queues)?;
        let marks = no_marks(alloc, usize::from(queues))?;
        Ok(ReplyRings { rings, marks })
    }

    /// How many there are, from 1 to 8.
    pub fn count(&self) -> u8
        ensures value { result ≡ length self.now.indices }
        ensures range { (1 ≤ result) × (result ≤ 8) }
    {
        self.rings.len() as u8
    }

    /// A descriptor comes in at the ring of a queue and is read: the host index after it, from 0 to
    /// 351. It isn't all ones.
    pub fn take(&mut self, queue: u8, descriptor: u64) -> u16
        requires queue { queue < length self.old.indices }
        requires used { descriptor ≢ 0xffff_ffff_ffff_ffff }
        ensures value { result ≡ (slice_index self.old.indices queue + 1) % 352 }
        ensures index { self.new ≡ record self.old { indices = slice_set self.old.indices queue result } }
    {
        let ring = &mut self.rings[usize::from(queue)];
        passes_through(ring, descriptor)
    }

    /// Whether the mark of a queue was taken. There is no mark to be taken of what is no queue.
    pub fn is_marked(&self, queue: u8) -> bool
        ensures { result ≡ slice_index_or self.now.marks queue true }
    {
        match self.marks.get(usize::from(queue)) {
            Some(taken) => *taken,
            None => true,
        }
    }

    /// The mark of a queue was taken.
    pub fn mark(&mut self, queue: u8)
        requires { queue < length self.old.indices }
        ensures { self.new ≡ record self.old { marks = slice_set self.old.marks queue true } }
    {
        self.marks[usize::from(queue)] = true;
    }

    /// Whether the marks of all queues above 0 were taken.
    pub fn has_all_marks(&self) -> bool
        ensures { result ≡ list_all (λ taken. taken) (drop 1 self.now.marks) }
    {
        match self.marks.split_first() {
            Some((_, above)) => above.iter().all(|taken| *taken),
            None => true,
        }
    }

    /// No mark was taken.
    pub fn clear_marks(&mut self)
        ensures { self.new ≡ record self.old { marks = replicate (length self.old.indices) false } }
    {
        clear(&mut self.marks);
    }
}

// So many rings, or OutOfMemory.
fn new_rings(alloc: Global, queues: u8) -> Result<Vec<PostRing>, OutOfMemory>
    ensures { IfOk result (λ rings. rings.items ≡ replicate queues (record { waiting = []; host_index = 0 })) }
{
    let mut rings = Vec::new(alloc);
    for _queue in 0..queues {
        rings.push(PostRing::new(alloc)?)?;
    }
    Ok(rings)
}

// So many marks that weren't taken, or OutOfMemory.
fn no_marks(alloc: Global, count: usize) -> Result<Vec<bool>, OutOfMemory>
    ensures { IfOk result (λ marks. marks.items ≡ replicate count false) }
{
    Ok(vec![in alloc; false; count]?)
}

// No mark is left.
fn clear(marks: &mut [bool])
    ensures { marks.new ≡ replicate (length marks.old) false }
{
    marks.fill(false);
}

// A descriptor is posted in a ring in which none waits, read and marked unused.
fn passes_through(ring: &mut PostRing, descriptor: u64) -> u16
    requires empty { ring.old.waiting ≡ [] }
    requires used { descriptor ≢ 0xffff_ffff_ffff_ffff }
    ensures value { result ≡ (ring.old.host_index + 1) % 352 }
    ensures after { ring.new ≡ record { waiting = []; host_index = result } }
{
    ring.post(descriptor);
    ring.mark_read()
}
