//! The work of the submitters.
ghost use Rattle.std.specs.Prelude.{◌≡◌, ℕ, ◌<◌, IfOk, length, slice_index_or, vec_len};
ghost use Rattle.std.specs.List.{AllZip};
ghost use Rattle.mpt_live.specs.Submitters.{NumberedEnd};
ghost use Rattle.live_session.specs.Left.{HasRun, SubmittersBegin, SubmittersLeft, SubmittersRan};

use crate::lines::copies_of;
use crate::sides::SubmitterSides;
use mpt_journal::{Journal, OutOfMemory};
use mpt_live::{Gate, SubmitterEnd, Workplace, run_submitter};
use mpt_script::Inputs;
use std::alloc::Global;
use std::sync::Wait;
use std::thread;
use std::thread::Threads;

/// The ends of the submitters with these lines, by their number.
pub(crate) fn submitter_ends<'a>(
    alloc: Global,
    inputs: &[Inputs],
    sides: SubmitterSides<'a>,
) -> Result<Vec<SubmitterEnd<'a>>, OutOfMemory>
    requires few { length inputs.now < 9 }
    requires asks { vec_len sides.asks ≡ length inputs.now }
    requires tells { vec_len sides.tells ≡ length inputs.now }
    ensures begin { IfOk result (λ ends. SubmittersBegin 0 ends.items) }
    ensures count { IfOk result (λ ends. vec_len ends ≡ length inputs.now) }
{
    let SubmitterSides {
        mut asks,
        mut tells,
    } = sides;
    let mut ends = Vec::new(alloc);
    for lines in inputs {
        let number = ends.len() as u8;
        let lines = copies_of(alloc, lines)?;
        let (ask, tell) = (asks.remove(0), tells.remove(0));
        ends.push(SubmitterEnd::new(alloc, number, lines, ask, tell))?;
    }
    Ok(ends)
}

/// The work of all submitters, each in a thread of its own: their journals, by their number. OutOfMemory where memory was
/// wanting for one of them.
pub(crate) fn submitters_work<'a, R: Threads + Wait + Sync, G: Gate + Sync>(
    rt: &R,
    workplace: &Workplace,
    gate: &G,
    alloc: Global,
    mut ends: Vec<SubmitterEnd<'a>>,
) -> Result<Vec<Journal>, OutOfMemory>
    requires { SubmittersBegin 0 ends.items }
    ensures { IfOk result (λ journals. SubmittersLeft 0 journals.items × (vec_len journals ≡ vec_len ends.entry)) }
{
    run_all(rt, workplace, gate, &mut ends);
    journals_of(alloc, ends)
}

// Runs each end in a thread of its own until all have ended.
fn run_all<'a, R: Threads + Wait + Sync, G: Gate + Sync>(
    rt: &R,
    workplace: &Workplace,
    gate: &G,
    ends: &mut [SubmitterEnd<'a>],
)
    ensures { AllZip HasRun ends.old ends.new }
{
    run_each(rt, workplace, gate, ends);
}

// The same, said of each by its place.
fn run_each<'a, R: Threads + Wait + Sync, G: Gate + Sync>(
    rt: &R,
    workplace: &Workplace,
    gate: &G,
    ends: &mut [SubmitterEnd<'a>],
)
    ensures { (i : ℕ) (d : NumberedEnd) → i < length ends.old → HasRun (slice_index_or ends.old i d) (slice_index_or ends.new i d) }
{
    // One at least.
    let threads = ends.len().max(1);
    thread::for_each_mut(
        rt,
        ends,
        threads,
        &|_, end| run_one(rt, workplace, gate, end),
    );
}

// Runs one end until it has ended.
fn run_one<R: Wait, G: Gate>(rt: &R, workplace: &Workplace, gate: &G, end: &mut SubmitterEnd<'_>)
    ensures { HasRun end.old end.new }
{
    run_submitter(rt, workplace, gate, end);
}

// The journals of the ends; or OutOfMemory where memory was wanting, for one of them or here.
fn journals_of(alloc: Global, ends: Vec<SubmitterEnd<'_>>) -> Result<Vec<Journal>, OutOfMemory>
    requires { SubmittersRan 0 ends.items }
    ensures { IfOk result (λ journals. SubmittersLeft 0 journals.items × (vec_len journals ≡ vec_len ends.entry)) }
{
    let mut journals = Vec::new(alloc);
    for end in ends {
        if end.is_spent() {
            return Err(OutOfMemory);
        }
        journals.push(end.finish())?;
    }
    Ok(journals)
}
