//! The merge of journals.
ghost use Rattle.std.specs.Prelude.{◌≡◌, IfOk, map};
ghost use Rattle.mpt_rules.specs.Session.Journals.{all_merged, all_of, merged, moment_values, party_number};
ghost use Rattle.mpt_journal.specs.Journal.{rows_of};
ghost use Rattle.mpt_journal.specs.Moment.{of_moment};

use crate::journal::Journal;
use crate::moment::{Moment, party_number};
use itertools::Itertools;
use mpt_trace::{OutOfMemory, Trace};
use std::alloc::Global;

/// The trace of all journals: their entries by rising stamp, and where stamps are equal by the party's
/// number (host 0, controller 1, fabric 2, submitter i 3 + i), those of one journal in its order. Or
/// OutOfMemory.
///
/// That the whole is by stamp rests on each journal's being so. The work grows with the number of all
/// entries times the number of journals.
pub fn merge(alloc: Global, journals: &[Journal]) -> Result<Trace, OutOfMemory>
    ensures { IfOk result (λ trace. trace.entries ≡ moment_values (all_merged (rows_of journals.now))) }
{
    let mut moments = Vec::new(alloc);
    for journal in journals.iter().rev() {
        moments = merged(alloc, journal, moments)?;
    }
    copied(alloc, &moments)
}

// The moments of a journal and those of the later ones in one.
fn merged<'a>(
    alloc: Global,
    journal: &'a Journal,
    later: Vec<Moment<'a>>,
) -> Result<Vec<Moment<'a>>, OutOfMemory>
    ensures { IfOk result (λ moments. map of_moment moments.items ≡ merged (all_of (party_number journal.now.row.party) journal.now.row.moments) (map of_moment later.entry.items)) }
{
    let number = party_number(journal.party());
    journal
        .as_slice()
        .iter()
        .map(|s| Moment {
            stamp: s.stamp,
            number,
            entry: &s.entry,
        })
        .merge_by(later, |x, y| x.is_not_after(y))
        .collect(alloc)
}

// A trace of copies of the entries.
fn copied(alloc: Global, moments: &[Moment<'_>]) -> Result<Trace, OutOfMemory>
    ensures { IfOk result (λ trace. trace.entries ≡ moment_values (map of_moment moments.now)) }
{
    let mut trace = Trace::new(alloc);
    trace.reserve(moments.len())?;
    for moment in moments {
        trace.push(moment.entry.copy(alloc)?)?;
    }
    Ok(trace)
}
