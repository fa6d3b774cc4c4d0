//! Moments that are merged.
ghost use Rattle.std.specs.Prelude.{◌≡◌};
ghost use Rattle.mpt_rules.specs.Session.Journals.{is_not_after, party_number};
ghost use Rattle.mpt_journal.specs.Moment.{of_moment};

use mpt_trace::{Entry, Party};

/// An entry that stays in its journal, with what orders it: its stamp and its party's number.
#[derive(Clone, Copy)]
pub(crate) struct Moment<'a> {
    /// The stamp.
    pub(crate) stamp: u64,
    /// The party's number.
    pub(crate) number: u16,
    /// The entry.
    pub(crate) entry: &'a Entry,
}

impl Moment<'_> {
    /// Whether it isn't after the other: stamps decide, and where they are equal the parties' numbers.
    pub(crate) fn is_not_after(&self, other: &Moment<'_>) -> bool
        ensures { result ≡ is_not_after (of_moment self.now) (of_moment other.now) }
    {
        self.stamp < other.stamp || self.stamp == other.stamp && self.number <= other.number
    }
}

/// A party's number: the host's, the controller's, the fabric's, then the submitters' by theirs.
pub(crate) fn party_number(party: Party) -> u16
    ensures { result ≡ party_number party }
{
    match party {
        Party::Host => 0,
        Party::Ioc => 1,
        Party::Fabric => 2,
        Party::Submitter(i) => 3 + u16::from(i),
    }
}
