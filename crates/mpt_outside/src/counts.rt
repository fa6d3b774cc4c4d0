//! Counts of 64 bits, which stand still at their last value.
ghost use Rattle.std.specs.Prelude.{◌≡◌, ◌↔◌, IsTrue, Contains};
ghost use Rattle.mpt_outside.specs.Counts.{counted, Rose, NeverFalls};

/// A count after one more.
#[tactic(auto, unfolding(crate::specs::Counts::counted))]
pub(crate) fn one_more(count: u64) -> u64
    ensures value { result ≡ counted count 1 }
    ensures rose { Rose count result }
    ensures never_falls { NeverFalls count result }
{
    count.saturating_add(1)
}

/// A count after so many more.
#[tactic(auto, unfolding(crate::specs::Counts::counted))]
pub(crate) fn count_on(count: u64, more: usize) -> u64
    ensures { result ≡ counted count more }
{
    count.saturating_add(more as u64)
}

/// Whether a list of calls has this one.
pub(crate) fn is_listed(calls: &[u32], call: u64) -> bool
    ensures { IsTrue result ↔ Contains calls.now call }
{
    calls.iter().any(|listed| u64::from(*listed) == call)
}
