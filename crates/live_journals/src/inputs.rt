//! The inputs in a trace.
ghost use Rattle.std.specs.Prelude.{All};
ghost use Rattle.live_journals.specs.Parties.{IsEnteredInput};

use mpt_trace::{Entry, entry_fits};

/// Each input that was entered has numbers that an input can have. It changes nothing: what it promises is a law of
/// every trace that code holds.
pub fn entered_inputs_fit(entries: &[Entry])
    ensures { All IsEnteredInput entries.now }
{
    for entry in entries {
        input_fits(entry);
    }
}

fn input_fits(entry: &Entry)
    ensures { IsEnteredInput entry.now }
{
    if let Entry::Given(_) = entry {
        entry_fits(entry);
    }
}
