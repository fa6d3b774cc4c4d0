//! Writing a whole text to a sink.
ghost use Rattle.std.specs.Prelude.{◌≡◌, ℕ, ◌<◌, length, take, OnOk, OnErr};
ghost use Rattle.std.specs.Io.KnownBytes.{Appends};
ghost use Rattle.mpt_outside.specs.Counts.{Rose, NeverFalls};

use crate::errors::Failed;
use crate::sink::Sink;

/// Writes a whole text to a sink. Where the sink fails, it took a part at the text's front.
pub fn write_all<K: Sink>(sink: &mut K, text: &[u8]) -> Result<(), Failed>
    ensures whole { OnOk result (Appends (K.taken sink.old) (K.taken sink.new) text.now) }
    ensures prefix { OnErr result ((count : ℕ) × (count < length text.now)
        × Appends (K.taken sink.old) (K.taken sink.new) (take count text.now)) }

    // Of the sink's faults.
    ensures failed { OnErr result (Rose (K.faults sink.old) (K.faults sink.new)) }
    ensures steady { OnOk result (K.faults sink.new ≡ K.faults sink.old) }
    ensures never_falls { NeverFalls (K.faults sink.old) (K.faults sink.new) }
{
    let mut done = 0;
    while done < text.len() {
        done += sink.put(&text[done..])?;
    }
    Ok(())
}
