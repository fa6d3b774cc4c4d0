//! What the texts and the commands promise together.
ghost use Rattle.std.specs.Prelude.{◌≡◌, Some};
ghost use Rattle.std.specs.List.{All};
ghost use Rattle.mpt_trace.specs.Command.{NamesItsLength};
ghost use Rattle.mpt_trace.specs.Entries.{entry_line, entry_lines};
ghost use Rattle.mpt_trace.specs.ReadingEntries.{MovesItsKind, entry_read};

use crate::command_form::CommandForm;
use crate::entry::Entry;
use crate::ranges::{entries_fit, entry_fits, form_fits_its_cdb};

/// Reading an entry's line gives the entry, where its item, if it has one, is of its lane's kind.
pub fn line_reads_back(e: &Entry)
    ensures { MovesItsKind e.now → entry_read (entry_line e.now) ≡ Some e.now }
{
    entry_fits(e);
}

/// Two entries with the same line are the same, where their items are of their lanes' kinds.
pub fn lines_tell_apart(one: &Entry, other: &Entry)
    ensures { MovesItsKind one.now → MovesItsKind other.now → entry_line one.now ≡ entry_line other.now → one.now ≡ other.now }
{
    entry_fits(one);
    entry_fits(other);
}

/// Two traces with the same lines are the same, where their items are of their lanes' kinds.
pub fn lines_tell_traces_apart(one: &[Entry], other: &[Entry])
    ensures { All MovesItsKind one.now → All MovesItsKind other.now → entry_lines one.now ≡ entry_lines other.now → one.now ≡ other.now }
{
    entries_fit(one);
    entries_fit(other);
}

/// The length of the command that a form names is the one that a disk reads from its CDB
/// (`scsi_disk::length_of`). A form by its bytes names any length.
pub fn cdb_names_the_length(form: &CommandForm)
    ensures { NamesItsLength form.now }
{
    form_fits_its_cdb(form);
}
