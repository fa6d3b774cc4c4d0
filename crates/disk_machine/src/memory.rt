//! What a trace said so far, as far as later entries ask for it.
ghost use Rattle.std.specs.Prelude.{◌≡◌, Option, IfOk, OnOk, option_copied};
ghost use Rattle.std.specs.Option.{option_map};
ghost use Rattle.std.specs.Ordering.{nat_cmp};
ghost use Rattle.std.specs.BTreeMap as tree;
ghost use Rattle.mpt_trace.specs.declared.entry.Entry.{Entry};
ghost use Rattle.mpt_trace.specs.declared.parties.Party.TheVariants as party;
ghost use Rattle.mpt_wire.specs.Machine.SoFar.{SoFar, after_entry, nothing_so_far, so_far_next};
ghost use Rattle.mpt_wire.specs.Walks.Ahead.{is_of};
ghost use Rattle.disk_machine.specs.Memory.{HasNumbers, Remembers, input_of_entry};

use mpt_trace::{Entry, Handle, Input, OutOfMemory, Party, Tag, party};
use std::alloc::Global;
use std::collections::BTreeMap;

/// What a trace said: the input of the host's last entry, the number of the last accept of each
/// identifier, and the plug of the last bind of each handle.
#[derive(Drop)]
pub(crate) struct TraceMemory {
    alloc: Global,
    asked: Option<Input>,
    numbers: BTreeMap<Tag, u32>,
    plugs: BTreeMap<Handle, u32>,
}

impl TraceMemory {
    // Nothing was said.
    pub(crate) fn new(alloc: Global) -> TraceMemory
        ensures { Remembers result nothing_so_far }
    {
        TraceMemory {
            alloc,
            asked: None,
            numbers: BTreeMap::new(alloc),
            plugs: BTreeMap::new(alloc),
        }
    }

    // The input of the host's last entry, where it was one.
    pub(crate) fn asked(&self) -> Option<&Input>
        ensures { option_copied result ≡ self.now.asked }
    {
        self.asked.as_ref()
    }

    // The number of the last accept of an identifier.
    pub(crate) fn number_of(&self, tag: Tag) -> Option<u32>
        ensures { result ≡ tree.get nat_cmp self.now.numbers tag }
    {
        self.numbers.get(&tag).copied()
    }

    // The plug of the last bind of a handle.
    pub(crate) fn plug_of(&self, handle: Handle) -> Option<u32>
        ensures { result ≡ tree.get nat_cmp self.now.plugs handle }
    {
        self.plugs.get(&handle).copied()
    }

    // An entry is said.
    pub(crate) fn hear(&mut self, entry: &Entry) -> Result<(), OutOfMemory>
        ensures { OnOk result ((g : SoFar) (ahead : Option Entry) → Remembers self.old g → Remembers self.new (so_far_next g entry.now ahead)) }
    {
        self.learn(entry)?;
        if is_of_host(entry) {
            self.asked = copy_of_input(self.alloc, entry)?;
        }
        Ok(())
    }

    // What an entry says of identifiers and handles.
    fn learn(&mut self, entry: &Entry) -> Result<(), OutOfMemory>
        ensures numbers { OnOk result ((g : SoFar) (ahead : Option Entry) → HasNumbers self.old.numbers g.number_of → HasNumbers self.new.numbers (after_entry g entry.now ahead).number_of) }
        ensures plugs { OnOk result ((g : SoFar) (ahead : Option Entry) → HasNumbers self.old.plugs g.plug_of → HasNumbers self.new.plugs (after_entry g entry.now ahead).plug_of) }
        ensures asked { self.new.asked ≡ self.old.asked }
    {
        match entry {
            Entry::Bind { handle, plug, .. } => {
                self.plugs.insert(*handle, *plug)?;
            }
            Entry::Accept { n, smid, .. } => {
                self.numbers.insert(*smid, *n)?;
            }
            _ => {}
        }
        Ok(())
    }
}

// Whether an entry is the host's.
pub(crate) fn is_of_host(entry: &Entry) -> bool
    ensures { result ≡ is_of party.Host entry.now }
{
    matches!(party(entry), Party::Host)
}

// Whether an entry is the fabric's.
pub(crate) fn is_of_fabric(entry: &Entry) -> bool
    ensures { result ≡ is_of party.Fabric entry.now }
{
    matches!(party(entry), Party::Fabric)
}

// The input of an entry, where it is one.
fn copy_of_input(alloc: Global, entry: &Entry) -> Result<Option<Input>, OutOfMemory>
    ensures { IfOk result (λ input. input ≡ input_of_entry entry.now) }
{
    match entry {
        Entry::Given(input) => Ok(Some(input.copy(alloc)?)),
        _ => Ok(None),
    }
}
