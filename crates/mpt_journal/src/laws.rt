//! Laws of the merge.
ghost use Rattle.std.specs.Prelude.{List};
ghost use Rattle.mpt_trace.specs.declared.entry.Entry.{Entry};
ghost use Rattle.mpt_journal.specs.Laws.{MergesAreByStamp, MergesKeepCases, MergesKeepJournals, MergesShowCases, MergesShowJournals};

/// Where the stamps of each party's cases rise, a case's entries stand together in the merge: to merge
/// the entries one by one, each with its case's stamp, is to merge whole cases.
pub fn merge_keeps_cases()
    ensures { MergesKeepCases }
{}

/// Where the parties differ, each party's part of the merge is its own journal in order: of the moments
/// by the party's number, be they entries or whole cases, and of the entries by whose they are, where each
/// journal has its own party's alone.
pub fn merge_keeps_journals()
    ensures moments { MergesKeepJournals Entry }
    ensures cases { MergesKeepJournals (List Entry) }
    ensures entries { MergesShowJournals }
    ensures trace { MergesShowCases }
{}

/// Where the stamps of no journal fall, the merge is by rising stamp and party number, be it of entries or of
/// whole cases.
pub fn merge_is_by_stamp()
    ensures entries { MergesAreByStamp Entry }
    ensures cases { MergesAreByStamp (List Entry) }
{}
