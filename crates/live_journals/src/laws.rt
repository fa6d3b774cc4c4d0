//! The law. Its function does nothing: what its contract says is all that it is for.
ghost use Rattle.live_journals.specs.Parties.{JournalsMakeSessions};

/// Where some cases led each party from what it was at first, some session leaves the parties so; its trace is the merge
/// of their journals, in which a case's entries stand together.
pub fn journals_make_sessions()
    ensures { JournalsMakeSessions }
{}
