//! The laws.
ghost use Rattle.mpt_rules.specs.Law.{NothingIsStrange};
ghost use Rattle.mpt_rules.specs.World.Cases.{Case, entries, happens};
ghost use Rattle.mpt_rules.specs.World.Settings.{IsCase, Setting};
ghost use Rattle.mpt_rules.specs.World.State.{World};
ghost use Rattle.law_facts.specs.Facts.{Facts};
ghost use Rattle.law_facts.specs.History.{History, first_history, history_after};
ghost use Rattle.law_messages.specs.Numbers.{AbortsAreAccepted};
ghost use Rattle.law_requests.specs.Bytes.{CommandsAreBytes, RequestsStand};

/// Where all facts hold of a world, each open abort is of a number that was accepted, each open command is of bytes and for unit 0, and nothing on its
/// way is strange to the host, each case keeps that what the controller has of an identifier at the fabric, and what it sends there, is of the
/// identifier's record: the command with its handle, its reply queue and its disk's address.
pub fn requests_are_kept()
    ensures { (w : World) (h : History) (c : Case) → Facts w h → NothingIsStrange w → AbortsAreAccepted w → CommandsAreBytes h → RequestsStand (happens w c) (history_after h (entries w c)) }
{}

/// Where all facts hold of a world, and each open command is of bytes and for unit 0, so is each that is open in the world that any case leads to whose
/// numbers are those that an input can have.
pub fn open_commands_are_of_bytes()
    ensures { (w : World) (h : History) (c : Case) → IsCase c → Facts w h → CommandsAreBytes h → CommandsAreBytes (history_after h (entries w c)) }
{}

/// So it is in the first world of any setting.
pub fn open_commands_are_of_bytes_at_first()
    ensures { (s : Setting) → CommandsAreBytes (first_history s.disks) }
{}
