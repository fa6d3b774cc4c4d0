//! The laws.
ghost use Rattle.std.specs.Prelude.{◌≡◌, ℕ, ◌^◌, ◌<◌, ◌≤◌, true};
ghost use Rattle.hex.specs.Hex.{IsBytes};
ghost use Rattle.scsi_disk.specs.Command.{fits};
ghost use Rattle.scsi_disk.specs.declared.command.Command.{Command};
ghost use Rattle.mpt_rules.specs.Host.Posts.{command_asked, frame_asked};
ghost use Rattle.mpt_rules.specs.Ioc.Commands.{command_in};
ghost use Rattle.mpt_rules.specs.World.Cases.{Case, entries, happens};
ghost use Rattle.mpt_rules.specs.Law.{NothingIsStrange};
ghost use Rattle.mpt_rules.specs.World.State.{World};
ghost use Rattle.law_facts.specs.Facts.{Facts};
ghost use Rattle.law_facts.specs.History.{History, history_after};
ghost use Rattle.law_messages.specs.Numbers.{AbortsAreAccepted};
ghost use Rattle.law_asked.specs.Asked.{ResetsWait, TasksStand};

/// Where all facts hold of a world, each open abort is of a number that was accepted, and nothing on its way is strange to the
/// host, each case keeps that a task at the fabric is that of an open command, and a result the machine's.
pub fn tasks_are_kept()
    ensures { (w : World) (h : History) (c : Case) → Facts w h → NothingIsStrange w → AbortsAreAccepted w → TasksStand (happens w c) (history_after h (entries w c)) }
{}

/// With the same premises each case keeps that a target reset that waits at the controller, until the last command of its handle
/// has left the fabric, is one that was asked, or that of its handle's removal.
pub fn held_resets_are_kept()
    ensures { (w : World) (h : History) (c : Case) → Facts w h → NothingIsStrange w → AbortsAreAccepted w → ResetsWait (happens w c) }
{}

/// What the controller reads of the frame of a command that fits, of bytes and of unit 0, is that command.
pub fn commands_are_read_as_written()
    ensures { (c : Command) (s handle : ℕ) → fits c ≡ true → IsBytes c.cdb → c.lun ≡ 0 → 1 ≤ s → s ≤ 256 → handle < 2 ^ 16 → command_in (frame_asked (command_asked s handle c)) c.payload ≡ c }
{}
