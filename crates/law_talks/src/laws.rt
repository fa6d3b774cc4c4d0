//! The laws.
ghost use Rattle.mpt_rules.specs.Law.{NothingIsStrange};
ghost use Rattle.mpt_rules.specs.World.Cases.{Case, entries, happens};
ghost use Rattle.mpt_rules.specs.World.Settings.{Setting, first_world};
ghost use Rattle.mpt_rules.specs.World.State.{World, queues_of};
ghost use Rattle.law_facts.specs.Facts.{Facts};
ghost use Rattle.law_facts.specs.History.{History, first_history, history_after};
ghost use Rattle.law_bells.specs.Talks.{TalksStand};
ghost use Rattle.law_talks.specs.Shown.{TalkKept, TalkPasses};
ghost use Rattle.law_talks.specs.Talking.{TalkStands};

/// Where all facts, the further ones of the doorbell and those of a handshake's words hold of a world, and nothing on its way is strange to its host, the
/// words of a handshake, with the writes that are to be put, are the machine's in the world that any case leads to, and their further facts stand there.
pub fn words_are_kept()
    ensures { (w : World) (h : History) (c : Case) → Facts w h → NothingIsStrange w → TalksStand w → TalkStands w h → TalkKept (happens w c) (history_after h (entries w c)) }
{}

/// And after each entry of the case the handshake is one of the host's, as far as it came, and is cut off only where a reset was asked.
pub fn handshakes_hand_over()
    ensures { (w : World) (h : History) (c : Case) → Facts w h → NothingIsStrange w → TalksStand w → TalkStands w h → TalkPasses (queues_of w) h (entries w c) }
{}

/// Nothing is said in the first world of any setting.
pub fn words_stand_at_first()
    ensures { (s : Setting) → TalkStands (first_world s) (first_history s.disks) }
{}
