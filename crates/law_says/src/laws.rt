//! The laws.
ghost use Rattle.std.specs.Prelude.{List};
ghost use Rattle.mpt_rules.specs.Law.{FramesHaveOnePlace, IdentifiersHaveOnePlace, NothingFaults, NothingIsStrange, QueuesAreShort};
ghost use Rattle.mpt_rules.specs.World.Cases.{Case, happens, run};
ghost use Rattle.mpt_rules.specs.World.Settings.{Setting, first_world};
ghost use Rattle.mpt_rules.specs.World.State.{World};
ghost use Rattle.law_facts.specs.Facts.{Facts, SaysOfWorld};
ghost use Rattle.law_facts.specs.History.{History};
ghost use Rattle.law_says.specs.Premises.{DescriptorsStand};

/// Where all facts hold of a world, each identifier has one place, or none where a reset that is going on dropped its item.
pub fn identifiers_have_one_place_by_facts()
    ensures { (w : World) (h : History) → Facts w h → IdentifiersHaveOnePlace w }
{}

/// So has each reply frame.
pub fn frames_have_one_place_by_facts()
    ensures { (w : World) (h : History) → Facts w h → FramesHaveOnePlace w }
{}

/// The controller isn't in FAULT.
pub fn nothing_faults_by_facts()
    ensures { (w : World) (h : History) → Facts w h → NothingFaults w }
{}

/// The controller's queues are no longer than there are identifiers of their kinds.
pub fn queues_are_short_by_facts()
    ensures { (w : World) (h : History) → Facts w h → QueuesAreShort w }
{}

/// Where the reply descriptors on the lanes up have the flags of their kinds too, nothing that is on its way is strange to the host.
pub fn nothing_is_strange_by_facts()
    ensures { (w : World) (h : History) → Facts w h → DescriptorsStand w → NothingIsStrange w }
{}

/// Then all that the law says of a world holds of it.
pub fn facts_say()
    ensures { (w : World) (h : History) → Facts w h → DescriptorsStand w → SaysOfWorld w }
{}

/// Each case keeps the flags of the reply descriptors, with no other premise.
pub fn descriptors_are_kept()
    ensures { (w : World) → DescriptorsStand w → (c : Case) → DescriptorsStand (happens w c) }
{}

/// They hold of the world that any list of cases leads to, from the first world of any setting.
pub fn descriptors_stand()
    ensures { (s : Setting) (cases : List Case) → DescriptorsStand (run (first_world s) cases) }
{}
