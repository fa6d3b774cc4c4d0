//! The laws.
ghost use Rattle.law_sessions.specs.OfCases.{SessionsAreOfCases};
ghost use Rattle.mpt_rules.specs.Law.{AllAreAnswered, AnsweredAtMostOnce, LeastIdentifiersAreTaken, NothingFaults, NothingIsStrange, SessionLanesAreQueues, SessionModesAgree, SessionsAreMerged, SessionsAreNeverStrange, SessionsFitPlans, SessionsNeverFault, TellsStandBehind};
ghost use Rattle.mpt_rules.specs.Session.Sessions.{EndsQuiet, IsSession, Session, session_trace};
ghost use Rattle.mpt_rules.specs.World.Settings.{OfEveryWorld, Setting};
ghost use Rattle.mpt_wire.specs.Queues.Lanes.{LanesInOrder};

/// The merge of a session's journals is sorted by stamp and party, and each party's part of it is its journal in order.
pub fn sessions_are_merged()
    ensures { SessionsAreMerged }
{}

/// Where what is taken from each lane was put there with a lesser stamp, in its order, the lanes of the merge are queues.
pub fn session_lanes_are_queues()
    ensures { SessionLanesAreQueues }
{}

/// Where each party does by itself what the plan says, the trace of the session fits the plan.
pub fn sessions_fit_plans()
    ensures { SessionsFitPlans }
{}

/// Where the lanes of a session are queues, what it does, beside the talk of its submitters with the host, is what some
/// list of cases does, and each party is left by it as by them.
pub fn sessions_are_of_cases()
    ensures { SessionsAreOfCases }
{}

/// Where the lanes of a session are queues, no number is accepted twice or answered twice in it, and at each end of a reset
/// none is unanswered; where it ends quiet, none is unanswered.
pub fn sessions_are_answered()
    ensures once { (s : Setting) (x : Session) → IsSession s x → LanesInOrder (session_trace s x) → AnsweredAtMostOnce s (session_trace s x) }
    ensures quiet { (s : Setting) (x : Session) → IsSession s x → LanesInOrder (session_trace s x) → EndsQuiet s x → AllAreAnswered (session_trace s x) }
{}

/// What is told stands right after an entry of its own party, in the merge of any session's journals.
pub fn session_tells_stand_behind()
    ensures { (s : Setting) (x : Session) → TellsStandBehind s (session_trace s x) }
{}

/// A submission is accepted under the least identifier that no open submission and no open abort has, in the merge of any
/// session's journals.
pub fn sessions_take_least()
    ensures { (s : Setting) (x : Session) → LeastIdentifiersAreTaken s (session_trace s x) }
{}

/// The machine's mode after a session is that of its host.
pub fn session_modes_agree()
    ensures { SessionModesAgree }
{}

/// Where nothing is strange in any world, nothing that the host takes in a session is; and where no controller faults in
/// any world, none does in a session.
pub fn sessions_are_as_worlds()
    ensures strange { OfEveryWorld NothingIsStrange → SessionsAreNeverStrange }
    ensures fault { OfEveryWorld NothingFaults → SessionsNeverFault }
{}
