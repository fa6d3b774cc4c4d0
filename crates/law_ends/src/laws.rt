//! The laws.
ghost use Rattle.law_ends.specs.HostEnds.{HostsAnswerOnce, StrangeChangesNothing};
ghost use Rattle.law_ends.specs.HostResults.{ResultsAreOfReplies};
ghost use Rattle.law_ends.specs.IocEnds.{FramesAreReturned, RepliesAreForPosts};
ghost use Rattle.law_ends.specs.IocTasks.{TasksGoWhereBound};
ghost use Rattle.law_ends.specs.Recovery.{ControllersComeBack};

/// Over any list of moves of a new host: no number is accepted twice or answered twice, and each that is answered was
/// accepted before.
pub fn hosts_answer_once()
    ensures { HostsAnswerOnce }
{}

/// Over any list of moves of a new host: an answer Done has the status, data and sense of a reply of its command's
/// identifier, which the move of the answer brings, after the command was accepted.
pub fn results_are_of_replies()
    ensures { ResultsAreOfReplies }
{}

/// A move that brings a strange item changes nothing: the talk without what it says is that of the list without it.
pub fn strange_changes_nothing()
    ensures { StrangeChangesNothing }
{}

/// Over any list of moves of a controller that was just made or reset: it replies to an identifier at most as often as it
/// was posted.
pub fn replies_are_for_posts()
    ensures { RepliesAreForPosts }
{}

/// Over any list of moves of a controller that was just made or reset: it uses a reply frame at most as often as it was
/// returned.
pub fn frames_are_returned()
    ensures { FramesAreReturned }
{}

/// Over any list of moves of a new controller: each task that it puts was sent, at an earlier place, to the address to
/// which its post's handle was bound then.
pub fn tasks_go_where_bound()
    ensures { TasksGoWhereBound }
{}

/// Behind any list of moves of a new controller, in FAULT and amid a handshake too: when the host writes the keys and
/// resets the adapter, the controller puts one link to the fabric; and when that was answered and the host reads the
/// Doorbell, the last thing that reply queue 0 says is that the controller is READY.
pub fn controllers_come_back()
    ensures { ControllersComeBack }
{}
