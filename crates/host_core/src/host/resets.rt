//! A reset that was asked: how it begins, its marks, and its end.
ghost use Rattle.std.specs.Prelude.{◌≡◌, ◌≤◌, ◌<◌, ◌+◌, ◌++◌, IfSome, None, OnOk, length, map, true};
ghost use Rattle.std.specs.List.{filter_map};
ghost use Rattle.std.specs.FinMap as numbers;
ghost use Rattle.mpi_doorbell.specs.HostSteps.{Expects};
ghost use Rattle.mpt_rules.specs.Host.Resets.{begins_late, ends_reset, ends_reset_if_over, gives_up, hears_mark, hears_ready, renewed, reset_abort, reset_answer, reset_target, reset_told, with_reset_asked};
ghost use Rattle.host_core.specs.Resets.{target_told};
ghost use Rattle.host_core.specs.Driver.{CanEndReset, CanSubmit, CanTellReset, IsSame, reset_room};

use super::Host;
use host_tables::{HostLists, Identifiers, NumberMap, OpenCommand};
use mpi_doorbell::DoorHost;
use mpt_rules::{OutOfMemory, Request, Stage};
use mpt_trace::{AbortOutcome, Entry, HostState, Outcome, Smid, TargetOutcome};

// So much room is wanted for a turn and a step of a start, or for the end of a reset beside what it
// tells of submissions and aborts.
const RESET_ROOM: usize = 309;

impl Host {
    // Room for the end of a reset and the start that follows, or for a step of a start.
    pub(crate) fn make_reset_room(&mut self) -> Result<(), OutOfMemory>
        ensures ok { OnOk result (CanEndReset self.new) }
        ensures same { IsSame self.old self.new }
        ensures reserved { CanSubmit self.old → CanSubmit self.new }
    {
        self.make_number_room()?;
        self.make_abort_room()?;
        let count = self.reset_room().ok_or(OutOfMemory)?;
        self.make_room(count)
    }

    // A reset is asked: it begins at once, or where a read is outstanding as its value comes.
    pub(crate) fn ask_reset(&mut self, stage: Stage, door: DoorHost)
        requires expected { Expects door.stage None }
        requires room { 9 ≤ self.old.room }
        ensures host { self.new.host ≡ with_reset_asked self.old.host stage door }
        ensures told { self.new.told ≡ self.old.told }
        ensures room { self.old.room ≤ self.new.room + 9 }
        ensures numbers { self.new.has_number_room ≡ self.old.has_number_room }
        ensures aborts { self.new.has_abort_room ≡ self.old.has_abort_room }
    {
        let is_reading = self.reading;
        self.give_up(stage);
        if !is_reading {
            self.begin(stage, door);
        }
    }

    // The posts leave the outbox, nothing waits for an identifier any more, and the machine is given up.
    fn give_up(&mut self, stage: Stage)
        ensures host { self.new.host ≡ gives_up self.old.host stage }
        ensures told { self.new.told ≡ self.old.told }
        ensures room { self.new.room ≡ self.old.room }
        ensures numbers { self.new.has_number_room ≡ self.old.has_number_room }
        ensures aborts { self.new.has_abort_room ≡ self.old.has_abort_room }
    {
        self.lists.drop_posts();
        self.machine.clear();
        self.rings.clear_marks();
        self.mode = HostState::Resetting;
        self.stage = stage;
        self.asked = self.asked.wrapping_add(1);
        self.door_ready = false;
    }

    // The value came that was outstanding as the reset was asked, and the reset begins.
    pub(crate) fn begin_late(&mut self)
        requires { 9 ≤ self.old.room }
        ensures host { self.new.host ≡ begins_late self.old.host self.old.host.stage }
        ensures told { self.new.told ≡ self.old.told }
        ensures room { self.old.room ≤ self.new.room + 9 }
        ensures numbers { self.new.has_number_room ≡ self.old.has_number_room }
        ensures aborts { self.new.has_abort_room ≡ self.old.has_abort_room }
    {
        match self.stage {
            Stage::DiagnosticReset => self.begin(Stage::DiagnosticReset, DoorHost::diag()),
            Stage::UnitReset => self.begin(Stage::UnitReset, DoorHost::unit()),
            Stage::Idle
            | Stage::Start
            | Stage::StartReset
            | Stage::Facts
            | Stage::PortFacts
            | Stage::Init
            | Stage::Look => {}
        }
    }

    // The Doorbell has read READY.
    pub(crate) fn hear_ready(&mut self)
        requires { CanTellReset self.old }
        ensures host { self.new.host ≡ (hears_ready self.old.host).part }
        ensures told { self.new.told ≡ self.old.told ++ (hears_ready self.old.host).entries }
        ensures room { 2 ≤ self.new.room }
        ensures numbers { self.new.has_number_room ≡ true }
    {
        self.door_ready = true;
        self.end_reset_if_over();
    }

    // The mark of a queue was taken.
    pub(crate) fn hear_mark(&mut self, queue: u8)
        requires queue { queue < length self.old.host.indices }
        requires room { CanEndReset self.old }
        ensures host { self.new.host ≡ (hears_mark self.old.host queue).part }
        ensures told { self.new.told ≡ self.old.told ++ (hears_mark self.old.host queue).entries }
        ensures room { 2 ≤ self.new.room }
        ensures numbers { self.new.has_number_room ≡ true }
    {
        self.rings.mark(queue);
        self.end_reset_if_over();
    }

    // The reset is done once the Doorbell has read READY and all marks were taken.
    fn end_reset_if_over(&mut self)
        requires { CanTellReset self.old }
        ensures host { self.new.host ≡ (ends_reset_if_over self.old.host).part }
        ensures told { self.new.told ≡ self.old.told ++ (ends_reset_if_over self.old.host).entries }
        ensures room { 2 ≤ self.new.room }
        ensures numbers { self.new.has_number_room ≡ true }
    {
        if self.door_ready && self.rings.has_all_marks() {
            self.end_reset();
        }
    }

    // The reset is told as done, and the start goes on with IOC Facts.
    fn end_reset(&mut self)
        requires { CanTellReset self.old }
        ensures host { self.new.host ≡ (ends_reset self.old.host).part }
        ensures told { self.new.told ≡ self.old.told ++ (ends_reset self.old.host).entries }
        ensures room { 2 ≤ self.new.room }
        ensures numbers { self.new.has_number_room ≡ true }
    {
        self.tell_reset();
        self.renew();
        self.begin_facts();
    }

    // What was open is answered: the submissions and the aborts by rising number, the target resets by
    // rising identifier. The numbers of the first two are taken out.
    fn tell_reset(&mut self)
        requires { CanTellReset self.old }
        ensures others { self.new.host ≡ record self.old.host { cmds = self.new.host.cmds; aborts = self.new.host.aborts } }
        ensures told { self.new.told ≡ self.old.told ++ reset_told self.old.host }
        ensures room { 19 ≤ self.new.room }
        ensures numbers { self.new.has_number_room ≡ true }
    {
        tell_answers(&mut self.cmds, &mut self.lists);
        tell_aborts(&mut self.aborts, &mut self.lists);
        tell_targets(&self.pool, &mut self.lists);
        self.lists.push_told(Entry::ResetDone);
    }

    // All identifiers are free, all frames are the host's, and no disk has a handle.
    fn renew(&mut self)
        ensures host { self.new.host ≡ renewed self.old.host }
        ensures told { self.new.told ≡ self.old.told }
        ensures room { self.new.room ≡ self.old.room }
        ensures numbers { self.old.has_number_room ≡ true → self.new.has_number_room ≡ true }
    {
        self.mode = HostState::Starting;
        self.pool.clear();
        self.cmds.clear();
        self.aborts.clear();
        self.phases.clear();
        self.frames.hold_all();
        self.returning = true;
        self.door_ready = false;
    }

    // How much room a reset's end wants. None where that is more than memory has.
    fn reset_room(&self) -> Option<usize>
        requires numbers { self.now.has_number_room ≡ true }
        requires aborts { self.now.has_abort_room ≡ true }
        ensures { IfSome result (λ count. count ≡ reset_room self.now.host) }
    {
        let count = self.cmds.len().checked_add(self.aborts.len())?;
        count.checked_add(RESET_ROOM)
    }
}

// Each submission that is open is told as ended by the reset, by rising number.
fn tell_answers(cmds: &mut NumberMap<OpenCommand>, lists: &mut HostLists)
    requires numbers { cmds.old.has_room ≡ true }
    requires room { length (numbers.keys cmds.old.map) ≤ lists.old.room }
    ensures told { lists.new.told ≡ lists.old.told ++ map reset_answer (numbers.keys cmds.old.map) }
    ensures others { lists.new ≡ record lists.old { told = lists.new.told; room = lists.new.room } }
    ensures room { lists.old.room ≤ lists.new.room + length (numbers.keys cmds.old.map) }
    ensures numbers { cmds.new.has_room ≡ true }
{
    while let Some(n) = cmds.pop_first() {
        lists.push_told(Entry::Answer {
            n,
            outcome: Outcome::Reset,
        });
    }
}

// Each abort that is open is told as ended by the reset, by rising number.
fn tell_aborts(aborts: &mut NumberMap<Smid>, lists: &mut HostLists)
    requires numbers { aborts.old.has_room ≡ true }
    requires room { length (numbers.keys aborts.old.map) ≤ lists.old.room }
    ensures told { lists.new.told ≡ lists.old.told ++ map reset_abort (numbers.keys aborts.old.map) }
    ensures others { lists.new ≡ record lists.old { told = lists.new.told; room = lists.new.room } }
    ensures room { lists.old.room ≤ lists.new.room + length (numbers.keys aborts.old.map) }
{
    while let Some(n) = aborts.pop_first() {
        lists.push_told(Entry::AbortEnd {
            n,
            outcome: AbortOutcome::Reset,
        });
    }
}

// Each target reset that was asked from outside is told as ended by the reset, by rising identifier.
fn tell_targets(pool: &Identifiers, lists: &mut HostLists)
    requires { 280 ≤ lists.old.room }
    ensures told { lists.new.told ≡ lists.old.told ++ filter_map reset_target pool.now }
    ensures others { lists.new ≡ record lists.old { told = lists.new.told; room = lists.new.room } }
    ensures room { lists.old.room ≤ lists.new.room + 280 }
{
    for place in 0..pool.count() {
        tell_target(pool.get(place + 1), lists);
    }
}

// A target reset that was asked from outside is told as ended by the reset.
fn tell_target(request: Option<Request>, lists: &mut HostLists)
    requires { 1 ≤ lists.old.room }
    ensures told { lists.new.told ≡ lists.old.told ++ target_told request }
    ensures others { lists.new ≡ record lists.old { told = lists.new.told; room = lists.new.room } }
    ensures room { lists.old.room ≤ lists.new.room + 1 }
{
    if let Some(Request::TargetReset { address }) = request {
        lists.push_told(Entry::TargetEnd {
            address,
            outcome: TargetOutcome::Reset,
        });
    }
}
