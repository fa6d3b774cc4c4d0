//! The host's turns at the doorbell.
ghost use Rattle.std.specs.Prelude.{◌≡◌, ◌≤◌, ◌+◌, ◌-◌, ◌++◌, Some, None, IfSome};
ghost use Rattle.std.specs.List.{list_any};
ghost use Rattle.mpi_doorbell.specs.HostSteps.{Expects, ExpectsAfter};
ghost use Rattle.mpi_doorbell.specs.Sizes.{IsDoneWithin};
ghost use Rattle.mpt_rules.specs.Host.Doorbell.{is_reset_item as is_beginning, turn_from, next_turn, unit_reset_dword};
ghost use Rattle.host_tables.specs.Machine.{Awaits};

use crate::lists::HostLists;
use mpi_doorbell::registers::{
    DIAG_RESET_ADAPTER, DOORBELL, DOORBELL_FUNCTION_SHIFT, FUNCTION_MESSAGE_UNIT_RESET,
    HOST_DIAGNOSTIC,
};
use mpi_doorbell::{DoorHost, DoorStep};
use mpt_trace::Down;

// The most writes between two values.
const MOST_WRITES: u8 = 8;

/// What a machine did in a turn: the step that is no write, and whether one of the writes before it
/// begins a reset.
#[derive(Clone, Copy)]
pub struct DoorTurn {
    /// The last step.
    pub step: DoorStep,
    /// Whether a write begins a reset.
    pub begins_reset: bool,
}

/// The machine's turn with the value that it waits for, or at its beginning. Its writes, at most 8,
/// go into what is put on the lane down.
pub fn take_turn(door: &mut DoorHost, value: Option<u32>, lists: &mut HostLists) -> DoorTurn
    requires expected { Expects door.old.stage value }
    requires room { 8 ≤ lists.old.room }
    ensures door { door.new ≡ (next_turn door.old value).door }
    ensures step { result.step ≡ (next_turn door.old value).step }
    ensures begins { result.begins_reset ≡ list_any is_beginning (next_turn door.old value).writes }
    ensures down { lists.new.down ≡ lists.old.down ++ (next_turn door.old value).writes }
    ensures others { lists.new ≡ record lists.old { down = lists.new.down; room = lists.new.room } }
    ensures room_left { lists.old.room ≤ lists.new.room + 8 }
    ensures awaits { ExpectsAfter door.new.stage result.step }
    ensures size { IsDoneWithin result.step }
{
    let first = door.next(value);
    go_on(MOST_WRITES, door, first, lists)
}

// So many writes more at most, beginning with this step.
fn go_on(more: u8, door: &mut DoorHost, step: DoorStep, lists: &mut HostLists) -> DoorTurn
    requires expected { ExpectsAfter door.old.stage step }
    requires small { IsDoneWithin step }
    requires room { more ≤ lists.old.room }
    ensures door { door.new ≡ (turn_from more door.old step).door }
    ensures step { result.step ≡ (turn_from more door.old step).step }
    ensures begins { result.begins_reset ≡ list_any is_beginning (turn_from more door.old step).writes }
    ensures down { lists.new.down ≡ lists.old.down ++ (turn_from more door.old step).writes }
    ensures others { lists.new ≡ record lists.old { down = lists.new.down; room = lists.new.room } }
    ensures room_left { lists.old.room ≤ lists.new.room + more }
    ensures awaits { ExpectsAfter door.new.stage result.step }
    ensures size { IsDoneWithin result.step }
{
    let DoorStep::Write { reg, value } = step else {
        return DoorTurn {
            step,
            begins_reset: false,
        };
    };
    if more == 0 {
        return DoorTurn {
            step,
            begins_reset: false,
        };
    }
    lists.push_down(Down::Write { reg, value });
    let next = door.next(None);
    let rest = go_on(more - 1, door, next, lists);
    DoorTurn {
        step: rest.step,
        begins_reset: begins_reset(reg, value) || rest.begins_reset,
    }
}

/// The last step of the machine's turn with this value, which is no write or the ninth one.
pub fn last_step(mut door: DoorHost, value: u32) -> DoorStep
    requires { Expects door.stage (Some value) }
    ensures step { result ≡ (next_turn door (Some value)).step }
    ensures size { IsDoneWithin result }
{
    let first = door.next(Some(value));
    step_after(MOST_WRITES, &mut door, first)
}

// The last step where so many writes more are made at most, beginning with this step.
fn step_after(more: u8, door: &mut DoorHost, step: DoorStep) -> DoorStep
    requires expected { ExpectsAfter door.old.stage step }
    requires small { IsDoneWithin step }
    ensures step { result ≡ (turn_from more door.old step).step }
    ensures size { IsDoneWithin result }
{
    let DoorStep::Write { .. } = step else {
        return step;
    };
    if more == 0 {
        return step;
    }
    let next = door.next(None);
    step_after(more - 1, door, next)
}

// Whether a write begins a reset.
fn begins_reset(reg: u16, value: u32) -> bool
    ensures { result ≡ is_beginning (Down.Write reg value) }
{
    (reg == HOST_DIAGNOSTIC && value & DIAG_RESET_ADAPTER != 0)
        || (reg == DOORBELL
            && value == u32::from(FUNCTION_MESSAGE_UNIT_RESET) << DOORBELL_FUNCTION_SHIFT)
}
