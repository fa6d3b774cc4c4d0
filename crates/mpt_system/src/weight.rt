//! How much there is to do until a world is quiet.
ghost use Rattle.std.specs.Prelude.{◌≡◌, ◌≤◌, ◌^◌, ◌+◌, sum_by};
ghost use Rattle.mpt_rules.specs.World.Weight.{disks_to_find, down_items, is_read, things_to_do, up_items, weight, weight_of_state};
ghost use Rattle.mpt_system.specs.Parties.{world_of};
ghost use Rattle.mpt_system.specs.Weight.{lane_items};

use crate::parties::Parties;
use crate::system::System;
use mpt_trace::{Down, HostState};
use std::collections::VecDeque;

impl System {
    /// The weight of the world: 100 for each thing that there is to do, and what its start or reset
    /// weighs. It bounds the rounds of `drain`. It goes over the outboxes, lanes and tables.
    pub fn weight(&self) -> u128
        ensures { result ≡ weight self.now.world }
    {
        let things = self.parties.things_to_do();
        100 * things + weight_of_state(self.parties.host.state())
    }
}

impl Parties {
    // How many things there are to do.
    fn things_to_do(&self) -> u128
        ensures value { result ≡ things_to_do (world_of self.now) }
        ensures small { result ≤ 2 ^ 80 }
    {
        self.host.things_to_do()
            + self.ioc.things_to_do()
            + self.fabric.things_to_do()
            + self.lane_items()
            + self.disks_to_find()
    }

    // How many items are on the lanes, reads and values not counted.
    fn lane_items(&self) -> u128
        ensures value { result ≡ lane_items (world_of self.now) }
        ensures small { result ≤ 2 ^ 70 }
    {
        down_count(&self.down) as u128
            + self.up.item_count()
            + self.out.len() as u128
            + self.back.len() as u128
    }

    // How many disks a start or a reset finds anew.
    fn disks_to_find(&self) -> u128
        ensures value { result ≡ disks_to_find self.now.host.host.mode self.now.fabric }
        ensures small { result ≤ 2 ^ 64 }
    {
        match self.host.state() {
            HostState::Off | HostState::Up => 0,
            HostState::Starting | HostState::Resetting => self.fabric.plugged_disks() as u128,
        }
    }
}

// What a start or a reset weighs.
fn weight_of_state(state: HostState) -> u128
    ensures { result ≡ weight_of_state state }
{
    match state {
        HostState::Off | HostState::Up => 0,
        HostState::Starting => 2000,
        HostState::Resetting => 8000,
    }
}

// How many items are on the lane down, reads not counted.
fn down_count(down: &VecDeque<Down>) -> usize
    ensures { result ≡ down_items down.now.items }
{
    down.iter().filter(|item| !is_read(item)).count()
}

// Whether an item reads a register.
fn is_read(item: &Down) -> bool
    ensures { result ≡ is_read item.now }
{
    matches!(item, Down::Read { .. })
}
