//! What the head of a schedule declares.
ghost use Rattle.std.specs.Prelude.{◌≡◌, IfOk, slice_index_or};
ghost use Rattle.std.specs.List.{filter_map};
ghost use Rattle.law_replays.specs.Schedules.{disk_in, phys_in, queues_in, setting_of};
ghost use Rattle.mpt_rules.specs.World.Settings.{IsSetting};
ghost use Rattle.mpt_replay.specs.Carrying.{first_whole};

use mpt_script::Line;
use mpt_system::{System, SystemFault};
use mpt_text::OutOfMemory;
use mpt_trace::DiskSpec;
use std::alloc::Global;
use std::marker::Model;

/// What a system is made of: its disks, how many phys each expander has, and the number of reply
/// queues. A contract sees it as the setting of the rules.
#[derive(Drop)]
pub struct Head {
    disks: Vec<DiskSpec>,
    phys: Vec<u8>,
    queues: u8,
}

impl Model for Head {
    ghost use Rattle.mpt_rules.specs.World.Settings.{Setting};

    ghost Value = { Setting };

    ghost view = { λ h. record { disks = h.disks.items; phys = h.phys.items; queues = h.queues } };
}

impl Head {
    /// What these lines declare, with one reply queue where none says how many; or OutOfMemory.
    pub fn of(alloc: Global, lines: &[Line]) -> Result<Head, OutOfMemory>
        ensures { IfOk result (λ head. head ≡ setting_of lines.now) }
    {
        let disks = disks_of(alloc, lines)?;
        let phys = phys_of(alloc, lines)?;
        Ok(Head {
            disks,
            phys,
            queues: queues_of(lines),
        })
    }

    /// The disks, as they were declared.
    pub fn disks(&self) -> &[DiskSpec]
        ensures { result.now ≡ self.now.disks }
    {
        &self.disks
    }

    /// A system of this, in which nothing has happened; or OutOfMemory. What is declared is within the
    /// limits.
    pub fn system(&self, alloc: Global) -> Result<System, OutOfMemory>
        requires { IsSetting self.now }
        ensures { IfOk result (λ system. system ≡ first_whole self.now) }
    {
        match System::with_queues(alloc, &self.disks, &self.phys, self.queues) {
            Ok(system) => Ok(system),
            Err(fault) => match fault {
                SystemFault::OutOfMemory => Err(OutOfMemory),
                // What is within the limits isn't refused.
                _ => unreachable!(),
            },
        }
    }
}

fn disks_of(alloc: Global, lines: &[Line]) -> Result<Vec<DiskSpec>, OutOfMemory>
    ensures { IfOk result (λ disks. disks.items ≡ filter_map disk_in lines.now) }
{
    lines.iter().filter_map(|line| disk_in(line)).collect(alloc)
}

fn disk_in(line: &Line) -> Option<DiskSpec>
    ensures { result ≡ disk_in line.now }
{
    match line {
        Line::Disk(disk) => Some(*disk),
        _ => None,
    }
}

fn phys_of(alloc: Global, lines: &[Line]) -> Result<Vec<u8>, OutOfMemory>
    ensures { IfOk result (λ phys. phys.items ≡ filter_map phys_in lines.now) }
{
    lines.iter().filter_map(|line| phys_in(line)).collect(alloc)
}

fn phys_in(line: &Line) -> Option<u8>
    ensures { result ≡ phys_in line.now }
{
    match line {
        Line::Expander { phys } => Some(*phys),
        _ => None,
    }
}

fn queues_of(lines: &[Line]) -> u8
    ensures { result ≡ slice_index_or (filter_map queues_in lines.now) 0 1 }
{
    for line in lines {
        if let Some(queues) = queues_in(line) {
            return queues;
        }
    }
    1
}

fn queues_in(line: &Line) -> Option<u8>
    ensures { result ≡ queues_in line.now }
{
    match line {
        Line::Queues(queues) => Some(*queues),
        _ => None,
    }
}
