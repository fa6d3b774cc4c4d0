//! What the controller takes from the host.
ghost use Rattle.std.specs.Prelude.{◌≡◌, ◌≤◌, ◌++◌, true, IfErr, IsOk, OnErr, OnOk};
ghost use Rattle.mpi_doorbell.specs.DoorRegisters.{is_fault};
ghost use Rattle.mpt_rules.specs.Ioc.Parts.{state_of};
ghost use Rattle.mpt_rules.specs.Ioc.Takes.{takes_down, takes_stop};
ghost use Rattle.ioc_core.specs.Takes.{is_sure};

use crate::ioc::Ioc;
use mpi_doorbell::IocState;
use mpt_rules::{NoRoom, Post};
use mpt_trace::{Down, Out};

impl Ioc {
    /// Takes an item of the lane down. Where memory is wanting the item is handed back, and nothing changes. Taking a
    /// post or a returned frame takes no memory and always answers Ok.
    pub fn take_down(&mut self, item: Down) -> Result<(), NoRoom<Down>>
        ensures part { OnOk result (self.new.part ≡ (takes_down self.old.part item).part) }
        ensures told { OnOk result (self.new.told ≡ self.old.told ++ (takes_down self.old.part item).entries) }
        ensures stays { OnErr result (self.new.part ≡ self.old.part) }
        ensures silent { OnErr result (self.new.told ≡ self.old.told) }
        ensures returned { IfErr result (λ e. e.item ≡ item) }
        ensures sure { is_sure item ≡ true → IsOk result }
    {
        match item {
            Down::Post {
                descriptor,
                frame,
                payload,
            } => self.take_post(Post {
                descriptor,
                frame,
                payload,
            }),
            Down::Return { address, .. } => self.take_return(address),
            Down::Write { reg, value } => {
                if self.make_room(2).is_err() {
                    return Err(NoRoom {
                        item: Down::Write { reg, value },
                    });
                }
                self.write(reg, value);
            }
            Down::Read { reg } => {
                if self.make_room(1).is_err() {
                    return Err(NoRoom {
                        item: Down::Read { reg },
                    });
                }
                self.read(reg);
            }
            Down::Stop => {
                if self.make_room(1).is_err() {
                    return Err(NoRoom { item: Down::Stop });
                }
                self.take_stop();
            }
        }
        Ok(())
    }

    // The host's last word is passed on to the fabric, but not in FAULT.
    fn take_stop(&mut self)
        requires { 1 ≤ self.old.room }
        ensures part { self.new.part ≡ takes_stop self.old.part }
        ensures told { self.new.told ≡ self.old.told }
    {
        if !self.is_fault() {
            self.send_out(Out::Stop);
        }
    }

    /// Whether the controller has stopped.
    pub(crate) fn is_fault(&self) -> bool
        ensures { result ≡ is_fault (state_of self.now.part) }
    {
        matches!(self.state(), IocState::Fault(_))
    }
}
