//! The controller's registers, which the host reads and writes.
ghost use Rattle.std.specs.Prelude.{◌≡◌, ◌≤◌, ◌++◌};
ghost use Rattle.mpi_doorbell.specs.DoorRegisters.{register_written};
ghost use Rattle.mpi_doorbell.specs.Handshake.{WaitsIfAsked};
ghost use Rattle.mpi_doorbell.specs.Sizes.{IsAskedWithin};
ghost use Rattle.mpt_rules.specs.Ioc.Registers.{after_effect, after_read, writes};

use crate::ioc::Ioc;
use mpi_doorbell::Effect;
use mpt_rules::Said;

impl Ioc {
    /// A register is read, which is answered on queue 0.
    pub(crate) fn read(&mut self, reg: u16)
        requires { 1 ≤ self.old.room }
        ensures part { self.new.part ≡ after_read self.old.part reg }
        ensures told { self.new.told ≡ self.old.told }
    {
        let value = self.door.read(reg);
        self.say_on(0, Said::Value(value));
    }

    /// A register is written.
    pub(crate) fn write(&mut self, reg: u16, value: u32)
        requires { 2 ≤ self.old.room }
        ensures part { self.new.part ≡ (writes self.old.part reg value).part }
        ensures told { self.new.told ≡ self.old.told ++ (writes self.old.part reg value).entries }
    {
        let effect = self.write_register(reg, value);
        self.do_effect(effect);
    }

    // A register is written. Gives what that asks of the controller.
    fn write_register(&mut self, reg: u16, value: u32) -> Effect
        ensures part { self.new.part ≡ record self.old.part { door = (register_written self.old.part.door reg value).registers } }
        ensures effect { result ≡ (register_written self.old.part.door reg value).effect }
        ensures size { IsAskedWithin result }
        ensures waits { WaitsIfAsked result self.new.part.door.handshake }
        ensures told { self.new.told ≡ self.old.told }
        ensures room { self.new.room ≡ self.old.room }
    {
        self.door.write(reg, value)
    }

    // What a write asks of the controller is done.
    fn do_effect(&mut self, effect: Effect)
        requires room { 2 ≤ self.old.room }
        requires size { IsAskedWithin effect }
        requires waits { WaitsIfAsked effect self.old.part.door.handshake }
        ensures part { self.new.part ≡ (after_effect self.old.part effect).part }
        ensures told { self.new.told ≡ self.old.told ++ (after_effect self.old.part effect).entries }
    {
        match effect {
            Effect::None => {}
            Effect::Asked { length, bytes } => self.handshake(&bytes[..usize::from(length)]),
            Effect::UnitReset | Effect::AdapterReset => self.reset(),
            Effect::Fault(code) => self.fault(code),
        }
    }
}
