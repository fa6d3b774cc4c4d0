//! Schedules that numbers name.
ghost use Rattle.std.specs.Prelude.{◌≡◌, ◌<◌, ◌≤◌, ◌++◌, [], IfOk, OnOk};
ghost use Rattle.mpt_script.specs.Generator as spec;

use crate::line::Line;
use crate::schedule::Schedule;
use mpt_text::OutOfMemory;
use mpt_trace::{Address, CommandForm, DiskSpec, Input};
use std::alloc::Global;

/// The number of turns.
const TURNS: u32 = 1000;

/// The places of the disks, and of their phys.
const PLACES: [u8; 8] = [0, 1, 2, 3, 4, 5, 6, 7];

/// The blocks of each disk.
const BLOCKS: u16 = 64;

/// The most resets.
const RESETS: u32 = 8;

/// The states of the linear congruential generator are below this.
const MODULUS: u64 = 1 << 31;

/// The state of the generator between two turns.
#[derive(Clone, Copy)]
struct Generator {
    // The state of the linear congruential generator.
    state: u64,
    // Which disks the lines so far leave plugged.
    plugged: [bool; 8],
    // How many resets the lines so far have.
    resets: u32,
}

impl Generator {
    fn new(number: u64) -> Generator
        ensures { result ≡ spec.started number }
    {
        Generator {
            state: number % MODULUS,
            plugged: [true; 8],
            resets: 0,
        }
    }

    // What the first draw chooses, of 16 kinds.
    fn kind(&self) -> u64
        requires { self.now.state < 2147483648 }
        ensures { result ≡ spec.kind self.now }
    {
        draw_of(next_state(self.state)) % 16
    }

    // The place of the disk that the second draw chooses.
    fn place(&self) -> u8
        requires { self.now.state < 2147483648 }
        ensures value { result ≡ spec.place self.now }
        ensures small { result < 8 }
    {
        (draw_of(next_state(next_state(self.state))) % 8) as u8
    }

    // The block that the third draw chooses.
    fn block(&self) -> u32
        requires { self.now.state < 2147483648 }
        ensures { result ≡ spec.block self.now }
    {
        (draw_of(next_state(next_state(next_state(self.state)))) % 64) as u32
    }

    // The line of a turn.
    fn line(&self, turn: u32) -> Line
        requires { self.now.state < 2147483648 }
        ensures { result ≡ spec.turn_line turn self.now }
    {
        let place = self.place();
        let address = disk_address(place);
        match self.kind() {
            0..=5 => Line::Input(Input::Submit {
                n: turn,
                address,
                form: CommandForm::Write {
                    lba: self.block(),
                    blocks: 1,
                    fill: (turn % 256) as u8,
                },
            }),
            6..=10 => Line::Input(Input::Submit {
                n: turn,
                address,
                form: CommandForm::Read {
                    lba: self.block(),
                    blocks: 1,
                },
            }),
            11 => Line::Input(Input::Abort {
                n: turn.saturating_sub(1),
            }),
            12 => Line::Input(Input::TargetReset { address }),
            13 => match self.plugged[place as usize] {
                true => Line::Input(Input::Unplug { address }),
                false => plug_line(place),
            },
            15 if self.resets < RESETS => Line::Input(Input::Reset),
            _ => Line::Drain,
        }
    }

    // Goes on to the next turn.
    fn advance(&mut self)
        requires small { self.old.state < 2147483648 }
        requires few { self.old.resets ≤ 8 }
        ensures turned { self.new ≡ spec.turned self.old }
        ensures small { self.new.state < 2147483648 }
        ensures few { self.new.resets ≤ 8 }
    {
        let place = self.place() as usize;
        let kind = self.kind();
        if kind == 13 {
            self.plugged[place] = !self.plugged[place];
        }
        if kind == 15 && self.resets < RESETS {
            self.resets += 1;
        }
        self.state = next_state(next_state(next_state(self.state)));
    }
}

// The linear congruential generator's next state.
fn next_state(state: u64) -> u64
    requires { state < 2147483648 }
    ensures value { result ≡ spec.next_state state }
    ensures small { result < 2147483648 }
{
    (1_103_515_245 * state + 12_345) % MODULUS
}

// The draw of a state.
fn draw_of(state: u64) -> u64
    ensures { result ≡ spec.draw_of state }
{
    state / 65_536
}

// The address of the disk at a place, from 0.
fn disk_address(place: u8) -> Address
    ensures { result ≡ spec.disk_address place }
{
    0x5000_c500_0000_0001 + u64::from(place)
}

fn disk_line(place: u8) -> Line
    ensures { result ≡ spec.disk_line place }
{
    Line::Disk(DiskSpec {
        address: disk_address(place),
        blocks: BLOCKS,
    })
}

// Each disk is plugged at the phy of its place.
fn plug_line(place: u8) -> Line
    ensures { result ≡ spec.plug_line place }
{
    Line::Input(Input::Plug {
        address: disk_address(place),
        expander: 0,
        phy: place,
    })
}

/// The schedule that a number names, for tests of long runs: eight disks at one expander, and 1,000
/// lines that a linear congruential generator draws.
pub fn generate(alloc: Global, number: u64) -> Result<Schedule, OutOfMemory>
    ensures { IfOk result (λ schedule. schedule ≡ spec.generated number) }
{
    let mut lines = Vec::new(alloc);
    push_head(&mut lines)?;
    let mut generator = Generator::new(number);
    for turn in 1..TURNS + 1 {
        push_turn(&mut lines, turn, &generator)?;
        generator.advance();
    }
    lines.push(Line::Drain)?;
    Ok(Schedule::from_lines(lines))
}

// The disks, the expander, the plugs, the start and a drain.
fn push_head(lines: &mut Vec<Line>) -> Result<(), OutOfMemory>
    requires { lines.old.items ≡ [] }
    ensures { OnOk result (lines.new.items ≡ spec.head) }
{
    for place in PLACES {
        lines.push(disk_line(place))?;
    }
    lines.push(Line::Expander { phys: 8 })?;
    for place in PLACES {
        lines.push(plug_line(place))?;
    }
    lines.push(Line::Input(Input::Start))?;
    lines.push(Line::Drain)?;
    Ok(())
}

// The lines of a turn. After each turn that is a multiple of 64 the system is drained.
fn push_turn(lines: &mut Vec<Line>, turn: u32, generator: &Generator) -> Result<(), OutOfMemory>
    requires { generator.now.state < 2147483648 }
    ensures { OnOk result (lines.new.items ≡ lines.old.items ++ spec.turn_lines turn generator.now) }
{
    lines.push(generator.line(turn))?;
    if turn % 64 == 0 {
        lines.push(Line::Drain)?;
    }
    Ok(())
}
