//! The forms of a line, with the ranges of their numbers.
ghost use Rattle.std.specs.Prelude.{◌≡◌, ◌∷◌};
ghost use Rattle.mpt_lines.specs.Words.{read_by};
ghost use Rattle.mpt_lines.specs.Statements as spec;

use crate::command::command;
use crate::fault::Cause;
use crate::numbers::{address, number, within};
use crate::pieces::{Pieces, text_of};
use mpt_trace::{Address, Choice, DiskSpec, Input, Tag};

/// What a line says, by itself. Numbers that name what earlier lines declared aren't judged yet.
#[derive(Drop)]
pub enum Statement {
    /// How many reply post queues there are.
    Queues(u8),
    /// A disk.
    Disk(DiskSpec),
    /// An expander.
    Expander {
        /// Its number.
        number: u128,
        /// How many phys it has.
        phys: u8,
    },
    /// A disk is plugged.
    Plug {
        /// The disk's SAS address.
        address: Address,
        /// The expander's number.
        expander: u128,
        /// The phy of the expander.
        phy: u128,
    },
    /// A disk is unplugged.
    Unplug {
        /// The disk's SAS address.
        address: Address,
    },
    /// An input to the host.
    Host(Input),
    /// A choice, and how many times.
    Choice {
        /// The choice.
        choice: Choice,
        /// How many times.
        count: u8,
    },
    /// Rounds until the system is quiet.
    Drain,
}

/// What a line of a plan says, by itself.
#[derive(Drop)]
pub enum PlanStatement {
    /// A line that a schedule could have too.
    Line(Statement),
    /// The block of the submitter of this number begins.
    Submitter(u128),
    /// The block of the fabric begins.
    Fabric,
}

/// What a line of a schedule says.
pub fn schedule_line(mut words: Pieces) -> Result<Statement, Cause>
    ensures { result ≡ spec.schedule_line words.entry }
{
    let Some(word) = words.take() else {
        return Err(Cause::Form);
    };
    match text_of(word) {
        "start" => start(words),
        "unit" => unit(words),
        "drain" => drain(words),
        "host-put" => counted(Choice::HostPut, words),
        "host-take" => counted(Choice::HostTake, words),
        "host-take-on" => host_take_on(words),
        "ioc-take" => counted(Choice::IocTake, words),
        "ioc-high" => counted(Choice::IocHigh, words),
        "ioc-normal" => counted(Choice::IocNormal, words),
        "ioc-out" => counted(Choice::IocOut, words),
        "ioc-back" => counted(Choice::IocBack, words),
        "ioc-put" => counted(Choice::IocPut, words),
        "ioc-put-on" => ioc_put_on(words),
        "fabric-take" => counted(Choice::FabricTake, words),
        "fabric-run" => fabric_run(words),
        "fabric-say" => counted(Choice::FabricSay, words),
        "fabric-put" => counted(Choice::FabricPut, words),
        _ => shared_line(word, words),
    }
}

// A line that schedules and plans have.
fn shared_line(word: &[u8], words: Pieces) -> Result<Statement, Cause>
    ensures { result ≡ read_by spec.shared_words (word.now ∷ words.entry) }
{
    match text_of(word) {
        "queues" => queues(words),
        "disk" => disk(words),
        "expander" => expander(words),
        "plug" => plug(words),
        "unplug" => unplug(words),
        "reset" => reset(words),
        "treset" => treset(words),
        "submit" => submit(words),
        "abort" => abort(words),
        _ => Err(Cause::Form),
    }
}

fn queues(words: Pieces) -> Result<Statement, Cause>
    ensures { result ≡ spec.queues words.entry }
{
    let queues = number(words.one()?)?;
    Ok(Statement::Queues(within(1, 8, queues)? as u8))
}

fn disk(words: Pieces) -> Result<Statement, Cause>
    ensures { result ≡ spec.disk words.entry }
{
    let (address_word, blocks) = words.two()?;
    let address = address(address_word)?;
    let blocks = number(blocks)?;
    Ok(Statement::Disk(DiskSpec {
        address,
        blocks: within(1, 1024, blocks)? as u16,
    }))
}

fn expander(words: Pieces) -> Result<Statement, Cause>
    ensures { result ≡ spec.expander words.entry }
{
    let (expander, phys) = words.two()?;
    let expander = number(expander)?;
    let phys = number(phys)?;
    Ok(Statement::Expander {
        number: expander,
        phys: within(1, 22, phys)? as u8,
    })
}

fn plug(words: Pieces) -> Result<Statement, Cause>
    ensures { result ≡ spec.plug words.entry }
{
    let (disk, expander, phy) = words.three()?;
    Ok(Statement::Plug {
        address: address(disk)?,
        expander: number(expander)?,
        phy: number(phy)?,
    })
}

fn unplug(words: Pieces) -> Result<Statement, Cause>
    ensures { result ≡ spec.unplug words.entry }
{
    Ok(Statement::Unplug {
        address: address(words.one()?)?,
    })
}

fn start(words: Pieces) -> Result<Statement, Cause>
    ensures { result ≡ spec.start words.entry }
{
    words.none()?;
    Ok(Statement::Host(Input::Start))
}

fn reset(words: Pieces) -> Result<Statement, Cause>
    ensures { result ≡ spec.reset words.entry }
{
    words.none()?;
    Ok(Statement::Host(Input::Reset))
}

fn unit(words: Pieces) -> Result<Statement, Cause>
    ensures { result ≡ spec.unit words.entry }
{
    words.none()?;
    Ok(Statement::Host(Input::UnitReset))
}

fn treset(words: Pieces) -> Result<Statement, Cause>
    ensures { result ≡ spec.treset words.entry }
{
    Ok(Statement::Host(Input::TargetReset {
        address: address(words.one()?)?,
    }))
}

fn submit(mut words: Pieces) -> Result<Statement, Cause>
    ensures { result ≡ spec.submit words.entry }
{
    let Some(first) = words.take() else {
        return Err(Cause::Form);
    };
    let Some(disk) = words.take() else {
        return Err(Cause::Form);
    };
    let n = number(first)?;
    let address = address(disk)?;
    let form = command(words)?;
    Ok(Statement::Host(Input::Submit {
        n: within(0, u32::MAX as u64, n)? as u32,
        address,
        form,
    }))
}

fn abort(words: Pieces) -> Result<Statement, Cause>
    ensures { result ≡ spec.abort words.entry }
{
    let n = number(words.one()?)?;
    Ok(Statement::Host(Input::Abort {
        n: within(0, u32::MAX as u64, n)? as u32,
    }))
}

fn drain(words: Pieces) -> Result<Statement, Cause>
    ensures { result ≡ spec.drain words.entry }
{
    words.none()?;
    Ok(Statement::Drain)
}

fn fabric_run(words: Pieces) -> Result<Statement, Cause>
    ensures { result ≡ spec.fabric_run words.entry }
{
    let tag = number(words.one()?)?;
    Ok(Statement::Choice {
        choice: Choice::FabricRun(within(0, Tag::MAX as u64, tag)? as Tag),
        count: 1,
    })
}

// An optional count: 1 where no word is left.
fn optional_count(mut words: Pieces) -> Result<u128, Cause>
    ensures { result ≡ spec.optional_count words.entry }
{
    let Some(word) = words.take() else {
        return Ok(1);
    };
    words.none()?;
    number(word)
}

fn counted(choice: Choice, words: Pieces) -> Result<Statement, Cause>
    ensures { result ≡ spec.counted choice words.entry }
{
    let count = optional_count(words)?;
    Ok(Statement::Choice {
        choice,
        count: within(1, 64, count)? as u8,
    })
}

// A queue above the first, and an optional count.
fn on_queue(mut words: Pieces) -> Result<(u8, u8), Cause>
    ensures { result ≡ spec.on_queue words.entry }
{
    let Some(word) = words.take() else {
        return Err(Cause::Form);
    };
    let queue = number(word)?;
    let count = optional_count(words)?;
    let queue = within(1, 7, queue)? as u8;
    Ok((queue, within(1, 64, count)? as u8))
}

fn ioc_put_on(words: Pieces) -> Result<Statement, Cause>
    ensures { result ≡ spec.ioc_put_on words.entry }
{
    let (queue, count) = on_queue(words)?;
    Ok(Statement::Choice {
        choice: Choice::IocPutOn(queue),
        count,
    })
}

fn host_take_on(words: Pieces) -> Result<Statement, Cause>
    ensures { result ≡ spec.host_take_on words.entry }
{
    let (queue, count) = on_queue(words)?;
    Ok(Statement::Choice {
        choice: Choice::HostTakeOn(queue),
        count,
    })
}

/// What a line of a plan says.
pub fn plan_line(mut words: Pieces) -> Result<PlanStatement, Cause>
    ensures { result ≡ spec.plan_line words.entry }
{
    let Some(word) = words.take() else {
        return Err(Cause::Form);
    };
    match text_of(word) {
        "submitter" => submitter(words),
        "fabric" => fabric(words),
        _ => Ok(PlanStatement::Line(shared_line(word, words)?)),
    }
}

fn submitter(words: Pieces) -> Result<PlanStatement, Cause>
    ensures { result ≡ spec.submitter words.entry }
{
    Ok(PlanStatement::Submitter(number(words.one()?)?))
}

fn fabric(words: Pieces) -> Result<PlanStatement, Cause>
    ensures { result ≡ spec.fabric words.entry }
{
    words.none()?;
    Ok(PlanStatement::Fabric)
}
