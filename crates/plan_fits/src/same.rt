//! Whether two values are equal, of types that have no equality of their own.
ghost use Rattle.std.specs.Prelude.{◌≡◌, ◌↔◌, true};

use mpt_trace::{CommandForm, Input, Outcome, Refusal};
use scsi_disk::ScsiResult;

/// Whether the two inputs are equal.
pub(crate) fn same_input(a: &Input, b: &Input) -> bool
    ensures { (result ≡ true) ↔ (a.now ≡ b.now) }
{
    match a {
        Input::Start => matches!(b, Input::Start),
        Input::Submit { n, address, form } => match b {
            Input::Submit {
                n: m,
                address: other,
                form: theirs,
            } => *n == *m && *address == *other && same_form(form, theirs),
            _ => false,
        },
        Input::Abort { n } => match b {
            Input::Abort { n: m } => *n == *m,
            _ => false,
        },
        Input::TargetReset { address } => match b {
            Input::TargetReset { address: other } => *address == *other,
            _ => false,
        },
        Input::Reset => matches!(b, Input::Reset),
        Input::UnitReset => matches!(b, Input::UnitReset),
        Input::Plug {
            address,
            expander,
            phy,
        } => match b {
            Input::Plug {
                address: other,
                expander: box_number,
                phy: port,
            } => *address == *other && *expander == *box_number && *phy == *port,
            _ => false,
        },
        Input::Unplug { address } => match b {
            Input::Unplug { address: other } => *address == *other,
            _ => false,
        },
    }
}

// Whether the two commands are equal.
fn same_form(a: &CommandForm, b: &CommandForm) -> bool
    ensures { (result ≡ true) ↔ (a.now ≡ b.now) }
{
    match a {
        CommandForm::Tur => matches!(b, CommandForm::Tur),
        CommandForm::Inquiry { len } => match b {
            CommandForm::Inquiry { len: other } => *len == *other,
            _ => false,
        },
        CommandForm::Capacity => matches!(b, CommandForm::Capacity),
        CommandForm::Read { lba, blocks } => match b {
            CommandForm::Read {
                lba: at,
                blocks: count,
            } => *lba == *at && *blocks == *count,
            _ => false,
        },
        CommandForm::Write { lba, blocks, fill } => match b {
            CommandForm::Write {
                lba: at,
                blocks: count,
                fill: byte,
            } => *lba == *at && *blocks == *count && *fill == *byte,
            _ => false,
        },
        CommandForm::Read16 { lba, blocks } => match b {
            CommandForm::Read16 {
                lba: at,
                blocks: count,
            } => *lba == *at && *blocks == *count,
            _ => false,
        },
        CommandForm::Write16 { lba, blocks, fill } => match b {
            CommandForm::Write16 {
                lba: at,
                blocks: count,
                fill: byte,
            } => *lba == *at && *blocks == *count && *fill == *byte,
            _ => false,
        },
        CommandForm::Raw { cdb, len } => match b {
            CommandForm::Raw {
                cdb: theirs,
                len: other,
            } => cdb.as_slice() == theirs.as_slice() && *len == *other,
            _ => false,
        },
    }
}

/// Whether the two ends of a submission are equal.
pub(crate) fn same_outcome(a: &Outcome, b: &Outcome) -> bool
    ensures { (result ≡ true) ↔ (a.now ≡ b.now) }
{
    match a {
        Outcome::Done(answer) => match b {
            Outcome::Done(other) => same_result(answer, other),
            _ => false,
        },
        Outcome::Gone => matches!(b, Outcome::Gone),
        Outcome::Terminated => matches!(b, Outcome::Terminated),
        Outcome::Reset => matches!(b, Outcome::Reset),
    }
}

// Whether the two answers of a disk are equal.
fn same_result(a: &ScsiResult, b: &ScsiResult) -> bool
    ensures { (result ≡ true) ↔ (a.now ≡ b.now) }
{
    a.status == b.status
        && a.payload.as_slice() == b.payload.as_slice()
        && a.sense.as_slice() == b.sense.as_slice()
}

/// Whether the two causes are equal.
pub(crate) fn same_refusal(a: Refusal, b: Refusal) -> bool
    ensures { (result ≡ true) ↔ (a ≡ b) }
{
    match a {
        Refusal::NumberUsed => matches!(b, Refusal::NumberUsed),
        Refusal::NotOperational => matches!(b, Refusal::NotOperational),
        Refusal::NoDevice => matches!(b, Refusal::NoDevice),
        Refusal::BadLength => matches!(b, Refusal::BadLength),
        Refusal::NoIdentifier => matches!(b, Refusal::NoIdentifier),
        Refusal::NotOpen => matches!(b, Refusal::NotOpen),
        Refusal::AbortOpen => matches!(b, Refusal::AbortOpen),
        Refusal::AlreadyStarted => matches!(b, Refusal::AlreadyStarted),
        Refusal::NotStarted => matches!(b, Refusal::NotStarted),
        Refusal::AlreadyResetting => matches!(b, Refusal::AlreadyResetting),
        Refusal::Occupied => matches!(b, Refusal::Occupied),
        Refusal::AlreadyPlugged => matches!(b, Refusal::AlreadyPlugged),
        Refusal::PlugsSpent => matches!(b, Refusal::PlugsSpent),
        Refusal::NotPlugged => matches!(b, Refusal::NotPlugged),
    }
}
