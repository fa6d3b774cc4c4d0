//! Why a text isn't a schedule, a plan or hexadecimal.
ghost use Rattle.std.specs.Prelude.{◌≡◌};
ghost use Rattle.mpt_lines.specs.Causes.{cause_word};

use mpt_text::OutOfMemory;

/// Why a line is refused, in the order in which the causes are looked for.
#[derive(Clone, Copy, Debug, PartialEq, Eq)]
pub enum Cause {
    /// The last line has no line end (LF).
    Unended,
    /// The line has none of the forms of the grammar, the ranges of its numbers aside.
    Form,
    /// A number is outside its range.
    Range,
    /// The line stands at a wrong place.
    Order,
    /// An address or a number stands there twice.
    Again,
    /// A limit is passed.
    Many,
    /// A disk, an expander, a phy or a queue wasn't declared.
    Name,
    /// The text isn't an even number of hexadecimal digits.
    Hex,
}

impl Cause {
    /// The word that is printed for the cause.
    pub fn word(self) -> &'static [u8]
        ensures { result.now ≡ cause_word self }
    {
        match self {
            Cause::Unended => b"unended",
            Cause::Form => b"form",
            Cause::Range => b"range",
            Cause::Order => b"order",
            Cause::Again => b"again",
            Cause::Many => b"many",
            Cause::Name => b"name",
            Cause::Hex => b"hex",
        }
    }
}

/// Why a text isn't read.
#[derive(Clone, Copy, Debug, PartialEq, Eq)]
pub enum ScriptFault {
    /// A line is refused.
    At {
        /// The line's number, from 1. It stands still at 2^32 - 1.
        line: u32,
        /// The first cause that holds.
        cause: Cause,
    },
    /// There was no memory left.
    OutOfMemory,
}

impl From<OutOfMemory> for ScriptFault {
    ghost use Rattle.std.specs.Prelude.{◌≡◌};
    ghost use Rattle.mpt_lines.specs.declared.fault.ScriptFault.TheVariants as fault;

    ghost from_gives = { λ _ e. e ≡ fault.OutOfMemory };

    fn from(_error: OutOfMemory) -> ScriptFault {
        ScriptFault::OutOfMemory
    }
}
