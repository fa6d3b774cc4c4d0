//! Message layouts: rows of bytes with a rule each, read and written little-endian.
#![tactic(auto)]

mod fault;
mod layout;
mod row;
mod tail;
#[cfg(test)]
mod tests;

pub use fault::Fault;
pub use layout::{Layout, fits, read, write};
pub use row::{Form, Row, Rule};
pub use tail::{is_zero_from, padded};

/// A row that a listing shows as a number: `number!(offset, width, name, rule)`.
#[macro_export]
macro_rules! number {
    ($at:literal, $width:literal, $name:literal, $rule:expr) => {
        $crate::Row {
            name: $name,
            at: $at,
            width: $width,
            rule: $rule,
            form: $crate::Form::Number,
        }
    };
}

/// A row that a listing shows as its bytes: `bytes!(offset, width, name, rule)`.
#[macro_export]
macro_rules! bytes {
    ($at:literal, $width:literal, $name:literal, $rule:expr) => {
        $crate::Row {
            name: $name,
            at: $at,
            width: $width,
            rule: $rule,
            form: $crate::Form::Bytes,
        }
    };
}

/// The low bytes of a number, as a field of so many bytes: `low!(value, bytes)` with 1, 2, 3, 4 or
/// 8 bytes, a `u8`, a `u16`, a `u32`, a `u32` or a `u64`.
#[macro_export]
macro_rules! low {
    ($value:expr, 1) => {
        ($value % 0x100) as u8
    };
    ($value:expr, 2) => {
        ($value % 0x1_0000) as u16
    };
    ($value:expr, 3) => {
        ($value % 0x100_0000) as u32
    };
    ($value:expr, 4) => {
        ($value % 0x1_0000_0000) as u32
    };
    ($value:expr, 8) => {
        $value
    };
}

/// The rule that allows two, three or four numbers: `one_of!(0xd3, 0xd7)`.
#[macro_export]
macro_rules! one_of {
    ($a:literal, $b:literal) => {
        $crate::Rule::OneOf {
            values: [$a, $b, 0, 0],
            count: 2,
        }
    };
    ($a:literal, $b:literal, $c:literal) => {
        $crate::Rule::OneOf {
            values: [$a, $b, $c, 0],
            count: 3,
        }
    };
    ($a:literal, $b:literal, $c:literal, $d:literal) => {
        $crate::Rule::OneOf {
            values: [$a, $b, $c, $d],
            count: 4,
        }
    };
}
