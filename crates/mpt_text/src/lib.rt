//! Text: numbers and bytes as the listings and traces show them, and bytes read from digits.
#![tactic(auto)]

mod hexadecimal;
#[cfg(test)]
mod tests;
mod text;

pub use hexadecimal::{HexFault, parse_hex};
pub use text::{OutOfMemory, Text};
