//! A text that grows at its end.
ghost use Rattle.std.specs.Prelude.{◌≡◌, ◌==◌, ◌≤◌, ◌++◌, [], length, decimal, OnOk, OnErr};
ghost use Rattle.std.specs.List.{list_all};
ghost use Rattle.hex.specs.Hex.{encode_lower};
ghost use Rattle.mpt_text.specs.Words.{bytes_text, hex_number, is_run, run_text};

use itoa::Buffer;
use std::alloc::Global;
use std::marker::Model;

/// There was no memory left.
pub use std::alloc::AllocError as OutOfMemory;

/// A printed text. A contract sees it as the list of its bytes, all of them ASCII where only the
/// calls below wrote them and every piece that was pushed is.
#[derive(Drop)]
pub struct Text {
    bytes: Vec<u8>,
}

impl Model for Text {
    ghost use Rattle.std.specs.Prelude.{List, ℕ};

    ghost Value = { List ℕ };

    ghost view = { λ t. t.bytes.items };
}

impl Text {
    /// An empty text.
    pub fn new(alloc: Global) -> Text
        ensures { result ≡ [] }
    {
        Text {
            bytes: Vec::new(alloc),
        }
    }

    /// Its bytes.
    pub fn as_bytes(&self) -> &[u8]
        ensures { result.now ≡ self.now }
    {
        &self.bytes
    }

    /// Adds a piece. Where memory is wanting the text stays.
    pub fn push(&mut self, piece: &[u8]) -> Result<(), OutOfMemory>
        ensures ok { OnOk result (self.new ≡ self.old ++ piece.now) }
        ensures err { OnErr result (self.new ≡ self.old) }
    {
        self.bytes.extend_from_slice(piece)
    }

    /// Adds a number in decimal, without leading zeros.
    pub fn push_decimal(&mut self, number: u64) -> Result<(), OutOfMemory>
        ensures ok { OnOk result (self.new ≡ self.old ++ decimal number) }
        ensures err { OnErr result (self.new ≡ self.old) }
    {
        let mut buffer = Buffer::new();
        self.push(buffer.format(number).as_bytes())
    }

    /// Adds two lower-case hexadecimal digits for each byte.
    pub fn push_digits(&mut self, bytes: &[u8]) -> Result<(), OutOfMemory>
        ensures ok { OnOk result (self.new ≡ self.old ++ encode_lower bytes.now) }
        ensures err { OnErr result (self.new ≡ self.old) }
    {
        let digits = hex::encode(*self.bytes.allocator(), bytes)?;
        self.push(digits.as_bytes())
    }

    /// Adds the lowest bytes of a number, so many, from 1 to 8, in hexadecimal: two digits for each
    /// byte, the highest first.
    pub fn push_hex(&mut self, number: u64, width: u8) -> Result<(), OutOfMemory>
        requires { width ≤ 8 }
        ensures ok { OnOk result (self.new ≡ self.old ++ hex_number width number) }
        ensures err { OnErr result (self.new ≡ self.old) }
    {
        let bytes = number.to_be_bytes();
        self.push_digits(&bytes[8 - width as usize..])
    }

    /// Adds the bytes text: `-` for none; for at least 16 equal bytes their decimal count, `*` and
    /// the byte's two digits; else two digits for each byte. Where memory is wanting the text may have
    /// a part of it.
    pub fn push_bytes(&mut self, bytes: &[u8]) -> Result<(), OutOfMemory>
        ensures ok { OnOk result (self.new ≡ self.old ++ bytes_text bytes.now) }
    {
        let Some((first, others)) = bytes.split_first() else {
            return self.push(b"-");
        };
        if is_run(*first, others) {
            self.push_run(bytes.len() as u64, *first)
        } else {
            self.push_digits(bytes)
        }
    }

    fn push_run(&mut self, count: u64, byte: u8) -> Result<(), OutOfMemory>
        ensures ok { OnOk result (self.new ≡ self.old ++ run_text count byte) }
    {
        self.push_decimal(count)?;
        self.push(b"*")?;
        self.push_digits(&[byte])
    }
}

// Whether there are at least 16 bytes, all equal to the first.
fn is_run(first: u8, others: &[u8]) -> bool
    ensures { result ≡ is_run first others.now }
{
    others.len() >= 15 && all_are(first, others)
}

fn all_are(first: u8, others: &[u8]) -> bool
    ensures { result ≡ list_all (λ byte. byte == first) others.now }
{
    others.iter().all(|byte| *byte == first)
}
