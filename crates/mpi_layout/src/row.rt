//! One row of a layout.
ghost use Rattle.std.specs.Prelude.{◌≡◌, ◌==◌, ◌≤◌, ◌+◌, ◌^◌, ◌<◌, nat_lt, take, drop, length};
ghost use Rattle.std.specs.List.{list_any};
ghost use Rattle.mpi_layout.specs.Rows.{obeys, number_in, row_shape, value_fits};

use byteorder::{ByteOrder, LittleEndian};

/// What the number in a row has to be.
#[derive(Clone, Copy, Debug, PartialEq, Eq)]
pub enum Rule {
    /// Any number.
    Any,
    /// 0, as in the reserved bytes of a request.
    Zero,
    /// This number alone.
    Is(u64),
    /// One of the first `count` of `values`.
    OneOf { values: [u64; 4], count: u8 },
    /// From the first number to the second, both allowed.
    Between(u64, u64),
    /// No bit outside this mask.
    Mask(u64),
}

impl Rule {
    /// Whether the rule allows the number.
    pub fn allows(&self, value: u64) -> bool
        ensures { result ≡ obeys self.now value }
    {
        match *self {
            Rule::Any => true,
            Rule::Zero => value == 0,
            Rule::Is(only) => value == only,
            Rule::OneOf { values, count } => is_among(values, count, value),
            Rule::Between(least, most) => least <= value && value <= most,
            Rule::Mask(mask) => value & mask == value,
        }
    }
}

// Whether the value is one of the first `count`.
fn is_among(values: [u64; 4], count: u8, value: u64) -> bool
    ensures { result ≡ list_any (λ allowed. allowed == value) (take count values) }
{
    values
        .iter()
        .take(count as usize)
        .any(|allowed| *allowed == value)
}

/// How a listing shows a row.
#[derive(Clone, Copy, Debug, PartialEq, Eq)]
pub enum Form {
    /// As one number, `0x` and two hexadecimal digits for each byte of its width.
    Number,
    /// As the bytes in their order.
    Bytes,
}

/// One row of a layout: the bytes from offset `at`, `width` of them, little-endian.
#[derive(Clone, Copy, Debug)]
pub struct Row {
    /// The field's name in the headers.
    pub name: &'static str,
    /// Its offset in bytes.
    pub at: u8,
    /// Its width in bytes, from 1 to 8.
    pub width: u8,
    /// What its number has to be.
    pub rule: Rule,
    /// How a listing shows it.
    pub form: Form,
}

// Whether the value fits so many bytes.
fn fits_width(value: u64, width: u8) -> bool
    ensures { result ≡ nat_lt value (256 ^ width) }
{
    width >= 8 || value >> (8 * width) == 0
}

impl Row {
    /// The row's number in the bytes.
    #[tactic(auto, using(crate::proofs::Fields::field_reads))]
    pub(crate) fn number_in(&self, bytes: &[u8]) -> u64
        requires narrow { (1 ≤ self.now.width) × (self.now.width ≤ 8) }
        requires within { self.now.at + self.now.width ≤ length bytes.now }
        ensures number { result ≡ number_in bytes.now (row_shape self.now) }
    {
        LittleEndian::read_uint(&bytes[self.at as usize..], self.width as usize)
    }

    /// Whether the value fits the row's width and its rule allows it.
    pub(crate) fn holds(&self, value: u64) -> bool
        ensures { result ≡ value_fits (row_shape self.now) value }
    {
        fits_width(value, self.width) && self.rule.allows(value)
    }

    /// Writes the value into the row's bytes. The others stay.
    pub(crate) fn put(&self, value: u64, out: &mut [u8])
        requires narrow { (1 ≤ self.now.width) × (self.now.width ≤ 8) }
        requires within { self.now.at + self.now.width ≤ length out.old }
        requires small { value < 256 ^ self.now.width }
        ensures number { number_in out.new (row_shape self.now) ≡ value }
        ensures front { take self.now.at out.new ≡ take self.now.at out.old }
        ensures back { drop (self.now.at + self.now.width) out.new
            ≡ drop (self.now.at + self.now.width) out.old }
    {
        LittleEndian::write_uint(&mut out[self.at as usize..], value, self.width as usize);
    }
}
