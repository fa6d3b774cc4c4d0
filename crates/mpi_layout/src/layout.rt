//! Layouts, and the reading and writing of the numbers in their rows.
ghost use Rattle.std.specs.Prelude.{◌≡◌, ◌≤◌, ℕ, IsTrue, IfOk, MatchOption, map, drop, length, length as count};
ghost use Rattle.std.specs.List.{list_all, zip};
ghost use Rattle.mpi_layout.specs.Rows.{IsTiled, Stands, fields, first_fault, row_shape, tiles, value_fits, values_fit};

use crate::{Fault, Row};
use std::marker::Model;

/// The layout of a message or a part of one: N rows by rising offset, each byte below its length in
/// exactly one of them. A contract sees the table of its rows and its length.
#[derive(Drop)]
pub struct Layout<const N: usize> {
    rows: &'static [Row],
    len: u8,
}

impl<const N: usize> Model for Layout<N> {
    ghost use Rattle.std.specs.Prelude.{◌≡◌, map, length};
    ghost use Rattle.mpi_layout.specs.Rows.{IsTiled, Shape, row_shape};

    ghost Value = { Shape };

    ghost view = { λ l. record { rows = map row_shape l.rows.now; length = l.len } };

    ghost invariant = { λ l. (length l.rows.now ≡ N)
        × IsTiled (record { rows = map row_shape l.rows.now; length = l.len }) };
}

impl<const N: usize> Layout<N> {
    /// The layout of these N rows and this length in bytes. The rows rise by offset, have widths
    /// from 1 to 8, and cover each byte below the length exactly once.
    pub fn new(rows: &'static [Row], length: u8) -> Layout<N>
        requires whole { count rows.now ≡ N }
        requires tiled { IsTiled (record { rows = map row_shape rows.now; length = length }) }
        ensures { result ≡ record { rows = map row_shape rows.now; length = length } }
    {
        Layout { rows, len: length }
    }

    /// The rows, by rising offset.
    pub fn rows(&self) -> &'static [Row]
        ensures same { map row_shape result.now ≡ self.now.rows }
        ensures whole { count result.now ≡ N }
        ensures tiled { IsTiled self.now }
    {
        self.rows
    }

    /// The length in bytes.
    pub fn length(&self) -> u8
        ensures { result ≡ self.now.length }
    {
        self.len
    }
}

/// The numbers of the rows in the bytes, or the first fault: `Short` exactly where there are fewer
/// bytes than the layout's length; else `Field` with the least offset whose row breaks its rule.
/// What is read fits, and so may be written again.
pub fn read<const N: usize>(layout: &Layout<N>, bytes: &[u8]) -> Result<[u64; N], Fault>
    requires { N ≤ 64 }
    ensures exact { MatchOption (first_fault layout.now bytes.now)
        (result ≡ Ok (fields layout.now.rows bytes.now)) (λ fault. result ≡ Err fault) }
    ensures fitting { IfOk result (λ values. IsTrue (values_fit layout.now.rows values)) }
{
    read_rows(layout.rows, layout.len as usize, bytes)
}

// The same for rows that are tiled up to `need`.
fn read_rows<const N: usize>(rows: &[Row], need: usize, bytes: &[u8]) -> Result<[u64; N], Fault>
    requires profile { N ≤ 64 }
    requires whole { length rows.now ≡ N }
    requires tiled { IsTrue (tiles 0 need (map row_shape rows.now)) }
    ensures exact { MatchOption (first_fault (record { rows = map row_shape rows.now; length = need }) bytes.now)
        (result ≡ Ok (fields (map row_shape rows.now) bytes.now)) (λ fault. result ≡ Err fault) }
    ensures fitting { IfOk result (λ values. IsTrue (values_fit (map row_shape rows.now) values)) }
{
    if bytes.len() < need {
        return Err(Fault::Short {
            need,
            have: bytes.len(),
        });
    }
    let mut values = [0; N];
    for i in 0..N {
        let row = &rows[i];
        let value = row.number_in(bytes);
        if !row.rule.allows(value) {
            return Err(Fault::Field { at: row.at });
        }
        values[i] = value;
    }
    Ok(values)
}

/// Whether each value fits its row's width and rule.
pub fn fits<const N: usize>(layout: &Layout<N>, values: &[u64; N]) -> bool
    requires { N ≤ 64 }
    ensures { result ≡ values_fit layout.now.rows values.now }
{
    rows_fit(layout.rows, values)
}

// The same for the rows themselves.
fn rows_fit(rows: &[Row], values: &[u64]) -> bool
    ensures { result ≡ list_all (λ (p : Row × ℕ). value_fits (row_shape p.0) p.1) (zip rows.now values.now) }
{
    rows.iter()
        .zip(values.iter())
        .all(|(row, value)| row.holds(*value))
}

/// Writes the values into the layout's bytes, from which they are read back. The bytes past the
/// layout's length stay.
pub fn write<const N: usize>(layout: &Layout<N>, values: &[u64; N], out: &mut [u8])
    requires profile { N ≤ 64 }
    requires fitting { IsTrue (values_fit layout.now.rows values.now) }
    requires room { layout.now.length ≤ length out.old }
    ensures stands { Stands layout.now values.now out.new }
    ensures rest { drop layout.now.length out.new ≡ drop layout.now.length out.old }
{
    for i in 0..N {
        layout.rows[i].put(values[i], out);
    }
}
