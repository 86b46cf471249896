// A page as bytes and as cells.
ghost use Rattle.std.specs.Prelude.{◌≡◌, ℕ, ◌<◌, slice_index};
ghost use Rattle.page.specs.Cells.{cell_at, put_at};
ghost use Rattle.page.specs.Walks.{cells_of, page_of};

use page::{cell, put_cell};
use std::array;

// The number in cell `i`.
fn number_at(bytes: &[u8; 512], i: usize) -> u64
    requires { i < 64 }
    ensures { result ≡ cell_at bytes.now i }
{
    cell(bytes, i as u64).unwrap_or(0)
}

// Puts the number into cell `i`.
fn put_number(bytes: &mut [u8; 512], i: usize, number: u64)
    requires { i < 64 }
    ensures { bytes.new ≡ put_at bytes.old i number }
{
    put_cell(bytes, i as u64, number);
}

// The cells of a page.
pub fn cells_of(bytes: &[u8; 512]) -> [u64; 64]
    ensures value { result ≡ cells_of bytes.now }
    ensures bytes { (j : ℕ) → slice_index bytes.now j < 256 }
{
    array::from_fn(|i| number_at(bytes, i))
}

// The bytes of a page of these cells.
pub fn bytes_of(cells: &[u64; 64]) -> [u8; 512]
    ensures { result ≡ page_of cells.now }
{
    // by its number: after `chunks_mut` a proof knows no byte
    let mut bytes = [0; 512];
    for (i, number) in cells.iter().enumerate() {
        put_number(&mut bytes, i, *number);
    }
    bytes
}
