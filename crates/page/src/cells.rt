// Cells of eight bytes, lowest byte first.
ghost use Rattle.std.specs.Prelude.{◌≡◌, ◌+◌, ◌*◌, ◌≤◌, length};
ghost use Rattle.page.specs.Cells.{cell_at, cell_in, has_cell, put_at, put_cell};

pub(crate) fn cell_at(bytes: &[u8], i: u64) -> u64
    requires { 8 * i + 8 ≤ length bytes.now }
    ensures { result ≡ cell_at bytes.now i }
{
    let (cells, _) = bytes.as_chunks();
    u64::from_le_bytes(cells[i as usize])
}

// The number in cell `i`, if the bytes have all of it.
pub fn cell(bytes: &[u8], i: u64) -> Option<u64>
    ensures { result ≡ cell_in bytes.now i }
{
    let (cells, _) = bytes.as_chunks();
    let cell = cells.get(i as usize)?;
    Some(u64::from_le_bytes(*cell))
}

fn put_at(bytes: &mut [u8], i: u64, number: u64)
    requires { 8 * i + 8 ≤ length bytes.old }
    ensures { bytes.new ≡ put_at bytes.old i number }
{
    let a = 8 * i as usize;
    bytes[a..a + 8].copy_from_slice(&number.to_le_bytes());
}

// Puts the number into cell `i` and answers true, if the bytes have all of it.
pub fn put_cell(bytes: &mut [u8], i: u64, number: u64) -> bool
    ensures value { result ≡ has_cell bytes.old i }
    ensures after { bytes.new ≡ put_cell bytes.old i number }
{
    if bytes.len() as u64 / 8 <= i {
        return false;
    }
    put_at(bytes, i, number);
    true
}
