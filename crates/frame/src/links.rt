// Links as long pointers, and as addresses.
ghost use Rattle.std.specs.Prelude.{◌≡◌, ℕ, ◌+◌, ◌*◌, ◌%◌, ◌<◌, ◌≤◌, false, unwrap_or, length, slice_index, slice_index_or, if◌then◌else◌};
ghost use Rattle.page.specs.Types.{types};
ghost use Rattle.page.specs.Walks.{link_cells};
ghost use Rattle.frame.specs.Links.{address, pointer, swizzled, unswizzled};

use crate::walk::link_cells;
use address::AddressTable;
use page::{ClosedCatalogue, Position};
use std::array;

// An address is this, 64 times the slot counted from 1, and the cell.
const BASE: u64 = 1048512;

// the last that a table has, as store's MOST_PAGES; frame does not stand on store
pub(crate) const LAST_PAGE: u64 = 1024;

const LAST_SLOT: u64 = 256;

// The same cell of another page or slot, which is 0 where there is none.
fn same_cell(number: u64, other: Option<u16>) -> u64
    ensures { result ≡ 64 * unwrap_or other 0 + number % 64 }
{
    64 * other.map_or(0, u64::from) + number % 64
}

// The number of a cell, as an address if the cell is a link.
fn to_address(table: &AddressTable, link: bool, number: u64) -> u64
    ensures { result ≡ (if link then address table.now.slot_of number else number) }
{
    if !link || number == 0 {
        return number;
    }
    let page = Position::from(number).page;
    // `u16::try_from` makes this twice as slow
    let slot = if page <= LAST_PAGE {
        table.slot(page as u16)
    } else {
        None
    };
    BASE + same_cell(number, slot)
}

// The number of a cell, as a long pointer if the cell is a link.
pub fn to_pointer(table: &AddressTable, link: bool, number: u64) -> u64
    ensures { result ≡ (if link then pointer table.now.page_of number else number) }
{
    if !link || number == 0 {
        return number;
    }
    let slot = number.saturating_sub(BASE) / 64;
    // as in to_address
    let page = if slot <= LAST_SLOT {
        table.page(slot as u16)
    } else {
        None
    };
    same_cell(number, page)
}

// The page whose cells f gives, each of whether it is a link and its number.
fn by_links<F: Fn(bool, u64) -> u64>(
    cells: &[u64; 64],
    catalogue: &ClosedCatalogue,
    f: F,
) -> [u64; 64]
    requires { F.IsAlwaysCallable f }
    ensures long { length result ≡ 64 }
    ensures each { (k : ℕ) → k < 64 → F.post f (slice_index_or (link_cells (types catalogue.now) cells.now) k false) (slice_index cells.now k) (slice_index result k) }
{
    let links = link_cells(cells, catalogue);
    array::from_fn(|i| f(links[i], cells[i]))
}

// The page in a frame, of the page in the store.
pub fn swizzle(cells: &[u64; 64], table: &AddressTable, catalogue: &ClosedCatalogue) -> [u64; 64]
    ensures { result ≡ swizzled (types catalogue.now) table.now.slot_of cells.now }
{
    by_links(cells, catalogue, |link, number| {
        to_address(table, link, number)
    })
}

// The page in the store, of the page in a frame.
pub fn unswizzle(cells: &[u64; 64], table: &AddressTable, catalogue: &ClosedCatalogue) -> [u64; 64]
    ensures { result ≡ unswizzled (types catalogue.now) table.now.page_of cells.now }
{
    by_links(cells, catalogue, |link, number| {
        to_pointer(table, link, number)
    })
}
