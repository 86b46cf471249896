// The pages that a page links to.
ghost use Rattle.std.specs.Prelude.{◌≡◌, ℕ, ◌&&◌, ◌||◌};
ghost use Rattle.page.specs.Types.{types};
ghost use Rattle.page.specs.Walks.{leads, links_to};
ghost use Rattle.pageset.specs.Sets.{holds};
ghost use Rattle.frame.specs.Links.{unswizzled, is_page};

use crate::links::{LAST_PAGE, to_pointer};
use crate::walk::link_cells;
use address::AddressTable;
use page::{ClosedCatalogue, Position};
use pageset::PageSet;

// Puts the page that the number of a cell leads to into the set, if the cell is a link.
fn add_target(pages: &mut PageSet, link: bool, number: u64)
    ensures { (n : ℕ) → holds pages.new.words n ≡ (holds pages.old.words n || ((link && leads n number) && is_page n)) }
{
    let page = Position::from(number).page;
    // as in to_address
    if link && page <= LAST_PAGE {
        pages.add(page as u16);
    }
}

// The pages that a page of long pointers links to.
pub fn linked_pages(cells: &[u64; 64], catalogue: &ClosedCatalogue) -> PageSet
    ensures { (n : ℕ) → holds result.words n ≡ (links_to (types catalogue.now) cells.now n && is_page n) }
{
    let links = link_cells(cells, catalogue);
    let mut pages = PageSet::new();
    for (link, number) in links.iter().zip(cells) {
        add_target(&mut pages, *link, *number);
    }
    pages
}

// The pages that a page of addresses links to: those that the slots belong to.
pub fn framed_pages(cells: &[u64; 64], table: &AddressTable, catalogue: &ClosedCatalogue) -> PageSet
    ensures { (n : ℕ) → holds result.words n ≡ (links_to (types catalogue.now) (unswizzled (types catalogue.now) table.now.page_of cells.now) n && is_page n) }
{
    // one walk: as `linked_pages` of the page in the store, this would look for the links of the page twice
    let links = link_cells(cells, catalogue);
    let mut pages = PageSet::new();
    for (link, number) in links.iter().zip(cells) {
        add_target(&mut pages, *link, to_pointer(table, *link, *number));
    }
    pages
}
